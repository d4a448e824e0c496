// Where a source key, cut anew and in two pieces, stands to slots and fences. No key is put together;
// `search::fence` asks the same of one slice.
ghost use Rattle.std.specs.Prelude.{◌≡◌, length};
ghost use Rattle.keys.specs.Keys.{order};
ghost use Rattle.paper.specs.Lists.{less};
ghost use Rattle.paper.specs.Page.{suffix_of};
ghost use Rattle.search.specs.Fence.{LongLies, inside_by};

use node::key;
use paper::page::{Header, Slot};
use std::cmp::Ordering;
use write::suffix::Suffix;

// How it stands to the suffix of a slot.
fn order_slot(cut: &Suffix<'_>, p: &[u8], s: Slot) -> Ordering
    requires { LongLies (length p.now) s }
    ensures { result ≡ order cut.now (suffix_of p.now s) }
{
    cut.order(key::suffix(p, s, &key::head_bytes(s.head)))
}

// Whether it is below the suffix of a slot.
#[tactic(auto, unfolding(paper::specs::Lists::less))]
fn below(cut: &Suffix<'_>, p: &[u8], s: Slot) -> bool
    requires { LongLies (length p.now) s }
    ensures { result ≡ less cut.now (suffix_of p.now s) }
{
    order_slot(cut, p, s).is_lt()
}

// Whether it is above the suffix of a slot.
pub(crate) fn above(cut: &Suffix<'_>, p: &[u8], s: Slot) -> bool
    requires { LongLies (length p.now) s }
    ensures { result ≡ less (suffix_of p.now s) cut.now }
{
    order_slot(cut, p, s).is_gt()
}

// Whether it lies inside the fences of a page with this header.
pub(crate) fn inside(cut: &Suffix<'_>, p: &[u8], h: Header) -> bool
    requires { LongLies (length p.now) h.lower × LongLies (length p.now) h.upper }
    ensures { result ≡ inside_by p.now h cut.now }
{
    if below(cut, p, h.lower) {
        return false;
    }
    h.upper.len == 0 || below(cut, p, h.upper)
}
