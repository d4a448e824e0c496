// The fences.
ghost use Rattle.std.specs.Prelude.{◌≡◌, ◌≤◌, length};
ghost use Rattle.paper.specs.Lists.{less};
ghost use Rattle.paper.specs.Page.{suffix_of, header_of};
ghost use Rattle.search.specs.Fence.{LongLies, inside_by};

use node::{header, key};
use paper::page::Slot;

// Whether a suffix is below that of a slot, a fence's or an entry's: none is below an empty one.
#[tactic(auto, using(crate::proofs::Fences::empty_fence))]
pub fn below_fence(p: &[u8], s: Slot, suffix: &[u8]) -> bool
    requires { LongLies (length p.now) s }
    ensures { result ≡ less suffix.now (suffix_of p.now s) }
{
    if s.len == 0 {
        return false;
    }
    let four = key::head_bytes(s.head);
    key::below(suffix, key::suffix(p, s, &four))
}

// Whether a probe's suffix lies inside the fences of a page: the lower one included, the upper one excluded; an upper slot of
// length 0 bounds nothing. The two fences are read where they stand.
#[tactic(auto, using(crate::proofs::Fences::insides))]
pub fn inside(p: &[u8], suffix: &[u8]) -> bool
    requires { (40 ≤ length p.now) × LongLies (length p.now) (header_of p.now).lower × LongLies (length p.now) (header_of p.now).upper }
    ensures { result ≡ inside_by p.now (header_of p.now) suffix.now }
{
    if below_fence(p, header::read_slot(p, 16), suffix) {
        return false;
    }
    let upper = header::read_slot(p, 32);
    if upper.len == 0 {
        return true;
    }
    below_fence(p, upper, suffix)
}
