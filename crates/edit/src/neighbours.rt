// The neighbours of a slot.
ghost use Rattle.std.specs.Prelude.{◌≡◌, ◌+◌, ◌*◌, ◌≤◌, ◌<◌, length};
ghost use Rattle.paper.specs.Lists.{less};
ghost use Rattle.paper.specs.Page.{suffix_of};
ghost use Rattle.search.specs.Fence.{LongLies};
ghost use Rattle.edit.specs.Changed.{Lying, above_previous, below_next, between_by};

use node::{header, key};
use paper::page::Slot;
use search::fence;

// Whether the suffix of a slot is below another suffix.
fn slot_below(p: &[u8], s: Slot, suffix: &[u8]) -> bool
    requires { LongLies (length p.now) s }
    ensures { result ≡ less (suffix_of p.now s) suffix.now }
{
    key::below(key::suffix(p, s, &key::head_bytes(s.head)), suffix)
}

// Whether a suffix is above that of the slot before slot `i`, if there is one.
#[tactic(auto, using(crate::proofs::Neighbouring::by_neighbours))]
fn above_previous(p: &[u8], i: usize, suffix: &[u8]) -> bool
    requires { (96 + 8 * i ≤ length p.now) × Lying p.now i }
    ensures { result ≡ above_previous p.now i suffix.now }
{
    if i == 0 {
        return true;
    }
    slot_below(p, header::read_slot(p, 96 + 8 * (i - 1)), suffix)
}

// Whether a suffix is below that of the slot after slot `i`, if there is one.
#[tactic(auto, using(crate::proofs::Neighbouring::by_neighbours))]
fn below_next(p: &[u8], count: u16, i: usize, suffix: &[u8]) -> bool
    requires { (i < count) × (96 + 8 * count ≤ length p.now) × Lying p.now count }
    ensures { result ≡ below_next p.now count i suffix.now }
{
    if (count as usize) <= i + 1 {
        return true;
    }
    fence::below_fence(p, header::read_slot(p, 96 + 8 * (i + 1)), suffix)
}

// Whether a suffix stands strictly between those of the slots before and after slot `i`.
#[tactic(auto, using(crate::proofs::Neighbouring::by_neighbours))]
pub(crate) fn between(p: &[u8], count: u16, i: usize, suffix: &[u8]) -> bool
    requires { (i < count) × (96 + 8 * count ≤ length p.now) × Lying p.now count }
    ensures { result ≡ between_by p.now count i suffix.now }
{
    if !above_previous(p, i, suffix) {
        return false;
    }
    below_next(p, count, i, suffix)
}
