// A slot against a probe.
ghost use Rattle.std.specs.Prelude.{◌≡◌, ◌+◌, ◌<◌, ◌≤◌, length};
ghost use Rattle.octets.specs.Bytes.{part};
ghost use Rattle.keys.specs.Keys.{head_of};
ghost use Rattle.paper.specs.Page.{body_bytes, header_of};
ghost use Rattle.paper.specs.Searches.{slot_meets};
ghost use Rattle.search.specs.Slot.{rank_of, met_at, met_alone};

use crate::page::Slots;
use keys::{head, order, shared};
use node::{header, slots};
use paper::page::Slot;
use paper::refusal::Refusal;
use std::cmp::Ordering;

// A probe's suffix and its head.
#[derive(Clone, Copy)]
pub struct Sought<'k> {
    pub suffix: &'k [u8],
    pub head: u32,
    ghost first: { head ≡ head_of suffix.now },
}

impl<'k> Sought<'k> {
    // A suffix with the head that it has.
    pub fn new(suffix: &'k [u8]) -> Sought<'k>
        ensures { result.suffix ≡ suffix.entry }
    {
        Sought {
            suffix,
            head: head::head_int(suffix),
        }
    }
}

// What heads and lengths say of a slot and a probe's suffix: the order, or nothing where the suffix bytes decide.
// By heads; if equal and either suffix is within 4 bytes, by lengths.
#[tactic(auto, using(crate::proofs::Meets::ranks))]
fn rank(s: Slot, sought: Sought<'_>) -> Option<Ordering>
    ensures { result ≡ rank_of s sought.entry.head (length sought.entry.suffix.now) }
{
    if s.head < sought.head {
        return Some(Ordering::Less);
    }
    if sought.head < s.head {
        return Some(Ordering::Greater);
    }
    let n = s.len as usize;
    let len = sought.suffix.len();
    if (n <= 4) | (len <= 4) {
        return Some(order::by_number(n as u64, len as u64));
    }
    None
}

// The suffix of a slot whose suffix is long, read where it stands: `node::key::suffix` would ask for a head's bytes and test the length again.
#[tactic(auto, unfolding(octets::specs::Bytes::part))]
fn long_suffix(p: &[u8], s: Slot) -> &[u8]
    requires { 96 + s.offset + s.len ≤ length p.now }
    ensures { result.now ≡ part s.len p.now (96 + s.offset) }
{
    let start = 96 + (s.offset as usize);
    &p[start..start + (s.len as usize)]
}

// How a slot meets a probe's suffix, for halving alone: with one caller all of it melts into the loop, the comparison of bytes too.
#[tactic(auto, using(crate::proofs::Meets::meeting))]
fn meets(p: &[u8], s: Slot, sought: Sought<'_>) -> Ordering
    requires { 96 + s.offset + body_bytes 4 s.len ≤ length p.now }
    ensures { result ≡ slot_meets p.now s sought.entry.suffix.now }
{
    let Some(o) = rank(s, sought) else {
        return order::compare(long_suffix(p, s), sought.suffix);
    };
    o
}

// Slot `i` against a probe's suffix, for halving alone; 14 where its payload lies outside end..16,256.
#[tactic(auto, using(crate::proofs::Meets::meeting_at))]
pub(crate) fn meet_at(slots: Slots<'_>, i: usize, sought: Sought<'_>) -> Result<Ordering, Refusal>
    requires { i < (header_of slots.page.now).count }
    ensures { result ≡ met_at slots.entry.width slots.entry.page.now (header_of slots.entry.page.now).end sought.entry.suffix.now i }
{
    let s = header::read_slot(slots.page, 96 + 8 * i);
    if !slots::payload_within(s, slots.end(), slots.width) {
        return Err(Refusal::Payload);
    }
    Ok(meets(slots.page, s, sought))
}

// How a slot meets a probe's suffix, for calls that look at one slot: the comparison of bytes stands apart from these, which are short. One
// function for both was tried: find took up to a third more instructions, or compare a quarter.
#[tactic(auto, using(crate::proofs::Meets::meeting))]
fn meets_alone(p: &[u8], s: Slot, sought: Sought<'_>) -> Ordering
    requires { 96 + s.offset + body_bytes 4 s.len ≤ length p.now }
    ensures { result ≡ slot_meets p.now s sought.entry.suffix.now }
{
    let Some(o) = rank(s, sought) else {
        return shared::order_by_shared(long_suffix(p, s), sought.suffix);
    };
    o
}

// Slot `i` against a probe's suffix, for calls that look at one slot; 10 and 14 as for every slot visited.
#[tactic(auto, using(crate::proofs::Meets::meeting_alone))]
pub(crate) fn meet_alone(slots: Slots<'_>, i: usize, suffix: &[u8]) -> Result<Ordering, Refusal>
    ensures { let h = header_of slots.entry.page.now in result ≡ met_alone slots.entry.width slots.entry.page.now h.count h.end suffix.now i }
{
    let s = slots::visit_slot(slots.page, slots.count(), slots.end(), slots.width, i)?;
    Ok(meets_alone(slots.page, s, Sought::new(suffix)))
}
