// A probe's suffix sought among the slots: what every search goes through.
ghost use Rattle.std.specs.Prelude.{◌≡◌, Ok};
ghost use Rattle.paper.specs.Page.{header_of};
ghost use Rattle.search.specs.Bounds.{window_of};
ghost use Rattle.search.specs.Finds.{tested_at, SearchEnds};

use crate::halve::Halved;
use crate::page::Slots;
use crate::slot::Sought;
use crate::{halve, slot};
use hint::{hints, window};
use paper::answers::Found;
use paper::refusal;
use paper::refusal::Refusal;
use std::cmp::Ordering;

// The slots to search: low..high.
#[derive(Clone, Copy)]
pub struct Window {
    pub low: usize,
    pub high: usize,
}

// All slots, or those that the hints in use leave for a head.
#[tactic(auto, using(crate::proofs::Bounded::windows))]
fn slots_to_search(slots: Slots<'_>, head: u32) -> Window
    ensures { let h = header_of slots.entry.page.now in result ≡ window_of slots.entry.page.now h.flag h.count head }
{
    let count = slots.count();
    if !hints::in_use(slots.flag(), count) {
        return Window {
            low: 0,
            high: count as usize,
        };
    }
    let hs = hints::read_hints(slots.page);
    Window {
        low: window::window_low(hs, head, count),
        high: window::window_high(hs, head, count),
    }
}

// The bound of a probe's suffix, and how the slot there was met: 14. `upper` is a bool as in `halve`.
#[tactic(auto, using(crate::proofs::Bounded::lying))]
pub(crate) fn seek(slots: Slots<'_>, suffix: &[u8], upper: bool) -> Result<Halved, Refusal>
    ensures { SearchEnds upper slots.entry.width slots.entry.page.now suffix.now result }
{
    let sought = Sought::new(suffix);
    halve::halve(slots, sought, slots_to_search(slots, sought.head), upper)
}

// The bound at `i`, which was not met: where a slot stands there it is visited, and tested against a probe's suffix; 14.
#[tactic(auto, using(crate::proofs::Seeking::not_met), unfolding(paper::specs::Refusals::refusal_of))]
pub(crate) fn unmet(slots: Slots<'_>, i: usize, suffix: &[u8]) -> Result<Found, Refusal>
    ensures { result ≡ tested_at slots.entry.width slots.entry.page.now (header_of slots.entry.page.now) suffix.now (Ok i) }
{
    if (slots.count() as usize) <= i {
        return Ok(Found::Smaller(i));
    }
    let met = slot::meet_alone(slots, i, suffix);
    let Ok(o) = met else {
        return Err(refusal::refusal_of(met));
    };
    match o {
        Ordering::Equal => Ok(Found::Equal(i)),
        Ordering::Less | Ordering::Greater => Ok(Found::Smaller(i)),
    }
}
