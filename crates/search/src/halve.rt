// Halving over the slots.
ghost use Rattle.std.specs.Prelude.{◌≤◌};
ghost use Rattle.paper.specs.Page.{header_of};
ghost use Rattle.search.specs.Slot.{Ends};

use crate::page::Slots;
use crate::seek::Window;
use crate::slot;
use crate::slot::Sought;
use paper::refusal;
use paper::refusal::Refusal;
use std::cmp::Ordering;

// Where halving ended, the first slot that is not passed: it was met as equal, met as above, or it is the end and was not met.
#[derive(Clone, Copy)]
pub enum Halved {
    Same(usize),
    Above(usize),
    Unmet(usize),
}

// The first slot of a window that is not passed, as halving finds it: slots below are, and for the upper bound equal ones too;
// 14 where a slot visited refuses. `same` is the last slot met as equal and not passed. `upper` stays a bool, which the paper's `turn` and
// the contract of `bound_at` take: an enum would need a word that turns it into one in every contract. It is no `binary_search`: a slot that
// is met may refuse, and which slots are visited is promised.
#[tactic(auto, using(crate::proofs::Halves::halvings), unfolding(paper::specs::Refusals::refusal_of))]
pub(crate) fn halve(
    slots: Slots<'_>,
    sought: Sought<'_>,
    window: Window,
    upper: bool,
) -> Result<Halved, Refusal>
    requires { (window.low ≤ window.high) × (window.high ≤ (header_of slots.page.now).count) }
    ensures { Ends upper slots.entry.width slots.entry.page.now (header_of slots.entry.page.now).end sought.entry.suffix.now window.low window.high result }
{
    let mut lo = window.low;
    let mut hi = window.high;
    let mut same = None;
    while lo < hi {
        let mid = lo + (hi - lo) / 2;
        let met = slot::meet_at(slots, mid, sought);
        let Ok(o) = met else {
            return Err(refusal::refusal_of(met));
        };
        match o {
            Ordering::Less => {
                lo = mid + 1;
            }
            Ordering::Equal => {
                if upper {
                    lo = mid + 1;
                } else {
                    hi = mid;
                    same = Some(mid);
                }
            }
            Ordering::Greater => {
                hi = mid;
            }
        }
    }
    if lo == window.high {
        return Ok(Halved::Unmet(lo));
    }
    if same == Some(lo) {
        return Ok(Halved::Same(lo));
    }
    Ok(Halved::Above(lo))
}
