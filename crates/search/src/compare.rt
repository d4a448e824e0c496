// A slot compared with a probe.
ghost use Rattle.std.specs.Prelude.{◌≡◌};
ghost use Rattle.paper.specs.Calls.{compare_of};
ghost use Rattle.search.specs.Compares.{sign_by};

use crate::page::Slots;
use crate::{probe, slot};
use node::admit;
use octets::number;
use paper::refusal;
use paper::refusal::Refusal;
use std::cmp::Ordering;

// -1, 0 or 1 for a slot against a probe of that class: every slot is above a probe before the prefix, below one after it.
// The three numbers are document 01's.
#[tactic(auto, using(crate::proofs::Signs::signs), unfolding(paper::specs::Searches::sign_of))]
fn sign(class: u8, o: Ordering) -> i8
    ensures { result ≡ sign_by class o }
{
    if class == 0 {
        return 1;
    }
    if class == 2 {
        return -1;
    }
    match o {
        Ordering::Less => -1,
        Ordering::Equal => 0,
        Ordering::Greater => 1,
    }
}

// -1, 0 or 1 for slot `i` below, at or above the probe. Refuses 1, 2, 3, 4, 10, 14.
#[tactic(auto, using(crate::proofs::Signs::whole_call), unfolding(paper::specs::Refusals::refusal_of))]
pub fn compare_slot(p: &[u8], width: u8, i: usize, key: &[u8]) -> Result<i8, Refusal>
    ensures { result ≡ compare_of width p.now i key.now }
{
    admit::admit(p, width, key.len())?;
    let met = slot::meet_alone(
        Slots {
            page: p,
            width,
            payloads: number::read_u16(p, 6),
        },
        i,
        probe::suffix(p, key),
    );
    let Ok(o) = met else {
        return Err(refusal::refusal_of(met));
    };
    Ok(sign(probe::class(p, number::read_u16(p, 46), key), o))
}
