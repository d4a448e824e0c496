// Find.
ghost use Rattle.std.specs.Prelude.{◌≡◌, ◌*◌, ◌≤◌, length};
ghost use Rattle.paper.specs.Page.{header_of};
ghost use Rattle.paper.specs.Calls.{find_of};
ghost use Rattle.search.specs.Finds.{find_in};

use crate::halve::Halved;
use crate::page::Slots;
use crate::{probe, seek};
use node::admit;
use octets::number;
use paper::answers::Found;
use paper::refusal::Refusal;

// Find of a probe's suffix on a page: the bound, and whether the slot there is equal; 14. Page, width and their
// facts stay clauses, as in `bound_at`.
#[tactic(auto, using(crate::proofs::Seeking::finds))]
pub fn find_at(p: &[u8], width: u8, suffix: &[u8]) -> Result<Found, Refusal>
    requires { (16384 ≤ length p.now) × (8 * (header_of p.now).count ≤ 16256) }
    ensures { result ≡ find_in width p.now (header_of p.now) suffix.now }
{
    let slots = Slots {
        page: p,
        width,
        payloads: number::read_u16(p, 6),
    };
    let ended = seek::seek(slots, suffix, false)?;
    match ended {
        Halved::Same(i) => Ok(Found::Equal(i)),
        Halved::Above(i) => Ok(Found::Smaller(i)),
        Halved::Unmet(i) => seek::unmet(slots, i, suffix),
    }
}

// The equal key's slot, or the number of smaller keys: the lower bound, then that slot tested. Refuses 1, 2, 3, 4, 8, 14.
#[tactic(auto, using(crate::proofs::Found::whole_call))]
pub fn find(p: &[u8], width: u8, key: &[u8]) -> Result<Found, Refusal>
    ensures { result ≡ find_of width p.now key.now }
{
    admit::admit(p, width, key.len())?;
    if !probe::within(p, number::read_u16(p, 46), key) {
        return Err(Refusal::Prefix);
    }
    find_at(p, width, probe::suffix(p, key))
}
