// Lower and upper bound.
ghost use Rattle.std.specs.Prelude.{◌≡◌, true, false, ◌*◌, ◌≤◌, length};
ghost use Rattle.paper.specs.Page.{header_of};
ghost use Rattle.paper.specs.Calls.{bound_of};
ghost use Rattle.search.specs.Bounds.{searched};

use crate::halve::Halved;
use crate::page::Slots;
use crate::{probe, seek};
use node::admit;
use octets::number;
use paper::refusal::Refusal;

// The bound of a probe's suffix on a page: 14. Page, width and their facts stay clauses, so that it asks no more of callers than the
// page; `upper` is a bool as in `halve`.
#[tactic(auto, using(crate::proofs::Seeking::bounds))]
pub fn bound_at(p: &[u8], width: u8, suffix: &[u8], upper: bool) -> Result<usize, Refusal>
    requires { (16384 ≤ length p.now) × (8 * (header_of p.now).count ≤ 16256) }
    ensures { result ≡ searched upper width p.now (header_of p.now) suffix.now }
{
    let ended = seek::seek(
        Slots {
            page: p,
            width,
            payloads: number::read_u16(p, 6),
        },
        suffix,
        upper,
    )?;
    match ended {
        Halved::Same(i) | Halved::Above(i) | Halved::Unmet(i) => Ok(i),
    }
}

// Both bounds.
#[tactic(auto, using(crate::proofs::Bounded::whole_call))]
fn bound(p: &[u8], width: u8, key: &[u8], upper: bool) -> Result<usize, Refusal>
    ensures { result ≡ bound_of upper width p.now key.now }
{
    admit::admit(p, width, key.len())?;
    // the class is document 01's number, as in `probe::class`
    match probe::class(p, number::read_u16(p, 46), key) {
        0 => Ok(0),
        1 => bound_at(p, width, probe::suffix(p, key), upper),
        _ => Ok(number::read_u16(p, 2) as usize),
    }
}

// The number of keys below the probe, as halving finds it. Refuses 1, 2, 3, 4, 14.
pub fn lower_bound(p: &[u8], width: u8, key: &[u8]) -> Result<usize, Refusal>
    ensures { result ≡ bound_of false width p.now key.now }
{
    bound(p, width, key, false)
}

// The number of keys at most the probe, as halving finds it. Refuses 1, 2, 3, 4, 14.
pub fn upper_bound(p: &[u8], width: u8, key: &[u8]) -> Result<usize, Refusal>
    ensures { result ≡ bound_of true width p.now key.now }
{
    bound(p, width, key, true)
}
