// The child of a probe. Page and header stay two parameters, with what the fit test found as clauses: `child_with` alone takes both. Slot -1
// and no Option: document 01 and the C functions answer it so.
ghost use Rattle.std.specs.Prelude.{◌≡◌, ◌*◌, ◌≤◌, length};
ghost use Rattle.paper.specs.Page.{numbers_of, header_of};
ghost use Rattle.paper.specs.Verdicts.{fit_of};
ghost use Rattle.paper.specs.Listing.{listing};
ghost use Rattle.paper.specs.Searches.{child_at};
ghost use Rattle.paper.specs.Calls.{child_of};
ghost use Rattle.child.specs.Child.{child_with};

use node::{entry, header};
use octets::number;
use paper::answers::Child;
use paper::page::Header;
use paper::refusal::Refusal;
use search::{bound, fence, probe};
use verdict::fit;

// The child where `n` keys are at most the probe: the last of them with its value, or -1 with the lower fence's.
#[tactic(auto, using(crate::proofs::Served::at_a_slot))]
fn child_at(p: &[u8], lower_value: u64, n: usize) -> Child
    requires { (length p.now ≡ 16384) × (fit_of 8 p.now ≡ 0) × (n ≤ (numbers_of p.now).count) × (8 * n ≤ 16256) }
    ensures { result ≡ child_at lower_value (listing 8 p.now) n }
{
    if n == 0 {
        return Child {
            slot: -1,
            value: lower_value,
        };
    }
    let i = n - 1;
    let s = header::read_slot(p, 96 + 8 * i);
    Child {
        slot: i as i32,
        value: number::read_u64(p, entry::value_at(s)),
    }
}

// The highest slot whose key is at most the probe, or -1 where the lower fence's own child serves, with that child's value, on a page that is
// fit at width 8 and has this header. Refuses 8, 9.
#[tactic(auto, using(crate::proofs::Served::with_a_header), unfolding(crate::specs::Child::child_with, paper::specs::Refusals::judge, paper::specs::Searches::child_scan))]
fn child_with(p: &[u8], h: Header, key: &[u8]) -> Result<Child, Refusal>
    requires { (length p.now ≡ 16384) × (fit_of 8 p.now ≡ 0) × (h ≡ header_of p.now) }
    ensures { result ≡ child_with p.now key.now }
{
    if !probe::within(p, h.prefix_len, key) {
        return Err(Refusal::Prefix);
    }
    let suffix = probe::suffix(p, key);
    if !fence::inside(p, suffix) {
        return Err(Refusal::OutsideFences);
    }
    let n = bound::bound_at(p, 8, suffix, true)?;
    Ok(child_at(p, h.lower_value, n))
}

// The child of a probe on a page of width 8, of any height: the highest slot whose key is at most the probe, or -1 where the lower fence's own child
// serves; with that child's value. Refuses 1, 3, 5, 8, 9.
#[tactic(auto, using(crate::proofs::Served::whole_call))]
pub fn child(p: &[u8], key: &[u8]) -> Result<Child, Refusal>
    ensures { result ≡ child_of p.now key.now }
{
    let h = fit::admit_fit(p, 8, key.len())?;
    child_with(p, h, key)
}
