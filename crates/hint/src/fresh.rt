// Fresh hints: the heads of eight slots at equal distances.
ghost use Rattle.std.specs.Prelude.{◌≡◌, ◌+◌, ◌*◌, ◌≤◌, length};
ghost use Rattle.paper.specs.Page.{slot_of};
ghost use Rattle.paper.specs.Hints.{fresh};
ghost use Rattle.hint.specs.Refresh.{refresh_as};

use crate::hints;
use octets::number;
use std::array;

// The head of slot `i`.
#[tactic(auto, using(crate::proofs::Runs::heads))]
fn slot_head(p: &[u8], i: usize) -> u32
    requires { 104 + 8 * i ≤ length p.now }
    ensures { result ≡ (slot_of p.now i).head }
{
    number::read_u32(p, 100 + 8 * i)
}

// The heads of the slots that the eight hints of `count` slots stand for.
pub fn fresh_hints(p: &[u8], count: u16) -> [u32; 8]
    requires { (1 ≤ count) × (96 + 8 * count ≤ length p.now) }
    ensures { result ≡ fresh count (λ i. (slot_of p.now i).head) }
{
    let window = usize::from(count) / 9;
    array::from_fn(|i| slot_head(p, (i + 1) * window))
}

// Fresh hints into the header where they are in use; else every byte stays.
#[tactic(auto, using(crate::proofs::Refreshed::refreshing))]
pub fn refresh(p: &mut [u8], flag: u8, count: u16)
    requires { 96 + 8 * count ≤ length p.old }
    ensures { p.new ≡ refresh_as flag count p.old }
{
    if !hints::in_use(flag, count) {
        return;
    }
    let fresh = fresh_hints(p, count);
    hints::write_hints(p, fresh);
}
