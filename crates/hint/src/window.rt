// The window: the slots that the hints leave to a search for a head.
ghost use Rattle.std.specs.Prelude.{◌≡◌, ◌≤◌, ℕ, Bool};
ghost use Rattle.hint.specs.Passing.{Decides};
ghost use Rattle.paper.specs.Hints.{first_hint, window_low, window_high};

// The number of the first hint that passes, or 8. It goes down from the last hint with no way out between, so the
// compiler makes straight code of it.
#[tactic(auto, using(crate::proofs::Windows::hinted))]
fn first_hint<F: Fn(u32) -> bool + Drop>(hints: [u32; 8], passes: F) -> usize
    requires { F.IsAlwaysCallable passes }
    ensures within { result ≤ 8 }
    ensures first { (test : ℕ → Bool) → Decides (F.post passes) test → result ≡ first_hint test hints }
{
    let mut first = 8;
    for i in (0..8).rev() {
        if passes(hints[i]) {
            first = i;
        }
    }
    first
}

// The first slot of the window for `head` among `count` slots.
pub fn window_low(hints: [u32; 8], head: u32, count: u16) -> usize
    ensures { result ≡ window_low hints head count }
{
    first_hint(hints, |hint| head <= hint) * (usize::from(count) / 9)
}

// The slot behind the window for `head` among `count` slots.
pub fn window_high(hints: [u32; 8], head: u32, count: u16) -> usize
    ensures { result ≡ window_high hints head count }
{
    let up = first_hint(hints, |hint| head < hint);
    if up == 8 {
        return usize::from(count);
    }
    (up + 1) * (usize::from(count) / 9)
}
