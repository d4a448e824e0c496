// The layout verdict.
ghost use Rattle.std.specs.Prelude.{◌≡◌, ◌≤◌, length};
ghost use Rattle.paper.specs.Page.{header_of};
ghost use Rattle.paper.specs.Calls.{layout_verdict};
ghost use Rattle.keys.specs.Choice.{both};
ghost use Rattle.verdict.specs.Tally.{fences_rise_with};
ghost use Rattle.verdict.specs.Fits.{empty_leaf_with, layout_with};

use crate::judgeable;
use crate::subject::Judged;
use crate::tally::Tally;
use paper::refusal::Refusal;

impl Judged<'_> {
    // Whether the page is an empty leaf.
    fn empty_leaf(&self) -> bool
        ensures { result ≡ empty_leaf_with self.now.header }
    {
        (self.header.height == 0) & (self.header.count == 0)
    }

    // Whether the fences rise, and the keys within them, by what the tally of all entries says of both.
    fn in_order(&self, t: Tally) -> bool
        ensures { result ≡ both (both (fences_rise_with self.now.page.now self.now.header) t.inside) t.rising }
    {
        self.fences_rise() & t.inside & t.rising
    }

    // Whether the layout of the page is right: no empty leaf, U2, U3, and the order.
    fn layout_right(&self) -> bool
        ensures { result ≡ layout_with self.now.width self.now.page.now self.now.header }
    {
        if self.empty_leaf() {
            return false;
        }
        match self.weighed() {
            Ok(tally) => self.in_order(tally),
            Err(_) => false,
        }
    }
}

// Whether the layout of a page is right. `is_some_and` would call the method from a closure, which is one more function to prove.
fn layout_right(p: &[u8], width: u8) -> bool
    requires { 16384 ≤ length p.now }
    ensures { result ≡ layout_with width p.now (header_of p.now) }
{
    match Judged::of(p, width) {
        Some(judged) => judged.layout_right(),
        None => false,
    }
}

// The layout verdict. Refuses 1, 2.
#[tactic(auto, using(crate::proofs::Judgements::verdicts))]
pub fn layout_verdict(p: &[u8], width: u8) -> Result<bool, Refusal>
    ensures { result ≡ layout_verdict width p.now }
{
    judgeable::judgeable(p, width)?;
    Ok(layout_right(p, width))
}
