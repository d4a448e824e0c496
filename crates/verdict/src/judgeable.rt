// The tests that the verdicts begin with, and every call on a page that is fit.
ghost use Rattle.std.specs.Prelude.{◌≡◌};
ghost use Rattle.verdict.specs.Fits.{judgeable_of};

use node::admit;
use paper::refusal::Refusal;

// Whether a page may be judged: 1 and 2 in this order.
#[tactic(auto, using(crate::proofs::Judgements::judging))]
pub(crate) fn judgeable(p: &[u8], width: u8) -> Result<(), Refusal>
    ensures { result ≡ judgeable_of width p.now }
{
    if p.len() != 16384 {
        return Err(Refusal::PageLength);
    }
    if !admit::known_width(width) {
        return Err(Refusal::Width);
    }
    Ok(())
}
