// The fit verdict, and pages that are fit.
ghost use Rattle.std.specs.Prelude.{◌≡◌, ◌≤◌, length};
ghost use Rattle.paper.specs.Page.{header_of};
ghost use Rattle.paper.specs.Calls.{fit_verdict};
ghost use Rattle.verdict.specs.Fits.{key_rules, fit_header_of, fit_admit_of};
ghost use Rattle.verdict.specs.Weighed.{first_rule, broken_with};

use crate::judgeable;
use crate::subject::Judged;
use crate::tally::Tally;
use node::header;
use paper::page::Header;
use paper::refusal::Refusal;

impl Judged<'_> {
    // The first rule broken of U4 to U9, by the tally of the entries.
    fn first_of_keys(&self, t: Tally) -> Option<u8>
        ensures { result ≡ first_rule 4 (key_rules self.now.page.now self.now.header t) }
    {
        let kept = [
            self.fences_faithful() & t.faithful,
            self.fences_fit(),
            t.inside,
            t.rising,
            self.effective_right(t.needs),
            self.hints_fresh(),
        ];
        let i = kept.iter().position(|kept| !*kept)?;
        Some(4 + (i as u8))
    }

    // The first rule broken of U2 to U9.
    fn first_broken(&self) -> Option<u8>
        ensures { result ≡ broken_with self.now.width self.now.page.now self.now.header }
    {
        match self.weighed() {
            Ok(tally) => self.first_of_keys(tally),
            Err(rule) => Some(rule),
        }
    }
}

// The first rule broken on a page. `map_or` would call the method from a closure, as `layout::layout_right`.
fn first_broken(p: &[u8], width: u8) -> Option<u8>
    requires { 16384 ≤ length p.now }
    ensures { result ≡ broken_with width p.now (header_of p.now) }
{
    match Judged::of(p, width) {
        Some(judged) => judged.first_broken(),
        None => Some(1),
    }
}

// The fit verdict: 0, or the first rule broken. Refuses 1, 2.
#[tactic(auto, using(crate::proofs::Judgements::verdicts))]
pub fn fit_verdict(p: &[u8], width: u8) -> Result<u8, Refusal>
    ensures { result ≡ fit_verdict width p.now }
{
    judgeable::judgeable(p, width)?;
    Ok(first_broken(p, width).unwrap_or(0))
}

// The header of a page that is fit, or 5 with the first rule broken.
pub fn fit_header(p: &[u8], width: u8) -> Result<Header, Refusal>
    requires { 16384 ≤ length p.now }
    ensures { result ≡ fit_header_of width p.now }
{
    match first_broken(p, width) {
        Some(rule) => Err(Refusal::NotFit(rule)),
        None => Ok(header::read_header(p)),
    }
}

// 1, 2, 3 and 5 in this order, for a call whose key has `key_len` bytes; else the header. What an edit begins with.
#[tactic(auto, using(crate::proofs::Judgements::admitting_fit))]
pub fn admit_fit(p: &[u8], width: u8, key_len: usize) -> Result<Header, Refusal>
    ensures { result ≡ fit_admit_of width p.now key_len }
{
    judgeable::judgeable(p, width)?;
    if 65535 < key_len {
        return Err(Refusal::KeyLength);
    }
    fit_header(p, width)
}
