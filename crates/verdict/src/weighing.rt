// U2 and U3, and where they hold what the entries say of the other rules.
ghost use Rattle.std.specs.Prelude.{◌≡◌};
ghost use Rattle.verdict.specs.Weighed.{weighed_with};

use crate::subject::Judged;
use crate::tally::Tally;

impl Judged<'_> {
    // The tally of all entries, or the rule that is broken, 2 or 3. Most pages are swept once; else it goes rule by rule. A rule is the
    // number that the fit verdict and refusal 5 give to C.
    pub fn weighed(&self) -> Result<Tally, u8>
        ensures { result ≡ weighed_with self.now.width self.now.page.now self.now.header }
    {
        if let Some(tally) = self.sweep() {
            return Ok(tally);
        }
        if !self.payloads_held() {
            return Err(2);
        }
        if !self.disjoint() {
            return Err(3);
        }
        Ok(self.tally_entries())
    }
}
