// The fences of a page, and whether an entry lies within them.
ghost use Rattle.std.specs.Prelude.{◌≡◌};
ghost use Rattle.paper.specs.Page.{suffix_of};
ghost use Rattle.search.specs.Fence.{inside_by};
ghost use Rattle.verdict.specs.Honest.{Honest, FencesOf};

use crate::subject::Judged;
use crate::suffix;
use paper::page::Slot;

// Both fences, with the heads that their suffixes have.
#[derive(Clone, Copy)]
pub struct Fences {
    pub low: Slot,
    pub high: Slot,
}

impl Judged<'_> {
    // The fences of the page.
    pub fn fences(&self) -> Fences
        ensures { FencesOf self.now.page.now self.now.header result }
    {
        Fences {
            low: suffix::honest(self.page, self.header.lower),
            high: suffix::honest(self.page, self.header.upper),
        }
    }

    // Whether a suffix is not below the lower fence's, and below the upper one's where that is not empty.
    pub fn fenced(&self, fences: Fences, s: Slot) -> bool
        requires { FencesOf self.now.page.now self.now.header fences × Honest self.now.page.now s }
        ensures { result ≡ inside_by self.now.page.now self.now.header (suffix_of self.now.page.now s) }
    {
        let Fences { low, high } = fences;
        !suffix::below(self.page, s, low) & ((high.len == 0) | suffix::below(self.page, s, high))
    }
}
