// What the header alone says of U4, U5, U8 and U9, and whether the fences rise.
ghost use Rattle.std.specs.Prelude.{◌≡◌, ◌≤◌, eqb};
ghost use Rattle.keys.specs.Choice.{pick};
ghost use Rattle.paper.specs.Lists.{less};
ghost use Rattle.paper.specs.Page.{suffix_of};
ghost use Rattle.paper.specs.Space.{fence_bytes};
ghost use Rattle.verdict.specs.Tally.{fences_rise_with, fences_faithful_with, fences_fit_with, effective_with, hints_fresh_with};

use crate::subject::Judged;
use crate::suffix;
use hint::{fresh, hints};
use node::space;

// The bytes of the body that prefix and fences take, from their lengths in a header.
fn frame_bytes(prefix: u16, lower: u16, upper: u16) -> u64
    ensures { (result ≡ fence_bytes prefix lower upper) × (result ≤ 196605) }
{
    space::fence_bytes(prefix as usize, lower as usize, upper as usize) as u64
}

impl Judged<'_> {
    // Whether the lower fence's suffix is below the upper one's; `unbounded` where that is empty.
    fn lower_below(&self, unbounded: bool) -> bool
        ensures { result ≡ pick (eqb self.now.header.upper.len 0) unbounded (less (suffix_of self.now.page.now self.now.header.lower) (suffix_of self.now.page.now self.now.header.upper)) }
    {
        if self.header.upper.len == 0 {
            return unbounded;
        }
        let fences = self.fences();
        suffix::below(self.page, fences.low, fences.high)
    }

    // Whether the fences rise; an empty upper one bounds nothing.
    pub fn fences_rise(&self) -> bool
        ensures { result ≡ fences_rise_with self.now.page.now self.now.header }
    {
        self.lower_below(true)
    }

    // U5: an empty upper slot only with prefix 0, else the fences rise.
    pub fn fences_fit(&self) -> bool
        ensures { result ≡ fences_fit_with self.now.page.now self.now.header }
    {
        self.lower_below(self.header.prefix_len == 0)
    }

    // U4 of the fences: their heads are those of their suffixes.
    pub fn fences_faithful(&self) -> bool
        ensures { result ≡ fences_faithful_with self.now.page.now self.now.header }
    {
        let fences = self.fences();
        (self.header.lower.head == fences.low.head) & (self.header.upper.head == fences.high.head)
    }

    // U8: effective is 96, the body bytes of prefix and fences, and the needs of all entries.
    pub fn effective_right(&self, needs: u32) -> bool
        ensures { result ≡ effective_with self.now.header needs }
    {
        let h = &self.header;
        let fences = frame_bytes(h.prefix_len, h.lower.len, h.upper.len);
        (h.effective as u64) == 96 + fences + (needs as u64)
    }

    // U9: hints in use are fresh.
    pub fn hints_fresh(&self) -> bool
        ensures { result ≡ hints_fresh_with self.now.page.now self.now.header }
    {
        let h = &self.header;
        if !hints::in_use(h.flag, h.count) {
            return true;
        }
        let held = hints::read_hints(self.page);
        let fresh = fresh::fresh_hints(self.page, h.count);
        held == fresh
    }
}
