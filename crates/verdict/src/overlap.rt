// U3: whether pieces overlap.
ghost use Rattle.std.specs.Prelude.{◌≡◌, true, not, ◌+◌, ◌≤◌};
ghost use Rattle.verdict.specs.Pieces.{held_with, disjoint_with};
ghost use Rattle.verdict.specs.Marks.{disjoint_to};

use crate::subject::Judged;

impl Judged<'_> {
    // Whether two of the stored pieces overlap, pair by pair, up to the first pair that does: loops left by a label, as the paper has
    // them. The first `from` of them are known not to.
    fn clash(&self, from: usize) -> bool
        requires { (from ≤ self.now.header.count + 3) × (disjoint_to self.now.width self.now.page.now self.now.header from ≡ true) }
        ensures { result ≡ not (disjoint_with self.now.width self.now.page.now self.now.header) }
    {
        let mut found = false;
        'pairs: for j in from..self.piece_count() {
            let b = self.piece(j);
            for i in 0..j {
                if self.piece(i).touches(b) {
                    found = true;
                    break 'pairs;
                }
            }
        }
        found
    }

    // Whether no two pieces overlap. The map tells how many are free of overlaps, on most pages all; the search goes on from there.
    // On its own, as `tally_entries`. That U2 holds stays a clause, as of `clear`.
    #[inline(never)]
    pub fn disjoint(&self) -> bool
        requires { held_with self.now.width self.now.page.now self.now.header ≡ true }
        ensures { result ≡ disjoint_with self.now.width self.now.page.now self.now.header }
    {
        !self.clash(self.clear())
    }
}
