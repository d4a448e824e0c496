// Where pieces start: a map with a byte for each cell of eight bytes of the body, from an origin on. A piece writes into the cell that
// it starts in one more than its place there. Pieces that start in cells of their own, none within another, are apart. Pieces of
// fewer than eight bytes may share a cell; of them the map says nothing.
ghost use Rattle.std.specs.Prelude.{◌≡◌, true, ◌+◌, ◌-◌, ◌*◌, ◌≤◌, ◌<◌};
ghost use Rattle.verdict.specs.Starts.{Begun, Lone};

use crate::cells;
use crate::pieces::Extent;

// N cells from `origin` on, eight of them past the body.
#[derive(Drop)]
pub struct StartMap<const N: usize> {
    pub origin: usize,
    pub cells: [u8; N],
}

impl<const N: usize> StartMap<N> {
    // Whether no piece started in the cell that `e` starts in, or `e` is empty; if so the start is entered.
    pub fn begin(&mut self, e: Extent) -> bool
        requires { e.lo < e.hi → (self.old.origin ≤ e.lo) × (e.hi + 64 ≤ self.old.origin + 8 * N) × (e.hi ≤ 16384) }
        ensures origin { self.new.origin ≡ self.old.origin }
        ensures begun { result ≡ true → Begun self.old.cells self.new.cells self.old.origin e.lo e.hi }
    {
        if e.is_empty() {
            return true;
        }
        let at = e.lo - self.origin;
        if self.cells[at / 8] != 0 {
            return false;
        }
        self.cells[at / 8] = (at % 8 + 1) as u8;
        true
    }

    // Whether no piece starts in the cells of `e` but the first, other than behind its end in the last.
    pub fn lone(&self, e: Extent) -> bool
        requires { (self.now.origin ≤ e.lo) × (e.lo ≤ e.hi) × (e.hi + 64 ≤ self.now.origin + 8 * N) × (e.hi ≤ 16384) }
        ensures { result ≡ true → Lone self.now.cells (e.lo - self.now.origin) (e.hi - self.now.origin) }
    {
        let at = e.lo - self.origin;
        let end = at + e.len();
        let a = at / 8;
        let b = end / 8;
        if b <= a {
            return true;
        }
        if !cells::free(&self.cells, a + 1, b) {
            return false;
        }
        (self.cells[b] == 0) | (((end % 8) as u8) < self.cells[b])
    }
}
