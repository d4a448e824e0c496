// A map of the body: each piece is entered where no byte of it was taken yet.
ghost use Rattle.std.specs.Prelude.{◌≡◌, true, ◌+◌, ◌≤◌, ◌<◌, length};
ghost use Rattle.verdict.specs.Pieces.{held_with};
ghost use Rattle.verdict.specs.Marks.{disjoint_to, Marked, Entered};

use crate::cells;
use crate::pieces::Extent;
use crate::subject::Judged;
use octets::number;

// Marks a..b, of one to three bytes.
fn mark_few(map: &mut [u8], a: usize, b: usize)
    requires { (a < b) × (b ≤ a + 3) × (b ≤ length map.old) }
    ensures { Marked map.old map.new a b }
{
    map[a] = 1;
    map[a + (b - a) / 2] = 1;
    map[b - 1] = 1;
}

// The same of four to eight bytes, by two numbers of four marks.
fn mark_halves(map: &mut [u8], a: usize, b: usize)
    requires { (a + 4 ≤ b) × (b ≤ a + 8) × (b ≤ length map.old) }
    ensures { Marked map.old map.new a b }
{
    number::write_u32(map, a, 16843009);
    number::write_u32(map, b - 4, 16843009);
}

// Marks a..b. Of eight bytes and more the library's `fill` is made a call; of fewer such a call takes 16 percent of the instructions of a
// verdict on a page of short payloads, and these forms take none.
fn mark(map: &mut [u8], a: usize, b: usize)
    requires { (a < b) × (b ≤ length map.old) }
    ensures { Marked map.old map.new a b }
{
    if 8 <= b - a {
        map[a..b].fill(1);
        return;
    }
    if 4 <= b - a {
        mark_halves(map, a, b);
        return;
    }
    mark_few(map, a, b);
}

// Whether the bytes of a piece were free, or it has none; if so they are marked.
fn enter(map: &mut [u8], e: Extent) -> bool
    requires { e.lo < e.hi → e.hi + 8 ≤ length map.old }
    ensures { result ≡ true → Entered map.old map.new e.lo e.hi }
{
    if e.is_empty() {
        return true;
    }
    if !cells::free(map, e.lo, e.hi) {
        return false;
    }
    mark(map, e.lo, e.hi);
    true
}

impl Judged<'_> {
    // That U2 holds stays a clause: it is found between two methods of one page, and a type for it would be a second `Judged`.
    // How many pieces, one after the other, find their bytes free. Those are disjoint.
    pub fn clear(&self) -> usize
        requires { held_with self.now.width self.now.page.now self.now.header ≡ true }
        ensures { (result ≤ self.now.header.count + 3) × (disjoint_to self.now.width self.now.page.now self.now.header result ≡ true) }
    {
        let n = self.piece_count();
        let mut map = [0u8; 16384];
        for j in 0..n {
            if !enter(&mut map, self.piece(j)) {
                return j;
            }
        }
        n
    }
}
