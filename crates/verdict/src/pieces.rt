// The pieces of a page's body: payloads, the long prefix, long fence suffixes.
ghost use Rattle.std.specs.Prelude.{◌≡◌, ◌+◌, ◌-◌, ◌*◌, ◌≤◌, ◌<◌, ltb, leb, min, max};
ghost use Rattle.paper.specs.Page.{slot_of};
ghost use Rattle.paper.specs.Verdicts.{slot_payload, fence_piece, prefix_piece};
ghost use Rattle.verdict.specs.Pieces.{held_with, piece_at};

use crate::subject::Judged;
use node::{header, slots, space};
use paper::page::Slot;

// The bytes lo..hi of the body.
#[derive(Clone, Copy)]
pub struct Extent {
    pub lo: usize,
    pub hi: usize,
}

impl Extent {
    // Whether it has no byte.
    pub fn is_empty(self) -> bool
        ensures { result ≡ leb self.hi self.lo }
    {
        self.hi <= self.lo
    }

    // How many bytes it has.
    pub fn len(self) -> usize
        requires { self.lo ≤ self.hi }
        ensures { result ≡ self.hi - self.lo }
    {
        self.hi - self.lo
    }

    // Whether both share a byte; an empty one shares none.
    pub fn touches(self, other: Extent) -> bool
        ensures { result ≡ ltb (max self.lo other.lo) (min self.hi other.hi) }
    {
        let each = (self.lo < self.hi) & (other.lo < other.hi);
        let both = (self.lo < other.hi) & (other.lo < self.hi);
        each & both
    }
}

// A fence's suffix, empty if it is short.
fn fence(s: Slot) -> Extent
    ensures { (result.lo ≡ (fence_piece s).lo) × (result.hi ≡ (fence_piece s).hi) }
{
    let n = slots::suffix_bytes(s.len);
    let lo = s.offset as usize;
    Extent { lo, hi: lo + n }
}

// The prefix, empty if it is inline.
fn prefix(n: u16) -> Extent
    requires { n ≤ 16256 }
    ensures { (result.lo ≡ (prefix_piece n).lo) × (result.hi ≡ (prefix_piece n).hi) }
{
    Extent {
        lo: 16256 - space::body_bytes(16, n as usize),
        hi: 16256,
    }
}

impl Judged<'_> {
    // How many pieces there are: the payloads, the prefix and both fences.
    pub fn piece_count(&self) -> usize
        ensures { result ≡ self.now.header.count + 3 }
    {
        (self.header.count as usize) + 3
    }

    // U2: whether every entry's payload lies in end..16,256.
    pub fn payloads_held(&self) -> bool
        ensures { result ≡ held_with self.now.width self.now.page.now self.now.header }
    {
        let h = &self.header;
        for i in 0..h.count as usize {
            let Ok(_) = slots::visit_slot(self.page, h.count, h.end, self.width, i) else {
                return false;
            };
        }
        true
    }

    // The payload of entry `i`.
    pub fn payload(&self, i: usize) -> Extent
        requires { 8 * i ≤ 16248 }
        ensures { (result.lo ≡ (slot_payload self.now.width (slot_of self.now.page.now i)).lo) × (result.hi ≡ (slot_payload self.now.width (slot_of self.now.page.now i)).hi) }
    {
        let s = header::read_slot(self.page, 96 + 8 * i);
        let n = slots::suffix_bytes(s.len);
        let lo = s.offset as usize;
        Extent {
            lo,
            hi: lo + (n + (self.width as usize)),
        }
    }

    // Piece `j`: the payloads in slot order, then the prefix, the lower fence and the upper one.
    pub fn piece(&self, j: usize) -> Extent
        requires { j < self.now.header.count + 3 }
        ensures { (result.lo ≡ (piece_at self.now.width self.now.page.now self.now.header j).lo) × (result.hi ≡ (piece_at self.now.width self.now.page.now self.now.header j).hi) }
    {
        let n = self.header.count as usize;
        if j < n {
            return self.payload(j);
        }
        if j == n {
            return prefix(self.header.prefix_len);
        }
        if j == n + 1 {
            return fence(self.header.lower);
        }
        fence(self.header.upper)
    }
}
