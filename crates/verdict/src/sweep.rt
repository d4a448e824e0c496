// One sweep over a page that is as it should be: U2, U3, U7 and U4 of the entries at once. Where it does not show them the rules are
// tested one after the other. That U2 holds stays a clause, as of `clear`, and so does `Room`, which speaks of the page and of the map at once.
ghost use Rattle.std.specs.Prelude.{◌≡◌, true, ◌+◌, ◌-◌, ◌≤◌, ◌<◌, length, IfSome};
ghost use Rattle.paper.specs.Lists.{less};
ghost use Rattle.paper.specs.Page.{suffix_of};
ghost use Rattle.verdict.specs.Pieces.{held_with, piece_at};
ghost use Rattle.verdict.specs.Honest.{Honest};
ghost use Rattle.verdict.specs.Starts.{Starts};
ghost use Rattle.verdict.specs.Sweep.{Room, HeadBefore, Swept, AllLone, Sound};
ghost use Rattle.verdict.specs.Tally.{tally_of, suffix_at};
ghost use Rattle.verdict.specs.Weighed.{Weighs};

use crate::pieces::Extent;
use crate::starts::StartMap;
use crate::subject::Judged;
use crate::tally::Tally;
use crate::{rise, suffix};
use node::{header, slots};
use paper::page::Slot;

// Whether the key of entry `i` is above that of the entry before it, if there is one, `last` being that one's head. `s` is the slot
// of entry `i`. The sweep is compiled for two sizes of map: a call for each entry would cost a fifth of a verdict.
// `tally::follows` asks the same of slots whose stored heads may be wrong; here each head was tested, so they are compared as stored.
#[inline(always)]
fn above(p: &[u8], i: usize, last: Option<u32>, s: Slot) -> bool
    requires { HeadBefore p.now i last × (i < 2032) × (16384 ≤ length p.now) × Honest p.now s }
    ensures { result ≡ true → 0 < i → less (suffix_at p.now (i - 1)) (suffix_of p.now s) ≡ true }
{
    let Some(head) = last else {
        return true;
    };
    if head < s.head {
        return true;
    }
    rise::rises(p, 88 + 8 * i, s)
}

impl Judged<'_> {
    // The needs of all entries where payloads lie within end..16,256, each starting in a cell of its own, heads are faithful and keys
    // rise.
    fn entries<const N: usize>(&self, starts: &mut StartMap<N>) -> Option<u32>
        requires { Room self.now.header starts.old.origin N }
        ensures origin { starts.new.origin ≡ starts.old.origin }
        ensures swept { IfSome result (λ needs. Swept self.now.width self.now.page.now self.now.header starts.old.origin self.now.header.count needs starts.new.cells) }
    {
        let mut needs = 0;
        let mut last = None;
        for i in 0..self.header.count as usize {
            let s = header::read_slot(self.page, 96 + 8 * i);
            if !slots::payload_within(s, self.header.end, self.width) {
                return None;
            }
            if suffix::true_head(self.page, s) != s.head {
                return None;
            }
            if !above(self.page, i, last, s) {
                return None;
            }
            let lo = s.offset as usize;
            let n = slots::suffix_bytes(s.len) + (self.width as usize);
            if !starts.begin(Extent { lo, hi: lo + n }) {
                return None;
            }
            needs += 8 + (n as u32);
            last = Some(s.head);
        }
        Some(needs)
    }

    // Whether prefix and fences, where they take bytes of the body, start in cells of their own.
    fn frame<const N: usize>(&self, starts: &mut StartMap<N>) -> bool
        requires { Room self.now.header starts.old.origin N × Starts (piece_at self.now.width self.now.page.now self.now.header) starts.old.origin self.now.header.count starts.old.cells }
        ensures origin { starts.new.origin ≡ starts.old.origin }
        ensures begun { result ≡ true → Starts (piece_at self.now.width self.now.page.now self.now.header) starts.old.origin (self.now.header.count + 3) starts.new.cells }
    {
        for j in self.header.count as usize..self.piece_count() {
            if !starts.begin(self.piece(j)) {
                return false;
            }
        }
        true
    }

    // Whether no piece starts within a payload. One loop for these and the frame, by `piece`, takes 8 percent more instructions of a verdict.
    fn payloads_lone<const N: usize>(&self, starts: &StartMap<N>) -> bool
        requires { Room self.now.header starts.now.origin N × (held_with self.now.width self.now.page.now self.now.header ≡ true) }
        ensures { result ≡ true → AllLone self.now.width self.now.page.now self.now.header starts.now.origin 0 self.now.header.count starts.now.cells }
    {
        for j in 0..self.header.count as usize {
            if !starts.lone(self.payload(j)) {
                return false;
            }
        }
        true
    }

    // Whether no piece starts within the prefix or a fence.
    fn frame_lone<const N: usize>(&self, starts: &StartMap<N>) -> bool
        requires { Room self.now.header starts.now.origin N }
        ensures { result ≡ true → AllLone self.now.width self.now.page.now self.now.header starts.now.origin self.now.header.count (self.now.header.count + 3) starts.now.cells }
    {
        for j in self.header.count as usize..self.piece_count() {
            let e = self.piece(j);
            if !e.is_empty() && !starts.lone(e) {
                return false;
            }
        }
        true
    }

    // The needs of all entries where U2, U3, U7 and U4 of the entries show themselves on a map of N cells from `origin` on. On its own it has
    // the registers that its loops want.
    #[inline(never)]
    fn over<const N: usize>(&self, origin: usize) -> Option<u32>
        requires { Room self.now.header origin N }
        ensures { IfSome result (Sound self.now.width self.now.page.now self.now.header) }
    {
        let mut starts = StartMap {
            origin,
            cells: [0u8; N],
        };
        let needs = self.entries(&mut starts)?;
        if !self.frame(&mut starts) {
            return None;
        }
        if !self.payloads_lone(&starts) {
            return None;
        }
        if !self.frame_lone(&starts) {
            return None;
        }
        Some(needs)
    }

    // The same on a map of the body's last 1,024 bytes where all pieces lie in them, else of the whole body.
    fn needs(&self) -> Option<u32>
        ensures { IfSome result (Sound self.now.width self.now.page.now self.now.header) }
    {
        if 15232 <= self.header.end {
            return self.over::<136>(15232);
        }
        self.over::<2040>(0)
    }

    // Whether all entries lie within the fences, on a page whose keys rise: the first is not below the lower fence, and the last is
    // below the upper one where that is not empty.
    fn ends_fenced(&self) -> bool
        requires { (held_with self.now.width self.now.page.now self.now.header ≡ true) × ((tally_of self.now.width self.now.page.now self.now.header self.now.header.count).rising ≡ true) }
        ensures { result ≡ (tally_of self.now.width self.now.page.now self.now.header self.now.header.count).inside }
    {
        let n = self.header.count as usize;
        if n == 0 {
            return true;
        }
        let fences = self.fences();
        let first = suffix::honest(self.page, header::read_slot(self.page, 96));
        let last = suffix::honest(self.page, header::read_slot(self.page, 88 + 8 * n));
        !suffix::below(self.page, first, fences.low)
            & ((fences.high.len == 0) | suffix::below(self.page, last, fences.high))
    }

    // The tally of all entries where one sweep shows U2, U3, and all that the tally asks; None says nothing.
    pub fn sweep(&self) -> Option<Tally>
        ensures { IfSome result (Weighs self.now.width self.now.page.now self.now.header) }
    {
        let needs = self.needs()?;
        Some(Tally {
            faithful: true,
            inside: self.ends_fenced(),
            rising: true,
            needs,
        })
    }
}
