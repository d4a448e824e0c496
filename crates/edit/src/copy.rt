// Run copy: entries of one page appended to another.
ghost use Rattle.std.specs.Prelude.{◌≡◌, true, ◌+◌, ◌-◌, ◌≤◌, ◌<◌, leb, length};
ghost use Rattle.paper.specs.Page.{slot_of, frame_of, numbers_of, header_of};
ghost use Rattle.paper.specs.Space.{need};
ghost use Rattle.paper.specs.Verdicts.{fit_of};
ghost use Rattle.paper.specs.Calls.{is_width, has_prefix, key_at, run_of, run_page};
ghost use Rattle.edit.specs.RunTests.{Shown, Fenced, Meeting, standing, standing_from, passes_last, needs_from, run_judged, run_written};

use crate::cut;
use keys::shared;
use node::{admit, header, key, space};
use paper::page::Header;
use paper::refusal::Refusal;
use verdict::fit;
use write::copy;
use write::suffix::Suffix;

// Two pages whose keys can be read, on the way from `source` to `page`: the header of the one and the prefix of the other. `cut` is the
// length of the shorter of both pages' prefixes, and `alike` says whether the two are the same that far.
// Both are kept, not an option of what is left: `Meeting` says what each is, whichever way the prefixes stand.
#[derive(Drop)]
struct Run<'a> {
    page: &'a [u8],
    header: Header,
    source: &'a [u8],
    prefix: &'a [u8],
    cut: usize,
    alike: bool,
    ghost fenced: { Fenced page.now header },
    ghost shown: { Shown source.now (length prefix.now) },
    ghost own: { prefix.now ≡ (frame_of source.now).prefix },
    ghost meeting: { Meeting page.now header prefix.now cut alike },
}

impl<'a> Run<'a> {
    // Both prefixes are compared once, as far as the shorter goes.
    fn between(page: &'a [u8], header: Header, source: &'a [u8], prefix_len: u16) -> Run<'a>
        requires { (Fenced page.now header) × (Shown source.now prefix_len) }
        ensures { (result.page.now ≡ page.now) × (result.header ≡ header) × (result.source.now ≡ source.now) }
    {
        let prefix = key::prefix(source, prefix_len);
        let whole = key::prefix(page, header.prefix_len);
        let cut = whole.len().min(prefix.len());
        let alike = shared::equal(&prefix[..cut], &whole[..cut]);
        Run {
            page,
            header,
            source,
            prefix,
            cut,
            alike,
        }
    }

    // 8 and 9 for entry `j` of the source.
    #[tactic(auto, using(crate::proofs::RunKeys::slot_lies))]
    fn stands(&self, j: usize) -> Result<(), Refusal>
        requires { j < (numbers_of self.now.source.now).count }
        ensures { result ≡ standing self.now.page.now (key_at self.now.source.now (slot_of self.now.source.now j)) }
    {
        if !self.alike {
            return Err(Refusal::Prefix);
        }
        let s = header::read_slot(self.source, 96 + 8 * j);
        let four = key::head_bytes(s.head);
        let suffix = key::suffix(self.source, s, &four);
        let whole = key::prefix(self.page, self.header.prefix_len);
        if !shared::begins_with(suffix, &whole[self.cut..]) {
            return Err(Refusal::Prefix);
        }
        let rest = Suffix::cut(self.prefix, suffix, whole.len());
        if !cut::inside(&rest, self.page, self.header) {
            return Err(Refusal::OutsideFences);
        }
        Ok(())
    }

    // The same for `n` entries from `a` on: the first one refused decides.
    fn all_stand(&self, a: usize, n: usize) -> Result<(), Refusal>
        requires { a + n ≤ (numbers_of self.now.source.now).count }
        ensures { result ≡ standing_from self.now.page.now self.now.source.now a n }
    {
        for j in a..a + n {
            self.stands(j)?;
        }
        Ok(())
    }

    // 12 for entry `a` of the source, whose key has the page's prefix.
    #[tactic(auto, using(crate::proofs::RunKeys::by_last))]
    fn above_last(&self, a: usize) -> bool
        requires { (a < (numbers_of self.now.source.now).count) × (has_prefix (frame_of self.now.page.now) (key_at self.now.source.now (slot_of self.now.source.now a)) ≡ true) }
        ensures { result ≡ passes_last self.now.page.now self.now.header.count (key_at self.now.source.now (slot_of self.now.source.now a)) }
    {
        let count = self.header.count as usize;
        if count == 0 {
            return true;
        }
        let last = header::read_slot(self.page, 96 + 8 * (count - 1));
        let s = header::read_slot(self.source, 96 + 8 * a);
        let four = key::head_bytes(s.head);
        let suffix = key::suffix(self.source, s, &four);
        let gone = self.header.prefix_len as usize;
        let rest = Suffix::cut(self.prefix, suffix, gone);
        cut::above(&rest, self.page, last)
    }

    // What entry `j` of the source needs on the page.
    #[tactic(auto, using(crate::proofs::RunKeys::by_needs))]
    fn need(&self, width: u8, j: usize) -> usize
        requires { j < (numbers_of self.now.source.now).count }
        ensures { result ≡ need width (length self.now.prefix.now + (slot_of self.now.source.now j).len - self.now.header.prefix_len) }
    {
        let s = header::read_slot(self.source, 96 + 8 * j);
        let len = self.prefix.len() + (s.len as usize);
        8 + (width as usize)
            + space::body_bytes(4, len.saturating_sub(self.header.prefix_len as usize))
    }

    // 13: whether `n` entries from `a` on have room in the page's free space.
    #[tactic(auto, using(crate::proofs::RunKeys::by_needs))]
    fn fits(&self, width: u8, a: usize, n: usize) -> bool
        requires { (self.now.header.start ≤ self.now.header.end) × (a + n ≤ (numbers_of self.now.source.now).count) }
        ensures { result ≡ leb (needs_from width self.now.header.prefix_len (length self.now.prefix.now) self.now.source.now a n) (self.now.header.end - self.now.header.start) }
    {
        let mut left = (self.header.end - self.header.start) as usize;
        for j in a..a + n {
            let need = self.need(width, j);
            if left < need {
                return false;
            }
            left -= need;
        }
        true
    }

    // 10, 8, 9, 12 and 13 in this order, of a source with `count` entries.
    #[tactic(auto, using(crate::proofs::RunCalls::by_tests))]
    fn judge(&self, count: u16, width: u8, a: usize, n: usize) -> Result<(), Refusal>
        requires { (count ≡ (numbers_of self.now.source.now).count) × (self.now.header.start ≤ self.now.header.end) }
        ensures { result ≡ run_judged width self.now.page.now self.now.source.now a n }
    {
        let count = count as usize;
        if count < a || count - a < n {
            return Err(Refusal::SlotNumber);
        }
        if n == 0 {
            return Ok(());
        }
        self.all_stand(a, n)?;
        if !self.above_last(a) {
            return Err(Refusal::Neighbours);
        }
        if !self.fits(width, a, n) {
            return Err(Refusal::NoRoom);
        }
        Ok(())
    }
}

// Two pages that are fit and have these headers: judged, and then the entries are written.
// Pages and headers stay parameters: the run that judges only reads the page that is written here. No key comes in, so no `Tested`.
fn copy_fit(
    p: &mut [u8],
    h: Header,
    q: &[u8],
    g: Header,
    width: u8,
    a: usize,
    n: usize,
) -> Result<(), Refusal>
    requires p_len { (length p.old ≡ 16384) × (fit_of width p.old ≡ 0) × (h ≡ header_of p.old) }
    requires q_len { (length q.now ≡ 16384) × (fit_of width q.now ≡ 0) × (g ≡ header_of q.now) × (is_width width ≡ true) }
    ensures value { result ≡ run_judged width p.old q.now a n }
    ensures p_after { p.new ≡ run_written width p.old q.now a n }
{
    Run::between(p, h, q, g.prefix_len).judge(g.count, width, a, n)?;
    copy::copy_run(p, h, width, q, g.prefix_len, a, n);
    Ok(())
}

// Appends entries `a` to `a + n` of the page `q` to the page `p`, their keys cut anew under `p`'s prefix. Refuses 1, 2, 5 (`p` before `q`), 10,
// then entry by entry 8, 9, then 12, 13; a refusal leaves `p` as it was. 1 and 2 are written out: `fit::admit_fit` of `p` would refuse 5 of `p`
// before 1 of `q`.
pub fn copy_run(p: &mut [u8], q: &[u8], width: u8, a: usize, n: usize) -> Result<(), Refusal>
    ensures value { result ≡ run_of width p.old q.now a n }
    ensures p_after { p.new ≡ run_page width p.old q.now a n }
{
    if p.len() != 16384 {
        return Err(Refusal::PageLength);
    }
    if q.len() != 16384 {
        return Err(Refusal::PageLength);
    }
    if !admit::known_width(width) {
        return Err(Refusal::Width);
    }
    let h = fit::fit_header(p, width)?;
    let g = fit::fit_header(q, width)?;
    copy_fit(p, h, q, g, width, a, n)
}
