// The fences of a page that begins: their common prefix and both suffixes written into the body, downward from its end.
ghost use Rattle.std.specs.Prelude.{◌≡◌, ◌+◌, ◌-◌, ◌≤◌, length};
ghost use Rattle.octets.specs.Bytes.{put};
ghost use Rattle.paper.specs.Page.{body_bytes};
ghost use Rattle.paper.specs.Space.{fence_bytes};
ghost use Rattle.paper.specs.Edits.{fence_slot, outline, inlined};
ghost use Rattle.edit.specs.Begins.{runs_placed, fences_of};

use keys::head;
use octets::runs;
use paper::page::Slot;

// What the header says of fences that were written: both slots, and where the free space ends.
#[derive(Clone, Copy)]
pub struct Fences {
    pub lower: Slot,
    pub upper: Slot,
    pub end: u16,
}

// Writes a run that is longer than `most` so that it ends at `end` of the body, and answers where it begins.
fn put_below(p: &mut [u8], most: usize, end: usize, run: &[u8]) -> usize
    requires { (96 + end ≤ length p.old) × (body_bytes most (length run.now) ≤ end) }
    ensures value { result ≡ end - body_bytes most (length run.now) }
    ensures p_after { p.new ≡ put p.old (96 + (end - body_bytes most (length run.now))) (outline most run.now) }
{
    if run.len() <= most {
        return end;
    }
    let start = end - run.len();
    runs::copy_in(&mut p[96 + start..], 0, run);
    start
}

// The slot of a fence's suffix: a short one has offset 0, a long one stands at `at`.
#[tactic(auto, using(crate::proofs::BegunRuns::by_length))]
fn fence_slot(suffix: &[u8], at: usize) -> Slot
    requires { (length suffix.now ≤ 65535) × (at ≤ 65535) }
    ensures { result ≡ fence_slot suffix.now at }
{
    let len = suffix.len() as u16;
    let head = head::head_int(suffix);
    if len <= 4 {
        return Slot {
            len,
            offset: 0,
            head,
        };
    }
    Slot {
        len,
        offset: at as u16,
        head,
    }
}

// Writes a long prefix, a long lower suffix and a long upper suffix downward in that order, and no other byte. The lengths stay a clause, as in
// `Beginning::write`.
pub(crate) fn put_fences(p: &mut [u8], prefix: &[u8], lower: &[u8], upper: &[u8]) -> Fences
    requires { (16384 ≤ length p.old) × (length lower.now ≤ 65535) × (length upper.now ≤ 65535) × (fence_bytes (length prefix.now) (length lower.now) (length upper.now) ≤ 16256) }
    ensures value { result ≡ fences_of prefix.now lower.now upper.now }
    ensures p_after { p.new ≡ runs_placed p.old prefix.now lower.now upper.now }
{
    let top = put_below(p, 16, 16256, prefix);
    let middle = put_below(p, 4, top, lower);
    let end = put_below(p, 4, middle, upper);
    Fences {
        lower: fence_slot(lower, middle),
        upper: fence_slot(upper, end),
        end: end as u16,
    }
}

// Writes a prefix of up to 16 bytes into the header, and no other byte; a longer one leaves all as it was.
pub(crate) fn put_inline(p: &mut [u8], prefix: &[u8])
    requires { 96 ≤ length p.old }
    ensures { p.new ≡ put p.old 48 (inlined prefix.now) }
{
    if 16 < prefix.len() {
        return;
    }
    runs::copy_in(&mut p[48..], 0, prefix);
}
