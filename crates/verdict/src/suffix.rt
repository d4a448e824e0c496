// Suffixes of slots: the head that a suffix really has, and which of two suffixes is below.
ghost use Rattle.std.specs.Prelude.{◌≡◌, ◌+◌, ◌^◌, ◌≤◌, ◌<◌, length, take};
ghost use Rattle.octets.specs.Bytes.{big_bytes};
ghost use Rattle.keys.specs.Keys.{head_of};
ghost use Rattle.paper.specs.Lists.{less};
ghost use Rattle.paper.specs.Page.{suffix_of};
ghost use Rattle.verdict.specs.Honest.{Honest};
ghost use Rattle.verdict.specs.Tally.{honest_of};

use node::key;
use octets::number;
use paper::page::Slot;

// The first `n` bytes of a head, the later ones zero.
fn kept(head: u32, n: u16) -> u32
    requires { n ≤ 4 }
    ensures { result ≡ head_of (take n (big_bytes 4 head)) }
{
    match n {
        4 => head,
        3 => head / 256 * 256,
        2 => head / 65536 * 65536,
        1 => head / 16777216 * 16777216,
        _ => 0,
    }
}

// The head of a slot's suffix, whatever head the slot has: of a long one it is the four bytes where it begins, and no more is read.
pub(crate) fn true_head(p: &[u8], s: Slot) -> u32
    requires { 4 < s.len → 96 + s.offset + s.len ≤ length p.now }
    ensures { (result ≡ head_of (suffix_of p.now s)) × (s.head < 256 ^ 4) }
{
    if s.len <= 4 {
        return kept(s.head, s.len);
    }
    number::read_be_u32(p, 96 + (s.offset as usize))
}

// The slot with the head that its suffix has: it is honest, and it has the same suffix.
pub fn honest(p: &[u8], s: Slot) -> Slot
    requires { 4 < s.len → 96 + s.offset + s.len ≤ length p.now }
    ensures { (result ≡ honest_of p.now s) × Honest p.now result × (suffix_of p.now result ≡ suffix_of p.now s) }
{
    Slot {
        head: true_head(p, s),
        ..s
    }
}

// Whether the bytes of one long suffix are below those of another. Both are read where they stand: `node::key::suffix` would want the
// bytes of a head and test lengths that are known.
fn bytes_below(p: &[u8], a: Slot, b: Slot) -> bool
    requires { (4 < a.len) × (4 < b.len) × (96 + a.offset + a.len ≤ length p.now) × (96 + b.offset + b.len ≤ length p.now) }
    ensures { result ≡ less (suffix_of p.now a) (suffix_of p.now b) }
{
    let i = 96 + (a.offset as usize);
    let j = 96 + (b.offset as usize);
    key::below(&p[i..i + (a.len as usize)], &p[j..j + (b.len as usize)])
}

// Whether the suffix of a slot is below another's, of slots with the heads that their suffixes have: by heads; if equal and
// either suffix is within 4 bytes, by lengths; else by bytes.
pub fn below(p: &[u8], a: Slot, b: Slot) -> bool
    requires { Honest p.now a × Honest p.now b }
    ensures { result ≡ less (suffix_of p.now a) (suffix_of p.now b) }
{
    if a.head != b.head {
        return a.head < b.head;
    }
    if a.len <= 4 {
        return a.len < b.len;
    }
    if b.len <= 4 {
        return false;
    }
    bytes_below(p, a, b)
}
