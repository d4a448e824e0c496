// Neighbouring suffixes: whether one is below the next.
ghost use Rattle.std.specs.Prelude.{◌≡◌, true, ◌+◌, ◌≤◌, length};
ghost use Rattle.keys.specs.Keys.{common};
ghost use Rattle.paper.specs.Lists.{less};
ghost use Rattle.paper.specs.Page.{slot_at, suffix_of};
ghost use Rattle.verdict.specs.Honest.{Honest};

use crate::suffix;
use node::header;
use octets::number;
use paper::page::Slot;

// Whether the 16 bytes from i on agree.
fn same_16(a: &[u8], b: &[u8], i: usize) -> bool
    requires { (i + 16 ≤ length a.now) × (i + 16 ≤ length b.now) }
    ensures { result ≡ true → i ≤ common a.now b.now → i + 16 ≤ common a.now b.now }
{
    number::array::<16>(a, i) == number::array::<16>(b, i)
}

// A place up to which two suffixes agree, 16 bytes or more before their end: std has no method for where two runs part.
fn fork(a: &[u8], b: &[u8]) -> usize
    requires { (16 ≤ length a.now) × (length a.now ≤ length b.now) }
    ensures { (result + 16 ≤ length a.now) × (result ≤ common a.now b.now) }
{
    let n = a.len();
    for i in 0..(n - 1) / 16 {
        if !same_16(a, b, 16 * i) {
            return 16 * i;
        }
    }
    n - 16
}

// Whether one of two suffixes of one length is below the other, by the two words at their fork. No is also said where these are alike.
// Inlined for the sweep, as `above`.
#[inline(always)]
fn words_below(a: &[u8], b: &[u8]) -> bool
    requires { (16 ≤ length a.now) × (length a.now ≤ length b.now) }
    ensures { result ≡ true → less a.now b.now ≡ true }
{
    let k = fork(a, b);
    let x = number::read_be_u64(a, k);
    let y = number::read_be_u64(b, k);
    if x != y {
        return x < y;
    }
    number::read_be_u64(a, k + 8) < number::read_be_u64(b, k + 8)
}

// Whether the suffix of the slot at `at` is below that of `b`, both with the heads that their suffixes have. Suffixes of one length
// are compared by words, read where they stand: both are long. Inlined for the sweep, as `above`.
#[inline(always)]
pub(crate) fn rises(p: &[u8], at: usize, b: Slot) -> bool
    requires { (at + 8 ≤ length p.now) × Honest p.now (slot_at p.now at) × Honest p.now b }
    ensures { result ≡ true → less (suffix_of p.now (slot_at p.now at)) (suffix_of p.now b) ≡ true }
{
    if (number::read_u16(p, at) != b.len) | (b.len < 16) {
        return suffix::below(p, header::read_slot(p, at), b);
    }
    let n = b.len as usize;
    let i = 96 + (number::read_u16(p, at + 2) as usize);
    let j = 96 + (b.offset as usize);
    words_below(&p[i..i + n], &p[j..j + n])
}
