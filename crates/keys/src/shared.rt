// What two keys share: the length of their longest common prefix, whether they are equal, whether one begins with the
// other, and their order.
// `equal` and `begins_with` are std's methods under names whose promise is the paper's definition; other crates call all four.
#![tactic(auto, using(crate::proofs::Methods::comparing))]

ghost use Rattle.std.specs.Prelude.{◌≡◌, ◌+◌, ◌≤◌, leb, length};
ghost use Rattle.keys.specs.Keys.{begins, common, order, same_list};
ghost use Rattle.keys.specs.Walk.{Near, Reach};

use crate::order;
use octets::number;
use std::cmp::Ordering;

// Whether the `N` bytes from `i` on agree, where those before them do.
#[tactic(auto, using(crate::proofs::Methods::agreeing))]
fn agree<const N: usize>(a: &[u8], b: &[u8], i: usize) -> bool
    requires { (i + N ≤ length a.now) × (i + N ≤ length b.now) × (i ≤ common a.now b.now) }
    ensures { result ≡ leb (i + N) (common a.now b.now) }
{
    number::array::<N>(a, i) == number::array::<N>(b, i)
}

// The half with the first difference: `N` bytes of twice as many.
fn half<const N: usize>(a: &[u8], b: &[u8], i: usize) -> usize
    requires { Near a.now b.now i (N + N) }
    ensures { Near a.now b.now result N }
{
    if agree::<N>(a, b, i) {
        return i + N;
    }
    i
}

// The first difference among eight bytes, by halves.
fn halves(a: &[u8], b: &[u8], i: usize) -> usize
    requires { Near a.now b.now i 8 }
    ensures { result ≡ common a.now b.now }
{
    let j = half::<4>(a, b, i);
    let k = half::<2>(a, b, j);
    half::<1>(a, b, k)
}

// A number of bytes that agree, in steps of 32.
fn blocks(a: &[u8], b: &[u8], n: usize) -> usize
    requires { (n ≤ length a.now) × (n ≤ length b.now) }
    ensures { (result ≤ n) × (result ≤ common a.now b.now) }
{
    for k in 0..n / 32 {
        if !agree::<32>(a, b, 32 * k) {
            return 32 * k;
        }
    }
    n / 32 * 32
}

// Where a walk by words begins: keys of 64 bytes and more go by blocks first.
#[inline(always)]
pub(crate) fn first(a: &[u8], b: &[u8], n: usize) -> usize
    requires { Reach a.now b.now 0 n }
    ensures { Reach a.now b.now result n }
{
    if n < 64 {
        return 0;
    }
    blocks(a, b, n)
}

// Words of eight bytes, the last one up to the end.
fn words(a: &[u8], b: &[u8], from: usize, n: usize) -> usize
    requires { (8 ≤ n) × Reach a.now b.now from n }
    ensures { result ≡ common a.now b.now }
{
    for k in 0..(n - from) / 8 {
        let i = from + 8 * k;
        if !agree::<8>(a, b, i) {
            return halves(a, b, i);
        }
    }
    let last = n - 8;
    if !agree::<8>(a, b, last) {
        return halves(a, b, last);
    }
    n
}

// Fewer than eight bytes, one by one.
fn singles(a: &[u8], b: &[u8], n: usize) -> usize
    requires { Reach a.now b.now 0 n }
    ensures { result ≡ common a.now b.now }
{
    for i in 0..n {
        if !agree::<1>(a, b, i) {
            return i;
        }
    }
    n
}

// How many leading bytes two keys share.
// By blocks and words: std's `zip` and `position` take eight instructions a byte, the words seven for eight bytes.
pub fn common_prefix_len(a: &[u8], b: &[u8]) -> usize
    ensures { result ≡ common a.now b.now }
{
    let n = a.len().min(b.len());
    if n < 8 {
        return singles(a, b, n);
    }
    words(a, b, first(a, b, n), n)
}

// Whether two keys hold the same bytes.
pub fn equal(a: &[u8], b: &[u8]) -> bool
    ensures { result ≡ same_list a.now b.now }
{
    a == b
}

// Whether `a` begins with `b`.
pub fn begins_with(a: &[u8], b: &[u8]) -> bool
    ensures { result ≡ begins a.now b.now }
{
    a.starts_with(b)
}

// How `a` stands to `b`; a search that halves calls `order::compare` itself, so that it melts into the loop.
pub fn order_by_shared(a: &[u8], b: &[u8]) -> Ordering
    ensures { result ≡ order a.now b.now }
{
    order::compare(a, b)
}
