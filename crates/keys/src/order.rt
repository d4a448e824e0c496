// The order of two keys, and of two numbers.
// Numbers by std's `cmp`. Keys by words: std's `cmp` of two slices goes on byte by byte in the word that differs, and a search
// compares keys at every slot that it meets.
#![tactic(auto, using(crate::proofs::Methods::comparing))]

ghost use Rattle.std.specs.Prelude.{◌≡◌, ◌≤◌, ◌<◌};
ghost use Rattle.std.specs.declared.cmp.Ordering.TheVariants.{Equal};
ghost use Rattle.keys.specs.Keys.{by_number, order};
ghost use Rattle.keys.specs.Walk.{Reach};

use crate::shared;
use octets::number;
use std::cmp::Ordering;

// The order of two numbers.
pub fn by_number(x: u64, y: u64) -> Ordering
    ensures { result ≡ by_number x y Equal }
{
    x.cmp(&y)
}

// Four to seven bytes: two words of four, the second up to the end.
fn few(a: &[u8], b: &[u8], n: usize) -> Ordering
    requires { (4 ≤ n) × (n < 8) × Reach a.now b.now 0 n }
    ensures { result ≡ order a.now b.now }
{
    let (x, y) = (number::read_be_u32(a, 0), number::read_be_u32(b, 0));
    if x != y {
        return by_number(x as u64, y as u64);
    }
    let (u, v) = (number::read_be_u32(a, n - 4), number::read_be_u32(b, n - 4));
    if u != v {
        return by_number(u as u64, v as u64);
    }
    by_number(a.len() as u64, b.len() as u64)
}

// Words of eight bytes, the last one up to the end.
fn words(a: &[u8], b: &[u8], from: usize, n: usize) -> Ordering
    requires { (8 ≤ n) × Reach a.now b.now from n }
    ensures { result ≡ order a.now b.now }
{
    for k in 0..(n - from) / 8 {
        let i = from + 8 * k;
        let (x, y) = (number::read_be_u64(a, i), number::read_be_u64(b, i));
        if x != y {
            return by_number(x, y);
        }
    }
    let (u, v) = (number::read_be_u64(a, n - 8), number::read_be_u64(b, n - 8));
    if u != v {
        return by_number(u, v);
    }
    by_number(a.len() as u64, b.len() as u64)
}

// The order of two keys: unsigned bytes, a proper prefix below. It melts into its callers in the library, the halving search and `order_by_shared`.
#[inline(always)]
pub fn compare(a: &[u8], b: &[u8]) -> Ordering
    ensures { result ≡ order a.now b.now }
{
    let n = a.len().min(b.len());
    if n < 4 {
        return a.cmp(b);
    }
    if n < 8 {
        return few(a, b, n);
    }
    words(a, b, shared::first(a, b, n), n)
}
