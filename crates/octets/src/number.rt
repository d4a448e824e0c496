// Whole numbers of one, two, four and eight bytes at a place.
// Each size keeps its line: std's conversions to and from bytes have no trait, and the impls of one of our own would be these lines again.
#![tactic(auto, using(crate::proofs::Methods::numbers))]

ghost use Rattle.std.specs.Prelude.{◌≡◌, ◌+◌, ◌≤◌, ◌<◌, length, get_or};
ghost use Rattle.octets.specs.Bytes.{le, be, part, bytes, put};

use crate::runs;

// The byte at `at`, as a wide number, with its bound: `read_u8` promises the number alone.
pub fn byte(p: &[u8], at: usize) -> u64
    requires { at + 1 ≤ length p.now }
    ensures { (result ≡ get_or p.now at 0) × (result < 256) }
{
    u64::from(p[at])
}

// The `N` bytes from `at` on, as an array.
#[tactic(auto, unfolding(crate::specs::Bytes::part))]
pub fn array<const N: usize>(p: &[u8], at: usize) -> [u8; N]
    requires { at + N ≤ length p.now }
    ensures { result ≡ part N p.now at }
{
    <[u8; N]>::try_from(&p[at..at + N]).unwrap()
}

// The byte at `at`.
pub fn read_u8(p: &[u8], at: usize) -> u8
    requires { at + 1 ≤ length p.now }
    ensures { result ≡ le 1 p.now at }
{
    p[at]
}

// The little-endian number in the two bytes from `at` on.
pub fn read_u16(p: &[u8], at: usize) -> u16
    requires { at + 2 ≤ length p.now }
    ensures { result ≡ le 2 p.now at }
{
    u16::from_le_bytes(array(p, at))
}

// The little-endian number in the four bytes from `at` on.
pub fn read_u32(p: &[u8], at: usize) -> u32
    requires { at + 4 ≤ length p.now }
    ensures { result ≡ le 4 p.now at }
{
    u32::from_le_bytes(array(p, at))
}

// The little-endian number in the eight bytes from `at` on.
pub fn read_u64(p: &[u8], at: usize) -> u64
    requires { at + 8 ≤ length p.now }
    ensures { result ≡ le 8 p.now at }
{
    u64::from_le_bytes(array(p, at))
}

// The big-endian number in the four bytes from `at` on.
pub fn read_be_u32(p: &[u8], at: usize) -> u32
    requires { at + 4 ≤ length p.now }
    ensures { result ≡ be 4 p.now at }
{
    u32::from_be_bytes(array(p, at))
}

// The big-endian number in the eight bytes from `at` on: one load and a byte swap, where the compiler makes eight loads of `from_be_bytes`.
pub fn read_be_u64(p: &[u8], at: usize) -> u64
    requires { at + 8 ≤ length p.now }
    ensures { result ≡ be 8 p.now at }
{
    read_u64(p, at).swap_bytes()
}

// `v` into the byte at `at`.
pub fn write_u8(p: &mut [u8], at: usize, v: u8)
    requires { at + 1 ≤ length p.old }
    ensures { p.new ≡ put p.old at (bytes 1 v) }
{
    p[at] = v;
}

// `v` into the two bytes from `at` on, lowest first.
pub fn write_u16(p: &mut [u8], at: usize, v: u16)
    requires { at + 2 ≤ length p.old }
    ensures { p.new ≡ put p.old at (bytes 2 v) }
{
    runs::copy_in(p, at, &v.to_le_bytes());
}

// `v` into the four bytes from `at` on, lowest first.
pub fn write_u32(p: &mut [u8], at: usize, v: u32)
    requires { at + 4 ≤ length p.old }
    ensures { p.new ≡ put p.old at (bytes 4 v) }
{
    runs::copy_in(p, at, &v.to_le_bytes());
}

// `v` into the eight bytes from `at` on, lowest first.
pub fn write_u64(p: &mut [u8], at: usize, v: u64)
    requires { at + 8 ≤ length p.old }
    ensures { p.new ≡ put p.old at (bytes 8 v) }
{
    runs::copy_in(p, at, &v.to_le_bytes());
}
