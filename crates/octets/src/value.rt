// A number whose width is known only when the call is made: 0, 1 or 8 bytes on a page, and any other
// width by the same proof.
ghost use Rattle.std.specs.Prelude.{◌≡◌, ◌+◌, ◌≤◌, ◌<◌, min, length};
ghost use Rattle.octets.specs.Bytes.{le, bytes, put};

use crate::number;

// A width below eight, byte by byte from the highest.
#[tactic(auto, using(crate::proofs::Turns::reading), unfolding(crate::specs::Bytes::le))]
fn read_narrow(p: &[u8], at: usize, width: usize) -> u64
    requires { (at + width ≤ length p.now) × (width < 8) }
    ensures { result ≡ le width p.now at }
{
    let mut v: u64 = 0;
    for i in (0..width).rev() {
        v = number::byte(p, at + i) + 256 * v;
    }
    v
}

// The little-endian number in the `width` bytes from `at` on; of a width above eight, its eight lowest bytes.
#[tactic(auto, using(crate::proofs::Little::widths))]
pub fn read_value(p: &[u8], at: usize, width: usize) -> u64
    requires { at + width ≤ length p.now }
    ensures { result ≡ le (min width 8) p.now at }
{
    if width < 8 {
        return read_narrow(p, at, width);
    }
    number::read_u64(p, at)
}

// Any width, byte by byte from the lowest.
#[tactic(auto, using(crate::proofs::Turns::writing))]
fn write_bytes(p: &mut [u8], at: usize, width: usize, v: u64)
    requires { at + width ≤ length p.old }
    ensures { p.new ≡ put p.old at (bytes width v) }
{
    let mut rest = v;
    for byte in p[at..at + width].iter_mut() {
        *byte = (rest % 256) as u8;
        rest /= 256;
    }
}

// The `width` lowest bytes of `v` from `at` on, lowest first.
pub fn write_value(p: &mut [u8], at: usize, width: usize, v: u64)
    requires { at + width ≤ length p.old }
    ensures { p.new ≡ put p.old at (bytes width v) }
{
    if width == 8 {
        number::write_u64(p, at, v);
        return;
    }
    write_bytes(p, at, width, v);
}
