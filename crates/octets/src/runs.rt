// Runs of bytes: copied into a page, and moved within it by the eight bytes of a slot.
// Up and down stay two functions: each promises one `put`, and a caller moves in one direction only.
#![tactic(auto, using(crate::proofs::Methods::runs))]

ghost use Rattle.std.specs.Prelude.{◌≡◌, ◌+◌, ◌-◌, ◌≤◌, length};
ghost use Rattle.octets.specs.Bytes.{part, put};

// All of `src` into `p` from `at` on. The compiler makes `memcpy` of this loop, and `memmove` of std's `copy_from_slice`: a library that is
// linked to C asks for no more than `memcpy` and `memset`, and short keys are copied by fewer instructions.
#[tactic(auto, using(crate::proofs::Turns::copying))]
pub fn copy_in(p: &mut [u8], at: usize, src: &[u8])
    requires { at + length src.now ≤ length p.old }
    ensures { p.new ≡ put p.old at src.now }
{
    for j in 0..src.len() {
        p[at + j] = src[j];
    }
}

// The bytes at..end, moved up by eight; the bytes at..at + 8 keep what they had.
pub fn move_up_8(p: &mut [u8], at: usize, end: usize)
    requires { (at ≤ end) × (end + 8 ≤ length p.old) }
    ensures { p.new ≡ put p.old (at + 8) (part (end - at) p.old at) }
{
    p.copy_within(at..end, at + 8);
}

// The bytes at + 8..end, moved down by eight; the last eight bytes keep what they had.
pub fn move_down_8(p: &mut [u8], at: usize, end: usize)
    requires { (at + 8 ≤ end) × (end ≤ length p.old) }
    ensures { p.new ≡ put p.old at (part (end - (at + 8)) p.old (at + 8)) }
{
    p.copy_within(at + 8..end, at);
}
