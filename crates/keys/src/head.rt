// The head of a suffix.
#![tactic(auto, unfolding(crate::specs::Keys::head_of))]

ghost use Rattle.std.specs.Prelude.{◌≡◌, get_or};
ghost use Rattle.keys.specs.Keys.{head_of};

use octets::number;

// The byte at `i`, 0 past the end.
fn padded(s: &[u8], i: usize) -> u8
    ensures { result ≡ get_or s.now i 0 }
{
    s.get(i).copied().unwrap_or(0)
}

// The head of a suffix shorter than a head.
#[tactic(auto, using(crate::proofs::Methods::head_four))]
fn head_short(s: &[u8]) -> u32
    ensures { result ≡ head_of s.now }
{
    u32::from_be_bytes([padded(s, 0), padded(s, 1), padded(s, 2), padded(s, 3)])
}

// The first four bytes of a suffix, zero padded, as a big-endian number.
pub fn head_int(s: &[u8]) -> u32
    ensures { result ≡ head_of s.now }
{
    if s.len() < 4 {
        return head_short(s);
    }
    number::read_be_u32(s, 0)
}
