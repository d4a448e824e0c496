// The tests that every read begins with: the page's length, the width, the key's length, the header rules.
ghost use Rattle.std.specs.Prelude.{◌≡◌};
ghost use Rattle.paper.specs.Calls.{is_width};
ghost use Rattle.node.specs.Admit.{admit_of};

use crate::header;
use paper::refusal::Refusal;

// Whether a width is 0, 1 or 8: a number, as document 01 and the C functions hand it in.
#[tactic(auto, unfolding(paper::specs::Calls::is_width))]
pub fn known_width(width: u8) -> bool
    ensures { result ≡ is_width width }
{
    matches!(width, 0 | 1 | 8)
}

// Whether a page may be read by a call whose key has `key_len` bytes: 1, 2, 3 and 4 in this order. The header stays where it is: a
// call that goes on reads the numbers that it needs.
#[tactic(auto, using(crate::proofs::Admits::admitting), unfolding(paper::specs::Refusals::judge, crate::specs::Admit::admit_of))]
pub fn admit(p: &[u8], width: u8, key_len: usize) -> Result<(), Refusal>
    ensures { result ≡ admit_of width p.now key_len }
{
    if p.len() != 16384 {
        return Err(Refusal::PageLength);
    }
    if !known_width(width) {
        return Err(Refusal::Width);
    }
    if 65535 < key_len {
        return Err(Refusal::KeyLength);
    }
    if !header::rules_hold(header::read_header(p)) {
        return Err(Refusal::HeaderRules);
    }
    Ok(())
}
