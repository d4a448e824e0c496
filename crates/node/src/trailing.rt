// The trailing id: the last eight bytes of a key.
ghost use Rattle.std.specs.Prelude.{◌≡◌, ◌++◌, ◌+◌, ◌-◌, ◌≤◌, length};
ghost use Rattle.octets.specs.Bytes.{be};
ghost use Rattle.paper.specs.Page.{prefix_of, suffix_of, body_bytes};
ghost use Rattle.paper.specs.Calls.{trailing_of};

use crate::{admit, entry, key};
use octets::{number, runs};
use paper::page::Slot;
use paper::refusal;
use paper::refusal::Refusal;

// The last eight bytes of a key whose suffix is shorter: the end of the prefix, then the suffix.
#[tactic(auto, using(crate::proofs::Trails::acrosses))]
fn across(p: &[u8], prefix_len: u16, s: Slot) -> u64
    requires { (16384 ≤ length p.now) × (prefix_len ≤ 16256) × (s.len ≤ 8) × (8 ≤ prefix_len + s.len) × (96 + s.offset + body_bytes 4 s.len ≤ length p.now) }
    ensures { result ≡ be 8 (prefix_of p.now prefix_len ++ suffix_of p.now s) (prefix_len + s.len - 8) }
{
    let n = 8 - (s.len as usize);
    let front = key::prefix(p, prefix_len);
    let mut tail = [0u8; 8];
    runs::copy_in(&mut tail, 0, &front[(prefix_len as usize) - n..]);
    key::put_suffix(p, s, &mut tail, n);
    number::read_be_u64(&tail, 0)
}

// The trailing id of entry `i`. Refuses 1, 2, 4, 10, 14, and 16 where its key is under 8 bytes.
#[tactic(auto, using(crate::proofs::Trails::trailing), unfolding(paper::specs::Refusals::refusal_of))]
pub fn trailing_id(p: &[u8], width: u8, i: usize) -> Result<u64, Refusal>
    ensures { result ≡ trailing_of width p.now i }
{
    admit::admit(p, width, 0)?;
    let read = entry::open_entry(p, width, i);
    let Ok(s) = read else {
        return Err(refusal::refusal_of(read));
    };
    let prefix_len = number::read_u16(p, 46);
    if key::key_len(prefix_len, s) < 8 {
        return Err(Refusal::ShortKey);
    }
    if 8 < s.len {
        return Ok(number::read_be_u64(p, 88 + key::suffix_end(s)));
    }
    Ok(across(p, prefix_len, s))
}
