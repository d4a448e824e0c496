// Entry: the value, and the key by way of its view.
ghost use Rattle.std.specs.Prelude.{◌≡◌};
ghost use Rattle.paper.specs.Calls.{copy_buffer};
ghost use Rattle.view.specs.Entries.{shown_entry};

use crate::key::KeyView;
use node::{admit, entry};
use octets::{number, value};
use paper::refusal;
use paper::refusal::Refusal;

// The value of an entry and the length of its key.
#[derive(Clone, Copy)]
pub struct EntryShown {
    pub value: u64,
    pub key_len: usize,
}

// Shows entry `i`: answers its value and its key's length, and writes the key to the front of `out` and no other byte. Refuses
// 1, 2, 4, 10, 14, and 15 where `out` is too short; a refusal leaves `out` as it was.
#[tactic(auto, using(crate::proofs::Entering::ways), unfolding(paper::specs::Refusals::refusal_of))]
pub fn entry(p: &[u8], width: u8, i: usize, out: &mut [u8]) -> Result<EntryShown, Refusal>
    ensures value { result ≡ shown_entry width p.now i out.old }
    ensures out_after { out.new ≡ copy_buffer width p.now i out.old }
{
    admit::admit(p, width, 0)?;
    let read = entry::open_entry(p, width, i);
    let Ok(s) = read else {
        return Err(refusal::refusal_of(read));
    };
    let prefix_len = number::read_u16(p, 46);
    let shown = KeyView::new(p, prefix_len, s);
    let key_len = shown.len();
    if out.len() < key_len {
        return Err(Refusal::BufferLength);
    }
    let value = value::read_value(p, entry::value_at(s), width as usize);
    shown.copy(out);
    Ok(EntryShown { value, key_len })
}
