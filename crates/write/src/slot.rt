// Slots: the eight bytes of one, written, and moved in between the others.
ghost use Rattle.std.specs.Prelude.{◌≡◌, ◌+◌, ◌*◌, ◌≤◌, length};
ghost use Rattle.octets.specs.Bytes.{put};
ghost use Rattle.paper.specs.Edits.{slot_bytes, slot_for, slot_in};

use crate::suffix::Suffix;
use octets::{number, runs};
use paper::page::Slot;

// The slot of a suffix whose payload begins at `offset` of the body.
pub(crate) fn slot_for(suffix: &Suffix<'_>, offset: u16) -> Slot
    ensures { result ≡ slot_for suffix.now offset }
{
    Slot {
        len: suffix.len() as u16,
        offset,
        head: suffix.head(),
    }
}

// A slot into the eight bytes from `at` on.
pub fn write_slot(p: &mut [u8], at: usize, s: Slot)
    requires { at + 8 ≤ length p.old }
    ensures { p.new ≡ put p.old at (slot_bytes s) }
{
    number::write_u16(p, at, s.len);
    number::write_u16(p, at + 2, s.offset);
    number::write_u32(p, at + 4, s.head);
}

// A slot as number `i` of `count`: the later ones move up one.
pub(crate) fn move_in(p: &mut [u8], count: u16, i: usize, s: Slot)
    requires { (i ≤ count) × (104 + 8 * count ≤ length p.old) }
    ensures { p.new ≡ slot_in p.old count i s }
{
    let at = 96 + 8 * i;
    runs::move_up_8(p, at, 96 + 8 * (count as usize));
    write_slot(p, at, s);
}
