// Set value: the value of a slot written over.
// Page and width stay parameters for the reason that stands in insert.rt.
ghost use Rattle.std.specs.Prelude.{◌≡◌, ◌+◌, ◌*◌, ◌≤◌, length};
ghost use Rattle.paper.specs.Page.{slot_of};
ghost use Rattle.paper.specs.Space.{payload_bytes};
ghost use Rattle.paper.specs.Edits.{value_set};

use node::{entry, header};
use octets::value;

// The value of slot `i`, and no other byte.
pub fn set_at(p: &mut [u8], width: u8, i: usize, value: u64)
    requires { (16384 ≤ length p.old) × (8 * i + 8 ≤ 16256) × ((slot_of p.old i).offset + payload_bytes width (slot_of p.old i).len ≤ 16256) }
    ensures { p.new ≡ value_set width p.old i value }
{
    let s = header::read_slot(p, 96 + 8 * i);
    value::write_value(p, entry::value_at(s), width as usize, value);
}
