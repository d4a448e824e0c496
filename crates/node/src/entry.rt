// Entries: the tests of every entry read, and the entry itself.
ghost use Rattle.std.specs.Prelude.{◌≡◌, Ok};
ghost use Rattle.paper.specs.Calls.{read_entry};
ghost use Rattle.paper.specs.Page.{value_at};
ghost use Rattle.node.specs.Admit.{admit_of, opened_of};

use crate::{admit, slots};
use octets::{number, value};
use paper::answers::EntryRead;
use paper::page::Slot;
use paper::refusal;
use paper::refusal::Refusal;

// Slot `i` of a page that `admit::admit` admits: 10 and 14 in this order; else the slot.
#[tactic(auto, using(crate::proofs::Entries::opening))]
pub fn open_entry(p: &[u8], width: u8, i: usize) -> Result<Slot, Refusal>
    requires { admit_of width p.now 0 ≡ Ok tt }
    ensures { result ≡ opened_of width p.now i }
{
    slots::visit_slot(p, number::read_u16(p, 2), number::read_u16(p, 6), width, i)
}

// Where on the page the value of a slot stands.
pub fn value_at(s: Slot) -> usize
    ensures { result ≡ value_at s }
{
    96 + (s.offset as usize) + slots::suffix_bytes(s.len)
}

// Entry `i`: its slot and its value. Refuses 1, 2, 4, 10, 14.
#[tactic(auto, using(crate::proofs::Entries::reading), unfolding(paper::specs::Refusals::refusal_of))]
pub fn entry(p: &[u8], width: u8, i: usize) -> Result<EntryRead, Refusal>
    ensures { result ≡ read_entry width p.now i }
{
    admit::admit(p, width, 0)?;
    let read = open_entry(p, width, i);
    let Ok(slot) = read else {
        return Err(refusal::refusal_of(read));
    };
    let value = value::read_value(p, value_at(slot), width as usize);
    Ok(EntryRead { slot, value })
}
