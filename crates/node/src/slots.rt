// Slots that are visited. Page, count and end stay parameters: each caller reads the two numbers in its own way, and shows no more.
ghost use Rattle.std.specs.Prelude.{◌≡◌, ◌*◌, ◌≤◌, length};
ghost use Rattle.paper.specs.Page.{body_bytes};
ghost use Rattle.paper.specs.Verdicts.{slot_payload, within};
ghost use Rattle.node.specs.Admit.{slot_read_of};

use crate::{header, space};
use paper::page::Slot;
use paper::refusal::Refusal;

// The bytes of the body that a suffix of `len` bytes takes.
pub fn suffix_bytes(len: u16) -> usize
    ensures { (result ≡ body_bytes 4 len) × (result ≤ 65535) }
{
    space::body_bytes(4, len as usize)
}

// Whether the payload of a slot lies in end..16,256.
#[tactic(auto, unfolding(paper::specs::Verdicts::within))]
pub fn payload_within(s: Slot, end: u16, width: u8) -> bool
    ensures { result ≡ within end (slot_payload width s) }
{
    let n = suffix_bytes(s.len);
    (end <= s.offset) & ((s.offset as usize) + (n + (width as usize)) <= 16256)
}

// Slot `i` of `count`: 10 where it is not there, 14 where its payload lies outside end..16,256.
#[tactic(auto, using(crate::proofs::Admits::visiting))]
pub fn visit_slot(p: &[u8], count: u16, end: u16, width: u8, i: usize) -> Result<Slot, Refusal>
    requires { (16384 ≤ length p.now) × (8 * count ≤ 16256) }
    ensures { result ≡ slot_read_of width p.now count end i }
{
    if (count as usize) <= i {
        return Err(Refusal::SlotNumber);
    }
    let s = header::read_slot(p, 96 + 8 * i);
    if !payload_within(s, end, width) {
        return Err(Refusal::Payload);
    }
    Ok(s)
}
