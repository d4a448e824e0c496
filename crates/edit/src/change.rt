// Change key.
// Page, header and width stay parameters for the reason that stands in insert.rt.
ghost use Rattle.std.specs.Prelude.{◌≡◌, ◌+◌, ◌*◌, ◌≤◌, length};
ghost use Rattle.paper.specs.Page.{header_of};
ghost use Rattle.paper.specs.Calls.{room_for_key, change_of, change_page};
ghost use Rattle.edit.specs.Tested.{Tested};
ghost use Rattle.edit.specs.Changed.{change_with, page_with};

use crate::neighbours;
use node::header;
use paper::page::Header;
use paper::refusal::Refusal;
use search::{fence, probe};
use verdict::fit;
use write::change;

// Whether the free space takes the new payload of a suffix for slot `i`, where it needs one.
#[tactic(auto, using(crate::proofs::Changes::by_room))]
fn has_room(p: &[u8], h: Header, width: u8, i: usize, suffix: &[u8]) -> bool
    requires { (h ≡ header_of p.now) × (h.start ≤ h.end) × (104 + 8 * i ≤ length p.now) }
    ensures { result ≡ room_for_key width p.now i suffix.now }
{
    if !change::outgrows(header::read_slot(p, 96 + 8 * i), suffix) {
        return true;
    }
    suffix.len() + (width as usize) <= ((h.end - h.start) as usize)
}

// Whether slot `i` of a page that is fit and has this header may take the key. Refuses 8, 9, 10, 12, 13.
#[tactic(auto, using(crate::proofs::Changes::by_tests))]
fn judge(p: &[u8], h: Header, width: u8, i: usize, key: &[u8]) -> Result<(), Refusal>
    requires { Tested width p.now (length key.now) × (h ≡ header_of p.now) }
    ensures { result ≡ change_with width p.now i key.now }
{
    if !probe::within(p, h.prefix_len, key) {
        return Err(Refusal::Prefix);
    }
    let suffix = probe::suffix(p, key);
    if !fence::inside(p, suffix) {
        return Err(Refusal::OutsideFences);
    }
    if (h.count as usize) <= i {
        return Err(Refusal::SlotNumber);
    }
    if !neighbours::between(p, h.count, i, suffix) {
        return Err(Refusal::Neighbours);
    }
    if !has_room(p, h, width, i, suffix) {
        return Err(Refusal::NoRoom);
    }
    Ok(())
}

// The call on a page that is fit and has this header: judged, then written.
fn change_fit(p: &mut [u8], h: Header, width: u8, i: usize, key: &[u8]) -> Result<(), Refusal>
    requires { Tested width p.old (length key.now) × (h ≡ header_of p.old) }
    ensures value { result ≡ change_with width p.old i key.now }
    ensures p_after { p.new ≡ page_with width p.old i key.now }
{
    judge(p, h, width, i, key)?;
    let suffix = probe::suffix(p, key);
    change::change_at(p, h, width, i, suffix);
    Ok(())
}

// Gives slot `i` another key and keeps its value; the same key again is accepted. Refuses 1, 2, 3, 5, 8, 9, 10, 12, 13, and a
// refusal leaves the page as it was.
pub fn change_key(p: &mut [u8], width: u8, i: usize, key: &[u8]) -> Result<(), Refusal>
    ensures value { result ≡ change_of width p.old i key.now }
    ensures p_after { p.new ≡ change_page width p.old i key.now }
{
    let h = fit::admit_fit(p, width, key.len())?;
    change_fit(p, h, width, i, key)
}
