// Insert: an entry filed where its key belongs.
// Page, width and key stay parameters with `Tested`: a struct that lends the page to a write would owe its fit again after the write.
// Functions that only read take them so too: they hand page and width on to others that do, and the facts are the one predicate.
ghost use Rattle.std.specs.Prelude.{◌≡◌, ◌≤◌, length, Ok};
ghost use Rattle.paper.specs.Calls.{insert_of, insert_page};
ghost use Rattle.edit.specs.Tested.{Tested};
ghost use Rattle.edit.specs.Inserts.{insert_with, inserted_with, room_with, place_by};
ghost use Rattle.paper.specs.declared.refusal.Refusal.{Refusal};
ghost use Rattle.paper.specs.declared.answers.Found.{Found};
ghost use Rattle.paper.specs.declared.answers.Found.TheVariants.{Smaller};

use crate::values;
use node::space;
use octets::number;
use paper::answers::Found;
use paper::refusal::Refusal;
use search::{fence, find, probe};
use verdict::fit;
use write::insert;

// Whether there is room from start to end for an entry whose suffix has `n` bytes.
#[tactic(auto, using(crate::proofs::Inserted::room_is))]
fn has_room(start: u16, end: u16, width: u8, n: usize) -> bool
    requires { (start ≤ end) × (n ≤ 65535) }
    ensures { result ≡ room_with width start end n }
{
    8 + (width as usize) + space::body_bytes(4, n) <= (end - start) as usize
}

// The slot for a key, by what a search found: 11, 13.
#[tactic(auto, unfolding(crate::specs::Inserts::place_by, keys::specs::Choice::pick))]
fn place_by(room: bool, f: Found) -> Result<usize, Refusal>
    ensures { result ≡ place_by room (Ok f) }
{
    let Found::Smaller(i) = f else {
        return Err(Refusal::Present);
    };
    if !room {
        return Err(Refusal::NoRoom);
    }
    Ok(i)
}

// The slot for a key on a page that is fit: 7, 8, 9, 11, 13.
#[tactic(auto, using(crate::proofs::Inserted::by_place))]
fn place(p: &[u8], width: u8, key: &[u8], value: u64) -> Result<usize, Refusal>
    requires { Tested width p.now (length key.now) }
    ensures { result ≡ insert_with width p.now key.now value }
{
    if !values::fits_width(width, value) {
        return Err(Refusal::ValueRange);
    }
    if !probe::within(p, number::read_u16(p, 46), key) {
        return Err(Refusal::Prefix);
    }
    let suffix = probe::suffix(p, key);
    if !fence::inside(p, suffix) {
        return Err(Refusal::OutsideFences);
    }
    let room = has_room(
        number::read_u16(p, 4),
        number::read_u16(p, 6),
        width,
        suffix.len(),
    );
    let found = find::find_at(p, width, suffix)?;
    place_by(room, found)
}

// Insert on a page that is fit: 7, 8, 9, 11, 13. The header is read where it is edited, since one that is handed on goes through memory.
pub fn insert_fit(p: &mut [u8], width: u8, key: &[u8], value: u64) -> Result<usize, Refusal>
    requires { Tested width p.old (length key.now) }
    ensures value { result ≡ insert_with width p.old key.now value }
    ensures p_after { p.new ≡ inserted_with width p.old key.now value }
{
    let i = place(p, width, key, value)?;
    let suffix = probe::suffix(p, key);
    insert::insert_at(p, width, i, suffix, value);
    Ok(i)
}

// Files a key with its value, and answers its slot number. Refuses 1, 2, 3, 5, 7, 8, 9, 11, 13, and a refusal leaves the page as it was.
pub fn insert(p: &mut [u8], width: u8, key: &[u8], value: u64) -> Result<usize, Refusal>
    ensures value { result ≡ insert_of width p.old key.now value }
    ensures p_after { p.new ≡ insert_page width p.old key.now value }
{
    fit::admit_fit(p, width, key.len())?;
    insert_fit(p, width, key, value)
}
