// Set value: the value of a key replaced where the old one is as expected.
// Page, width, key and both values stay parameters for the reason that stands in insert.rt.
ghost use Rattle.std.specs.Prelude.{◌≡◌, ◌+◌, ◌*◌, ◌≤◌, length};
ghost use Rattle.paper.specs.Page.{slot_of};
ghost use Rattle.paper.specs.Space.{payload_bytes};
ghost use Rattle.paper.specs.Calls.{set_of, set_page};
ghost use Rattle.edit.specs.Tested.{Tested};
ghost use Rattle.edit.specs.Sets.{held_with, held_at, set_with, value_set_with};

use crate::values;
use node::{entry, header};
use octets::{number, value};
use paper::answers::Found;
use paper::refusal::Refusal;
use search::{find, probe};
use verdict::fit;
use write::set;

// Slot `i` where its value is the expected one: 18.
#[tactic(auto, using(crate::proofs::Replaced::by_slot))]
fn held_at(p: &[u8], width: u8, i: usize, expected: u64) -> Result<usize, Refusal>
    requires { (16384 ≤ length p.now) × (width ≤ 8) × (8 * i + 8 ≤ 16256) × ((slot_of p.now i).offset + payload_bytes width (slot_of p.now i).len ≤ 16256) }
    ensures { result ≡ held_at width p.now i expected }
{
    let s = header::read_slot(p, 96 + 8 * i);
    let v = value::read_value(p, entry::value_at(s), width as usize);
    if v != expected {
        return Err(Refusal::OtherValue(v));
    }
    Ok(i)
}

// The slot that holds a key with the expected value, on a page that is fit: 7, 8, 17, 18.
#[tactic(auto, using(crate::proofs::Replaced::by_search))]
fn find_held(p: &[u8], width: u8, key: &[u8], expected: u64, new: u64) -> Result<usize, Refusal>
    requires { Tested width p.now (length key.now) }
    ensures { result ≡ held_with width p.now key.now expected new }
{
    if !values::fits_width(width, expected) {
        return Err(Refusal::ValueRange);
    }
    if !values::fits_width(width, new) {
        return Err(Refusal::ValueRange);
    }
    if !probe::within(p, number::read_u16(p, 46), key) {
        return Err(Refusal::Prefix);
    }
    let found = find::find_at(p, width, probe::suffix(p, key))?;
    match found {
        Found::Equal(i) => held_at(p, width, i, expected),
        Found::Smaller(_) => Err(Refusal::NotFound),
    }
}

// Set value on a page that is fit: 7, 8, 17, 18.
fn set_fit(p: &mut [u8], width: u8, key: &[u8], expected: u64, new: u64) -> Result<u64, Refusal>
    requires { Tested width p.old (length key.now) }
    ensures value { result ≡ set_with width p.old key.now expected new }
    ensures p_after { p.new ≡ value_set_with width p.old key.now expected new }
{
    let i = find_held(p, width, key, expected, new)?;
    set::set_at(p, width, i, new);
    Ok(expected)
}

// Replaces the value of a key where it is the expected one, and answers the old value. Refuses 1, 2, 3, 5, 7 (of both values), 8, 17, 18, which
// carries the stored value, and a refusal leaves the page as it was.
pub fn set_value(
    p: &mut [u8],
    width: u8,
    key: &[u8],
    expected: u64,
    new: u64,
) -> Result<u64, Refusal>
    ensures value { result ≡ set_of width p.old key.now expected new }
    ensures p_after { p.new ≡ set_page width p.old key.now expected new }
{
    fit::admit_fit(p, width, key.len())?;
    set_fit(p, width, key, expected, new)
}
