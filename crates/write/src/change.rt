// Change key: another suffix for a slot, in place or, where it outgrows the old one, in a new payload.
// Page, header and width stay parameters for the reason that stands in insert.rt.
ghost use Rattle.std.specs.Prelude.{◌≡◌, true, ◌+◌, ◌-◌, ◌*◌, ◌≤◌, length};
ghost use Rattle.octets.specs.Bytes.{le, put};
ghost use Rattle.keys.specs.Choice.{pick};
ghost use Rattle.paper.specs.Page.{place, slot_of, value_at, body_bytes, numbers_of};
ghost use Rattle.paper.specs.Space.{payload_bytes};
ghost use Rattle.paper.specs.Headers.{with_end, with_effective};
ghost use Rattle.paper.specs.Edits.{payload_of, slot_for, slot_bytes, put_all, number_fields, outgrows, rekeyed, key_put, key_changed};
ghost use Rattle.node.specs.Header.{numbers_in};
ghost use Rattle.write.specs.Room.{with_numbers, Seat};

use crate::suffix::Suffix;
use crate::{numbers, payload, slot};
use hint::fresh;
use node::{entry, header, slots, space};
use octets::value;
use paper::page::{Header, Slot};

// Whether a suffix is above four bytes and longer than the old one.
pub fn outgrows(old: Slot, suffix: &[u8]) -> bool
    ensures { result ≡ outgrows old suffix.now }
{
    suffix.len() > 4 && suffix.len() > (old.len as usize)
}

// Where a new payload begins, below the end, for a suffix that outgrows the old one; any other needs none.
fn new_place(end: u16, width: u8, old: Slot, suffix: &[u8]) -> Option<u16>
    requires { outgrows old suffix.now ≡ true → length suffix.now + width ≤ end }
    ensures { result ≡ pick (outgrows old suffix.now) (Some (end - (length suffix.now + width))) None }
{
    if outgrows(old, suffix) {
        return Some(end - ((suffix.len() + (width as usize)) as u16));
    }
    None
}

// The header after the change: another end, and effective by the bytes that the suffix takes.
fn rekeyed(h: Header, end: u16, old: Slot, suffix: &[u8]) -> Header
    requires { (length suffix.now ≤ 65535) × (h.effective ≤ 16352) × (body_bytes 4 old.len ≤ h.effective) }
    ensures { result ≡ with_effective (with_end h end) (h.effective + body_bytes 4 (length suffix.now) - body_bytes 4 old.len) }
{
    let bytes = space::body_bytes(4, suffix.len());
    let dropped = slots::suffix_bytes(old.len);
    let effective = h.effective + (bytes as u32) - (dropped as u32);
    h.with_end(end).with_effective(effective)
}

// The suffix with the old slot's value as a payload at `at`, and its slot as slot `i`.
fn put_key(p: &mut [u8], width: u8, i: usize, old: Slot, suffix: &[u8], at: u16)
    requires { (width ≤ 8) × (length suffix.now ≤ 65535) × (104 + 8 * i ≤ length p.old) × (value_at old + width ≤ length p.old) × (96 + at + payload_bytes width (length suffix.now) ≤ length p.old) }
    ensures { p.new ≡ put (put p.old (96 + at) (payload_of width suffix.now (le width p.old (value_at old)))) (place i) (slot_bytes (slot_for suffix.now at)) }
{
    let value = value::read_value(p, entry::value_at(old), width as usize);
    let whole = Suffix::whole(suffix);
    let start = 96 + (at as usize);
    payload::write_payload(&mut p[start..], width, &whole, value);
    slot::write_slot(p, 96 + 8 * i, slot::slot_for(&whole, at));
}

// The suffix for slot `i`, and the header written back. Hints stay as they are.
fn rekey_at(p: &mut [u8], h: Header, width: u8, i: usize, suffix: &[u8]) -> Header
    requires { Seat width p.old h i suffix.now }
    ensures value { result ≡ with_numbers h (rekeyed width (numbers_in h) (slot_of p.old i) suffix.now) }
    ensures p_after { p.new ≡ put_all (key_put width p.old i suffix.now) (number_fields (rekeyed width (numbers_of p.old) (slot_of p.old i) suffix.now)) }
{
    let old = header::read_slot(p, 96 + 8 * i);
    let place = new_place(h.end, width, old, suffix);
    put_key(p, width, i, old, suffix, place.unwrap_or(old.offset));
    let changed = rekeyed(h, place.unwrap_or(h.end), old, suffix);
    numbers::write_numbers(p, changed);
    changed
}

// The suffix for slot `i`; then the hints in use are refreshed.
pub fn change_at(p: &mut [u8], h: Header, width: u8, i: usize, suffix: &[u8])
    requires { Seat width p.old h i suffix.now }
    ensures { p.new ≡ key_changed width p.old i suffix.now }
{
    let changed = rekey_at(p, h, width, i, suffix);
    fresh::refresh(p, changed.flag, changed.count);
}
