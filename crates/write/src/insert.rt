// Insert: an entry filed as a slot of a page that has room for it.
// Page, header and width stay three parameters in this crate, with `Room` and its kin as clauses: the public functions are handed them
// so, and a struct of the three could not say between two writes that the header is the page's.
ghost use Rattle.std.specs.Prelude.{◌≡◌, length};
ghost use Rattle.paper.specs.Page.{header_of};
ghost use Rattle.paper.specs.Edits.{more, numbered, inserted};
ghost use Rattle.node.specs.Header.{numbers_in};
ghost use Rattle.write.specs.Room.{with_numbers, Room};

use crate::suffix::Suffix;
use crate::{numbers, payload, slot};
use hint::fresh;
use node::header;
use paper::page::Header;

// The suffix with its value as slot `i`, and the header written back. Hints stay as they are. It melts into its callers: apart
// from them a header goes through memory, and a batch took a tenth more instructions.
#[inline(always)]
pub(crate) fn file(
    p: &mut [u8],
    h: Header,
    width: u8,
    i: usize,
    suffix: &Suffix<'_>,
    value: u64,
) -> Header
    requires { Room width p.old h i (length suffix.now) }
    ensures value { result ≡ with_numbers h (more width (numbers_in h) (length suffix.now)) }
    ensures p_after { p.new ≡ numbered width p.old i suffix.now value }
{
    let filed = numbers::filed(h, width, suffix.len());
    let end = 96 + (filed.end as usize);
    payload::write_payload(&mut p[end..], width, suffix, value);
    slot::move_in(p, h.count, i, slot::slot_for(suffix, filed.end));
    numbers::write_numbers(p, filed);
    filed
}

// The same of a suffix in one piece, as callers have it.
pub fn file_at(p: &mut [u8], h: Header, width: u8, i: usize, suffix: &[u8], value: u64) -> Header
    requires { Room width p.old h i (length suffix.now) }
    ensures value { result ≡ with_numbers h (more width (numbers_in h) (length suffix.now)) }
    ensures p_after { p.new ≡ numbered width p.old i suffix.now value }
{
    file(p, h, width, i, &Suffix::whole(suffix), value)
}

// The suffix with its value as slot `i`; then the hints in use are refreshed.
pub fn insert_at(p: &mut [u8], width: u8, i: usize, suffix: &[u8], value: u64)
    requires { Room width p.old (header_of p.old) i (length suffix.now) }
    ensures { p.new ≡ inserted width p.old i suffix.now value }
{
    let h = header::read_header(p);
    let filed = file_at(p, h, width, i, suffix, value);
    fresh::refresh(p, filed.flag, filed.count);
}
