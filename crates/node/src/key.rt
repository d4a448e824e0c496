// Keys: which of two is below; prefix and suffix of an entry's where they stand on the page, and the whole key copied out.
ghost use Rattle.std.specs.Prelude.{◌≡◌, ◌++◌, ◌+◌, ◌≤◌, ◌<◌, length};
ghost use Rattle.octets.specs.Bytes.{big_bytes, put};
ghost use Rattle.paper.specs.Lists.{less};
ghost use Rattle.paper.specs.Page.{prefix_of, suffix_of, body_bytes};
ghost use Rattle.paper.specs.Calls.{copy_of, copy_buffer};

use crate::{admit, entry};
use keys::shared;
use octets::{number, runs};
use paper::page::Slot;
use paper::refusal;
use paper::refusal::Refusal;
use std::cmp::Ordering;

// Whether one key is below another.
#[tactic(auto, unfolding(paper::specs::Lists::less))]
pub fn below(a: &[u8], b: &[u8]) -> bool
    ensures { result ≡ less a.now b.now }
{
    shared::order_by_shared(a, b).is_lt()
}

// The page's prefix: inline, or the body's last bytes.
#[tactic(auto, using(crate::proofs::Spelling::prefixes))]
pub fn prefix(p: &[u8], prefix_len: u16) -> &[u8]
    requires { (16384 ≤ length p.now) × (prefix_len ≤ 16256) }
    ensures { result.now ≡ prefix_of p.now prefix_len }
{
    let n = prefix_len as usize;
    if n <= 16 {
        return &p[48..48 + n];
    }
    &p[16352 - n..16352]
}

// The four bytes of a head, highest first.
#[tactic(auto, using(crate::proofs::Spelling::big_four))]
pub fn head_bytes(head: u32) -> [u8; 4]
    ensures { result ≡ big_bytes 4 head }
{
    head.to_be_bytes()
}

// The suffix of a slot: the first of `four`, the bytes of its head, where it is short, else where it stands on the page. The caller
// keeps the four bytes, since the suffix may be a part of them; so slot and bytes are handed in together.
#[tactic(auto, unfolding(paper::specs::Page::suffix_of, octets::specs::Bytes::part))]
pub fn suffix<'a>(p: &'a [u8], s: Slot, four: &'a [u8; 4]) -> &'a [u8]
    requires { (4 < s.len → 96 + s.offset + s.len ≤ length p.now) × (four.now ≡ big_bytes 4 s.head) }
    ensures { result.now ≡ suffix_of p.now s }
{
    let n = s.len as usize;
    if n <= 4 {
        return &four[..n];
    }
    let start = 96 + (s.offset as usize);
    &p[start..start + n]
}

// Writes the suffix of a slot from `at` on, and no other byte. As every writer here it takes the place, so that it promises one `put`.
#[tactic(auto, using(crate::proofs::Spelling::suffix_length))]
pub(crate) fn put_suffix(p: &[u8], s: Slot, out: &mut [u8], at: usize)
    requires { (at + s.len ≤ length out.old) × (96 + s.offset + body_bytes 4 s.len ≤ length p.now) }
    ensures { out.new ≡ put out.old at (suffix_of p.now s) }
{
    let four = head_bytes(s.head);
    runs::copy_in(out, at, suffix(p, s, &four));
}

// Writes prefix and suffix one after the other, and no other byte. Page, prefix length and slot stay three parameters, here and in
// `trailing::across`: tried as one value with its facts, and a key copy took nine instructions more.
#[tactic(auto, using(crate::proofs::Spelling::both))]
fn put_key(p: &[u8], prefix_len: u16, s: Slot, out: &mut [u8])
    requires { (16384 ≤ length p.now) × (prefix_len ≤ 16256) × (prefix_len + s.len ≤ length out.old) × (96 + s.offset + body_bytes 4 s.len ≤ length p.now) }
    ensures { out.new ≡ put out.old 0 (prefix_of p.now prefix_len ++ suffix_of p.now s) }
{
    runs::copy_in(out, 0, prefix(p, prefix_len));
    put_suffix(p, s, out, prefix_len as usize);
}

// Where a long suffix ends, in the body.
pub fn suffix_end(s: Slot) -> usize
    ensures { result ≡ s.offset + s.len }
{
    (s.offset as usize) + (s.len as usize)
}

// The length of a slot's key.
pub fn key_len(prefix_len: u16, s: Slot) -> usize
    ensures { result ≡ prefix_len + s.len }
{
    (prefix_len as usize) + (s.len as usize)
}

// Copies the key of entry `i` to the front of `out` and answers its length. Refuses 1, 2, 4, 10, 14, and 15 where `out` is
// too short; a refusal leaves `out` as it was.
#[tactic(auto, using(crate::proofs::Copies::places))]
pub fn copy_key(p: &[u8], width: u8, i: usize, out: &mut [u8]) -> Result<usize, Refusal>
    ensures value { result ≡ copy_of width p.now i out.old }
    ensures out_after { out.new ≡ copy_buffer width p.now i out.old }
{
    admit::admit(p, width, 0)?;
    let read = entry::open_entry(p, width, i);
    let Ok(s) = read else {
        return Err(refusal::refusal_of(read));
    };
    let prefix_len = number::read_u16(p, 46);
    let n = key_len(prefix_len, s);
    if out.len() < n {
        return Err(Refusal::BufferLength);
    }
    put_key(p, prefix_len, s, out);
    Ok(n)
}
