// Begin: two fences make a page without entries.
ghost use Rattle.std.specs.Prelude.{◌≡◌, ◌-◌, ◌≤◌, length};
ghost use Rattle.keys.specs.Keys.{common};
ghost use Rattle.paper.specs.Space.{fence_bytes};
ghost use Rattle.paper.specs.Edits.{put_all, begun};
ghost use Rattle.paper.specs.Calls.{begin_of, begin_page};
ghost use Rattle.edit.specs.Begins.{given, front_fields, tail_fields, header_fields, ordered, begin_header};

use crate::fences;
use crate::fences::Fences;
use keys::shared;
use node::{key, space};
use octets::number;
use paper::page::Header;
use paper::refusal::Refusal;
use std::marker::Model;
use write::slot;

// What a page is begun with.
#[derive(Drop)]
struct Beginning<'a> {
    height: u16,
    timestamp: u64,
    lower: &'a [u8],
    lower_value: u64,
    upper: &'a [u8],
    flag: bool,
}

impl<'a> Model for Beginning<'a> {
    ghost use Rattle.paper.specs.Edits.{Begin};
    ghost use Rattle.edit.specs.Begins.{given};

    ghost Value = { Begin };

    ghost view = { λ s. given s.height s.timestamp s.lower.now s.lower_value s.upper.now s.flag };
}

impl<'a> Beginning<'a> {
    // Whether the upper fence bounds nothing, or the lower one is below it.
    #[tactic(auto, using(crate::proofs::Begun::by_order))]
    fn in_order(&self) -> bool
        ensures { result ≡ ordered self.now.lower self.now.upper }
    {
        self.upper.is_empty() || key::below(self.lower, self.upper)
    }

    // The header: no entries, the values given, and what the fences say.
    #[tactic(auto, unfolding(crate::specs::Begins::begin_header, crate::specs::Begins::flag_number, keys::specs::Choice::pick))]
    fn header(&self, prefix_len: u16, f: Fences) -> Header
        requires { f.end ≤ 16256 }
        ensures { result ≡ begin_header self.now.height self.now.timestamp self.now.lower_value self.now.flag prefix_len f }
    {
        let lower = f.lower;
        let upper = f.upper;
        Header {
            height: self.height,
            count: 0,
            start: 0,
            end: f.end,
            timestamp: self.timestamp,
            lower,
            lower_value: self.lower_value,
            upper,
            effective: 16352 - (f.end as u32),
            initialized: 1,
            flag: u8::from(self.flag),
            prefix_len,
        }
    }

    // Writes the page of two fences that share `n` bytes: their runs, the header, and the inline prefix. The lengths stay a clause, since a page
    // that is lent to a write keeps no facts.
    fn write(&self, p: &mut [u8], n: usize)
        requires { (16384 ≤ length p.old) × (length self.now.lower ≤ 65535) × (length self.now.upper ≤ 65535) × (n ≡ common self.now.lower self.now.upper) × (fence_bytes n (length self.now.lower - n) (length self.now.upper - n) ≤ 16256) }
        ensures { p.new ≡ begun p.old self.now }
    {
        let prefix = &self.lower[..n];
        let f = fences::put_fences(p, prefix, &self.lower[n..], &self.upper[n..]);
        write_header(p, self.header(n as u16, f));
        fences::put_inline(p, prefix);
    }
}

// The fields before the fences.
#[tactic(auto, unfolding(paper::specs::Edits::put_all, crate::specs::Begins::front_fields))]
fn write_front(p: &mut [u8], h: Header)
    requires { 96 ≤ length p.old }
    ensures { p.new ≡ put_all p.old (front_fields h) }
{
    number::write_u16(p, 0, h.height);
    number::write_u16(p, 2, h.count);
    number::write_u16(p, 4, h.start);
    number::write_u16(p, 6, h.end);
    number::write_u64(p, 8, h.timestamp);
}

// The fields after the fences.
#[tactic(auto, unfolding(paper::specs::Edits::put_all, crate::specs::Begins::tail_fields))]
fn write_tail(p: &mut [u8], h: Header)
    requires { 96 ≤ length p.old }
    ensures { p.new ≡ put_all p.old (tail_fields h) }
{
    number::write_u32(p, 40, h.effective);
    number::write_u8(p, 44, h.initialized);
    number::write_u8(p, 45, h.flag);
    number::write_u16(p, 46, h.prefix_len);
}

// All numbers of a header at their places.
fn write_header(p: &mut [u8], h: Header)
    requires { 96 ≤ length p.old }
    ensures { p.new ≡ put_all p.old (header_fields h) }
{
    write_front(p, h);
    slot::write_slot(p, 16, h.lower);
    number::write_u64(p, 24, h.lower_value);
    slot::write_slot(p, 32, h.upper);
    write_tail(p, h);
}

// Makes of `p` a page without entries between two fences; all bytes that are not named keep their old content. Refuses 1, 3,
// 6, 13, and a refusal leaves the page as it was.
pub fn begin(
    p: &mut [u8],
    height: u16,
    timestamp: u64,
    lower: &[u8],
    lower_value: u64,
    upper: &[u8],
    flag: bool,
) -> Result<(), Refusal>
    ensures value { result ≡ begin_of p.old (given height timestamp lower.now lower_value upper.now flag) }
    ensures p_after { p.new ≡ begin_page p.old (given height timestamp lower.now lower_value upper.now flag) }
{
    if p.len() != 16384 {
        return Err(Refusal::PageLength);
    }
    if 65535 < lower.len() || 65535 < upper.len() {
        return Err(Refusal::KeyLength);
    }
    let beginning = Beginning {
        height,
        timestamp,
        lower,
        lower_value,
        upper,
        flag,
    };
    if !beginning.in_order() {
        return Err(Refusal::FenceOrder);
    }
    let n = shared::common_prefix_len(lower, upper);
    if 16256 < space::fence_bytes(n, lower.len() - n, upper.len() - n) {
        return Err(Refusal::NoRoom);
    }
    beginning.write(p, n);
    Ok(())
}
