// The header: read once, and judged by document 01's header rules.
ghost use Rattle.std.specs.Prelude.{◌≡◌, ◌+◌, ◌≤◌, length};
ghost use Rattle.paper.specs.Page.{slot_at, header_of};
ghost use Rattle.paper.specs.Verdicts.{long_within};
ghost use Rattle.node.specs.Header.{prefix_held, rules_of};

use octets::number;
use paper::page::{Header, Slot};

// The slot in the eight bytes from `at` on.
#[tactic(auto, unfolding(paper::specs::Page::slot_at))]
pub fn read_slot(p: &[u8], at: usize) -> Slot
    requires { at + 8 ≤ length p.now }
    ensures { result ≡ slot_at p.now at }
{
    Slot {
        len: number::read_u16(p, at),
        offset: number::read_u16(p, at + 2),
        head: number::read_u32(p, at + 4),
    }
}

// The numbers of the header.
#[tactic(auto, unfolding(paper::specs::Page::header_of, paper::specs::Page::frame_of, paper::specs::Page::numbers_of))]
pub fn read_header(p: &[u8]) -> Header
    requires { 96 ≤ length p.now }
    ensures { result ≡ header_of p.now }
{
    Header {
        height: number::read_u16(p, 0),
        count: number::read_u16(p, 2),
        start: number::read_u16(p, 4),
        end: number::read_u16(p, 6),
        timestamp: number::read_u64(p, 8),
        lower: read_slot(p, 16),
        lower_value: number::read_u64(p, 24),
        upper: read_slot(p, 32),
        effective: number::read_u32(p, 40),
        initialized: number::read_u8(p, 44),
        flag: number::read_u8(p, 45),
        prefix_len: number::read_u16(p, 46),
    }
}

// Whether a long fence lies in end..16,256.
#[tactic(auto, using(crate::proofs::Rules::fences))]
fn long_within(end: u16, s: Slot) -> bool
    ensures { result ≡ long_within end s }
{
    if s.len <= 4 {
        return true;
    }
    (end <= s.offset) & ((s.offset as u32) + (s.len as u32) <= 16256)
}

// Whether the prefix is inline, or fills the body's last bytes at or above end.
#[tactic(auto, using(crate::proofs::Rules::prefixes))]
fn prefix_within(end: u16, prefix_len: u16) -> bool
    ensures { result ≡ prefix_held end prefix_len }
{
    if prefix_len <= 16 {
        return true;
    }
    (end as u32) + (prefix_len as u32) <= 16256
}

// Whether the header keeps the header rules. One test of all: a page that is read keeps them.
pub fn rules_hold(h: Header) -> bool
    ensures { result ≡ rules_of h }
{
    let marks = (h.initialized == 1) & (h.flag <= 1);
    let slots = (h.start as u32) == 8 * (h.count as u32);
    let body = (h.start <= h.end) & (h.end <= 16256);
    let effective = (96 <= h.effective) & (h.effective <= 16352);
    let prefix = prefix_within(h.end, h.prefix_len);
    let fences = long_within(h.end, h.lower) & long_within(h.end, h.upper);
    marks & slots & body & effective & prefix & fences
}
