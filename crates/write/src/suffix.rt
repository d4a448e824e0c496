// A suffix in two pieces, one after the other: what a run copy has of a key that is cut anew. The first piece of any other is empty.
ghost use Rattle.std.specs.Prelude.{◌≡◌, ◌++◌, ◌+◌, ◌≤◌, length, drop, get_or};
ghost use Rattle.octets.specs.Bytes.{put};
ghost use Rattle.keys.specs.Keys.{head_of, order};
ghost use Rattle.paper.specs.Page.{body_bytes};
ghost use Rattle.paper.specs.Edits.{outline};

use keys::{head, shared};
use octets::runs;
use std::cmp::Ordering;
use std::marker::Model;

// A clause sees the bytes of both pieces. Their number is one that a slot can hold.
#[derive(Drop)]
pub struct Suffix<'a> {
    lead: &'a [u8],
    rest: &'a [u8],
}

impl<'a> Model for Suffix<'a> {
    ghost use Rattle.std.specs.Prelude.{ℕ, List, ◌++◌, ◌+◌, ◌≤◌, length};

    ghost Value = { List ℕ };

    ghost view = { λ s. s.lead.now ++ s.rest.now };

    ghost invariant = { λ s. length s.lead.now + length s.rest.now ≤ 65535 };
}

impl<'a> Suffix<'a> {
    // A suffix in one piece.
    pub(crate) fn whole(bytes: &'a [u8]) -> Suffix<'a>
        requires { length bytes.now ≤ 65535 }
        ensures { result ≡ bytes.now }
    {
        Suffix {
            lead: &[],
            rest: bytes,
        }
    }

    // A key in two pieces without its first `gone` bytes.
    pub fn cut(lead: &'a [u8], rest: &'a [u8], gone: usize) -> Suffix<'a>
        requires { length lead.now + length rest.now ≤ 65535 + gone }
        ensures { result ≡ drop gone (lead.now ++ rest.now) }
    {
        let first = gone.min(lead.len());
        let second = (gone - first).min(rest.len());
        Suffix {
            lead: &lead[first..],
            rest: &rest[second..],
        }
    }

    // How it stands to another key.
    #[tactic(auto, using(crate::proofs::Joins::by_pieces))]
    pub fn order(&self, other: &[u8]) -> Ordering
        ensures { result ≡ order self.now other.now }
    {
        let n = shared::common_prefix_len(self.lead, other);
        if n < self.lead.len() {
            return shared::order_by_shared(self.lead, other);
        }
        shared::order_by_shared(self.rest, &other[n..])
    }

    // How many bytes it has.
    pub(crate) fn len(&self) -> usize
        ensures { (result ≡ length self.now) × (result ≤ 65535) }
    {
        self.lead.len() + self.rest.len()
    }

    // The byte at `i`, 0 past the end.
    fn byte(&self, i: usize) -> u8
        ensures { result ≡ get_or self.now i 0 }
    {
        match self.lead.get(i) {
            Some(byte) => *byte,
            None => self.rest.get(i - self.lead.len()).copied().unwrap_or(0),
        }
    }

    // The head. It is padded here and not by `head::head_int` alone, since its four bytes may lie in both pieces.
    pub(crate) fn head(&self) -> u32
        ensures { result ≡ head_of self.now }
    {
        if self.lead.is_empty() {
            return head::head_int(self.rest);
        }
        u32::from_be_bytes([self.byte(0), self.byte(1), self.byte(2), self.byte(3)])
    }

    // A suffix above four bytes to the front of `part`; answers how many bytes it took.
    pub(crate) fn write(&self, part: &mut [u8]) -> usize
        requires { body_bytes 4 (length self.now) ≤ length part.old }
        ensures value { result ≡ body_bytes 4 (length self.now) }
        ensures part_after { part.new ≡ put part.old 0 (outline 4 self.now) }
    {
        let n = self.len();
        if n <= 4 {
            return 0;
        }
        runs::copy_in(part, 0, self.lead);
        runs::copy_in(part, self.lead.len(), self.rest);
        n
    }
}
