// The records of a lent buffer: each the key's length in four bytes, the key, and the value in eight.
ghost use Rattle.std.specs.Prelude.{◌≡◌, true};
ghost use Rattle.filing.specs.Batches.{records_of, holds_records, first_length};

use octets::number;
use std::marker::Model;

// A clause sees an entry of key and value.
#[derive(Drop)]
pub(crate) struct Record<'b> {
    pub(crate) key: &'b [u8],
    pub(crate) value: u64,
}

impl<'b> Model for Record<'b> {
    ghost use Rattle.paper.specs.Listing.{Entry};

    ghost Value = { Entry };

    ghost view = { λ r. record { key = r.key.now; value = r.value } };
}

// Whether the buffer holds whole records only. It goes by a place, since the iterator below begins only where this says yes.
#[tactic(auto, using(crate::proofs::Placed::by_place))]
pub(crate) fn holds_records(b: &[u8]) -> bool
    ensures { result ≡ holds_records b.now }
{
    let mut at = 0;
    while at < b.len() {
        if b.len() - at < 12 {
            return false;
        }
        let end = at + 12 + (number::read_u32(b, at) as usize);
        if b.len() < end {
            return false;
        }
        at = end;
    }
    true
}

// The records that are left of a buffer of whole ones.
#[derive(Drop)]
pub(crate) struct Records<'b> {
    left: &'b [u8],
    ghost whole: { holds_records left.now ≡ true },
}

impl<'b> Records<'b> {
    // All records of a buffer of whole ones.
    pub(crate) fn of(b: &'b [u8]) -> Records<'b>
        requires { holds_records b.now ≡ true }
        ensures { result.left.now ≡ b.now }
    {
        Records { left: b }
    }

    // The length of the first record's key; 0 where there is no record.
    #[tactic(auto, using(crate::proofs::Placed::by_first))]
    pub(crate) fn first_length(&self) -> usize
        ensures { result ≡ first_length (records_of self.now.left.now) }
    {
        if self.left.is_empty() {
            return 0;
        }
        number::read_u32(self.left, 0) as usize
    }
}

impl<'b> Iterator for Records<'b> {
    ghost use Rattle.std.specs.Iterator.{YieldsFirst, item_count};
    ghost use Rattle.filing.specs.Batches.{records_of};

    type Item = Record<'b>;

    ghost next_gives = { YieldsFirst (λ s. records_of s.left.now) };

    ghost remaining = { item_count (λ s. records_of s.left.now) };

    #[tactic(auto, using(crate::proofs::Placed::by_next))]
    fn next(&mut self) -> Option<Record<'b>> {
        if self.left.is_empty() {
            return None;
        }
        let end = 4 + (number::read_u32(self.left, 0) as usize);
        let record = Record {
            key: &self.left[4..end],
            value: number::read_u64(self.left, end),
        };
        self.left = &self.left[end + 8..];
        Some(record)
    }
}
