// Refusals as the numbers of document 01's table; two of them carry a number, so no cast of the enum gives it.
ghost use Rattle.std.specs.Prelude.{◌≡◌};
ghost use Rattle.paper.specs.Refusals.{number_of, carried_by};

use paper::refusal::Refusal;

// The number of a refusal.
#[tactic(auto, unfolding(paper::specs::Refusals::number_of))]
pub fn number_of(r: Refusal) -> u8
    ensures { result ≡ number_of r }
{
    match r {
        Refusal::PageLength => 1,
        Refusal::Width => 2,
        Refusal::KeyLength => 3,
        Refusal::HeaderRules => 4,
        Refusal::NotFit(_) => 5,
        Refusal::FenceOrder => 6,
        Refusal::ValueRange => 7,
        Refusal::Prefix => 8,
        Refusal::OutsideFences => 9,
        Refusal::SlotNumber => 10,
        Refusal::Present => 11,
        Refusal::Neighbours => 12,
        Refusal::NoRoom => 13,
        Refusal::Payload => 14,
        Refusal::BufferLength => 15,
        Refusal::ShortKey => 16,
        Refusal::NotFound => 17,
        Refusal::OtherValue(_) => 18,
    }
}

// What a refusal carries: the U number of a 5, the stored value of an 18, else 0.
#[tactic(auto, using(crate::proofs::Carried::carries_none), unfolding(paper::specs::Refusals::carried_by))]
pub fn carried_by(r: Refusal) -> u64
    ensures { result ≡ carried_by r }
{
    match r {
        Refusal::NotFit(u) => u as u64,
        Refusal::OtherValue(v) => v,
        _ => 0,
    }
}
