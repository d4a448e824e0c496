// Refusals.
ghost use Rattle.std.specs.Prelude.{◌≡◌};
ghost use Rattle.paper.specs.Refusals.{refusal_of};

// Why a call was refused: the eighteen rows of document 01's table, in its order.
#[derive(Clone, Copy)]
pub enum Refusal {
    // 1: page not 16,384 bytes
    PageLength,
    // 2: width not 0, 1, 8
    Width,
    // 3: key argument above 65,535 bytes
    KeyLength,
    // 4: header rules broken
    HeaderRules,
    // 5: page not fit; carries the U number
    NotFit(u8),
    // 6: upper fence not empty and lower >= upper
    FenceOrder,
    // 7: value above 255 at width 1, above 0 at width 0
    ValueRange,
    // 8: key lacks the page's prefix
    Prefix,
    // 9: key outside the fences
    OutsideFences,
    // 10: slot number not below count; run past the source's count
    SlotNumber,
    // 11: key already there
    Present,
    // 12: key not strictly between its neighbours
    Neighbours,
    // 13: free below what the call adds
    NoRoom,
    // 14: a slot visited has payload outside end..16,256
    Payload,
    // 15: output buffer too short
    BufferLength,
    // 16: key under 8 bytes
    ShortKey,
    // 17: not found
    NotFound,
    // 18: stored value differs from the expected one; carries the stored value
    OtherValue(u64),
}

// The refusal that an answer is, for `let Ok(..) = .. else`, document 01's form, which binds nothing; of an answer that is none it says 1.
#[tactic(auto, unfolding(crate::specs::Refusals::refusal_of))]
pub fn refusal_of<T: Copy>(answer: Result<T, Refusal>) -> Refusal
    ensures { result ≡ refusal_of answer }
{
    match answer {
        Ok(_) => Refusal::PageLength,
        Err(r) => r,
    }
}
