// Answers as C sees them.
#![tactic(auto, unfolding(crate::specs::Told::told, crate::specs::Told::first, crate::specs::Told::second, crate::specs::Told::word, crate::specs::Told::space_told, crate::specs::Told::batch_told, paper::specs::Answers::nothing_values, paper::specs::Answers::number_values, paper::specs::Answers::sign_values, paper::specs::Answers::yes_values, paper::specs::Answers::found_values, paper::specs::Answers::child_values, paper::specs::Answers::entry_values, paper::specs::Answers::forecast_values))]

ghost use Rattle.std.specs.Prelude.{◌≡◌, List, ℤ, pos, [], ◌∷◌, Ok, Err};
ghost use Rattle.paper.specs.Answers.{answered, refused, says, nothing_values, number_values, sign_values, yes_values, found_values, child_values, entry_values, forecast_values};
ghost use Rattle.dorgumanna.specs.Told.{word, told, space_told, batch_told};

use crate::numbers;
use filing::batch::NotFiled;
use paper::answers::{Child, EntryRead, Forecast, Found, Space};
use paper::refusal::Refusal;

// 0 and the call's values, or the number of a refusal and what it carries; values that there are not are 0.
#[repr(C)]
#[derive(Clone, Copy)]
pub struct Answer {
    pub number: u8,
    pub a: u64,
    pub b: u64,
}

// 0 and the space numbers, or the number of a refusal and what it carries.
#[repr(C)]
#[derive(Clone, Copy)]
pub struct SpaceAnswer {
    pub number: u8,
    pub carried: u64,
    pub start: u64,
    pub end: u64,
    pub free: u64,
    pub used: u64,
    pub effective: u64,
    pub reclaimable: u64,
    pub compacted: u64,
}

// No value.
pub fn none() -> Answer
    ensures { result ≡ told (answered []) }
{
    Answer {
        number: 0,
        a: 0,
        b: 0,
    }
}

// One value.
pub fn one(a: u64) -> Answer
    ensures { result ≡ told (answered (pos a ∷ [])) }
{
    Answer { number: 0, a, b: 0 }
}

// Two values.
pub fn two(a: u64, b: u64) -> Answer
    ensures { result ≡ told (answered (pos a ∷ pos b ∷ [])) }
{
    Answer { number: 0, a, b }
}

// A refusal.
pub fn refusal(r: Refusal) -> Answer
    ensures { result ≡ told (refused r) }
{
    Answer {
        number: numbers::number_of(r),
        a: numbers::carried_by(r),
        b: 0,
    }
}

// What a call answers where it is not refused: none, one or two values.
pub trait Values: Copy {
    ghost values: { Self → List ℤ };

    // 0 and the values.
    fn answer(self) -> Answer
        ensures { result ≡ told (answered (values self)) };
}

// Begin, change key, run copy: done.
impl Values for () {
    ghost values = { nothing_values };

    fn answer(self) -> Answer {
        none()
    }
}

// A slot number, a number of keys, a key's length.
impl Values for usize {
    ghost values = { number_values };

    fn answer(self) -> Answer {
        one(self as u64)
    }
}

// A value, a trailing id, a need.
impl Values for u64 {
    ghost values = { number_values };

    fn answer(self) -> Answer {
        one(self)
    }
}

// The fit verdict: 0, or the first rule broken.
impl Values for u8 {
    ghost values = { number_values };

    fn answer(self) -> Answer {
        one(self as u64)
    }
}

// The layout verdict: 1 yes, 0 no.
impl Values for bool {
    ghost values = { yes_values };

    fn answer(self) -> Answer {
        one(self as u64)
    }
}

// Compare: -1, 0 or 1.
impl Values for i8 {
    ghost values = { sign_values };

    fn answer(self) -> Answer {
        one(signed_word(i32::from(self)))
    }
}

// Find: the slot and 1, or the number of smaller keys and 0.
impl Values for Found {
    ghost values = { found_values };

    fn answer(self) -> Answer {
        match self {
            Found::Equal(i) => two(i as u64, 1),
            Found::Smaller(i) => two(i as u64, 0),
        }
    }
}

// Child: the slot, or -1, and the child's value.
impl Values for Child {
    ghost values = { child_values };

    fn answer(self) -> Answer {
        two(signed_word(self.slot), self.value)
    }
}

// Entry: its value.
impl Values for EntryRead {
    ghost values = { entry_values };

    fn answer(self) -> Answer {
        one(self.value)
    }
}

// Forecast: prefix length, and space.
impl Values for Forecast {
    ghost values = { forecast_values };

    fn answer(self) -> Answer {
        two(self.prefix_len as u64, self.space as u64)
    }
}

// A sign, a slot number, or -1, in two's complement of 64 bits, as `word` defines it: no conversion of std's stands for that.
fn signed_word(n: i32) -> u64
    ensures { result ≡ word n }
{
    if n < 0 {
        return 18446744073709551615;
    }
    n as u64
}

// What a call answers: 0 and its values, or its refusal.
pub fn tell<T: Values>(answered: Result<T, Refusal>) -> Answer
    ensures { result ≡ told (says T.values answered) }
{
    match answered {
        Ok(values) => values.answer(),
        Err(r) => refusal(r),
    }
}

// Batch: the number of records filed; or a refusal's number, the place of the record refused and what the refusal carries; or
// 255 where the buffer ends inside a record.
pub fn batched(filed: Result<usize, NotFiled>) -> Answer
    ensures { result ≡ batch_told filed }
{
    match filed {
        Ok(n) => one(n as u64),
        Err(NotFiled::Refused(i, r)) => Answer {
            number: numbers::number_of(r),
            a: i as u64,
            b: numbers::carried_by(r),
        },
        Err(NotFiled::Cut) => Answer {
            number: 255,
            a: 0,
            b: 0,
        },
    }
}

// The space numbers.
pub fn space(read: Result<Space, Refusal>) -> SpaceAnswer
    ensures { result ≡ space_told read }
{
    match read {
        Ok(s) => space_are(s),
        Err(r) => space_refused(r),
    }
}

fn space_are(s: Space) -> SpaceAnswer
    ensures { result ≡ space_told (Ok s) }
{
    SpaceAnswer {
        number: 0,
        carried: 0,
        start: s.start,
        end: s.end,
        free: s.free,
        used: s.used,
        effective: s.effective,
        reclaimable: s.reclaimable,
        compacted: s.compacted,
    }
}

fn space_refused(r: Refusal) -> SpaceAnswer
    ensures { result ≡ space_told (Err r) }
{
    SpaceAnswer {
        number: numbers::number_of(r),
        carried: numbers::carried_by(r),
        start: 0,
        end: 0,
        free: 0,
        used: 0,
        effective: 0,
        reclaimable: 0,
        compacted: 0,
    }
}
