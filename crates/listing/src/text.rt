// A text in the making, in a lent buffer.
ghost use Rattle.std.specs.Prelude.{◌≡◌, [], ◌∷◌, ◌+◌, ◌*◌, ◌≤◌, ◌<◌, length};
ghost use Rattle.listing.specs.Line.{Adds, Fresh};
ghost use Rattle.paper.specs.Printed.{decimal, number_words, hex_digit, hex_bytes};

use std::marker::Model;

// The buffer has a length beside it since there is no heap: the memory is fixed.
// A contract sees the bytes that stand, and how many more there is room for. Digits are put here and not by `write!`: its contract
// leaves open whether it fails where there is room, and no line may fail.
#[derive(Drop)]
pub(crate) struct Text<'a> {
    bytes: &'a mut [u8],
    len: usize,
}

impl<'a> Model for Text<'a> {
    ghost use Rattle.std.specs.Prelude.{length, take, ◌-◌, ◌≤◌};
    ghost use Rattle.listing.specs.Line.{Line};

    ghost Value = { Line };

    ghost view = { λ t. record { text = take t.len t.bytes.now; room = length t.bytes.now - t.len } };

    ghost invariant = { λ t. t.len ≤ length t.bytes.now };
}

impl<'a> Text<'a> {
    // No text.
    pub(crate) fn new(bytes: &'a mut [u8]) -> Self
        ensures { Fresh result (length bytes.old) }
    {
        Text { bytes, len: 0 }
    }

    // Lets the text go.
    pub(crate) fn clear(&mut self)
        ensures { Fresh self.new (length self.old.text + self.old.room) }
    {
        self.len = 0;
    }

    // The text.
    pub(crate) fn as_slice(&self) -> &[u8]
        ensures { result.now ≡ self.now.text }
    {
        &self.bytes[..self.len]
    }

    // How many bytes more there is room for.
    pub(crate) fn room(&self) -> usize
        ensures { result ≡ self.now.room }
    {
        self.bytes.len() - self.len
    }

    // One character more.
    pub(crate) fn push(&mut self, mark: u8)
        requires { 0 < self.old.room }
        ensures { Adds self.old (mark ∷ []) self.new }
    {
        self.bytes[self.len] = mark;
        self.len += 1;
    }

    // A word more.
    pub(crate) fn word(&mut self, word: &[u8])
        requires { length word.now ≤ self.old.room }
        ensures { Adds self.old word.now self.new }
    {
        let end = self.len + word.len();
        self.bytes[self.len..end].copy_from_slice(word);
        self.len = end;
    }

    // A number more, in decimal.
    pub(crate) fn decimal(&mut self, n: u64)
        requires { length (decimal n) ≤ self.old.room }
        ensures { Adds self.old (decimal n) self.new }
    {
        let end = self.len + decimal_len(n);
        write_decimal(n, &mut self.bytes[self.len..end]);
        self.len = end;
    }

    // Bytes more, in hex: two digits a byte.
    pub(crate) fn hex(&mut self, bytes: &[u8])
        requires { 2 * length bytes.now ≤ self.old.room }
        ensures { Adds self.old (hex_bytes bytes.now) self.new }
    {
        let end = self.len + 2 * bytes.len();
        write_hex(bytes, &mut self.bytes[self.len..end]);
        self.len = end;
    }

    // Numbers, a blank before each, and the end of the line.
    #[tactic(auto, using(crate::proofs::Decimals::numbered))]
    pub(crate) fn numbers(&mut self, numbers: &[u64])
        requires { 21 * length numbers.now + 1 ≤ self.old.room }
        ensures { Adds self.old (number_words numbers.now) self.new × (self.old.room ≤ self.new.room + (21 * length numbers.now + 1)) }
    {
        for &n in numbers {
            self.push(b' ');
            self.decimal(n);
        }
        self.push(b'\n');
    }
}

// How many digits `n` has. Comparisons alone tell it of a number with at most four, as every slot number has.
#[tactic(auto, using(crate::proofs::Decimals::counted))]
fn decimal_len(n: u64) -> usize
    ensures { result ≡ length (decimal n) }
{
    match n {
        0..=9 => 1,
        10..=99 => 2,
        100..=999 => 3,
        1000..=9999 => 4,
        _ => 4 + decimal_len(n / 10000),
    }
}

// The digits of `n`, which fill `out`, from the last one to the first.
// By index: the proof speaks of the digits from a place on.
#[tactic(auto, using(crate::proofs::Decimals::spelled))]
fn write_decimal(n: u64, out: &mut [u8])
    requires { length out.old ≡ length (decimal n) }
    ensures { out.new ≡ decimal n }
{
    let mut rest = n;
    for i in (1..out.len()).rev() {
        out[i] = (48 + rest % 10) as u8;
        rest /= 10;
    }
    out[0] = (48 + rest) as u8;
}

// Bytes in hex, which fill `out`.
// By index and not by chunks of two: the proof speaks of the bytes before a place.
fn write_hex(bytes: &[u8], out: &mut [u8])
    requires { length out.old ≡ 2 * length bytes.now }
    ensures { out.new ≡ hex_bytes bytes.now }
{
    for (i, b) in bytes.iter().enumerate() {
        out[2 * i] = digit(*b / 16);
        out[2 * i + 1] = digit(*b % 16);
    }
}

// The hex digit of a number below sixteen.
#[tactic(auto, unfolding(paper::specs::Printed::hex_digit))]
fn digit(d: u8) -> u8
    requires { d < 16 }
    ensures { result ≡ hex_digit d }
{
    if d < 10 { b'0' + d } else { b'a' + d - 10 }
}
