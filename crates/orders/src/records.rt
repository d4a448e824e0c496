// The records of a case: 240 of them, each by its number, and the orders in which they are filed.
ghost use Rattle.std.specs.Prelude.{◌≤◌, ◌<◌, length};

// A case: the width of values, whether hints are on, and whether keys are long.
// The width is a number, as document 01 and the C interface have it.
#[derive(Clone, Copy)]
pub(crate) struct Case {
    pub(crate) width: u8,
    pub(crate) hints: bool,
    pub(crate) long: bool,
}

// A key: the first bytes of a run, which ends in zeros.
// The bytes have a length beside them since there is no heap: the memory is fixed.
#[derive(Clone, Copy)]
pub(crate) struct Key {
    bytes: [u8; 14],
    len: usize,
    ghost within: { len ≤ 14 },
}

impl Key {
    // The bytes of the key.
    pub(crate) fn as_slice(&self) -> &[u8]
        ensures { length result.now ≤ 14 }
    {
        &self.bytes[..self.len]
    }
}

// The place of record `i` among the keys of a case, filed and absent ones: three are filed, then three are absent.
pub(crate) fn place(i: u8) -> u16
    ensures { result ≤ 510 }
{
    (i as u16) + (i / 3 * 3) as u16
}

impl Case {
    // The key at a place. Short ones have 3 or 4 bytes, and two by two the same head; long ones have 12 to 14, and 64 by 64 the
    // same head.
    pub(crate) fn key(self, k: u16) -> Key {
        let high = (k / 64 % 256) as u8;
        if self.long {
            let low = (k % 64) as u8;
            return Key {
                bytes: [112, 97, 114, 99, 101, 108, 47, 98, high, 0, 0, low, 0, 0],
                len: 12 + (k % 3) as usize,
            };
        }
        let pair = (k / 2 % 256) as u8;
        Key {
            bytes: [high, pair, 0, 0, 0, 0, 0, 0, 0, 0, 0, 0, 0, 0],
            len: 3 + (k % 2) as usize,
        }
    }

    // The value of record `i`: none, the number, or the number in all eight bytes.
    pub(crate) fn value(self, i: u8) -> u64 {
        match self.width {
            0 => 0,
            1 => i as u64,
            _ => 72340172838076673 * (i as u64),
        }
    }
}

// An order in which the records are filed.
#[derive(Clone, Copy)]
pub(crate) enum Order {
    Rising,
    Falling,
    // by strides of 77
    Strides,
    // odd ones before even ones
    OddFirst,
    // by strides of 143, from 100 on
    LongStrides,
}

impl Order {
    // Which record is filed as the `i`th.
    pub(crate) fn number_at(self, i: u8) -> u8 {
        let n = (i % 240) as u32;
        match self {
            Order::Rising => n as u8,
            Order::Falling => (239 - n) as u8,
            Order::Strides => (77 * n % 240) as u8,
            Order::OddFirst => odd_first(n as u8),
            Order::LongStrides => ((143 * n + 100) % 240) as u8,
        }
    }
}

// 1, 3, .. and then 0, 2, ..
fn odd_first(i: u8) -> u8
    requires { i < 240 }
{
    if i < 120 {
        return 2 * i + 1;
    }
    2 * (i - 120)
}
