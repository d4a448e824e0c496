// What becomes of a text that the listing tells.
ghost use Rattle.std.specs.Prelude.{◌≡◌};
ghost use Rattle.listing.specs.Sums.{mode_of};

// What a text was told to: at mode 0 it was printed, and at any other summed up into two sums over its bytes and how many there
// were modulo 2^32.
#[derive(Drop)]
pub struct Sink {
    // a number, since the contract of `print` speaks of any mode byte
    pub mode: u8,
    pub h1: u64,
    pub h2: u64,
    pub len: u64,
}

// Whether a text is printed, or summed up.
#[derive(Clone, Copy)]
pub enum Mode {
    Printed,
    Summed,
}

// 0 is printed; any other number is summed up.
impl From<u8> for Mode {
    ghost from_gives = { λ n m. m ≡ mode_of n };

    fn from(mode: u8) -> Self {
        match mode {
            0 => Mode::Printed,
            _ => Mode::Summed,
        }
    }
}
