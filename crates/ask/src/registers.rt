// The registers: each keeps a page between calls.
ghost use Rattle.std.specs.Prelude.{◌≤◌, ◌<◌, length};

use crate::run::{ROOM, Run};
use crate::wire::Broken;

// The number of a register, of which there are four.
#[derive(Clone, Copy, PartialEq, Eq)]
pub(crate) struct RegisterNumber {
    index: usize,
    ghost known: { index < 4 },
}

impl TryFrom<u8> for RegisterNumber {
    type Error = Broken;

    fn try_from(number: u8) -> Result<Self, Broken> {
        let index = usize::from(number);
        if index < 4 {
            Ok(RegisterNumber { index })
        } else {
            Err(Broken)
        }
    }
}

#[derive(Drop)]
pub(crate) struct Registers {
    runs: [Run; 4],
}

impl Registers {
    // Registers of no bytes.
    pub(crate) fn new() -> Self {
        Registers {
            runs: [Run::new(), Run::new(), Run::new(), Run::new()],
        }
    }

    // The page in register `r`.
    pub(crate) fn page(&self, r: RegisterNumber) -> &[u8]
        ensures { length result.now ≤ ROOM }
    {
        self.runs[r.index].content()
    }

    // The page in register `r`, to be written.
    pub(crate) fn page_mut(&mut self, r: RegisterNumber) -> &mut [u8] {
        self.runs[r.index].content_mut()
    }

    // Makes `bytes` the page in register `r`.
    pub(crate) fn load(&mut self, r: RegisterNumber, bytes: &[u8])
        requires { length bytes.now ≤ ROOM }
    {
        self.runs[r.index].load(bytes);
    }
}
