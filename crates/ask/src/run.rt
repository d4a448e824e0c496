// A run of bytes of any length up to the most that there is room for: a register's page, and what comes with a request.
ghost use Rattle.std.specs.Prelude.{◌≡◌, ◌≤◌, length, []};

use crate::wire;
use crate::wire::Failure;
use std::io::Read;
use std::marker::Model;

// How many bytes a run has room for.
pub(crate) const ROOM: usize = 82000;

// The bytes have a length beside them since there is no heap: the memory is fixed.
#[derive(Drop)]
pub(crate) struct Run {
    bytes: [u8; ROOM],
    len: usize,
}

impl Model for Run {
    ghost use Rattle.std.specs.Prelude.{List, ℕ, ◌≤◌, take};
    ghost use Rattle.ask.specs.declared.run.TheConstants.{ROOM};

    ghost Value = { List ℕ };

    ghost view = { λ r. take r.len r.bytes };

    ghost invariant = { λ r. r.len ≤ ROOM };
}

impl Run {
    // A run of no bytes.
    pub(crate) fn new() -> Self
        ensures { result ≡ [] }
    {
        Run {
            bytes: [0u8; ROOM],
            len: 0,
        }
    }

    // Its bytes.
    pub(crate) fn content(&self) -> &[u8]
        ensures bytes { result.now ≡ self.now }
        ensures bound { length result.now ≤ ROOM }
    {
        &self.bytes[..self.len]
    }

    // Its bytes, to be written.
    pub(crate) fn content_mut(&mut self) -> &mut [u8]
        ensures { length result.now ≤ ROOM }
    {
        &mut self.bytes[..self.len]
    }

    // All that it has room for, to be written.
    pub(crate) fn room(&mut self) -> &mut [u8]
        ensures { length result.now ≡ ROOM }
    {
        &mut self.bytes
    }

    // Makes `bytes` its content.
    pub(crate) fn load(&mut self, bytes: &[u8])
        requires { length bytes.now ≤ ROOM }
        ensures { self.new ≡ bytes.now }
    {
        self.bytes[..bytes.len()].copy_from_slice(bytes);
        self.len = bytes.len();
    }

    // Reads a run: its length in four bytes, then its bytes. One that there is no room for is broken.
    pub(crate) fn read<R: Read>(&mut self, input: &mut R) -> Result<(), Failure> {
        let mut four = [0u8; 4];
        wire::read_all(input, &mut four)?;
        let len = u32::from_le_bytes(four) as usize;
        if ROOM < len {
            return Err(Failure::Broken);
        }
        wire::read_all(input, &mut self.bytes[..len])?;
        self.len = len;
        Ok(())
    }
}
