// Requests from a reader, and replies to a writer. Numbers are little-endian.
ghost use Rattle.std.specs.Prelude.{◌≤◌, length};
ghost use Rattle.ask.specs.declared.run.TheConstants.{ROOM};

use crate::call::Call;
use crate::registers::RegisterNumber;
use crate::run::{ROOM, Run};
use dorgumanna::answer;
use dorgumanna::answer::{Answer, Values};
use octets::number;
use paper::refusal::Refusal;
use std::io;
use std::io::{Read, Write};

// The first number of a reply: the call is done, or the request cannot be carried to a call. Between them lie the refusals.
const DONE: u8 = 0;

const BROKEN: u8 = 255;

// Why a request cannot be carried to a call: it is cut short, or it holds what no call takes.
#[derive(Clone, Copy)]
pub(crate) struct Broken;

// Why no further request is answered. A derive of `thiserror` would write its two `From`, and ask for texts that nobody prints.
#[derive(Drop)]
pub(crate) enum Failure {
    // the system could not read or write
    Io(io::Error),
    Broken,
}

impl From<io::Error> for Failure {
    fn from(e: io::Error) -> Self {
        Failure::Io(e)
    }
}

impl From<Broken> for Failure {
    fn from(_: Broken) -> Self {
        Failure::Broken
    }
}

// A request but for its two runs of bytes. What it says of a register matters to the calls that look at one.
#[derive(Clone, Copy)]
pub(crate) struct Request {
    pub call: Call,
    pub width: u8,
    pub page: Result<RegisterNumber, Broken>,
    pub other: Result<RegisterNumber, Broken>,
    pub a: u64,
    pub b: u64,
    pub c: u64,
}

// Fills `bytes` from the input; one that ends before is broken.
pub(crate) fn read_all<R: Read>(input: &mut R, bytes: &mut [u8]) -> Result<(), Failure> {
    if reading::read_full(input, bytes)? < bytes.len() {
        return Err(Failure::Broken);
    }
    Ok(())
}

// Reads the next request, its runs to `first` and `second`; none where the input ends between requests.
pub(crate) fn receive<R: Read>(
    input: &mut R,
    first: &mut Run,
    second: &mut Run,
) -> Result<Option<Request>, Failure> {
    let mut head = [0u8; 28];
    let got = reading::read_full(input, &mut head)?;
    if got == 0 {
        return Ok(None);
    }
    if got < 28 {
        return Err(Failure::Broken);
    }
    first.read(input)?;
    second.read(input)?;
    Ok(Some(Request {
        call: Call::try_from(head[0])?,
        width: head[1],
        page: RegisterNumber::try_from(head[2]),
        other: RegisterNumber::try_from(head[3]),
        a: number::read_u64(&head, 4),
        b: number::read_u64(&head, 12),
        c: number::read_u64(&head, 20),
    }))
}

// What a request is answered: how it went, two numbers and bytes; what a call has not of these is 0 or empty.
#[derive(Clone, Copy)]
pub(crate) struct Reply<'a> {
    number: u8,
    a: u64,
    b: u64,
    bytes: &'a [u8],
    ghost fits: { length bytes.now ≤ ROOM },
}

impl<'a> Reply<'a> {
    // One that has no bytes.
    fn new(number: u8, a: u64, b: u64) -> Self {
        Reply {
            number,
            a,
            b,
            bytes: b"",
        }
    }

    // A call done that answers one number.
    pub(crate) fn done(a: u64) -> Self {
        Reply::new(DONE, a, 0)
    }

    // The same with these bytes.
    pub(crate) fn with(mut self, bytes: &'a [u8]) -> Self
        requires { length bytes.now ≤ ROOM }
    {
        self.bytes = bytes;
        self
    }

    // Writes it, whole and flushed.
    pub(crate) fn write<W: Write>(self, output: &mut W) -> io::Result<()> {
        let mut head = [0u8; 21];
        head[0] = self.number;
        number::write_u64(&mut head, 1, self.a);
        number::write_u64(&mut head, 9, self.b);
        number::write_u32(&mut head, 17, self.bytes.len() as u32);
        output.write_all(&head)?;
        output.write_all(self.bytes)?;
        output.flush()
    }
}

// A request that cannot be carried to a call.
impl From<Broken> for Reply<'_> {
    fn from(_: Broken) -> Self {
        Reply::new(BROKEN, 0, 0)
    }
}

// A call with numbers for its answer.
impl From<Answer> for Reply<'_> {
    fn from(told: Answer) -> Self {
        Reply::new(told.number, told.a, told.b)
    }
}

// A call refused.
impl From<Refusal> for Reply<'_> {
    fn from(r: Refusal) -> Self {
        answer::refusal(r).into()
    }
}

// A call done or refused.
impl<T: Values> From<Result<T, Refusal>> for Reply<'_> {
    fn from(answered: Result<T, Refusal>) -> Self {
        answer::tell(answered).into()
    }
}
