// Listings of many inputs: a stream of records on standard input, each a mode byte, a length of four bytes, the lowest first,
// and so many bytes, at most 20,000, which stand for the listing program's input. Each is answered by what that program
// prints (mode 0), or by the sums of this text (any other mode). A record cut short, or one too long, is answered `cut` and
// ends the program, as does, with the error, a read or a write that fails.
#![tactic(auto)]

use listing::sink::{Mode, Sink};
use listing::{lines, print};
use std::io;
use std::io::{Read, Write};

fn main(rt: HostRuntime) -> io::Result<()> {
    let mut input = [0u8; 20000];
    serve_all(&mut rt.stdin(), &mut rt.stdout(), &mut input)
}

// Answers record after record. A proved loop has to end, and nothing says that the input does: it counts up to a number that
// no run reaches.
fn serve_all<R: Read, W: Write>(from: &mut R, to: &mut W, input: &mut [u8]) -> io::Result<()> {
    for _ in 0..u64::MAX {
        if !serve(from, to, input)? {
            break;
        }
    }
    Ok(())
}

// Takes one record and answers it; false where the program ends.
fn serve<R: Read, W: Write>(from: &mut R, to: &mut W, input: &mut [u8]) -> io::Result<bool> {
    let mut head = [0u8; 5];
    let got = reading::read_full(from, &mut head)?;
    if got == 0 {
        return Ok(false);
    }
    if got < 5 {
        return cut(to);
    }
    let [mode, a, b, c, d] = head;
    let len = u32::from_le_bytes([a, b, c, d]) as usize;
    let Some(record) = input.get_mut(..len) else {
        return cut(to);
    };
    if reading::read_full(from, record)? < len {
        return cut(to);
    }
    answer(to, record, mode)?;
    Ok(true)
}

// Answers a record.
fn answer<W: Write>(to: &mut W, input: &[u8], mode: u8) -> io::Result<()> {
    let sink = print::print(to, input, mode)?;
    match Mode::from(mode) {
        Mode::Printed => Ok(()),
        Mode::Summed => tell(to, sink),
    }
}

// Writes the line of a text's sums.
fn tell<W: Write>(to: &mut W, sink: Sink) -> io::Result<()> {
    let mut out = [0u8; 67];
    let end = lines::sum_line(sink, &mut out, 0);
    to.write_all(&out[..end])
}

// The answer to a record cut short, with which the program ends.
fn cut<W: Write>(to: &mut W) -> io::Result<bool> {
    to.write_all(b"cut\n")?;
    Ok(false)
}
