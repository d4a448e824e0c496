// A server of calls: answers a stream of requests on standard input, one after the other, on standard output.
// Four registers keep a page each between calls.
#![tactic(auto)]

mod call;
mod calls;
mod registers;
mod run;
mod wire;

use crate::calls::Conversation;
use crate::wire::{Broken, Failure, Reply};
use std::io;
use std::io::{Read, Write};

fn main(rt: HostRuntime) -> io::Result<()> {
    let mut conversation = Conversation::new();
    serve(&mut rt.stdin(), &mut rt.stdout(), &mut conversation)
}

// Answers all that the input holds. A request that cannot be carried to a call is told as such and is the last one.
fn serve<R: Read, W: Write>(
    input: &mut R,
    output: &mut W,
    conversation: &mut Conversation,
) -> io::Result<()> {
    match answer_all(input, output, conversation) {
        Ok(()) => Ok(()),
        Err(Failure::Broken) => Reply::from(Broken).write(output),
        Err(Failure::Io(e)) => Err(e),
    }
}

// Answers request after request, to the end of the input. A proved loop has to end, and nothing says that the input does: it
// counts to a number that no run uses up.
fn answer_all<R: Read, W: Write>(
    input: &mut R,
    output: &mut W,
    conversation: &mut Conversation,
) -> Result<(), Failure> {
    for _ in 0..u64::MAX {
        let Some(q) = conversation.receive(input)? else {
            break;
        };
        conversation.answer(q)?.write(output)?;
    }
    Ok(())
}
