// The listing program: reads a width byte and a page on standard input and prints the verdicts, the space numbers and the entries.
// A read or a write that fails ends it with the error.
#![tactic(auto)]

use listing::print;
use std::io;

fn main(rt: HostRuntime) -> io::Result<()> {
    let mut input = [0u8; 16386];
    let n = reading::read_full(&mut rt.stdin(), &mut input)?;
    print::print(&mut rt.stdout(), &input[..n], 0)?;
    Ok(())
}
