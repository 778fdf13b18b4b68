// Reads one message from standard input and writes it again through reader and writer, or `refused N`; then a line feed.
#![tactic(auto)]

use message::Content;
use std::io;
use std::io::{Read, Write};
use terms::Refusal;

// Room for one byte more than a message has, so that a longer one is seen.
const ROOM: usize = Content::LIMIT + 1;

fn say<W: Write>(output: &mut W, out: &[u8], answer: Result<usize, Refusal>) -> io::Result<()> {
    match answer {
        Ok(n) => output.write_all(message::front(out, n))?,
        Err(refusal) => write!(output, "{refusal}")?,
    }
    output.write_all(b"\n")
}

fn main(rt: HostRuntime) -> io::Result<()> {
    let mut input = [0u8; ROOM];
    let n = io::copy(&mut rt.stdin().take(ROOM as u64), &mut input.as_mut_slice())?;
    let mut out = [0u8; Content::LIMIT];
    let answer = message_reread::reread(message::front(&input, n as usize), &mut out);
    say(&mut rt.stdout(), &out, answer)
}
