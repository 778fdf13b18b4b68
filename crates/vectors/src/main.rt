// Runs stored messages through reader and writer and compares each with what it should be: a line for each, and a count at the end.
// Of each, standard input has a line of 64 bytes (what it should be, its length in five digits, its name), its bytes, and a line feed;
// after one that should be written plain, with other spellings of its numbers or texts or a station left out, so too the bytes that should be written.
#![tactic(auto)]

ghost use Rattle.std.specs.Prelude.{◌≤◌};

use lists::Entry;
use message::Content;
use std::io;
use std::io::{Read, Write};
use terms::Refusal;

// The most messages of a run.
const MOST: u64 = 100000;

// The digit that a byte is.
fn digit(b: u8) -> usize
    ensures { result ≤ 9 }
{
    match b {
        b'0'..=b'9' => (b - b'0') as usize,
        _ => 0,
    }
}

// No stored message is longer here.
const LONGEST: usize = 65536;

// A stored message: the first letter of what it should be, the number of a refusal, its name, and its bytes.
#[derive(Clone, Copy)]
struct Stored<'a> {
    wanted: u8,
    number: u8,
    name: [u8; 47],
    bytes: &'a [u8],
}

// Reads until the buffer is full or the input ends, and tells how many bytes came.
fn read_full<R: Read>(input: &mut R, buffer: &mut [u8]) -> io::Result<u64> {
    let mut rest = buffer;
    io::copy(&mut input.by_ref().take(rest.len() as u64), &mut rest)
}

// The length that a line tells.
fn length_in(line: [u8; 64]) -> usize
    ensures { result ≤ 65536 }
{
    let n = digit(line[10]) * 10000
        + digit(line[11]) * 1000
        + digit(line[12]) * 100
        + digit(line[13]) * 10
        + digit(line[14]);
    n.min(LONGEST)
}

// The next of them, with its bytes and the line feed after it in a buffer; none where the input ends within.
fn next_stored<'a, R: Read>(
    input: &mut R,
    buffer: &'a mut [u8; LONGEST + 1],
) -> io::Result<Option<Stored<'a>>> {
    let mut line = [0u8; 64];
    if read_full(input, &mut line)? < 64 {
        return Ok(None);
    }
    let n = length_in(line);
    if read_full(input, &mut buffer[..n + 1])? < n as u64 {
        return Ok(None);
    }
    let mut name = [0u8; 47];
    name.copy_from_slice(&line[16..63]);
    Ok(Some(Stored {
        wanted: line[0],
        number: line[8],
        name,
        bytes: &buffer[..n],
    }))
}

// Whether a message, read and written again element by element, is w; or why not.
fn reread(s: &[u8], w: &[u8]) -> Result<bool, Refusal> {
    let mut out = [0u8; Content::LIMIT];
    let n = message_reread::reread(s, &mut out)?;
    Ok(message::front(&out, n) == w)
}

// The same through the content of a package, where it keeps all of the message.
fn rewrite(s: &[u8], w: &[u8]) -> Result<bool, Refusal> {
    let content = message_read::read(s)?;
    if Entry::KEPT < content.answered || Entry::KEPT < content.commanded {
        return Ok(true);
    }
    let mut out = [0u8; Content::LIMIT];
    let n = message_write::write(&mut out, &content)?;
    Ok(message::front(&out, n) == w)
}

// Whether a message gives what it should: w where it reads. Only lists that a content does not keep come out longer than the limit.
fn passes(message: Stored<'_>, w: &[u8]) -> bool {
    let again = reread(message.bytes, w);
    let kept = rewrite(message.bytes, w);
    match message.wanted {
        b'r' if message.number == b'9' => again == Err(Refusal::NoRoom) && kept == Ok(true),
        b'r' => again == Err(Refusal::Unreadable) && kept == Err(Refusal::Unreadable),
        _ => again == Ok(true) && kept == Ok(true),
    }
}

// What it should be, as a line tells it.
fn label(message: Stored<'_>) -> &'static [u8] {
    match message.wanted {
        b's' => b"same: ",
        b'p' => b"plain: ",
        _ if message.number == b'9' => b"refused 9: ",
        _ => b"refused 7: ",
    }
}

fn say<W: Write>(output: &mut W, message: Stored<'_>, ok: bool) -> io::Result<()> {
    output.write_all(if ok { b"ok " } else { b"FAILED " })?;
    output.write_all(label(message))?;
    let mut name = message.name.as_slice();
    while let Some(rest) = name.strip_suffix(b" ") {
        name = rest;
    }
    output.write_all(name)?;
    output.write_all(b"\n")
}

// A message, with the bytes that should be written of it where it reads.
fn case<'a, R: Read>(
    input: &mut R,
    first: &'a mut [u8; LONGEST + 1],
    second: &'a mut [u8; LONGEST + 1],
) -> io::Result<Option<(Stored<'a>, &'a [u8])>> {
    let Some(message) = next_stored(input, first)? else {
        return Ok(None);
    };
    if message.wanted == b'p' {
        let plain = next_stored(input, second)?;
        return Ok(plain.map(|plain| (message, plain.bytes)));
    }
    Ok(Some((message, message.bytes)))
}

fn main(rt: HostRuntime) -> io::Result<()> {
    let mut input = rt.stdin();
    let mut output = rt.stdout();
    let mut first = [0u8; LONGEST + 1];
    let mut second = [0u8; LONGEST + 1];
    let mut count: u64 = 0;
    let mut failed: u64 = 0;
    for turn in 0..MOST {
        let Some((message, w)) = case(&mut input, &mut first, &mut second)? else {
            break;
        };
        let ok = passes(message, w);
        say(&mut output, message, ok)?;
        count = turn + 1;
        if !ok {
            failed += 1;
        }
    }
    println!(rt; "{count} messages, {failed} failed")
}
