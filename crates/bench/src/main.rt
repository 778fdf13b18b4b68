// Reads a script from standard input, one command a line, and writes one answer for each.
#![tactic(auto)]

use answers::Answer;
use desk::Desk;
use message::Content;
use script::Command;
use std::io;
use std::io::{Read, Write};
use terms::Refusal;

// The desk, the bytes on the wire, an output, and how much of the next line has come.
#[derive(Drop)]
struct Bench {
    desk: Desk,
    wire: [u8; 40000],
    out: [u8; 40001],
    // room for one byte more than a line has, so that a longer one is seen
    line: [u8; 40001],
    len: usize,
}

// A message through reader and writer. What is lent to it is the message limit, for it is no call of a side.
fn reread(s: &[u8], out: &mut [u8]) -> Result<Answer, Refusal> {
    let lent = Content::LIMIT.min(out.len());
    let n = message_reread::reread(s, &mut out[..lent])?;
    Ok(Answer::Standing(n))
}

impl Bench {
    // What is done with the desk by itself.
    fn sets(&mut self, command: Command) -> Result<Answer, Refusal> {
        match command {
            Command::Lose => self.desk.loses(),
            Command::Cut => self.desk.cut(),
            Command::Lend(n) => self.desk.lends(n as usize),
            Command::Fresh(n) => return self.desk.afresh(n),
            Command::Rule(rule) => return Ok(acts::server_goes_by(&mut self.desk, rule)),
            _ => return Ok(Answer::Unknown),
        }
        Ok(Answer::Yes)
    }

    // What a command does that is the line that has come.
    fn does(&mut self, command: Command) -> Result<Answer, Refusal> {
        let line = message::front(&self.line, self.len);
        let desk = &mut self.desk;
        let wire = &mut self.wire;
        let out = &mut self.out;
        match command {
            Command::Press(act) => acts::press_does(desk, act, line, out),
            Command::Server(act) => acts::server_does(desk, act, line, out),
            Command::Start => wire::start(desk, wire, out),
            Command::Step => wire::step(desk, wire, out),
            Command::Run => wire::run(desk, wire, out),
            Command::Break(k) => wire::breaks(desk, k, wire, out),
            Command::Changes => Ok(panel::shows(desk, wire, out)),
            Command::Help => Ok(Answer::Standing(answers::put_help(out))),
            Command::Reread(at) => reread(script::rest(line, at), out),
            _ => self.sets(command),
        }
    }

    // The command that the line is; one that fills its room was longer than a line may be.
    fn command(&self) -> Command {
        if self.len < self.line.len() {
            script::command_of(message::front(&self.line, self.len))
        } else {
            Command::Unknown
        }
    }

    // The line that has come is answered, and the next one begins.
    fn answers<W: Write>(&mut self, output: &mut W) -> io::Result<()> {
        let said = self.does(self.command()).map_err(u8::from);
        let n = answers::put_said(&mut self.out, said);
        self.len = 0;
        output.write_all(message::front(&self.out, n))
    }

    // The lines that end in a piece of the input are answered; what is left of it begins the next line.
    fn takes<W: Write>(&mut self, output: &mut W, s: &[u8]) -> io::Result<()> {
        let mut i = 0;
        while i < s.len() {
            let end = script::line_end(s, i);
            self.len = token::put_text(&mut self.line, self.len, &s[i..end]);
            if end < s.len() {
                self.answers(output)?;
            }
            i = end + 1;
        }
        Ok(())
    }

    // Every line of the input is answered, the last one also without a line feed. A loop has to end, and nothing says that the input does:
    // no run uses its turns up.
    fn reads<R: Read, W: Write>(&mut self, input: &mut R, output: &mut W) -> io::Result<()> {
        let mut buffer = [0u8; 4096];
        for _ in 0..u64::MAX {
            let n = input.read(&mut buffer)?;
            if n == 0 {
                break;
            }
            self.takes(output, message::front(&buffer, n))?;
        }
        if self.len > 0 {
            self.answers(output)?;
        }
        Ok(())
    }
}

fn main(rt: HostRuntime) -> io::Result<()> {
    let mut bench = Bench {
        desk: Desk::fresh(1),
        wire: [0; 40000],
        out: [0; 40001],
        line: [0; 40001],
        len: 0,
    };
    bench.reads(&mut rt.stdin(), &mut rt.stdout())
}
