// Commands to one side: edits, giving up, a message by hand, its block, and the server's rule.
#![tactic(auto)]

ghost use Rattle.std.specs.Prelude.{◌≡◌, Ok, true, false, refl};
ghost use Rattle.token.specs.Put.{Put};
ghost use Rattle.answers.specs.Said.{said_as};
ghost use Rattle.calls.specs.After.{after};
ghost use Rattle.calls.specs.Reply.{taken_as};
ghost use Rattle.desk.specs.declared.Desk.{Desk};
ghost use Rattle.desk.specs.Desk.{saying};
ghost use Rattle.acts.specs.Acts.{left, hears, acts, Side, Answers};
ghost use Rattle.acts.specs.PressSide.{press_side};
ghost use Rattle.acts.specs.ServerSide.{server_side, rule_told};

use answers::Answer;
use cards::Press;
use desk::Desk;
use records::{Rule, Server};
use script::Act;
use terms::{Guid, Luid, Refusal};

// A side, as its commands see it.
pub trait Commanded {
    ghost side: { Side Self };

    fn adds(&mut self, text: &[u8]) -> Result<Answer, Refusal>
        ensures { Answers (side.adds self.old text.now) true result self.new };

    fn edits(&mut self, number: u32, text: &[u8]) -> Result<Answer, Refusal>
        ensures { Answers (side.edits self.old number text.now) false result self.new };

    fn deletes(&mut self, number: u32) -> Result<Answer, Refusal>
        ensures { Answers (side.deletes self.old number) false result self.new };

    fn gives_up(&mut self)
        ensures { self.new ≡ side.gives_up self.old };

    fn takes(&mut self, s: &[u8], out: &mut [u8]) -> Result<Option<usize>, Refusal>
        ensures { after (taken_as result) self.new out.new ≡ side.takes self.old s.now out.old };

    fn put_block(&self, out: &mut [u8]) -> usize
        ensures { Put out.old out.new 0 result (side.block self.now) };

    // a side that is put back as it was leaves the desk as it was
    ghost stays: { (d : Desk) → side.back d (side.here d) ≡ d };
}

// A message by hand, with so many bytes lent: the wire stays as it was.
fn hears<S: Commanded>(
    side: &mut S,
    lent: usize,
    s: &[u8],
    out: &mut [u8],
) -> Result<Answer, Refusal>
    ensures { (d : Desk) → S.side.here d ≡ side.old → d.lent ≡ lent → left (saying (S.side.back d side.new) (said_as result)) out.new ≡ hears S.side d s.now out.old }
{
    let lent = lent.min(out.len());
    let sent = side.takes(s, &mut out[..lent])?;
    Ok(sent.map_or(Answer::Done, Answer::Standing))
}

// What a command asks of a side, with so many bytes lent to a call.
pub fn does<S: Commanded>(
    side: &mut S,
    lent: usize,
    act: Act,
    line: &[u8],
    out: &mut [u8],
) -> Result<Answer, Refusal>
    ensures { (d : Desk) → S.side.here d ≡ side.old → d.lent ≡ lent → left (saying (S.side.back d side.new) (said_as result)) out.new ≡ acts S.side d act line.now out.old }
{
    match act {
        Act::Add(at) => side.adds(script::rest(line, at)),
        Act::Edit(n, at) => side.edits(n, script::rest(line, at)),
        Act::Delete(n) => side.deletes(n),
        Act::Message(at) => hears(side, lent, script::rest(line, at), out),
        Act::GiveUp => {
            side.gives_up();
            Ok(Answer::Yes)
        }
        Act::Tables => Ok(Answer::Standing(side.put_block(out))),
        Act::Unknown => Ok(Answer::Unknown),
    }
}

impl Commanded for Press {
    ghost side = { press_side };

    fn adds(&mut self, text: &[u8]) -> Result<Answer, Refusal> {
        let luid = press_add::press_add(self, text)?;
        Ok(Answer::Number(luid.0))
    }

    fn edits(&mut self, number: u32, text: &[u8]) -> Result<Answer, Refusal> {
        press_edit::press_edit(self, Luid(number), text)?;
        Ok(Answer::Yes)
    }

    fn deletes(&mut self, number: u32) -> Result<Answer, Refusal> {
        press_delete::press_delete(self, Luid(number))?;
        Ok(Answer::Yes)
    }

    fn gives_up(&mut self) {
        *self = Press::gives_up(*self);
    }

    fn takes(&mut self, s: &[u8], out: &mut [u8]) -> Result<Option<usize>, Refusal> {
        press_calls::takes(self, s, out)
    }

    fn put_block(&self, out: &mut [u8]) -> usize {
        press_block::put_press(out, 0, self)
    }

    ghost stays = { λ d. refl };
}

impl Commanded for Server {
    ghost side = { server_side };

    fn adds(&mut self, text: &[u8]) -> Result<Answer, Refusal> {
        let guid = server_add::server_add(self, text)?;
        Ok(Answer::Number(guid.0))
    }

    fn edits(&mut self, number: u32, text: &[u8]) -> Result<Answer, Refusal> {
        server_edit::server_edit(self, Guid(number), text)?;
        Ok(Answer::Yes)
    }

    fn deletes(&mut self, number: u32) -> Result<Answer, Refusal> {
        server_delete::server_delete(self, Guid(number))?;
        Ok(Answer::Yes)
    }

    fn gives_up(&mut self) {
        *self = Server::gives_up(*self);
    }

    fn takes(&mut self, s: &[u8], out: &mut [u8]) -> Result<Option<usize>, Refusal> {
        Ok(Some(server_calls::takes(self, s, out)?))
    }

    fn put_block(&self, out: &mut [u8]) -> usize {
        server_block::put_server(out, 0, self)
    }

    ghost stays = { λ d. refl };
}

// What a command asks of the press.
pub fn press_does(desk: &mut Desk, act: Act, line: &[u8], out: &mut [u8]) -> Result<Answer, Refusal>
    ensures { left (saying desk.new (said_as result)) out.new ≡ acts press_side desk.old act line.now out.old }
{
    does(&mut desk.press, desk.lent, act, line, out)
}

// What a command asks of the server.
pub fn server_does(
    desk: &mut Desk,
    act: Act,
    line: &[u8],
    out: &mut [u8],
) -> Result<Answer, Refusal>
    ensures { left (saying desk.new (said_as result)) out.new ≡ acts server_side desk.old act line.now out.old }
{
    does(&mut desk.server, desk.lent, act, line, out)
}

// The server goes by this rule from now on, open or not.
pub fn server_goes_by(desk: &mut Desk, rule: Rule) -> Answer
    ensures { saying desk.new (said_as (Ok result)) ≡ rule_told desk.old rule }
{
    desk.server = desk.server.goes_by(rule);
    Answer::Yes
}
