// Messages on the wire: the press starts, the wire's message is handed on, a whole session, and one that breaks.
#![tactic(auto)]

ghost use Rattle.std.specs.Prelude.{◌≡◌, length, take, min};
ghost use Rattle.std.proofs.lemmas.List.Edits.{sets};
ghost use Rattle.answers.specs.Said.{said_as};
ghost use Rattle.course.specs.Course.{alone, start, step, full, halted, lost_at};
ghost use Rattle.desk.specs.Desk.{saying};
ghost use Rattle.wire.specs.Wire.{moved, answer, stepped, agreed, leaves, to_press, to_server, lent_for};

use answers::Answer;
use desk::{Desk, Wire};
use terms::Refusal;

// How much of the output is lent to a call: a message that is sent has room on the wire.
fn lent(desk: &Desk, wire: &[u8], out: &[u8]) -> usize
    ensures { result ≡ min (lent_for desk.now wire.now) (length out.now) }
{
    desk.lent.min(wire.len()).min(out.len())
}

// The n bytes of a message, at the output's start, go onto the wire.
fn sends(wire: &mut [u8], out: &[u8], n: usize) -> Answer
    ensures { (result ≡ Answer.Standing n) × (wire.new ≡ sets wire.old 0 (take n out.now)) }
{
    token::put_text(wire, 0, message::front(out, n));
    Answer::Standing(n)
}

// The press starts.
pub fn start(desk: &mut Desk, wire: &mut [u8], out: &mut [u8]) -> Result<Answer, Refusal>
    ensures { moved (saying desk.new (said_as result)) wire.new out.new ≡ leaves answer (alone start) desk.old wire.old out.old }
{
    let lent = lent(desk, wire, out);
    let n = press_calls::start(&mut desk.press, &mut out[..lent])?;
    desk.wire = Wire::ToServer(n);
    Ok(sends(wire, out, n))
}

// The n bytes on the wire are handed to the press.
fn to_press(desk: &mut Desk, n: usize, wire: &mut [u8], out: &mut [u8]) -> Result<Answer, Refusal>
    ensures { moved (saying desk.new (said_as result)) wire.new out.new ≡ to_press desk.old n wire.old out.old }
{
    let lent = lent(desk, wire, out);
    let sent = press_calls::takes(&mut desk.press, message::front(wire, n), &mut out[..lent])?;
    let Some(n) = sent else {
        desk.wire = Wire::Empty;
        return Ok(Answer::Done);
    };
    desk.wire = Wire::ToServer(n);
    Ok(sends(wire, out, n))
}

// The n bytes on the wire are handed to the server.
fn to_server(desk: &mut Desk, n: usize, wire: &mut [u8], out: &mut [u8]) -> Result<Answer, Refusal>
    ensures { moved (saying desk.new (said_as result)) wire.new out.new ≡ to_server desk.old n wire.old out.old }
{
    let lent = lent(desk, wire, out);
    let n = server_calls::takes(&mut desk.server, message::front(wire, n), &mut out[..lent])?;
    desk.wire = Wire::ToPress(n);
    Ok(sends(wire, out, n))
}

// The wire's message is handed to the side that it is for.
pub fn step(desk: &mut Desk, wire: &mut [u8], out: &mut [u8]) -> Result<Answer, Refusal>
    ensures { moved (saying desk.new (said_as result)) wire.new out.new ≡ leaves (stepped desk.old.wire) (alone step) desk.old wire.old out.old }
{
    match desk.wire {
        Wire::Empty => Ok(Answer::Idle),
        Wire::ToPress(n) => to_press(desk, n, wire, out),
        Wire::ToServer(n) => to_server(desk, n, wire, out),
    }
}

// A start and steps, up to the first that brings no message, so that n packages were written.
fn course(desk: &mut Desk, n: u32, wire: &mut [u8], out: &mut [u8]) -> Result<Answer, Refusal>
    ensures { moved (saying desk.new (said_as result)) wire.new out.new ≡ leaves answer (halted n) desk.old wire.old out.old }
{
    let mut said = start(desk, wire, out)?;
    for _ in 1..n {
        if !matches!(said, Answer::Standing(_)) {
            break;
        }
        said = step(desk, wire, out)?;
    }
    Ok(said)
}

// A whole session, or the first refusal.
pub fn run(desk: &mut Desk, wire: &mut [u8], out: &mut [u8]) -> Result<Answer, Refusal>
    ensures { moved (saying desk.new (said_as result)) wire.new out.new ≡ leaves answer full desk.old wire.old out.old }
{
    course(desk, 7, wire, out)
}

// A session of which k packages were written and the last is lost; or the first refusal, and then nothing is cut.
pub fn breaks(desk: &mut Desk, k: u32, wire: &mut [u8], out: &mut [u8]) -> Result<Answer, Refusal>
    ensures { moved (saying desk.new (said_as result)) wire.new out.new ≡ leaves agreed (lost_at k) desk.old wire.old out.old }
{
    course(desk, k, wire, out)?;
    desk.cut();
    Ok(Answer::Yes)
}
