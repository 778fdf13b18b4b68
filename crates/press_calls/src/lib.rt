// The press starts a session, and takes a message: the public calls on bytes, with their refusals in their order.
#![tactic(auto)]

ghost use Rattle.std.specs.Prelude.{◌≡◌};
ghost use Rattle.calls.specs.Reply.{written_as, taken_as};
ghost use Rattle.calls.specs.After.{after};
ghost use Rattle.press_calls.specs.Call.{press_start, press_takes};

use cards::Press;
use terms::Refusal;

// The press starts a session, and Pkg 1 stands in the output, so long; or a refusal, with press and output as they were.
pub fn start(press: &mut Press, out: &mut [u8]) -> Result<usize, Refusal>
    ensures { after (written_as result) press.new out.new ≡ press_start press.old out.old }
{
    let mut next = *press;
    let answer = press_rules::starts(&mut next)?;
    let n = message_write::write(out, &answer)?;
    *press = next;
    Ok(n)
}

// The press takes a message, and its answer, if the package has one, stands in the output; or a refusal, with press and output as they were.
pub fn takes(press: &mut Press, s: &[u8], out: &mut [u8]) -> Result<Option<usize>, Refusal>
    ensures { after (taken_as result) press.new out.new ≡ press_takes press.old s.now out.old }
{
    let x = message_read::read(s)?;
    let mut next = *press;
    let n = match press_awaits::does(&mut next, &x)? {
        Some(answer) => Some(message_write::write(out, &answer)?),
        None => None,
    };
    *press = next;
    Ok(n)
}
