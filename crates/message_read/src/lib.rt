// A whole message, read into the content of its package.
#![tactic(auto)]

ghost use Rattle.std.specs.Prelude.{◌≡◌};
ghost use Rattle.message.specs.Message.{read_message};
ghost use Rattle.message.specs.Answer.{taken_as};

use message::{Content, Form};
use token::Misread;

// The message that s is.
#[inline(never)]
pub fn read(s: &[u8]) -> Result<Content, Misread>
    ensures { result ≡ taken_as (read_message s.now) }
{
    if Content::LIMIT < s.len() {
        return Err(Misread {
            place: Content::LIMIT,
        });
    }
    let (head, p) = reader::head_of(s)?;
    let form = Form::of(head.pkg);
    let (a, q) = lists::read_list(s, p, form.answers, form.answersend, 3)?;
    let first = 4 + a.n as u32;
    let (b, end) = lists::read_list(s, q, form.commands, form.commandsend, first)?;
    if end.at != s.len() {
        return Err(Misread { place: end.at });
    }
    let answers = a.items;
    let commands = b.items;
    Ok(Content {
        head,
        answered: a.n,
        answers,
        answersend: a.end,
        commanded: b.n,
        commands,
        commandsend: b.end,
    })
}
