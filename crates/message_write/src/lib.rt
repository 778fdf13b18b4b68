// A message, written from the content of its package.
#![tactic(auto)]

ghost use Rattle.std.specs.Prelude.{◌≡◌, length};
ghost use Rattle.token.specs.Put.{Put};
ghost use Rattle.message.specs.Message.{message_c};
ghost use Rattle.message.specs.Answer.{message_of, answer_of, answer_to, output_to};

use message::{Content, Form};
use terms::Refusal;

// How long the message of a content is.
fn content_len(c: &Content) -> usize
    ensures { result ≡ length (message_c.write (message_of c.now)) }
{
    let form = Form::of(c.head.pkg);
    let answers = c.answers();
    let first = 4 + answers.len() as u32;
    elements::head_len(c.head)
        + lists::list_len(3, answers, form.answersend, c.answersend)
        + lists::list_len(first, c.commands(), form.commandsend, c.commandsend)
}

// The message of a content, at the start of the output.
fn put_content(out: &mut [u8], c: &Content) -> usize
    ensures { Put out.old out.new 0 result (message_c.write (message_of c.now)) }
{
    let form = Form::of(c.head.pkg);
    let answers = c.answers();
    let first = 4 + answers.len() as u32;
    let p = elements::write_head(out, 0, c.head);
    let q = lists::write_list(out, p, 3, answers, form.answersend, c.answersend);
    lists::write_list(out, q, first, c.commands(), form.commandsend, c.commandsend)
}

// The message of a content, or refusal 9 with the output as it was.
pub fn write(out: &mut [u8], c: &Content) -> Result<usize, Refusal>
    ensures { (answer_of result ≡ answer_to out.old (message_c.write (message_of c.now))) × (out.new ≡ output_to out.old (message_c.write (message_of c.now))) }
{
    let n = content_len(c);
    if out.len() < n {
        return Err(Refusal::NoRoom);
    }
    put_content(out, c);
    Ok(n)
}
