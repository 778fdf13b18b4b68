// A message, read and written again element by element.
#![tactic(auto)]

ghost use Rattle.std.specs.Prelude.{◌≡◌, ◌≤◌, length};
ghost use Rattle.token.specs.Limit.{limit};
ghost use Rattle.token.specs.Put.{Put};
ghost use Rattle.message.specs.Message.{read_message};
ghost use Rattle.message.specs.Answer.{again, answer_of, reread_to, reoutput_to};

use elements::Head;
use message::Form;
use terms::Refusal;
use token::Cursor;

// How long the message is that begins with this head, written again element by element as far as it reads.
fn again_len(s: &[u8], head: Head, c: Cursor) -> usize
    requires { length s.now ≤ limit }
    ensures { result ≡ length (again s.now head c.at) }
{
    let form = Form::of(head.pkg);
    let a = lists::copied_len(s, c, form.answers, form.answersend, 3);
    let b = lists::copied_len(
        s,
        Cursor { at: a.place },
        form.commands,
        form.commandsend,
        a.due + 1,
    );
    elements::head_len(head) + a.next + b.next
}

// That message, at the start of the output.
fn put_again(out: &mut [u8], s: &[u8], head: Head, c: Cursor) -> usize
    requires { length s.now ≤ limit }
    ensures { Put out.old out.new 0 result (again s.now head c.at) }
{
    let form = Form::of(head.pkg);
    let p = elements::write_head(out, 0, head);
    let a = lists::copy_list(out, p, s, c, form.answers, form.answersend, 3);
    let b = lists::copy_list(
        out,
        a.next,
        s,
        Cursor { at: a.place },
        form.commands,
        form.commandsend,
        a.due + 1,
    );
    b.next
}

// A message read and written again, or why not, with the output as it was.
pub fn reread(s: &[u8], out: &mut [u8]) -> Result<usize, Refusal>
    ensures { (answer_of result ≡ reread_to out.old (read_message s.now)) × (out.new ≡ reoutput_to out.old (read_message s.now)) }
{
    message_read::read(s)?;
    let (head, c) = reader::head_of(s)?;
    let needed = again_len(s, head, c);
    if out.len() < needed {
        return Err(Refusal::NoRoom);
    }
    put_again(out, s, head, c);
    Ok(needed)
}
