// The panel: what the bench shows of the message on the wire.
#![tactic(auto)]

ghost use Rattle.std.specs.Prelude.{◌≡◌, min, length, take};
ghost use Rattle.std.proofs.lemmas.List.Edits.{sets};
ghost use Rattle.token.specs.Put.{Put};
ghost use Rattle.answers.specs.declared.Answer.{Answer};
ghost use Rattle.message_changes.specs.Shown.{shown_as};
ghost use Rattle.panel.specs.Panel.{package_text, panel_text, message_text, wire_text};

use answers::Answer;
use desk::{Desk, Wire};
use message_changes::Shown;
use terms::Refusal;

// Which package it is, at the start of an output.
fn put_package(out: &mut [u8], pkg: u32) -> usize
    ensures { Put out.old out.new 0 result (package_text pkg) }
{
    let at = answers::put_field(out, 0, b"package ", pkg);
    token::put_text(out, at, b" of 6")
}

// What is shown of a message, at the start of an output.
fn put_shown(out: &mut [u8], shown: Result<Shown, Refusal>) -> usize
    ensures { Put out.old out.new 0 result (panel_text (shown_as shown)) }
{
    match shown {
        Ok(
            Shown {
                package,
                changes: Some(n),
            },
        ) => {
            let at = put_package(out, package);
            let at = answers::put_field(out, at, b", ", n);
            token::put_text(out, at, b" changes")
        }
        Ok(
            Shown {
                package,
                changes: None,
            },
        ) => put_package(out, package),
        Err(refusal) => answers::put_field(out, 0, b"refused ", u8::from(refusal) as u32),
    }
}

// The same of the n bytes on the wire.
fn put_message(out: &mut [u8], wire: &[u8], n: usize) -> usize
    ensures { Put out.old out.new 0 result (message_text (take n wire.now)) }
{
    put_shown(out, message_changes::changes(message::front(wire, n)))
}

// And of whatever is on the wire.
fn put_wire(out: &mut [u8], held: Wire, wire: &[u8]) -> usize
    ensures { Put out.old out.new 0 result (wire_text held wire.now) }
{
    match held {
        Wire::Empty => token::put_text(out, 0, b"none"),
        Wire::ToPress(n) | Wire::ToServer(n) => put_message(out, wire, n),
    }
}

// The panel is read; nothing else changes.
pub fn shows(desk: &Desk, wire: &[u8], out: &mut [u8]) -> Answer
    ensures { (result ≡ Answer.Standing (min (length (wire_text desk.now.wire wire.now)) (length out.old))) × (out.new ≡ sets out.old 0 (wire_text desk.now.wire wire.now)) }
{
    Answer::Standing(put_wire(out, desk.wire, wire))
}
