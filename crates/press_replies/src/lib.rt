// What each command of the server does to the press's cards, and the answer to it in Pkg 5.
#![tactic(auto)]

ghost use Rattle.std.specs.Prelude.{◌≡◌};
ghost use Rattle.cards.specs.Press.{find_card};
ghost use Rattle.press_edits.specs.Edit.{room_for};
ghost use Rattle.press_replies.specs.Reply.{taken_card, delete_at, delete_answer, replace_at, replace_answer, add_at, add_answer, after_command, answering};

use cards::{Card, Cards, Mark, Press, Report};
use lists::Entry;
use statuses::Name;
use terms::{Guid, Luid};
use text::Wording;

// A card as it is taken from the server: clean, with a report, and with the station that said its text.
fn taken_card(guid: Guid, luid: Luid, fp: u32, wording: Wording) -> Card
    ensures { result ≡ taken_card guid luid fp wording }
{
    Card {
        mark: Mark::Clean,
        luid,
        fp,
        report: Report {
            on: true,
            guid,
            luid,
            fp,
        },
        wording,
    }
}

// A Delete removes the card.
fn take_delete(c: &mut Cards, cmdref: u32, o: &Entry) -> Entry
    ensures after { c.new ≡ delete_at c.old (find_card c.old o.now.fields.luid) }
    ensures answer { result ≡ delete_answer cmdref c.old (find_card c.old o.now.fields.luid) }
{
    let Some(i) = card_moves::find(c, o.fields.luid) else {
        return statuses::empty_status(cmdref, Name::Delete, 211);
    };
    places::put(&mut c.used, &mut c.places, i, None);
    statuses::empty_status(cmdref, Name::Delete, 200)
}

// A Replace gives the card a text and a fingerprint.
fn take_replace(c: &mut Cards, cmdref: u32, o: &Entry) -> Entry
    ensures after { c.new ≡ replace_at o.now c.old (find_card c.old o.now.fields.luid) }
    ensures answer { result ≡ replace_answer cmdref o.now c.old (find_card c.old o.now.fields.luid) }
{
    let Some(i) = card_moves::find(c, o.fields.luid) else {
        return statuses::empty_status(cmdref, Name::Replace, 404);
    };
    if Press::LAST_FP <= c.fp {
        return statuses::empty_status(cmdref, Name::Replace, 420);
    }
    c.fp += 1;
    let card = taken_card(Guid(0), c.places[i].luid, c.fp, o.wording);
    places::put(&mut c.used, &mut c.places, i, Some(card));
    statuses::replaced(cmdref, o.fields.luid, c.fp)
}

// An Add makes a card.
fn take_add(c: &mut Cards, cmdref: u32, o: &Entry) -> Entry
    ensures after { c.new ≡ add_at o.now c.old (room_for c.old) }
    ensures answer { result ≡ add_answer cmdref o.now c.old (room_for c.old) }
{
    let Some(i) = press_edits::room(c) else {
        return statuses::empty_status(cmdref, Name::Add, 420);
    };
    c.luid += 1;
    c.fp += 1;
    let card = taken_card(o.fields.guid, Luid(c.luid), c.fp, o.wording);
    places::put(&mut c.used, &mut c.places, i, Some(card));
    statuses::added(cmdref, o.fields.guid, Luid(c.luid), c.fp)
}

// The answer to a command, which has number cmdref.
#[tactic(auto, unfolding(crate::specs::Reply::after_command, crate::specs::Reply::answering))]
pub fn take_command(c: &mut Cards, cmdref: u32, o: &Entry) -> Entry
    ensures after { c.new ≡ after_command o.now c.old }
    ensures answer { result ≡ answering cmdref o.now c.old }
{
    match Name::of(o.fields.kind) {
        Name::Delete => take_delete(c, cmdref, o),
        Name::Replace => take_replace(c, cmdref, o),
        Name::Add => take_add(c, cmdref, o),
    }
}
