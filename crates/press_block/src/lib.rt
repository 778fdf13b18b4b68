// The press's block: a line for the press, a line for each place in use, and `end`.
#![tactic(auto)]

ghost use Rattle.std.specs.Prelude.{◌≡◌};
ghost use Rattle.token.specs.Put.{Put};
ghost use Rattle.press_block.specs.Block.{opened, marked, reported, report_field, card_text, deleted_text, held_text, place_line, place_lines, side_line, press_block};

use cards::{Awaits, Card, Cards, Mark, Press, Report};

// The package that the press awaits.
fn open_word(awaits: Awaits) -> &'static [u8]
    ensures { result.now ≡ opened awaits }
{
    match awaits {
        Awaits::Nothing => b"closed",
        Awaits::Two => b"2",
        Awaits::Four(_) => b"4",
        Awaits::Six => b"6",
    }
}

fn mark_word(mark: Mark) -> &'static [u8]
    ensures { result.now ≡ marked mark }
{
    match mark {
        Mark::Clean => b"clean",
        Mark::Added => b"added",
        Mark::Changed => b"changed",
        Mark::Deleted => b"deleted",
    }
}

// What a report says, or none.
fn put_reported(out: &mut [u8], at: usize, report: &Report) -> usize
    ensures { Put out.old out.new at result (reported report.now) }
{
    if !report.on {
        return token::put_text(out, at, b"none");
    }
    let at = answers::put_number_or(out, at, report.guid.0, b"-");
    let at = answers::put_field(out, at, b":", report.luid.0);
    answers::put_field(out, at, b":", report.fp)
}

fn put_report(out: &mut [u8], at: usize, report: &Report) -> usize
    ensures { Put out.old out.new at result (report_field report.now) }
{
    let at = token::put_text(out, at, b" report=");
    put_reported(out, at, report)
}

fn put_card(out: &mut [u8], at: usize, card: &Card) -> usize
    ensures { Put out.old out.new at result (card_text card.now) }
{
    let at = answers::put_field(out, at, b" card ", card.luid.0);
    let at = answers::put_field(out, at, b" fp=", card.fp);
    let at = token::put_text(out, at, b" mark=");
    let at = token::put_text(out, at, mark_word(card.mark));
    let at = put_report(out, at, &card.report);
    answers::put_wording(out, at, &card.wording)
}

fn put_deleted(out: &mut [u8], at: usize, card: &Card) -> usize
    ensures { Put out.old out.new at result (deleted_text card.now) }
{
    let at = answers::put_field(out, at, b" deleted ", card.luid.0);
    put_report(out, at, &card.report)
}

// What a place in use holds: a card or a delete mark.
fn put_held(out: &mut [u8], at: usize, card: &Card) -> usize
    ensures { Put out.old out.new at result (held_text card.now) }
{
    if card.mark.is_live() {
        put_card(out, at, card)
    } else {
        put_deleted(out, at, card)
    }
}

// The line of a place in use.
fn put_place(out: &mut [u8], at: usize, place: u32, card: &Card) -> usize
    ensures { Put out.old out.new at result (place_line place card.now) }
{
    let at = answers::put_field(out, at, b"place ", place);
    let at = put_held(out, at, card);
    token::put_byte(out, at, b'\n')
}

#[tactic(auto, unfolding(crate::specs::Block::place_lines))]
pub fn put_places(out: &mut [u8], at: usize, cards: &Cards) -> usize
    ensures { Put out.old out.new at result (place_lines cards.now) }
{
    answers::put_lines(out, at, cards.used, &cards.places, put_place)
}

// The line of the press itself.
fn put_side(out: &mut [u8], at: usize, press: &Press) -> usize
    ensures { Put out.old out.new at result (side_line press.now) }
{
    let is = open_word(press.awaits);
    let at = answers::put_link(out, at, b"press open=", is, press.anchor, press.session);
    let at = answers::put_field(out, at, b" fp=", press.cards.fp);
    let at = answers::put_field(out, at, b" luid=", press.cards.luid);
    let at = answers::put_field(out, at, b" station=", press.cards.station as u32);
    token::put_byte(out, at, b'\n')
}

// The block, without its last line feed.
pub fn put_press(out: &mut [u8], at: usize, press: &Press) -> usize
    ensures { Put out.old out.new at result (press_block press.now) }
{
    let at = put_side(out, at, press);
    let at = put_places(out, at, &press.cards);
    token::put_text(out, at, b"end")
}
