// A person gives a card of the press a new text.
#![tactic(auto)]

ghost use Rattle.std.specs.Prelude.{◌≡◌, ◌<◌};
ghost use Rattle.places.specs.Set.{all_places};
ghost use Rattle.press_edits.specs.Edited.{edited_at};
ghost use Rattle.press_edits.specs.Edit.{edited, with_edit, press_edit};

use cards::{Card, Cards, Mark, Press};
use terms::{Luid, Refusal};

// The mark after an edit: clean becomes changed.
fn mark_edited(mark: Mark) -> Mark
    ensures { result ≡ edited mark }
{
    if mark == Mark::Clean {
        Mark::Changed
    } else {
        mark
    }
}

// A new text and fingerprint in place i.
fn put_edit(cards: &mut Cards, i: usize, text: &[u8])
    requires { (i < all_places) × (cards.old.fp < 4294967295) }
    ensures { cards.new ≡ with_edit cards.old i text.now }
{
    cards.fp += 1;
    let card = cards.places[i];
    cards.places[i] = Card {
        mark: mark_edited(card.mark),
        fp: cards.fp,
        wording: text::signed_by(cards.station, text),
        ..card
    };
}

// A new text for a card.
#[tactic(auto, unfolding(press_edits::specs::Edit::press_edit))]
pub fn press_edit(press: &mut Press, luid: Luid, text: &[u8]) -> Result<(), Refusal>
    ensures { edited_at luid result press.new ≡ press_edit press.old luid text.now }
{
    press.check_closed()?;
    let i = card_moves::find(&press.cards, luid).ok_or(Refusal::Unknown)?;
    text::check_text(text)?;
    if press.cards.fp == Press::LAST_FP {
        return Err(Refusal::Spent);
    }
    put_edit(&mut press.cards, i, text);
    Ok(())
}
