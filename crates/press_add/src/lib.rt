// A person adds a card at the press.
#![tactic(auto)]

ghost use Rattle.std.specs.Prelude.{◌≡◌, ◌<◌};
ghost use Rattle.places.specs.Set.{all_places};
ghost use Rattle.press_edits.specs.Edited.{edited_as};
ghost use Rattle.press_edits.specs.Edit.{with_new, press_add};

use cards::{Card, Cards, Mark, Press, Report};
use terms::{Luid, Refusal};

// A new card in place i.
fn put_new(cards: &mut Cards, i: usize, text: &[u8])
    requires { (i < all_places) × (cards.old.luid < 65535) × (cards.old.fp < 4294967295) }
    ensures { cards.new ≡ with_new cards.old i text.now }
{
    cards.used = places::taken(cards.used, i);
    cards.luid += 1;
    cards.fp += 1;
    cards.places[i] = Card {
        mark: Mark::Added,
        luid: Luid(cards.luid),
        fp: cards.fp,
        report: Report::none(),
        wording: text::signed_by(cards.station, text),
    };
}

// A new card; its number.
#[tactic(auto, unfolding(press_edits::specs::Edit::press_add))]
pub fn press_add(press: &mut Press, text: &[u8]) -> Result<Luid, Refusal>
    ensures { edited_as result press.new ≡ press_add press.old text.now }
{
    press.check_closed()?;
    text::check_text(text)?;
    let i = press_edits::room(&press.cards).ok_or(Refusal::Spent)?;
    put_new(&mut press.cards, i, text);
    Ok(Luid(press.cards.luid))
}
