// A person deletes a card at the press.
#![tactic(auto)]

ghost use Rattle.std.specs.Prelude.{◌≡◌};
ghost use Rattle.press_edits.specs.Edited.{edited_at};
ghost use Rattle.press_edits.specs.Edit.{press_delete};

use cards::{Mark, Press};
use terms::{Luid, Refusal};

// A card becomes a delete mark.
#[tactic(auto, unfolding(press_edits::specs::Edit::press_delete))]
pub fn press_delete(press: &mut Press, luid: Luid) -> Result<(), Refusal>
    ensures { edited_at luid result press.new ≡ press_delete press.old luid }
{
    press.check_closed()?;
    let i = card_moves::find(&press.cards, luid).ok_or(Refusal::Unknown)?;
    press.cards.places[i].mark = Mark::Deleted;
    Ok(())
}
