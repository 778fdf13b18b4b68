// The room for a new card at the press; the three edits stand in crates of their own.
#![tactic(auto)]

ghost use Rattle.std.specs.Prelude.{◌≡◌, ℕ, Some};
ghost use Rattle.press_edits.specs.Edit.{room_for, Left};

use cards::{Cards, Press};
use terms::Luid;

// The place of a new card, where a place, a LUID and a fingerprint are left.
#[tactic(auto, unfolding(crate::specs::Edit::room_for))]
pub fn room(cards: &Cards) -> Option<usize>
    ensures place { result ≡ room_for cards.now }
    ensures left { (i : ℕ) → result ≡ Some i → Left cards.now i }
{
    if Luid::LAST <= cards.luid || cards.fp == Press::LAST_FP {
        return None;
    }
    places::lowest_free(cards.used)
}
