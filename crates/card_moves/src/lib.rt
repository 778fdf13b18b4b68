// The press's entry with a LUID; all reports and all delete marks gone.
#![tactic(auto)]

ghost use Rattle.std.specs.Prelude.{◌≡◌, ◌<◌, ℕ, Some};
ghost use Rattle.places.specs.Set.{all_places};
ghost use Rattle.cards.specs.Press.{find_card};
ghost use Rattle.card_moves.specs.Moves.{entry_place, without_reports, without_delete_marks};

use cards::{Card, Cards, Report};
use terms::Luid;

// The place of a card.
pub fn find(c: &Cards, luid: Luid) -> Option<usize>
    ensures place { result ≡ find_card c.now luid }
    ensures inside { (i : ℕ) → result ≡ Some i → i < all_places }
{
    places::first_in_use(c.used, &c.places, |x| x.is_card(luid))
}

// The place of the card or delete mark with a LUID.
pub fn entry_place(c: &Cards, luid: Luid) -> Option<usize>
    ensures place { result ≡ entry_place c.now luid }
    ensures inside { (i : ℕ) → result ≡ Some i → i < all_places }
{
    places::first_in_use(c.used, &c.places, |x| x.luid == luid)
}

// All reports go.
pub fn without_reports(c: &mut Cards)
    ensures { c.new ≡ without_reports c.old }
{
    places::act_on_each(
        &mut c.used,
        &mut c.places,
        |_| true,
        |x| Some(Card {
            report: Report::none(),
            ..*x
        }),
    );
}

// All delete marks end.
pub fn without_delete_marks(c: &mut Cards)
    ensures { c.new ≡ without_delete_marks c.old }
{
    places::act_on_each(&mut c.used, &mut c.places, |x| !x.mark.is_live(), |_| None);
}
