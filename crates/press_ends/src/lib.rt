// The press at Pkg 4, first part: old reports go, and the statuses of its commands end marks.
#![tactic(auto)]

ghost use Rattle.std.specs.Prelude.{◌≡◌};
ghost use Rattle.places.specs.Act.{slot};
ghost use Rattle.press_ends.specs.End.{ended, end_mark, marks_end};

use cards::{Card, Cards, Mark};
use lists::Entry;
use terms::Mode;

// The entry once its mark ended: a card is clean, and a delete mark is gone.
fn without_mark(x: Card) -> Option<Card>
    ensures { slot result ≡ ended x }
{
    if !x.mark.is_live() {
        return None;
    }
    Some(Card {
        mark: Mark::Clean,
        ..x
    })
}

// The status of a command ends its mark, or keeps it.
#[tactic(auto, unfolding(crate::specs::End::end_mark, places::specs::Act::act))]
fn take_status(c: &mut Cards, command: &Entry, status: &Entry)
    ensures { c.new ≡ end_mark (command.now, status.now) c.old }
{
    if status.fields.code == 420 {
        return;
    }
    if let Some(i) = card_moves::entry_place(c, command.fields.luid) {
        let left = without_mark(c.places[i]);
        places::put(&mut c.used, &mut c.places, i, left);
    }
}

// Old reports go, statuses end marks, and in recovery all delete marks end.
#[inline(never)]
pub fn take_statuses(mode: Mode, c: &mut Cards, commands: &[Entry], statuses: &[Entry])
    ensures { c.new ≡ marks_end mode commands.now statuses.now c.old }
{
    card_moves::without_reports(c);
    for (command, status) in commands.iter().zip(statuses) {
        take_status(c, command, status);
    }
    if mode == Mode::Recovery {
        card_moves::without_delete_marks(c);
    }
}
