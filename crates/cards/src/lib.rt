// The press's table of cards: its types, its fresh state, the place of a card, and giving up a session.
#![tactic(auto)]

ghost use Rattle.std.specs.Prelude.{◌≡◌, not};
ghost use Rattle.terms.specs.Refusal.{required};
ghost use Rattle.cards.specs.Press.{blank_card, no_report, is_live, is_card, fresh_press, press_fresh, as_fresh, is_open, press_gives_up};

use terms::{Guid, Luid, Mode, Refusal};
use text::Wording;

// What a place that is in use holds: a card that is clean, added or changed, or a delete mark.
#[derive(Clone, Copy, PartialEq, Eq)]
pub enum Mark {
    Clean,
    Added,
    Changed,
    Deleted,
}

// What the press has to tell of a card that it took from the server: the server's number or none, the LUID, and the fingerprint at
// which the server's version was taken. Where there is no report, `on` is false: an image may hold anything beside it, and shows it.
#[derive(Clone, Copy)]
pub struct Report {
    pub on: bool,
    pub guid: Guid,
    pub luid: Luid,
    pub fp: u32,
}

// The bytes stand last, so that no place is lost between them and the numbers.
#[derive(Clone, Copy)]
pub struct Card {
    pub luid: Luid,
    pub fp: u32,
    pub report: Report,
    pub wording: Wording,
    pub mark: Mark,
}

// The table: the set of the places in use, the places, the last LUID and fingerprint given, and the station whose people edit it.
#[derive(Clone, Copy)]
pub struct Cards {
    pub used: u32,
    pub places: [Card; Press::PLACES],
    pub luid: u32,
    pub fp: u32,
    pub station: u8,
}

// The package that the press awaits, if it is open.
#[derive(Clone, Copy)]
pub enum Awaits {
    Nothing,
    Two,
    Four(Mode),
    Six,
}

#[derive(Clone, Copy)]
pub struct Press {
    pub cards: Cards,
    pub anchor: u32,
    pub session: u32,
    pub awaits: Awaits,
}

impl Mark {
    // Whether a place with this mark holds a card.
    pub fn is_live(self) -> bool
        ensures { result ≡ is_live self }
    {
        self != Mark::Deleted
    }
}

impl Report {
    pub fn none() -> Report
        ensures { result ≡ no_report }
    {
        Report {
            on: false,
            guid: Guid(0),
            luid: Luid(0),
            fp: 0,
        }
    }
}

impl Card {
    // What stands in a place that was never used.
    fn blank() -> Card
        ensures { result ≡ blank_card }
    {
        Card {
            mark: Mark::Clean,
            luid: Luid(0),
            fp: 0,
            report: Report::none(),
            wording: Wording::none(),
        }
    }

    // Whether it is the card of this number: a delete mark is none.
    pub fn is_card(&self, luid: Luid) -> bool
        ensures { result ≡ is_card luid self.now }
    {
        self.mark.is_live() && self.luid == luid
    }
}

impl Press {
    pub const PLACES: usize = places::COUNT;

    // The greatest fingerprint and the greatest session number.
    pub const LAST_FP: u32 = 4294967295;

    pub const LAST_SESSION: u32 = 4294967295;

    // A press that never had a card or a session, as the station of this number.
    pub fn fresh_as(station: u8) -> Press
        ensures { result ≡ fresh_press station }
    {
        Press {
            cards: Cards {
                used: 0,
                places: [Card::blank(); Press::PLACES],
                luid: 0,
                fp: 0,
                station,
            },
            anchor: 1,
            session: 1,
            awaits: Awaits::Nothing,
        }
    }

    // The same for callers who may name any station: the server's is unfit.
    #[tactic(auto, unfolding(crate::specs::Press::made_for))]
    pub fn fresh(station: u8) -> Result<Press, Refusal>
        ensures { as_fresh station result ≡ press_fresh station }
    {
        if station == Wording::SERVER {
            return Err(Refusal::Unfit);
        }
        Ok(Press::fresh_as(station))
    }

    pub fn is_open(&self) -> bool
        ensures { result ≡ is_open self.now.awaits }
    {
        !matches!(self.awaits, Awaits::Nothing)
    }

    // Edits and a new session need a closed side.
    pub fn check_closed(&self) -> Result<(), Refusal>
        ensures { result ≡ required (not (is_open self.now.awaits)) Refusal.Open }
    {
        if self.is_open() {
            return Err(Refusal::Open);
        }
        Ok(())
    }

    // The press after it gave up its session, if it had one.
    pub fn gives_up(self) -> Press
        ensures { result ≡ press_gives_up self }
    {
        Press {
            awaits: Awaits::Nothing,
            ..self
        }
    }
}
