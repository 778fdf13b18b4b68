// What messages and tables speak of, and why a call is refused. The press's own number of a card and the server's number are two kinds,
// so that a pair cannot be filled the wrong way round.
#![tactic(auto)]

ghost use Rattle.std.specs.Prelude.{◌≡◌, Some};
ghost use Rattle.terms.specs.Refusal.{number_of, printed};

use std::fmt;

// The press's number of a card (LUID); 0 stands for none.
#[derive(Clone, Copy, PartialEq, Eq)]
pub struct Luid(pub u32);

// The server's number of a card (GUID); 0 stands for none.
#[derive(Clone, Copy, PartialEq, Eq)]
pub struct Guid(pub u32);

impl Luid {
    // The greatest LUID.
    pub const LAST: u32 = 65535;
}

impl Guid {
    // The greatest GUID.
    pub const LAST: u32 = 65535;
}

// How a session goes: normal, or recovery where the anchors differ.
#[derive(Clone, Copy, PartialEq, Eq)]
pub enum Mode {
    Normal,
    Recovery,
}

// The answer of a check.
#[derive(Clone, Copy)]
pub enum Check {
    Pass,
    Fail,
}

// Why a call is refused.
#[derive(Clone, Copy, PartialEq, Eq)]
pub enum Refusal {
    Open,
    Spent,
    Unknown,
    Unfit,
    NotAwaited,
    OldSession,
    Unreadable,
    Unlawful,
    NoRoom,
}

impl From<Refusal> for u8 {
    ghost from_gives = { λ r n. n ≡ number_of r };

    fn from(r: Refusal) -> u8 {
        match r {
            Refusal::Open => 1,
            Refusal::Spent => 2,
            Refusal::Unknown => 3,
            Refusal::Unfit => 4,
            Refusal::NotAwaited => 5,
            Refusal::OldSession => 6,
            Refusal::Unreadable => 7,
            Refusal::Unlawful => 8,
            Refusal::NoRoom => 9,
        }
    }
}

impl fmt::Display for Refusal {
    ghost output = { λ r. Some (printed r) };

    fn fmt<W: fmt::Write>(&self, f: &mut fmt::Formatter<W>) -> fmt::Result {
        write!(f, "refused {}", u8::from(*self))
    }
}
