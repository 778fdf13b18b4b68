// The server's table of records: its types, its fresh state, the place of a record, giving up a session, and the rule for two edits.
#![tactic(auto)]

ghost use Rattle.std.specs.Prelude.{◌≡◌, not};
ghost use Rattle.terms.specs.declared.Refusal.{Refusal};
ghost use Rattle.terms.specs.Refusal.{required};
ghost use Rattle.records.specs.Server.{blank_record, is_live, is_record, fresh_server, is_open, server_gives_up, server_goes_by};

use terms::{Guid, Luid, Mode, Refusal};
use text::Wording;

#[derive(Clone, Copy, PartialEq, Eq)]
pub enum Mark {
    Clean,
    Dirty,
    Offered,
    Deleted,
}

// How a record stands with the press: its LUID there or none, the known fingerprint, and its mark.
#[derive(Clone, Copy)]
pub struct Pairing {
    pub luid: Luid,
    pub known: u32,
    pub mark: Mark,
}

#[derive(Clone, Copy)]
pub struct Record {
    pub guid: Guid,
    pub wording: Wording,
    pub pairing: Pairing,
}

// The table: the set of the places in use, the places, and the last GUID given.
#[derive(Clone, Copy)]
pub struct Records {
    pub used: u32,
    pub places: [Record; Server::PLACES],
    pub guid: u32,
}

// The package that the server awaits, if it is open: Pkg 3 in a mode, or Pkg 5 after a Pkg 3 with so many commands.
#[derive(Clone, Copy, PartialEq, Eq)]
pub enum Awaits {
    Nothing,
    Three(Mode),
    Five(u32),
}

// How the server stands with the press: anchor, last session number, and what it awaits.
#[derive(Clone, Copy)]
pub struct Link {
    pub anchor: u32,
    pub session: u32,
    pub awaits: Awaits,
}

// The rule for two edits of one card: whose text is taken where press and server have both changed it.
#[derive(Clone, Copy, PartialEq, Eq)]
pub enum Rule {
    PressWins,
    ServerWins,
}

#[derive(Clone, Copy)]
pub struct Server {
    pub records: Records,
    pub link: Link,
    pub rule: Rule,
}

impl Mark {
    // Whether a place with this mark holds a record that people know.
    pub fn is_live(self) -> bool
        ensures { result ≡ is_live self }
    {
        self != Mark::Deleted
    }
}

impl Record {
    // What stands in a place that was never used.
    fn blank() -> Record
        ensures { result ≡ blank_record }
    {
        Record {
            guid: Guid(0),
            wording: Wording::none(),
            pairing: Pairing {
                luid: Luid(0),
                known: 0,
                mark: Mark::Clean,
            },
        }
    }

    // Whether it is the record of this number: a deleted one is unknown to people.
    pub fn is_record(&self, guid: Guid) -> bool
        ensures { result ≡ is_record guid self.now }
    {
        self.pairing.mark.is_live() && self.guid == guid
    }
}

impl Server {
    pub const PLACES: usize = places::COUNT;

    // A server that never had a record or a session.
    pub fn fresh() -> Server
        ensures { result ≡ fresh_server }
    {
        Server {
            records: Records {
                used: 0,
                places: [Record::blank(); Server::PLACES],
                guid: 0,
            },
            link: Link {
                anchor: 1,
                session: 1,
                awaits: Awaits::Nothing,
            },
            rule: Rule::PressWins,
        }
    }

    pub fn is_open(&self) -> bool
        ensures { result ≡ is_open self.now.link.awaits }
    {
        self.link.awaits != Awaits::Nothing
    }

    pub fn check_closed(&self) -> Result<(), Refusal>
        ensures { result ≡ required (not (is_open self.now.link.awaits)) Refusal.Open }
    {
        if self.is_open() {
            return Err(Refusal::Open);
        }
        Ok(())
    }

    // The server after it gave up its session, if it had one.
    pub fn gives_up(mut self) -> Server
        ensures { result ≡ server_gives_up self }
    {
        self.link.awaits = Awaits::Nothing;
        self
    }

    // The server with this rule for two edits of one card, whether it is open or not.
    pub fn goes_by(self, rule: Rule) -> Server
        ensures { result ≡ server_goes_by rule self }
    {
        Server { rule, ..self }
    }
}
