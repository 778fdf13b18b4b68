// Whole messages: the content of the six packages, and the lists that each has; three crates read, write and reread them.
#![tactic(auto)]

ghost use Rattle.std.specs.Prelude.{◌≡◌, ◌≤◌, length, take};
ghost use Rattle.lists.specs.Lists.{kept_listed};
ghost use Rattle.message.specs.Message.{form_of};

use elements::{End, Fields, Head};
use lists::Entry;
use page::Kinds;

// The kinds that a list may hold: of a status Pkg 4 has the empty one alone.
const NO_KINDS: Kinds = Kinds { from: 0, count: 0 };

const REPORTS: Kinds = Kinds {
    from: Fields::GUID_REPORT as u8,
    count: 2,
};

const EMPTY_STATUSES: Kinds = Kinds {
    from: Fields::EMPTY_STATUS as u8,
    count: 1,
};

const STATUSES: Kinds = Kinds {
    from: Fields::EMPTY_STATUS as u8,
    count: 3,
};

const PRESS_COMMANDS: Kinds = Kinds {
    from: Fields::PRESS_DELETE as u8,
    count: 3,
};

const SERVER_COMMANDS: Kinds = Kinds {
    from: Fields::SERVER_DELETE as u8,
    count: 3,
};

// The lists of a package: which kinds each holds, and the line of the page that ends it.
#[derive(Clone, Copy)]
pub struct Form {
    pub answers: Kinds,
    pub answersend: usize,
    pub commands: Kinds,
    pub commandsend: usize,
}

impl Form {
    // What ends a list, as lines of the page (the definition form_of has their numbers): the Sync begins, to the server or to the press; the Sync ends; a body without a Sync ends after its statuses, or after its head; the message ends.
    pub const SYNC_TO_SERVER: usize = 18;

    pub const SYNC_TO_PRESS: usize = 19;

    pub const SYNC_ENDS: usize = 20;

    pub const STATUSES_END: usize = 21;

    pub const BODY_ENDS: usize = 22;

    pub const MESSAGE_ENDS: usize = 23;

    // The lists of package pkg.
    pub fn of(pkg: usize) -> Form
        ensures { result ≡ form_of pkg }
    {
        match pkg {
            3 => Form {
                answers: REPORTS,
                answersend: Form::SYNC_TO_SERVER,
                commands: PRESS_COMMANDS,
                commandsend: Form::SYNC_ENDS,
            },
            4 => Form {
                answers: EMPTY_STATUSES,
                answersend: Form::SYNC_TO_PRESS,
                commands: SERVER_COMMANDS,
                commandsend: Form::SYNC_ENDS,
            },
            5 => Form {
                answers: STATUSES,
                answersend: Form::STATUSES_END,
                commands: NO_KINDS,
                commandsend: Form::MESSAGE_ENDS,
            },
            _ => Form {
                answers: NO_KINDS,
                answersend: Form::BODY_ENDS,
                commands: NO_KINDS,
                commandsend: Form::MESSAGE_ENDS,
            },
        }
    }
}

// What a message says, in fixed memory: its head, the first 33 answers and commands, how many there are of each, and what ends them.
#[derive(Clone, Copy)]
pub struct Content {
    pub head: Head,
    pub answered: usize,
    pub answers: [Entry; Entry::KEPT],
    pub answersend: End,
    pub commanded: usize,
    pub commands: [Entry; Entry::KEPT],
    pub commandsend: End,
}

impl Content {
    // The most bytes that a message has.
    pub const LIMIT: usize = 32768;

    // Of the answers that it counts, those that it keeps.
    pub fn answers(&self) -> &[Entry]
        ensures kept { result.now ≡ take self.now.answered self.now.answers }
        ensures few { length result.now ≤ kept_listed }
    {
        &self.answers[..self.answered.min(Entry::KEPT)]
    }

    // Of the commands that it counts, those that it keeps.
    pub fn commands(&self) -> &[Entry]
        ensures kept { result.now ≡ take self.now.commanded self.now.commands }
        ensures few { length result.now ≤ kept_listed }
    {
        &self.commands[..self.commanded.min(Entry::KEPT)]
    }
}

// The first bytes of an output: where an answer of that length stands.
pub fn front(out: &[u8], len: usize) -> &[u8]
    ensures { result.now ≡ take len out.now }
{
    &out[..len.min(out.len())]
}
