// The statuses of commands: the names of commands, the table of codes, and whether a status fits its command.
#![tactic(auto)]

ghost use Rattle.std.specs.Prelude.{◌≡◌, ◌<◌, ◌≤◌, length};
ghost use Rattle.lists.specs.Lists.{kept_listed};
ghost use Rattle.statuses.specs.Code.{codes_for, is_one_of};
ghost use Rattle.statuses.specs.Status.{name_of, cmd_of, empty_status, replaced, added, item_for, item_fits, fits, all_fit};

use elements::Fields;
use lists::Entry;
use terms::{Guid, Luid};
use text::Wording;

#[derive(Clone, Copy, PartialEq, Eq)]
pub enum Name {
    Delete,
    Replace,
    Add,
}

// The side whose command it is.
#[derive(Clone, Copy, PartialEq, Eq)]
pub enum Side {
    Press,
    Server,
}

impl Name {
    // The name of a command, by its kind of element.
    pub fn of(kind: u32) -> Name
        ensures { result ≡ name_of kind }
    {
        match kind {
            Fields::PRESS_DELETE | Fields::SERVER_DELETE => Name::Delete,
            Fields::PRESS_REPLACE | Fields::SERVER_REPLACE => Name::Replace,
            _ => Name::Add,
        }
    }

    // The name as a status has it.
    pub fn cmd(self) -> u32
        ensures { result ≡ cmd_of self }
    {
        match self {
            Name::Delete => Fields::CMD_DELETE,
            Name::Replace => Fields::CMD_REPLACE,
            Name::Add => Fields::CMD_ADD,
        }
    }
}

// The codes that a status may have where it answers such a command of that side.
fn codes_for(side: Side, name: Name) -> &'static [u32]
    ensures { result.now ≡ codes_for side name }
{
    match (side, name) {
        (Side::Press, Name::Delete) => &[200, 211, 419],
        (Side::Press, _) => &[200, 208, 419, 420],
        (Side::Server, Name::Delete) => &[200, 211],
        (Side::Server, Name::Replace) => &[200, 404, 420],
        (Side::Server, Name::Add) => &[200, 420],
    }
}

// Whether a status may have the code where it answers such a command of that side.
pub fn allowed(side: Side, name: Name, code: u32) -> bool
    ensures { result ≡ is_one_of (codes_for side name) code }
{
    codes_for(side, name).contains(&code)
}

// The empty status of the command number cmdref.
pub fn empty_status(cmdref: u32, name: Name, code: u32) -> Entry
    ensures { result ≡ empty_status cmdref name code }
{
    Entry {
        fields: Fields {
            kind: Fields::EMPTY_STATUS,
            msgref: 2,
            cmdref,
            cmd: name.cmd(),
            code,
            guid: Guid(0),
            luid: Luid(0),
            fp: 0,
        },
        wording: Wording::none(),
    }
}

// The status of a Replace that was done: with the LUID and the card's fingerprint.
pub fn replaced(cmdref: u32, luid: Luid, fp: u32) -> Entry
    ensures { result ≡ replaced cmdref luid fp }
{
    let done = empty_status(cmdref, Name::Replace, 200);
    Entry {
        fields: Fields {
            kind: Fields::LUID_STATUS,
            luid,
            fp,
            ..done.fields
        },
        ..done
    }
}

// The status of an Add that was done: with the GUID too.
pub fn added(cmdref: u32, guid: Guid, luid: Luid, fp: u32) -> Entry
    ensures { result ≡ added cmdref guid luid fp }
{
    let done = empty_status(cmdref, Name::Add, 200);
    Entry {
        fields: Fields {
            kind: Fields::GUID_STATUS,
            guid,
            luid,
            fp,
            ..done.fields
        },
        ..done
    }
}

// The kind of status that a code to a command of the server has.
fn item_for(name: Name, code: u32) -> u32
    ensures { result ≡ item_for name code }
{
    match name {
        Name::Replace if code == 200 => Fields::LUID_STATUS,
        Name::Add if code == 200 => Fields::GUID_STATUS,
        _ => Fields::EMPTY_STATUS,
    }
}

// Whether a status to the server has the StatusItem that it has to have, with the GUID of the Add that it answers.
fn item_fits(command: &Entry, status: &Entry) -> bool
    ensures { result ≡ item_fits command.now status.now }
{
    let asked = command.fields;
    let said = status.fields;
    said.kind == item_for(Name::of(asked.kind), said.code)
        && (said.kind != Fields::GUID_STATUS || said.guid == asked.guid)
}

// Whether a status is one that the command number cmdref of that side may be answered with.
fn fits(side: Side, cmdref: u32, command: &Entry, status: &Entry) -> bool
    ensures { result ≡ fits side cmdref command.now status.now }
{
    let said = status.fields;
    let name = Name::of(command.fields.kind);
    said.msgref == 2
        && said.cmdref == cmdref
        && said.cmd == name.cmd()
        && allowed(side, name, said.code)
        && (side == Side::Press || item_fits(command, status))
}

// Whether the statuses answer the commands one by one, of which the first has number `first`.
pub fn all_fit(side: Side, first: u32, commands: &[Entry], statuses: &[Entry]) -> bool
    requires first_low { first < 4294967000 }
    requires few { length commands.now ≤ kept_listed }
    ensures { result ≡ all_fit side first commands.now statuses.now }
{
    if commands.len() != statuses.len() {
        return false;
    }
    for (i, command) in commands.iter().enumerate() {
        if !fits(side, first + i as u32, command, &statuses[i]) {
            return false;
        }
    }
    true
}
