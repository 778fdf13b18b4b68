// Whether the reports or the commands of a package stand in their order, no LUID twice, and only Replaces in recovery.
#![tactic(auto)]

ghost use Rattle.std.specs.Prelude.{◌≡◌, map};
ghost use Rattle.ranks.specs.Rank.{name_in, rank_in, same_name, before, ranked, luids_once, only_replaces};
ghost use Rattle.ranks.specs.Numbers.{luid_in, has_number};

use lists::Entry;
use statuses::Name;
use terms::Luid;

// What stands in a row.
#[derive(Clone, Copy)]
pub enum Row {
    Reports,
    PressCommands,
    ServerCommands,
}

// The name of a command.
fn name_in(x: &Entry) -> Name
    ensures { result ≡ name_in x.now }
{
    Name::of(x.fields.kind)
}

// The place of an element's name in the order of names; reports have no names.
fn rank_in(row: Row, x: &Entry) -> u32
    ensures { result ≡ rank_in row x.now }
{
    match row {
        Row::Reports => 0,
        Row::PressCommands | Row::ServerCommands => match name_in(x) {
            Name::Delete => 0,
            Name::Replace => 1,
            Name::Add => 2,
        },
    }
}

// Whether x may stand right before y where their names are equal.
fn same_name(row: Row, x: &Entry, y: &Entry) -> bool
    ensures { result ≡ same_name row x.now y.now }
{
    match row {
        Row::Reports | Row::PressCommands => x.fields.luid.0 < y.fields.luid.0,
        Row::ServerCommands => name_in(x) != Name::Add || x.fields.guid.0 < y.fields.guid.0,
    }
}

// Whether x may stand right before y.
fn stands_before(row: Row, x: &Entry, y: &Entry) -> bool
    ensures { result ≡ before row x.now y.now }
{
    let a = rank_in(row, x);
    let b = rank_in(row, y);
    if a == b { same_name(row, x, y) } else { a < b }
}

// Whether each may stand right before the next.
pub fn ranked(row: Row, items: &[Entry]) -> bool
    ensures { result ≡ ranked row items.now }
{
    items.is_sorted_by(|x, y| stands_before(row, x, y))
}

// Whether one of the elements has this LUID.
pub fn has_luid(items: &[Entry], luid: Luid) -> bool
    ensures { result ≡ has_number luid.0 (map luid_in items.now) }
{
    items.iter().any(|x| x.fields.luid == luid)
}

// Whether no two have one LUID.
pub fn luids_once(items: &[Entry]) -> bool
    ensures { result ≡ luids_once items.now }
{
    for (i, x) in items.iter().enumerate() {
        let luid = x.fields.luid;
        if luid.0 != 0 && has_luid(&items[i + 1..], luid) {
            return false;
        }
    }
    true
}

// Whether each is a Replace.
pub fn only_replaces(items: &[Entry]) -> bool
    ensures { result ≡ only_replaces items.now }
{
    items.iter().all(|x| name_in(x) == Name::Replace)
}
