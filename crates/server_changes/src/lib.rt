// Steps 4 and 5 of the server at Pkg 3: Replace and Add, one after the other.
#![tactic(auto)]

ghost use Rattle.std.specs.Prelude.{◌≡◌, ◌+◌, ◌≤◌, length};
ghost use Rattle.lists.specs.Lists.{kept_listed};
ghost use Rattle.record_moves.specs.Named.{place_of};
ghost use Rattle.server_changes.specs.Step4.{taking, keeping, changed, changed_code, made_as, paired, change, change_code_at, changed_by, Changed};

use listing::Listing;
use lists::Entry;
use records::{Mark, Pairing, Record, Records, Rule};
use statuses::Name;
use terms::Guid;

// The record with the command's text and station, clean; the known fingerprint is raised.
fn take(c: &Entry, x: &Record) -> Record
    ensures { result ≡ taking c.now x.now }
{
    Record {
        wording: c.wording,
        pairing: Pairing {
            known: c.fields.fp,
            mark: Mark::Clean,
            ..x.pairing
        },
        ..*x
    }
}

// The record with its own text and station, and its mark; the known fingerprint is raised.
fn keep(c: &Entry, x: &Record) -> Record
    ensures { result ≡ keeping c.now x.now }
{
    Record {
        pairing: Pairing {
            known: c.fields.fp,
            ..x.pairing
        },
        ..*x
    }
}

// The record after a Replace or Add of its LUID, and the code.
#[tactic(auto, unfolding(crate::specs::Step4::changed))]
fn changed(rule: Rule, c: &Entry, x: &Record) -> (Record, u32)
    ensures record { result.0 ≡ changed rule c.now x.now }
    ensures code { result.1 ≡ changed_code rule c.now x.now }
{
    if server_reports::is_late(c, x) {
        return (*x, 200);
    }
    match x.pairing.mark {
        Mark::Clean => (take(c, x), 200),
        Mark::Deleted => (take(c, x), 208),
        Mark::Dirty | Mark::Offered => match rule {
            Rule::PressWins => (take(c, x), 208),
            Rule::ServerWins => (keep(c, x), 419),
        },
    }
}

// The new record of a Replace or Add of an unpaired LUID.
fn made(c: &Entry, guid: Guid) -> Record
    ensures { result ≡ made_as guid c.now }
{
    Record {
        guid,
        wording: c.wording,
        pairing: Pairing {
            luid: c.fields.luid,
            known: c.fields.fp,
            mark: Mark::Clean,
        },
    }
}

// One Replace or Add; its code.
fn take_change(rule: Rule, s: &mut Records, c: &Entry) -> u32
    ensures code { result ≡ change_code_at rule c.now s.old (place_of s.old (paired c.now)) }
    ensures records { s.new ≡ change rule c.now s.old }
{
    if let Some(i) = record_moves::with_luid(s, c.fields.luid) {
        let (after, code) = changed(rule, c, &s.places[i]);
        places::put(&mut s.used, &mut s.places, i, Some(after));
        return code;
    }
    let Some(i) = server_edits::room(s) else {
        return 420;
    };
    s.guid += 1;
    let new = made(c, Guid(s.guid));
    places::put(&mut s.used, &mut s.places, i, Some(new));
    200
}

// The commands one after the other, of which the first has number `first`; their statuses after those that were told.
#[inline(never)]
pub fn take_changes(
    rule: Rule,
    s: &mut Records,
    told: Listing,
    commands: &[Entry],
    first: u32,
) -> Listing
    requires few { told.n + length commands.now ≤ kept_listed }
    requires first_low { first ≤ 200 }
    ensures { record { records = s.new; statuses = result } ≡ changed_by rule told first commands.now s.old }
{
    let mut statuses = told;
    for (i, c) in commands.iter().enumerate() {
        let code = take_change(rule, s, c);
        statuses.push(statuses::empty_status(first + i as u32, Name::of(c.fields.kind), code));
    }
    statuses
}
