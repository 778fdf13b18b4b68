// Step 2 of the server at Pkg 3: what the press has deleted.
#![tactic(auto)]

ghost use Rattle.std.specs.Prelude.{◌≡◌, ◌≤◌, length};
ghost use Rattle.lists.specs.Lists.{most_listed};
ghost use Rattle.places.specs.Act.{in_order, replies, slot};
ghost use Rattle.terms.specs.declared.Mode.TheVariants.{Recovery};
ghost use Rattle.record_moves.specs.Named.{place_of};
ghost use Rattle.statuses.specs.Status.{name_of};
ghost use Rattle.listing.specs.Listing.{listing};
ghost use Rattle.server_deletes.specs.Step2.{lost, lost_code, deleted, delete, delete_code_at, delete_status, is_delete, deletes_in, left_out, step2, told_with, taken2};

use listing::Listing;
use lists::Entry;
use records::{Mark, Pairing, Record, Records};
use statuses::Name;
use terms::{Luid, Mode};

// What becomes of a record that the press has deleted: it is removed, or kept unpaired and dirty.
fn lost(x: &Record) -> Option<Record>
    ensures { slot result ≡ lost x.now }
{
    match x.pairing.mark {
        Mark::Clean | Mark::Deleted => None,
        Mark::Dirty | Mark::Offered => Some(Record {
            pairing: Pairing {
                luid: Luid(0),
                mark: Mark::Dirty,
                ..x.pairing
            },
            ..*x
        }),
    }
}

// The code of a Delete of a record with this mark.
fn lost_code(mark: Mark) -> u32
    ensures { result ≡ lost_code mark }
{
    match mark {
        Mark::Clean | Mark::Deleted => 200,
        Mark::Dirty => 419,
        Mark::Offered => 419,
    }
}

// One Delete, and its code.
#[tactic(auto, unfolding(crate::specs::Step2::delete, places::specs::Act::act))]
fn take_delete(s: &mut Records, c: &Entry) -> u32
    ensures records { s.new ≡ delete c.now s.old }
    ensures code { result ≡ delete_code_at s.old (place_of s.old (deleted c.now)) }
{
    let Some(i) = record_moves::with_luid(s, c.fields.luid) else {
        return 211;
    };
    let x = s.places[i];
    places::put(&mut s.used, &mut s.places, i, lost(&x));
    lost_code(x.pairing.mark)
}

// The Deletes, one after the other, and their statuses; the first has number `first`.
fn take_deletes(s: &mut Records, deletes: &[Entry], first: u32) -> Listing
    requires few { length deletes.now ≤ most_listed }
    requires low { first ≤ 100 }
    ensures records { s.new ≡ in_order delete deletes.now s.old }
    ensures told { result ≡ listing (replies delete_status delete first deletes.now s.old) }
{
    let mut told = Listing::none();
    for (i, c) in deletes.iter().enumerate() {
        let code = take_delete(s, c);
        told.push(statuses::empty_status(first + i as u32, Name::Delete, code));
    }
    told
}

// Whether a command is a Delete.
fn is_delete(c: &Entry) -> bool
    ensures { result ≡ is_delete (name_of c.now.fields.kind) }
{
    Name::of(c.fields.kind) == Name::Delete
}

// How many Deletes stand before the other commands.
pub fn deletes_in(commands: &[Entry]) -> usize
    ensures { result ≡ deletes_in commands.now }
{
    for (i, c) in commands.iter().enumerate() {
        if !is_delete(c) {
            return i;
        }
    }
    commands.len()
}

// Whether a record is paired, and no command has its LUID.
#[tactic(auto, unfolding(crate::specs::Step2::left_out), using(crate::proofs::StepLaws::names_number))]
fn is_left_out(x: &Record, commands: &[Entry]) -> bool
    ensures { result ≡ left_out commands.now x.now }
{
    record_moves::is_paired(x) && !ranks::has_luid(commands, x.pairing.luid)
}

// Every record that is left out in recovery counts as deleted.
fn leave_out(s: &mut Records, commands: &[Entry])
    ensures { s.new ≡ step2 Recovery commands.now s.old }
{
    places::act_on_each(
        &mut s.used,
        &mut s.places,
        |x| is_left_out(x, commands),
        |x| lost(x),
    );
}

// Step 2: the d Deletes, or in recovery every record that is left out; the Deletes have their statuses all the same.
#[inline(never)]
pub fn take_step_2(mode: Mode, s: &mut Records, commands: &[Entry], d: usize, first: u32) -> Listing
    requires few { length commands.now ≤ most_listed }
    requires low { first ≤ 100 }
    requires counted { d ≡ deletes_in commands.now }
    ensures { told_with s.new result ≡ taken2 mode first commands.now s.old }
{
    let mut apart = *s;
    let told = take_deletes(&mut apart, &commands[..d], first);
    match mode {
        Mode::Normal => {
            *s = apart;
        }
        Mode::Recovery => leave_out(s, commands),
    }
    told
}
