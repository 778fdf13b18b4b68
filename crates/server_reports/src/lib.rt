// Step 1 of the server at Pkg 3: the reports, one after the other.
#![tactic(auto)]

ghost use Rattle.std.specs.Prelude.{◌≡◌, ◌<◌, ◌||◌, IfSome, Ok, Err};
ghost use Rattle.places.specs.Set.{all_places};
ghost use Rattle.terms.specs.Check.{or_refuse};
ghost use Rattle.terms.specs.declared.Refusal.{Refusal};
ghost use Rattle.terms.specs.Refusal.{required};
ghost use Rattle.record_moves.specs.Named.{place_of, may_have};
ghost use Rattle.server_reports.specs.Step1.{named_by, is_late, settled, told, report_fits, taken_if, report, reported};

use lists::Entry;
use records::{Mark, Pairing, Record, Records};
use terms::{Guid, Refusal};

// The place of the record that a report names: that of its GUID, or without one that of its LUID.
fn place_of(s: &Records, r: &Entry) -> Option<usize>
    ensures found { result ≡ place_of s.now (named_by r.now) }
    ensures inside { IfSome result (λ i. i < all_places) }
{
    if r.fields.guid == Guid(0) {
        record_moves::with_luid(s, r.fields.luid)
    } else {
        record_moves::with_guid(s, r.fields.guid)
    }
}

// Whether the fingerprint is not above the known one.
pub fn is_late(r: &Entry, x: &Record) -> bool
    ensures { result ≡ is_late r.now x.now }
{
    r.fields.fp <= x.pairing.known
}

// The mark after a counted report: offered becomes clean.
fn settle(mark: Mark) -> Mark
    ensures { result ≡ settled mark }
{
    match mark {
        Mark::Clean | Mark::Offered => Mark::Clean,
        Mark::Dirty => Mark::Dirty,
        Mark::Deleted => Mark::Deleted,
    }
}

// The record after a report that names it: a late one is ignored.
#[tactic(auto, unfolding(crate::specs::Step1::told))]
fn tell(r: &Entry, x: &Record) -> Record
    ensures { result ≡ told r.now x.now }
{
    if is_late(r, x) {
        return *x;
    }
    Record {
        pairing: Pairing {
            luid: r.fields.luid,
            known: r.fields.fp,
            mark: settle(x.pairing.mark),
        },
        ..*x
    }
}

// Whether a report fits the record that it names: a counted one gives no LUID that is bound elsewhere, and no other one to a paired record.
fn fits(r: &Entry, x: &Record, s: &Records) -> bool
    ensures { result ≡ (is_late r.now x.now || may_have r.now.fields.luid x.now s.now) }
{
    is_late(r, x) || record_moves::may_have(r.fields.luid, x, s)
}

// One report, where it fits.
fn take_report(s: &mut Records, r: &Entry) -> Result<(), Refusal>
    ensures said { result ≡ required (report_fits r.now s.old) Refusal.Unlawful }
    ensures records { s.new ≡ taken_if report_fits report r.now s.old }
{
    if let Some(i) = place_of(s, r) {
        let x = s.places[i];
        if !fits(r, &x, s) {
            return Err(Refusal::Unlawful);
        }
        places::put(&mut s.used, &mut s.places, i, Some(tell(r, &x)));
    }
    Ok(())
}

// The reports, one after the other; where one does not fit, none is taken.
pub fn take_reports(s: &mut Records, reports: &[Entry]) -> Result<(), Refusal>
    ensures said { result ≡ or_refuse (reported reports.now s.old).check (Err Refusal.Unlawful) (Ok tt) }
    ensures records { s.new ≡ (reported reports.now s.old).records }
{
    let mut now = *s;
    for r in reports {
        take_report(&mut now, r)?;
    }
    *s = now;
    Ok(())
}
