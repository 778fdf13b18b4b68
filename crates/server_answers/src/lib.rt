// The server at Pkg 5: the answers to its commands, one after the other.
#![tactic(auto)]

ghost use Rattle.std.specs.Prelude.{◌≡◌, true, cond, ◌&&◌, eqb, ltb, Ok, Err};
ghost use Rattle.places.specs.Act.{slot};
ghost use Rattle.terms.specs.Check.{or_refuse};
ghost use Rattle.terms.specs.declared.Refusal.{Refusal};
ghost use Rattle.terms.specs.Refusal.{required};
ghost use Rattle.record_moves.specs.Named.{may_have};
ghost use Rattle.server_reports.specs.Step1.{taken_if};
ghost use Rattle.server_answers.specs.Answer.{recorded, dirty_again, answered_by, gives, answer_fits, answer, answered};

use lists::Entry;
use records::{Mark, Pairing, Record, Records};
use statuses::Name;
use terms::Refusal;

// The record after an answer to Replace or Add.
fn settled_by(a: &Entry, x: &Record) -> Record
    ensures { result ≡ cond (eqb a.now.fields.code 200) (recorded a.now x.now) (dirty_again x.now) }
{
    let pairing = if a.fields.code == 200 {
        Pairing {
            luid: a.fields.luid,
            known: a.fields.fp,
            mark: Mark::Clean,
        }
    } else {
        Pairing {
            mark: Mark::Dirty,
            ..x.pairing
        }
    };
    Record { pairing, ..*x }
}

// What becomes of the record: an answer to Delete removes it.
fn after_answer(name: Name, a: &Entry, x: &Record) -> Option<Record>
    ensures { slot result ≡ answered_by name a.now x.now }
{
    match name {
        Name::Delete => None,
        Name::Replace | Name::Add => Some(settled_by(a, x)),
    }
}

// Whether an answer records a LUID.
fn gives_luid(name: Name, a: &Entry) -> bool
    ensures { result ≡ gives name a.now }
{
    name != Name::Delete && a.fields.code == 200
}

// Whether an answer fits the record that was offered: a LUID and a fingerprint that it gives.
fn fits(name: Name, a: &Entry, x: &Record, s: &Records) -> bool
    ensures { result ≡ cond (gives name a.now) (ltb x.now.pairing.known a.now.fields.fp && may_have a.now.fields.luid x.now s.now) true }
{
    !gives_luid(name, a)
        || x.pairing.known < a.fields.fp && record_moves::may_have(a.fields.luid, x, s)
}

// One offer with its answer, where it fits.
fn take_answer(s: &mut Records, o: &Entry, a: &Entry) -> Result<(), Refusal>
    ensures said { result ≡ required (answer_fits (o.now, a.now) s.old) Refusal.Unlawful }
    ensures records { s.new ≡ taken_if answer_fits answer (o.now, a.now) s.old }
{
    if let Some(i) = record_moves::with_guid(s, o.fields.guid) {
        let name = Name::of(o.fields.kind);
        let x = s.places[i];
        if !fits(name, a, &x, s) {
            return Err(Refusal::Unlawful);
        }
        places::put(&mut s.used, &mut s.places, i, after_answer(name, a, &x));
    }
    Ok(())
}

// The offers with their answers, one after the other; where one does not fit, none is taken.
pub fn take_answers(s: &mut Records, offers: &[Entry], answers: &[Entry]) -> Result<(), Refusal>
    ensures said { result ≡ or_refuse (answered offers.now answers.now s.old).check (Err Refusal.Unlawful) (Ok tt) }
    ensures records { s.new ≡ (answered offers.now answers.now s.old).records }
{
    let mut now = *s;
    for (o, a) in offers.iter().zip(answers) {
        take_answer(&mut now, o, a)?;
    }
    *s = now;
    Ok(())
}
