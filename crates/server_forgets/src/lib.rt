// Step 3 of the server at Pkg 3: deleted records without LUID.
#![tactic(auto)]

ghost use Rattle.std.specs.Prelude.{◌≡◌};
ghost use Rattle.server_forgets.specs.Step3.{is_forgotten, step3};

use records::{Record, Records};

// Whether a record is deleted and has no LUID.
fn is_forgotten(x: &Record) -> bool
    ensures { result ≡ is_forgotten x.now }
{
    !x.pairing.mark.is_live() && !record_moves::is_paired(x)
}

// Step 3: deleted records without LUID are removed.
#[inline(never)]
pub fn take_step_3(s: &mut Records)
    ensures { s.new ≡ step3 s.old }
{
    places::act_on_each(&mut s.used, &mut s.places, |x| is_forgotten(x), |_| None);
}
