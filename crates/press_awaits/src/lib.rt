// The package that the press awaits, and what it does with a package.
#![tactic(auto)]

ghost use Rattle.std.specs.Prelude.{◌≡◌};
ghost use Rattle.calls.specs.Says.{called_as};
ghost use Rattle.press_awaits.specs.Awaited.{awaited};
ghost use Rattle.press_awaits.specs.OnContent.{press_judges};

use cards::{Awaits, Press};
use elements::Head;
use message::Content;
use terms::Refusal;

// Whether the package is the one that the press awaits.
fn is_awaited(awaits: Awaits, session: u32, h: Head) -> bool
    ensures { result ≡ awaited awaits session h }
{
    match awaits {
        Awaits::Nothing => false,
        Awaits::Two => calls::is_due(h, 2, 1, session),
        Awaits::Four(_) => calls::is_due(h, 4, 2, session),
        Awaits::Six => calls::is_due(h, 6, 3, session),
    }
}

// What the press does with a package: refused 5 where it is not awaited, and then as the rules say; Pkg 6 has no answer.
pub fn does(press: &mut Press, x: &Content) -> Result<Option<Content>, Refusal>
    ensures { called_as result press.new ≡ press_judges press.old x.now }
{
    if !is_awaited(press.awaits, press.session, x.head) {
        return Err(Refusal::NotAwaited);
    }
    match press.awaits {
        Awaits::Nothing => Err(Refusal::NotAwaited),
        Awaits::Two => Ok(Some(press_rules::takes_2(press, x)?)),
        Awaits::Four(mode) => Ok(Some(press_rules::takes_4(mode, press, x)?)),
        Awaits::Six => {
            press_rules::takes_6(press, x)?;
            Ok(None)
        }
    }
}
