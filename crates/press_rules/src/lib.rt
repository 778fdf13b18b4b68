// The press at each package, on content: start, and Pkg 2, 4 and 6.
#![tactic(auto)]

ghost use Rattle.std.specs.Prelude.{◌≡◌, Err, Ok};
ghost use Rattle.terms.specs.Refusal.{required};
ghost use Rattle.terms.specs.Check.{or_refuse};
ghost use Rattle.press_rules.specs.Took.{said_of};
ghost use Rattle.press_rules.specs.Pkg1.{started_as, press_starts};
ghost use Rattle.press_rules.specs.Pkg2.{lawful2, mode_in, press_takes2};
ghost use Rattle.press_rules.specs.Pkg4.{press_takes4};
ghost use Rattle.press_rules.specs.Pkg6.{press_takes6};

use cards::{Awaits, Press};
use elements::Head;
use listing::Listing;
use message::Content;
use terms::{Mode, Refusal};

// The press opens a session with Pkg 1.
#[tactic(auto, unfolding(crate::specs::Pkg1::press_starts))]
pub fn starts(press: &mut Press) -> Result<Content, Refusal>
    ensures { started_as result press.new ≡ press_starts press.old }
{
    press.check_closed()?;
    if press.session == Press::LAST_SESSION {
        return Err(Refusal::Spent);
    }
    press.session += 1;
    press.awaits = Awaits::Two;
    let head = packages::head_1(press.session, press.anchor);
    Ok(packages::package_of(head, &Listing::none(), &Listing::none()))
}

fn is_lawful_2(press: &Press, h: Head) -> bool
    ensures { result ≡ lawful2 press.now h }
{
    packages::refs_fit(packages::head_2(press.session, 0, Mode::Normal), h)
        && h.next == press.session
}

fn mode_in(h: Head) -> Mode
    ensures { result ≡ mode_in h }
{
    if h.valid == Head::VALID {
        Mode::Normal
    } else {
        Mode::Recovery
    }
}

// Pkg 2: the press takes the mode, and answers with Pkg 3.
#[inline(never)]
#[tactic(auto, unfolding(crate::specs::Pkg2::press_takes2))]
pub fn takes_2(press: &mut Press, x: &Content) -> Result<Content, Refusal>
    ensures said { result ≡ said_of (press_takes2 press.old x.now) }
    ensures side { press.new ≡ (press_takes2 press.old x.now).press }
{
    if !is_lawful_2(press, x.head) {
        return Err(Refusal::Unlawful);
    }
    let mode = mode_in(x.head);
    let reports = press_tells::reports_of(&press.cards);
    let commands = press_tells::commands_of(mode, &press.cards);
    press.awaits = Awaits::Four(mode);
    Ok(packages::package_of(packages::head_3(press.session), &reports, &commands))
}

// Pkg 4: old reports go, statuses end marks, the server's commands are taken; the press answers with Pkg 5.
#[inline(never)]
#[tactic(auto, unfolding(crate::specs::Pkg4::press_takes4))]
pub fn takes_4(mode: Mode, press: &mut Press, x: &Content) -> Result<Content, Refusal>
    ensures said { result ≡ said_of (press_takes4 mode press.old x.now) }
    ensures side { press.new ≡ (press_takes4 mode press.old x.now).press }
{
    let sent = press_tells::commands_of(mode, &press.cards);
    press_judges::check_4(mode, press, sent.as_slice(), x)?;
    press_ends::take_statuses(mode, &mut press.cards, sent.as_slice(), x.answers());
    let answered = x.answered as u32;
    let told = press_takes::take_commands(&mut press.cards, x.commands(), 4 + answered);
    press.awaits = Awaits::Six;
    Ok(packages::package_of(
        packages::head_5(press.session, 3 + answered),
        &told,
        &Listing::none(),
    ))
}

// Pkg 6: the press drops its reports, sets its anchor and closes.
#[inline(never)]
#[tactic(auto, unfolding(crate::specs::Pkg6::press_takes6))]
pub fn takes_6(press: &mut Press, x: &Content) -> Result<(), Refusal>
    ensures said { result ≡ or_refuse (press_takes6 press.old x.now).check (Err Refusal.Unlawful) (Ok tt) }
    ensures side { press.new ≡ (press_takes6 press.old x.now).press }
{
    if !packages::refs_fit(packages::head_6(press.session), x.head) {
        return Err(Refusal::Unlawful);
    }
    card_moves::without_reports(&mut press.cards);
    press.anchor = press.session;
    press.awaits = Awaits::Nothing;
    Ok(())
}
