// Whether Pkg 4 keeps the rules.
#![tactic(auto)]

ghost use Rattle.std.specs.Prelude.{◌≡◌, ◌≤◌, length};
ghost use Rattle.lists.specs.Lists.{kept_listed};
ghost use Rattle.terms.specs.Refusal.{required};
ghost use Rattle.press_tells.specs.Tell.{commands};
ghost use Rattle.press_judges.specs.Lawful.{in_row, sync_ref, lawful4};

use cards::{Cards, Press};
use lists::Entry;
use message::Content;
use ranks::Row;
use statuses::Side;
use terms::{Mode, Refusal};

// Whether the server's commands stand in their order, no LUID twice.
fn in_row(commands: &[Entry]) -> bool
    ensures { result ≡ in_row commands.now }
{
    ranks::ranked(Row::ServerCommands, commands) && ranks::luids_once(commands)
}

// The CmdID of the Sync in Pkg 3: after two fixed statuses and the reports.
fn sync_ref(cards: &Cards) -> u32
    ensures { (result ≡ sync_ref cards.now) × (result ≤ 35) }
{
    3 + press_tells::report_count(cards) as u32
}

// Whether Pkg 4 keeps the rules, after Pkg 3 with these commands.
#[tactic(auto, unfolding(crate::specs::Lawful::lawful4))]
fn is_lawful_4(mode: Mode, press: &Press, sent: &[Entry], x: &Content) -> bool
    requires few { length sent.now ≤ kept_listed }
    requires told { sent.now ≡ commands mode press.now.cards }
    ensures { result ≡ lawful4 mode press.now x.now }
{
    let sync = sync_ref(&press.cards);
    packages::refs_fit(packages::head_4(press.session, sync), x.head)
        && packages::counts_fit(x)
        && statuses::all_fit(Side::Press, 1 + sync, sent, x.answers())
        && in_row(x.commands())
}

// The check of Pkg 4, after Pkg 3 with these commands.
pub fn check_4(mode: Mode, press: &Press, sent: &[Entry], x: &Content) -> Result<(), Refusal>
    requires few { length sent.now ≤ kept_listed }
    requires told { sent.now ≡ commands mode press.now.cards }
    ensures { result ≡ required (lawful4 mode press.now x.now) Refusal.Unlawful }
{
    if is_lawful_4(mode, press, sent, x) {
        return Ok(());
    }
    Err(Refusal::Unlawful)
}
