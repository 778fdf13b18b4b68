// Whether Pkg 3 keeps the rules, as far as its lists by themselves tell.
#![tactic(auto)]

ghost use Rattle.std.specs.Prelude.{◌≡◌};
ghost use Rattle.terms.specs.declared.Refusal.{Refusal};
ghost use Rattle.terms.specs.Refusal.{required};
ghost use Rattle.server_judges.specs.Lawful.{in_rows, mode_has, lawful3};

use lists::Entry;
use message::Content;
use ranks::Row;
use terms::{Mode, Refusal};

// Whether reports and commands stand in their order, no LUID twice among the commands.
fn in_rows(reports: &[Entry], commands: &[Entry]) -> bool
    ensures { result ≡ in_rows reports.now commands.now }
{
    ranks::ranked(Row::Reports, reports)
        && ranks::ranked(Row::PressCommands, commands)
        && ranks::luids_once(commands)
}

// Whether the mode has all the commands.
fn mode_has(mode: Mode, commands: &[Entry]) -> bool
    ensures { result ≡ mode_has mode commands.now }
{
    match mode {
        Mode::Normal => true,
        Mode::Recovery => ranks::only_replaces(commands),
    }
}

// Whether Pkg 3 keeps the rules.
#[tactic(auto, unfolding(crate::specs::Lawful::lawful3))]
fn is_lawful(mode: Mode, p: &Content) -> bool
    ensures { result ≡ lawful3 mode p.now }
{
    let commands = p.commands();
    packages::refs_fit(packages::head_3(p.head.session), p.head)
        && packages::counts_fit(p)
        && in_rows(p.answers(), commands)
        && mode_has(mode, commands)
}

// The check of Pkg 3.
pub fn check_3(mode: Mode, p: &Content) -> Result<(), Refusal>
    ensures { result ≡ required (lawful3 mode p.now) Refusal.Unlawful }
{
    if is_lawful(mode, p) {
        Ok(())
    } else {
        Err(Refusal::Unlawful)
    }
}
