// What a panel shows of a message that was written or received: which package it is, and how many changes it has.
#![tactic(auto)]

ghost use Rattle.std.specs.Prelude.{◌≡◌};
ghost use Rattle.message.specs.Message.{read_message};
ghost use Rattle.message_changes.specs.Shown.{has_sync, shown_as, shown_of};

use terms::Refusal;

// The package, with its number of changes where it has one.
#[derive(Clone, Copy, PartialEq, Eq)]
pub struct Shown {
    pub package: u32,
    pub changes: Option<u32>,
}

// Whether a package has a Sync, and with it a number of changes.
fn has_sync(pkg: usize) -> bool
    ensures { result ≡ has_sync pkg }
{
    matches!(pkg, 3 | 4)
}

// What is shown of the message that s is.
pub fn changes(s: &[u8]) -> Result<Shown, Refusal>
    ensures { shown_as result ≡ shown_of (read_message s.now) }
{
    let content = message_read::read(s)?;
    Ok(Shown {
        package: content.head.pkg as u32,
        changes: has_sync(content.head.pkg).then_some(content.answersend.changes),
    })
}
