// The content of the six packages, as the two sides write them.
#![tactic(auto)]

ghost use Rattle.std.specs.Prelude.{◌≡◌, ◌≤◌};
ghost use Rattle.lists.specs.Lists.{kept_listed};
ghost use Rattle.packages.specs.Package.{head1, head2, head3, head4, head5, head6, head_with, listed, no_package, refs_fit, counts_fit};

use elements::{End, Head};
use listing::Listing;
use lists::Entry;
use message::Content;
use terms::Mode;

// The head of no package.
fn blank() -> Head
    ensures { result ≡ head_with 0 0 0 0 0 0 0 0 0 }
{
    Head {
        pkg: 0,
        session: 0,
        message: 0,
        headerref: 0,
        msgref: 0,
        cmdref: 0,
        last: 0,
        next: 0,
        valid: 0,
    }
}

// The head of Pkg 1.
pub fn head_1(session: u32, anchor: u32) -> Head
    ensures { result ≡ head1 session anchor }
{
    Head {
        pkg: 1,
        session,
        message: 1,
        last: anchor,
        next: session,
        valid: Head::VALID,
        ..blank()
    }
}

// The head of Pkg 2.
pub fn head_2(session: u32, anchor: u32, mode: Mode) -> Head
    ensures { result ≡ head2 session anchor mode }
{
    Head {
        pkg: 2,
        session,
        message: 1,
        headerref: 1,
        msgref: 1,
        cmdref: 1,
        last: anchor,
        next: session,
        valid: match mode {
            Mode::Normal => Head::VALID,
            Mode::Recovery => Head::NOT_VALID,
        },
    }
}

// The head of Pkg 3.
pub fn head_3(session: u32) -> Head
    ensures { result ≡ head3 session }
{
    Head {
        pkg: 3,
        session,
        message: 2,
        headerref: 1,
        msgref: 1,
        cmdref: 3,
        ..blank()
    }
}

// The head of Pkg 4; the Sync of Pkg 3 has this CmdID.
pub fn head_4(session: u32, sync: u32) -> Head
    ensures { result ≡ head4 session sync }
{
    Head {
        pkg: 4,
        session,
        message: 2,
        headerref: 2,
        msgref: 2,
        cmdref: sync,
        ..blank()
    }
}

// The head of Pkg 5; the Sync of Pkg 4 has this CmdID.
pub fn head_5(session: u32, sync: u32) -> Head
    ensures { result ≡ head5 session sync }
{
    Head {
        pkg: 5,
        session,
        message: 3,
        headerref: 2,
        msgref: 2,
        cmdref: sync,
        ..blank()
    }
}

// The head of Pkg 6.
pub fn head_6(session: u32) -> Head
    ensures { result ≡ head6 session }
{
    Head {
        pkg: 6,
        session,
        message: 3,
        headerref: 3,
        ..blank()
    }
}

// A package of a head and two lists, with as many changes as commands.
pub fn package_of(head: Head, a: &Listing, c: &Listing) -> Content
    requires { c.now.n ≤ kept_listed }
    ensures { result ≡ listed head a.now c.now }
{
    Content {
        head,
        answered: a.n,
        answers: a.items,
        answersend: End {
            changes: c.n as u32,
        },
        commanded: c.n,
        commands: c.items,
        commandsend: lists::no_end(),
    }
}

// No package.
pub fn no_package() -> Content
    ensures { result ≡ no_package }
{
    package_of(blank(), &Listing::none(), &Listing::none())
}

// Whether the fixed statuses refer to what the head that is due refers to.
pub fn refs_fit(due: Head, head: Head) -> bool
    ensures { result ≡ refs_fit due head }
{
    head.headerref == due.headerref && head.msgref == due.msgref && head.cmdref == due.cmdref
}

// Whether there are at most 32 of each, and as many commands as the number of changes says.
pub fn counts_fit(x: &Content) -> bool
    ensures { result ≡ counts_fit x.now.answered x.now.commanded x.now.answersend }
{
    x.answered <= Entry::MOST
        && x.commanded <= Entry::MOST
        && x.answersend.changes as usize == x.commanded
}
