// The package that the server awaits, and what it does with a package.
#![tactic(auto)]

ghost use Rattle.std.specs.Prelude.{◌≡◌};
ghost use Rattle.calls.specs.Says.{sent_as};
ghost use Rattle.server_awaits.specs.Awaited.{opens_above, due_or_anew, awaited, is_new};
ghost use Rattle.server_awaits.specs.OnContent.{server_judges};

use elements::Head;
use message::Content;
use records::{Awaits, Server};
use terms::Refusal;

// Whether this is a Pkg 1 with a session number above the server's.
fn opens_above(session: u32, h: Head) -> bool
    ensures { result ≡ opens_above session h }
{
    calls::is_kind(h, 1, 1) && session < h.session
}

// Whether this is the package that is due, or one that opens another session.
fn due_or_anew(pkg: usize, message: u32, session: u32, h: Head) -> bool
    ensures { result ≡ due_or_anew pkg message session h }
{
    calls::is_due(h, pkg, message, session) || opens_above(session, h)
}

// Whether the package is one that the server awaits.
fn is_awaited(awaits: Awaits, session: u32, h: Head) -> bool
    ensures { result ≡ awaited awaits session h }
{
    match awaits {
        Awaits::Nothing => calls::is_kind(h, 1, 1),
        Awaits::Three(_) => due_or_anew(3, 2, session, h),
        Awaits::Five(_) => due_or_anew(5, 3, session, h),
    }
}

// Whether a Pkg 1 has a session number above the server's.
fn is_new(session: u32, h: Head) -> bool
    ensures { result ≡ is_new session h }
{
    h.pkg != 1 || session < h.session
}

// What the server does with a package: refused 5 where it is not awaited, 6 where its session is old, and then as the rules say.
pub fn does(server: &mut Server, x: &Content) -> Result<Content, Refusal>
    ensures { sent_as result server.new ≡ server_judges server.old x.now }
{
    let link = server.link;
    if !is_awaited(link.awaits, link.session, x.head) {
        return Err(Refusal::NotAwaited);
    }
    if !is_new(link.session, x.head) {
        return Err(Refusal::OldSession);
    }
    if x.head.pkg == 1 {
        return server_rules::takes_1(server, x);
    }
    match link.awaits {
        Awaits::Nothing => server_rules::takes_1(server, x),
        Awaits::Three(mode) => server_rules::takes_3(mode, server, x),
        Awaits::Five(n) => server_rules::takes_5(n, server, x),
    }
}
