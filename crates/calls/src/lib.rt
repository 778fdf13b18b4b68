// The checks of a package's head that both sides make when a message comes.
#![tactic(auto)]

ghost use Rattle.std.specs.Prelude.{◌≡◌};
ghost use Rattle.calls.specs.Due.{is_kind, is_due};

use elements::Head;

// Whether a head is that of a package of this kind with this message number.
pub fn is_kind(h: Head, pkg: usize, message: u32) -> bool
    ensures { result ≡ is_kind pkg message h }
{
    h.pkg == pkg && h.message == message
}

// Whether it has this session number too.
pub fn is_due(h: Head, pkg: usize, message: u32, session: u32) -> bool
    ensures { result ≡ is_due pkg message session h }
{
    is_kind(h, pkg, message) && h.session == session
}
