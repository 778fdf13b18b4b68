// Whether a server is in range: what every server that began fresh is.
#![tactic(auto)]

ghost use Rattle.std.specs.Prelude.{◌≡◌};
ghost use Rattle.server_range.specs.Range.{fine_record, records_in_range, server_in_range};

use records::{Record, Records, Server};
use terms::{Guid, Luid};

// Whether a record in use is fine: its GUID was given, LUID and known fingerprint are in their ranges, and its wording is one.
fn fine_record(x: &Record, guid: u32) -> bool
    ensures { result ≡ fine_record guid x.now }
{
    let pairing = &x.pairing;
    (1..=guid).contains(&x.guid.0)
        && pairing.luid.0 <= Luid::LAST
        && pairing.known <= ranges::LAST
        && ranges::is_wording(x.wording)
}

// Whether a table is in range.
fn records_in_range(c: &Records) -> bool
    ensures { result ≡ records_in_range c.now }
{
    c.guid <= Guid::LAST
        && ranges::each_used(c.used, &c.places, |x| fine_record(&x, c.guid))
        && ranges::apart(c.used, &c.places, |x| x.guid.0)
        && ranges::apart(c.used, &c.places, |x| x.pairing.luid.0)
}

// Whether a server is in range.
#[tactic(auto, unfolding(crate::specs::Range::server_in_range))]
pub fn in_range(server: &Server) -> bool
    ensures { result ≡ server_in_range server.now }
{
    ranges::is_number(server.link.anchor)
        && ranges::is_number(server.link.session)
        && records_in_range(&server.records)
}
