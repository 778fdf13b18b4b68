// Whether a press is in range: what every press that began fresh is.
#![tactic(auto)]

ghost use Rattle.std.specs.Prelude.{◌≡◌};
ghost use Rattle.press_range.specs.Range.{fine_report, fine_card, cards_in_range, press_in_range};

use cards::{Card, Cards, Press};
use terms::{Guid, Luid};

// Whether a card's report, if it carries one, has its LUID, and numbers in their ranges.
fn fine_report(x: &Card) -> bool
    ensures { result ≡ fine_report x.now }
{
    let report = &x.report;
    !report.on
        || report.luid == x.luid && report.guid.0 <= Guid::LAST && ranges::is_number(report.fp)
}

// Whether an entry in use is fine: LUID and fingerprint were given, and wording and report are fine.
fn fine_card(x: &Card, luid: u32, fp: u32) -> bool
    ensures { result ≡ fine_card luid fp x.now }
{
    (1..=luid).contains(&x.luid.0)
        && (1..=fp).contains(&x.fp)
        && ranges::is_wording(x.wording)
        && fine_report(x)
}

// Whether a table is in range.
fn cards_in_range(c: &Cards) -> bool
    ensures { result ≡ cards_in_range c.now }
{
    c.station <= ranges::LAST_STATION
        && c.luid <= Luid::LAST
        && c.fp <= Press::LAST_FP
        && ranges::each_used(c.used, &c.places, |x| fine_card(&x, c.luid, c.fp))
        && ranges::apart(c.used, &c.places, |x| x.luid.0)
}

// Whether a press is in range.
#[tactic(auto, unfolding(crate::specs::Range::press_in_range))]
pub fn in_range(press: &Press) -> bool
    ensures { result ≡ press_in_range press.now }
{
    ranges::is_number(press.anchor)
        && ranges::is_number(press.session)
        && cards_in_range(&press.cards)
}
