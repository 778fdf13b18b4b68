// Records by their numbers, and whether a record may be given a LUID.
#![tactic(auto)]

ghost use Rattle.std.specs.Prelude.{◌≡◌, ◌<◌, IfSome};
ghost use Rattle.places.specs.Set.{all_places};
ghost use Rattle.records.specs.Server.{find_record};
ghost use Rattle.record_moves.specs.Named.{is_paired, has_luid, place_of, may_have, Named};

use records::{Record, Records};
use terms::{Guid, Luid};

// Whether a record is paired.
pub fn is_paired(x: &Record) -> bool
    ensures { result ≡ is_paired x.now }
{
    x.pairing.luid != Luid(0)
}

// Whether a record is paired with this LUID.
pub fn has_luid(x: &Record, luid: Luid) -> bool
    ensures { result ≡ has_luid luid x.now }
{
    is_paired(x) && x.pairing.luid == luid
}

// The place of the record with a LUID, deleted or not.
pub fn with_luid(s: &Records, luid: Luid) -> Option<usize>
    ensures found { result ≡ place_of s.now (Named.ByLuid luid) }
    ensures inside { IfSome result (λ i. i < all_places) }
{
    places::first_in_use(s.used, &s.places, |x| has_luid(x, luid))
}

// The place of the record with a GUID, deleted or not.
pub fn with_guid(s: &Records, guid: Guid) -> Option<usize>
    ensures found { result ≡ place_of s.now (Named.ByGuid guid) }
    ensures inside { IfSome result (λ i. i < all_places) }
{
    places::first_in_use(s.used, &s.places, |x| x.guid == guid)
}

// The place of a record that people know.
pub fn find(s: &Records, guid: Guid) -> Option<usize>
    ensures found { result ≡ find_record s.now guid }
    ensures inside { IfSome result (λ i. i < all_places) }
{
    places::first_in_use(s.used, &s.places, |x| x.is_record(guid))
}

// The place of a record that has this LUID and is not the one with this GUID.
fn elsewhere(s: &Records, guid: Guid, luid: Luid) -> Option<usize>
    ensures { result ≡ place_of s.now (Named.Elsewhere guid luid) }
{
    places::first_in_use(s.used, &s.places, |x| has_luid(x, luid) && x.guid != guid)
}

#[tactic(auto, unfolding(crate::specs::Named::may_have))]
// Whether a record may be given a LUID: not one bound elsewhere, and to a paired record not another one.
pub fn may_have(luid: Luid, x: &Record, s: &Records) -> bool
    ensures { result ≡ may_have luid x.now s.now }
{
    (!is_paired(x) || has_luid(x, luid)) && elsewhere(s, x.guid, luid).is_none()
}
