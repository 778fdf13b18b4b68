// The room for a new record at the server; the three edits stand in crates of their own.
#![tactic(auto)]

ghost use Rattle.std.specs.Prelude.{◌≡◌, ◌<◌, IfSome};
ghost use Rattle.places.specs.Set.{all_places};
ghost use Rattle.server_edits.specs.Edit.{room_for};

use records::Records;
use terms::Guid;

#[tactic(auto, unfolding(crate::specs::Edit::room_for))]
// The place of a new record, where a place and a GUID are left.
pub fn room(records: &Records) -> Option<usize>
    ensures found { result ≡ room_for records.now }
    ensures inside { IfSome result (λ i. (i < all_places) × (records.now.guid < 65535)) }
{
    if Guid::LAST <= records.guid {
        return None;
    }
    places::lowest_free(records.used)
}
