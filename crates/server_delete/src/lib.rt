// A person deletes a record at the server.
#![tactic(auto)]

ghost use Rattle.std.specs.Prelude.{◌≡◌};
ghost use Rattle.server_edits.specs.Edit.{server_delete};
ghost use Rattle.server_edits.specs.Edited.{edited_at};

use records::{Mark, Server};
use terms::{Guid, Refusal};

// A record is marked deleted.
#[tactic(auto, using(terms::proofs::RefusalLaws::goes_on_ok, terms::proofs::RefusalLaws::stops_err, terms::proofs::RefusalLaws::refused_for), unfolding(server_edits::specs::Edit::server_delete))]
pub fn server_delete(server: &mut Server, guid: Guid) -> Result<(), Refusal>
    ensures { edited_at guid result server.new ≡ server_delete server.old guid }
{
    server.check_closed()?;
    let i = record_moves::find(&server.records, guid).ok_or(Refusal::Unknown)?;
    server.records.places[i].pairing.mark = Mark::Deleted;
    Ok(())
}
