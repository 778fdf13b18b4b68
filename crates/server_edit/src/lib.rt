// A person gives a record of the server a new text.
#![tactic(auto)]

ghost use Rattle.std.specs.Prelude.{◌≡◌};
ghost use Rattle.server_edits.specs.Edit.{server_edit};
ghost use Rattle.server_edits.specs.Edited.{edited_at};

use records::{Mark, Server};
use terms::{Guid, Refusal};
use text::Wording;

// A new text for a record.
#[tactic(auto, using(terms::proofs::RefusalLaws::goes_on_ok, terms::proofs::RefusalLaws::stops_err, terms::proofs::RefusalLaws::refused_for), unfolding(server_edits::specs::Edit::server_edit))]
pub fn server_edit(server: &mut Server, guid: Guid, text: &[u8]) -> Result<(), Refusal>
    ensures { edited_at guid result server.new ≡ server_edit server.old guid text.now }
{
    server.check_closed()?;
    let i = record_moves::find(&server.records, guid).ok_or(Refusal::Unknown)?;
    text::check_text(text)?;
    let record = &mut server.records.places[i];
    record.wording = text::signed_by(Wording::SERVER, text);
    record.pairing.mark = Mark::Dirty;
    Ok(())
}
