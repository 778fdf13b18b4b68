// A person adds a record at the server.
#![tactic(auto)]

ghost use Rattle.std.specs.Prelude.{◌≡◌};
ghost use Rattle.server_edits.specs.Edit.{server_add};
ghost use Rattle.server_edits.specs.Edited.{edited_as};

use records::{Mark, Pairing, Record, Server};
use terms::{Guid, Luid, Refusal};
use text::Wording;

// A new record.
#[tactic(auto, using(terms::proofs::RefusalLaws::goes_on_ok, terms::proofs::RefusalLaws::stops_err, terms::proofs::RefusalLaws::refused_for), unfolding(server_edits::specs::Edit::server_add))]
pub fn server_add(server: &mut Server, text: &[u8]) -> Result<Guid, Refusal>
    ensures { edited_as result server.new ≡ server_add server.old text.now }
{
    server.check_closed()?;
    text::check_text(text)?;
    let records = &mut server.records;
    let i = server_edits::room(records).ok_or(Refusal::Spent)?;
    records.guid += 1;
    let guid = Guid(records.guid);
    records.used = places::taken(records.used, i);
    records.places[i] = Record {
        guid,
        wording: text::signed_by(Wording::SERVER, text),
        pairing: Pairing {
            luid: Luid(0),
            known: 0,
            mark: Mark::Dirty,
        },
    };
    Ok(guid)
}
