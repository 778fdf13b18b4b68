// What programs in C and Rust are shown of the server: a record by its place.
#![tactic(auto)]

ghost use Rattle.std.specs.Prelude.{◌≡◌};
ghost use Rattle.server_shown.specs.Shown.{record_numbers};

use records::Record;
use text::Text;

// How many numbers are shown of a record.
pub const RECORD: usize = 6;

// The numbers and the text of a record, deleted or not.
pub fn record(x: Record, numbers: &mut [u32; RECORD], text: &mut [u8; Text::LONGEST])
    ensures { (numbers.new ≡ record_numbers x) × (text.new ≡ x.wording.text.bytes) }
{
    let wording = x.wording;
    let pairing = x.pairing;
    *numbers = [
        x.guid.0,
        pairing.luid.0,
        pairing.known,
        u32::from(server_image::mark_byte(pairing.mark)),
        u32::from(wording.station),
        u32::from(wording.text.len),
    ];
    text.copy_from_slice(&wording.text.bytes);
}
