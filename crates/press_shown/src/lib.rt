// What programs in C and Rust are shown of the press: a card by its place, and how many changes a message has.
#![tactic(auto)]

ghost use Rattle.std.specs.Prelude.{◌≡◌, []};
ghost use Rattle.image.specs.Shown.{shown};
ghost use Rattle.press_shown.specs.Shown.{card_numbers, changes_shown, shown_by};

use cards::Card;
use message_changes::Shown;
use text::Text;

// How many numbers are shown of a card, and of a message.
pub const CARD: usize = 9;

pub const CHANGES: usize = 3;

// The numbers and the text of a card or delete mark.
pub fn card(x: &Card, numbers: &mut [u32; CARD], text: &mut [u8; Text::LONGEST])
    ensures { (numbers.new ≡ card_numbers x.now) × (text.new ≡ x.now.wording.text.bytes) }
{
    let report = x.report;
    let wording = x.wording;
    *numbers = [
        x.luid.0,
        x.fp,
        report.guid.0,
        report.luid.0,
        report.fp,
        u32::from(report.on),
        u32::from(press_image::mark_byte(x.mark)),
        u32::from(wording.station),
        u32::from(wording.text.len),
    ];
    text.copy_from_slice(&wording.text.bytes);
}

// The package, whether it has a number of changes, and that number; or the number of the refusal.
pub fn changes(message: Result<Shown, u8>, numbers: &mut [u32; CHANGES]) -> u32
    ensures { shown result numbers.new [] ≡ changes_shown (shown_by message) numbers.old }
{
    match message {
        Ok(
            Shown {
                package,
                changes: Some(n),
            },
        ) => {
            *numbers = [package, 1, n];
            0
        }
        Ok(
            Shown {
                package,
                changes: None,
            },
        ) => {
            *numbers = [package, 0, 0];
            0
        }
        Err(n) => u32::from(n),
    }
}
