// The press for programs in C and Rust: a call takes the image of a press, and leaves the image of the press after it. It gives back 0 where it was
// done, a refusal of 01 (1 to 9), or 10 where what is lent is no image; beside a number that is not 0 nothing has changed.
#![tactic(auto)]

ghost use Rattle.std.specs.Prelude.{◌≡◌, [], Result};
ghost use Rattle.terms.specs.Number.{luid};
ghost use Rattle.message.specs.Message.{read_message};
ghost use Rattle.message_changes.specs.Shown.{shown_of};
ghost use Rattle.cards.specs.Press.{press_fresh, press_gives_up};
ghost use Rattle.press_edits.specs.Edit.{press_add, press_edit, press_delete};
ghost use Rattle.press_calls.specs.Call.{press_start, press_takes};
ghost use Rattle.image.specs.Form.{form_in};
ghost use Rattle.image.specs.Keeping.{standing};
ghost use Rattle.image.specs.OnImage.{did, untold, looked, MadeIn, Calls, CallsIn};
ghost use Rattle.image.specs.Shown.{shown};
ghost use Rattle.press_image.specs.Image.{press_letters, press_keeping};
ghost use Rattle.image.specs.Call.{number_in};
ghost use Rattle.press_image.specs.Kept.{made, edited};
ghost use Rattle.press_shown.specs.Shown.{card_shown_in, changes_shown};

use cards::Press;
use image::Keeper;
use press_image::PressImage;
use terms::Luid;
use text::Text;

// What is lent as an image is none; a place holds no card.
const NO_IMAGE: u32 = 10;

const NO_CARD: u32 = 3;

// Of a call that tells nothing, the number.
fn number_of(done: Result<(), u32>) -> u32
    ensures { result ≡ number_in done }
{
    match done {
        Ok(()) => 0,
        Err(n) => n,
    }
}

// A fresh press.
#[unsafe(no_mangle)]
pub extern "C" fn lil_press_fresh(image: &mut [u8], station: u8) -> u32
    ensures { MadeIn press_keeping (made (press_fresh station)) image.old result image.new }
{
    if image.len() != press_image::SIZE {
        return NO_IMAGE;
    }
    match Press::fresh(station) {
        Ok(press) => {
            PressImage::write(image, &press);
            0
        }
        Err(refusal) => u32::from(u8::from(refusal)),
    }
}

// Whether bytes are an image.
#[unsafe(no_mangle)]
pub extern "C" fn lil_press_check(image: &[u8]) -> u32
    ensures { result ≡ looked (standing press_keeping image.now) }
{
    match press_image::read(image) {
        Some(_) => 0,
        None => NO_IMAGE,
    }
}

// The number of the form that an image of a press has; 0 for other bytes.
#[unsafe(no_mangle)]
pub extern "C" fn lil_press_form(bytes: &[u8]) -> u32
    ensures { result ≡ form_in press_letters bytes.now }
{
    image::form(bytes, press_image::LETTERS)
}

// A new card; its number is told.
#[unsafe(no_mangle)]
pub extern "C" fn lil_press_add(image: &mut [u8], text: &[u8], number: &mut u32) -> u32
    ensures { Calls press_keeping (λ p. edited (press_add p text.now)) image.old number.old result image.new number.new }
{
    let added = image::call::<PressImage, _, _>(image, |press: &mut Press| {
        press_add::press_add(press, text)
    });
    match added {
        Ok(luid) => {
            *number = luid.0;
            0
        }
        Err(n) => n,
    }
}

// A new text for a card.
#[unsafe(no_mangle)]
pub extern "C" fn lil_press_edit(image: &mut [u8], number: u32, text: &[u8]) -> u32
    ensures { Calls press_keeping (λ p. untold (edited (press_edit p (luid number) text.now))) image.old 0 result image.new 0 }
{
    let edited = image::call::<PressImage, _, _>(image, |press: &mut Press| {
        press_edit::press_edit(press, Luid(number), text)
    });
    number_of(edited)
}

// A card becomes a delete mark.
#[unsafe(no_mangle)]
pub extern "C" fn lil_press_delete(image: &mut [u8], number: u32) -> u32
    ensures { Calls press_keeping (λ p. untold (edited (press_delete p (luid number)))) image.old 0 result image.new 0 }
{
    let deleted = image::call::<PressImage, _, _>(image, |press: &mut Press| {
        press_delete::press_delete(press, Luid(number))
    });
    number_of(deleted)
}

// The press starts a session: Pkg 1 stands in the output, and its length is told.
#[unsafe(no_mangle)]
pub extern "C" fn lil_press_start(image: &mut [u8], out: &mut [u8], written: &mut usize) -> u32
    ensures { CallsIn press_keeping (λ p. press_start p out.old) image.old written.old out.old result image.new written.new out.new }
{
    let started = image::call_in::<PressImage, _, _>(
        image,
        out,
        |press: &mut Press, out: &mut [u8]| { press_calls::start(press, out) },
    );
    match started {
        Ok(n) => {
            *written = n;
            0
        }
        Err(n) => n,
    }
}

// The press takes a message: its answer stands in the output, and its length is told; 0 where it has none.
#[unsafe(no_mangle)]
pub extern "C" fn lil_press_takes(
    image: &mut [u8],
    message: &[u8],
    out: &mut [u8],
    written: &mut usize,
) -> u32
    ensures { CallsIn press_keeping (λ p. press_takes p message.now out.old) image.old written.old out.old result image.new written.new out.new }
{
    let took = image::call_in::<PressImage, _, _>(
        image,
        out,
        |press: &mut Press, out: &mut [u8]| { press_calls::takes(press, message, out) },
    );
    match took {
        Ok(answer) => {
            *written = answer.unwrap_or(0);
            0
        }
        Err(n) => n,
    }
}

// The session is over; after a power cut too, before anything else.
#[unsafe(no_mangle)]
pub extern "C" fn lil_press_gives_up(image: &mut [u8]) -> u32
    ensures { Calls press_keeping (λ p. did 0 (press_gives_up p)) image.old 0 result image.new 0 }
{
    let closed = image::call::<PressImage, _, _>(image, |press: &mut Press| {
        *press = press.gives_up();
        Ok(())
    });
    number_of(closed)
}

// The card or delete mark in a place: its numbers and its text.
#[unsafe(no_mangle)]
pub extern "C" fn lil_press_card(
    image: &[u8],
    place: u32,
    numbers: &mut [u32; press_shown::CARD],
    text: &mut [u8; Text::LONGEST],
) -> u32
    ensures { shown result numbers.new text.new ≡ card_shown_in (standing press_keeping image.now) place numbers.old text.old }
{
    let Some(press) = press_image::read(image) else {
        return NO_IMAGE;
    };
    let i = place as usize;
    if Press::PLACES <= i || !places::in_use(press.cards.used, i) {
        return NO_CARD;
    }
    press_shown::card(&press.cards.places[i], numbers, text);
    0
}

// For a panel: which package a message is, and how many changes it has.
#[unsafe(no_mangle)]
pub extern "C" fn lil_message_changes(
    message: &[u8],
    numbers: &mut [u32; press_shown::CHANGES],
) -> u32
    ensures { shown result numbers.new [] ≡ changes_shown (shown_of (read_message message.now)) numbers.old }
{
    let shown = message_changes::changes(message).map_err(u8::from);
    press_shown::changes(shown, numbers)
}
