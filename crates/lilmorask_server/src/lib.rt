// The server for programs in C and Rust: a call takes the image of a server, and leaves the image of the server after it. It gives back 0 where it was
// done, a refusal of 01 (1 to 9), or 10 where what is lent is no image; beside a number that is not 0 nothing has changed.
#![tactic(auto)]

ghost use Rattle.std.specs.Prelude.{◌≡◌, Result};
ghost use Rattle.terms.specs.Number.{guid};
ghost use Rattle.records.specs.Server.{fresh_server, server_gives_up, server_goes_by};
ghost use Rattle.server_edits.specs.Edit.{server_add, server_edit, server_delete};
ghost use Rattle.server_calls.specs.Call.{server_takes};
ghost use Rattle.image.specs.Form.{form_in};
ghost use Rattle.image.specs.Keeping.{standing};
ghost use Rattle.image.specs.OnImage.{did, untold, looked, MadeIn, Calls, CallsIn};
ghost use Rattle.image.specs.Shown.{shown};
ghost use Rattle.server_image.specs.Image.{server_letters, rule_of, server_keeping};
ghost use Rattle.image.specs.Call.{number_in};
ghost use Rattle.server_image.specs.Kept.{edited};
ghost use Rattle.server_shown.specs.Shown.{record_shown_in};

use image::Keeper;
use records::Server;
use server_image::ServerImage;
use terms::Guid;
use text::Text;

// What is lent as an image is none; a place holds no record.
const NO_IMAGE: u32 = 10;

const NO_RECORD: u32 = 3;

// Of a call that tells nothing, the number.
fn number_of(done: Result<(), u32>) -> u32
    ensures { result ≡ number_in done }
{
    match done {
        Ok(()) => 0,
        Err(n) => n,
    }
}

// A fresh server.
#[unsafe(no_mangle)]
pub extern "C" fn lil_server_fresh(image: &mut [u8]) -> u32
    ensures { MadeIn server_keeping (did 0 fresh_server) image.old result image.new }
{
    if image.len() != server_image::SIZE {
        return NO_IMAGE;
    }
    ServerImage::write(image, &Server::fresh());
    0
}

// Whether bytes are an image.
#[unsafe(no_mangle)]
pub extern "C" fn lil_server_check(image: &[u8]) -> u32
    ensures { result ≡ looked (standing server_keeping image.now) }
{
    match server_image::read(image) {
        Some(_) => 0,
        None => NO_IMAGE,
    }
}

// The number of the form that an image of a server has; 0 for other bytes.
#[unsafe(no_mangle)]
pub extern "C" fn lil_server_form(bytes: &[u8]) -> u32
    ensures { result ≡ form_in server_letters bytes.now }
{
    image::form(bytes, server_image::LETTERS)
}

// A new record; its number is told.
#[unsafe(no_mangle)]
pub extern "C" fn lil_server_add(image: &mut [u8], text: &[u8], number: &mut u32) -> u32
    ensures { Calls server_keeping (λ p. edited (server_add p text.now)) image.old number.old result image.new number.new }
{
    let added = image::call::<ServerImage, _, _>(image, |server: &mut Server| {
        server_add::server_add(server, text)
    });
    match added {
        Ok(guid) => {
            *number = guid.0;
            0
        }
        Err(n) => n,
    }
}

// A new text for a record.
#[unsafe(no_mangle)]
pub extern "C" fn lil_server_edit(image: &mut [u8], number: u32, text: &[u8]) -> u32
    ensures { Calls server_keeping (λ p. untold (edited (server_edit p (guid number) text.now))) image.old 0 result image.new 0 }
{
    let edited = image::call::<ServerImage, _, _>(image, |server: &mut Server| {
        server_edit::server_edit(server, Guid(number), text)
    });
    number_of(edited)
}

// A record is deleted.
#[unsafe(no_mangle)]
pub extern "C" fn lil_server_delete(image: &mut [u8], number: u32) -> u32
    ensures { Calls server_keeping (λ p. untold (edited (server_delete p (guid number)))) image.old 0 result image.new 0 }
{
    let deleted = image::call::<ServerImage, _, _>(image, |server: &mut Server| {
        server_delete::server_delete(server, Guid(number))
    });
    number_of(deleted)
}

// The server takes a message: its answer stands in the output, and its length is told; 0 where it has none.
#[unsafe(no_mangle)]
pub extern "C" fn lil_server_takes(
    image: &mut [u8],
    message: &[u8],
    out: &mut [u8],
    written: &mut usize,
) -> u32
    ensures { CallsIn server_keeping (λ p. server_takes p message.now out.old) image.old written.old out.old result image.new written.new out.new }
{
    let took = image::call_in::<ServerImage, _, _>(
        image,
        out,
        |server: &mut Server, out: &mut [u8]| { server_calls::takes(server, message, out) },
    );
    match took {
        Ok(n) => {
            *written = n;
            0
        }
        Err(n) => n,
    }
}

// The session is over; after a power cut too, before anything else.
#[unsafe(no_mangle)]
pub extern "C" fn lil_server_gives_up(image: &mut [u8]) -> u32
    ensures { Calls server_keeping (λ p. did 0 (server_gives_up p)) image.old 0 result image.new 0 }
{
    let closed = image::call::<ServerImage, _, _>(image, |server: &mut Server| {
        *server = server.gives_up();
        Ok(())
    });
    number_of(closed)
}

// Two edits of one card: 0 the press's wins, as with a fresh server, else the server's.
#[unsafe(no_mangle)]
pub extern "C" fn lil_server_goes_by(image: &mut [u8], rule: u8) -> u32
    ensures { Calls server_keeping (λ p. did 0 (server_goes_by (rule_of rule) p)) image.old 0 result image.new 0 }
{
    let ruled = image::call::<ServerImage, _, _>(image, |server: &mut Server| {
        *server = server.goes_by(server_image::rule_of(rule));
        Ok(())
    });
    number_of(ruled)
}

// The record in a place, deleted or not: its numbers and its text.
#[unsafe(no_mangle)]
pub extern "C" fn lil_server_record(
    image: &[u8],
    place: u32,
    numbers: &mut [u32; server_shown::RECORD],
    text: &mut [u8; Text::LONGEST],
) -> u32
    ensures { shown result numbers.new text.new ≡ record_shown_in (standing server_keeping image.now) place numbers.old text.old }
{
    let Some(server) = server_image::read(image) else {
        return NO_IMAGE;
    };
    let i = place as usize;
    if Server::PLACES <= i || !places::in_use(server.records.used, i) {
        return NO_RECORD;
    }
    server_shown::record(server.records.places[i], numbers, text);
    0
}
