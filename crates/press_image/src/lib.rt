// The press as bytes that a store keeps: an image has one length, and every field one place in it.
#![tactic(auto)]

ghost use Rattle.std.specs.Prelude.{◌≡◌, ◌+◌, ◌≤◌, length};
ghost use Rattle.std.proofs.lemmas.List.Edits.{sets};
ghost use Rattle.places.specs.Set.{all_places};
ghost use Rattle.places.specs.Every.{Every};
ghost use Rattle.token.specs.Put.{Put};
ghost use Rattle.image.specs.Keeping.{standing};
ghost use Rattle.press_sends.specs.InRange.{PressInRange};
ghost use Rattle.press_image.specs.Standing.{standing_in_range};
ghost use Rattle.press_image.specs.Image.{card_size, image_size, mark_byte, mark_of, awaits_byte, awaits_of, card_bytes, card_in, head_bytes, cards_bytes, cards_in, image_of, press_in, press_keeping, StorableCard, StorableHead, Storable};

use cards::{Awaits, Card, Cards, Mark, Press, Report};
use image::Keeper;
use terms::{Guid, Luid, Mode};
use text::{Text, Wording};

// How many bytes a card has in an image, how many stand before the cards, and how many an image has.
const CARD: usize = 48;

const HEAD: usize = 28;

pub const SIZE: usize = 1568;

// What tells an image of a press from other bytes: the letters LmP, and with the form's digit, 1, after them.
pub const LETTERS: u32 = 5270860;

const FORM: u32 = 827354444;

pub fn mark_byte(mark: Mark) -> u8
    ensures { result ≡ mark_byte mark }
{
    mark as u8
}

fn mark_of(b: u8) -> Mark
    ensures { result ≡ mark_of b }
{
    match b {
        0 => Mark::Clean,
        1 => Mark::Added,
        2 => Mark::Changed,
        _ => Mark::Deleted,
    }
}

fn awaits_byte(awaits: Awaits) -> u8
    ensures { result ≡ awaits_byte awaits }
{
    match awaits {
        Awaits::Nothing => 0,
        Awaits::Two => 1,
        Awaits::Four(Mode::Normal) => 2,
        Awaits::Four(Mode::Recovery) => 3,
        Awaits::Six => 4,
    }
}

fn awaits_of(b: u8) -> Awaits
    ensures { result ≡ awaits_of b }
{
    match b {
        0 => Awaits::Nothing,
        1 => Awaits::Two,
        2 => Awaits::Four(Mode::Normal),
        3 => Awaits::Four(Mode::Recovery),
        _ => Awaits::Six,
    }
}

// A card, or what stands in a free place.
fn put_card(out: &mut [u8], at: usize, x: &Card) -> usize
    ensures { Put out.old out.new at result (card_bytes x.now) × StorableCard x.now }
{
    let report = x.report;
    let wording = x.wording;
    let numbers = [x.luid.0, x.fp, report.guid.0, report.luid.0, report.fp];
    let p = image::put_fours(out, at, &numbers);
    let small = [
        u8::from(report.on),
        mark_byte(x.mark),
        wording.text.len,
        wording.station,
    ];
    let q = token::put_text(out, p, &small);
    image::put_bytes(out, q, wording.text)
}

fn put_cards(out: &mut [u8], at: usize, places: &[Card; Press::PLACES]) -> usize
    ensures { Put out.old out.new at result (cards_bytes places.now) × Every StorableCard places.now × (length places.now ≡ all_places) }
{
    let mut p = at;
    for x in places {
        p = put_card(out, p, x);
    }
    p
}

fn put_head(out: &mut [u8], at: usize, press: &Press) -> usize
    ensures { Put out.old out.new at result (head_bytes press.now) × StorableHead press.now }
{
    let cards = &press.cards;
    let numbers = [
        FORM,
        cards.used,
        cards.luid,
        cards.fp,
        press.anchor,
        press.session,
    ];
    let p = image::put_fours(out, at, &numbers);
    let small = [cards.station, awaits_byte(press.awaits), 0, 0];
    token::put_text(out, p, &small)
}

// The image of a press, at the start of what is lent.
pub fn write(out: &mut [u8], press: &Press)
    requires { image_size ≤ length out.old }
    ensures { (out.new ≡ sets out.old 0 (image_of press.now)) × Storable press.now }
{
    let p = put_head(out, 0, press);
    let q = put_cards(out, p, &press.cards.places);
    let sum = image::sum(&out[..q]);
    image::put_four(out, q, sum);
}

#[tactic(auto, unfolding(crate::specs::Image::card_in))]
fn card_at(s: &[u8], at: usize) -> Card
    requires { at + card_size ≤ length s.now }
    ensures { result ≡ card_in s.now at }
{
    Card {
        luid: Luid(image::four_at(s, at)),
        fp: image::four_at(s, at + 4),
        report: Report {
            on: s[at + 20] == 1,
            guid: Guid(image::four_at(s, at + 8)),
            luid: Luid(image::four_at(s, at + 12)),
            fp: image::four_at(s, at + 16),
        },
        wording: Wording {
            text: Text {
                len: s[at + 22],
                bytes: image::text_at(s, at + 24),
            },
            station: s[at + 23],
        },
        mark: mark_of(s[at + 21]),
    }
}

fn cards_at(s: &[u8]) -> [Card; Press::PLACES]
    requires { image_size ≤ length s.now }
    ensures { result ≡ cards_in s.now }
{
    let mut places = [card_at(s, HEAD); Press::PLACES];
    for i in 0..Press::PLACES {
        places[i] = card_at(s, HEAD + i * CARD);
    }
    places
}

// The press that stands in bytes, whatever they are.
#[tactic(auto, unfolding(crate::specs::Image::press_in))]
fn press_at(s: &[u8]) -> Press
    requires { image_size ≤ length s.now }
    ensures { result ≡ press_in s.now }
{
    Press {
        cards: Cards {
            used: image::four_at(s, 4),
            places: cards_at(s),
            luid: image::four_at(s, 8),
            fp: image::four_at(s, 12),
            station: s[24],
        },
        anchor: image::four_at(s, 16),
        session: image::four_at(s, 20),
        awaits: awaits_of(s[25]),
    }
}

// How a press is kept.
pub struct PressImage;

impl Keeper for PressImage {
    type Side = Press;

    ghost keeping = { press_keeping };

    ghost in_range = { PressInRange };

    fn read(image: &[u8]) -> Option<Press> {
        read(image)
    }

    fn write(image: &mut [u8], side: &Press) {
        write(image, side);
    }

    ghost standing_in_range = { standing_in_range };
}

// The press whose image bytes are, each of them, if it is in range.
pub fn read(s: &[u8]) -> Option<Press>
    ensures { result ≡ standing press_keeping s.now }
{
    if s.len() != SIZE {
        return None;
    }
    let press = press_at(s);
    let mut again = [0u8; SIZE];
    write(&mut again, &press);
    if again.as_slice() == s && press_range::in_range(&press) {
        Some(press)
    } else {
        None
    }
}
