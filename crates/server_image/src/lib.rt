// The server as bytes that a store keeps: an image has one length, and every field one place in it.
#![tactic(auto)]

ghost use Rattle.std.specs.Prelude.{◌≡◌, ◌+◌, ◌≤◌, length};
ghost use Rattle.std.proofs.lemmas.List.Edits.{sets};
ghost use Rattle.places.specs.Set.{all_places};
ghost use Rattle.places.specs.Every.{Every};
ghost use Rattle.token.specs.Put.{Put};
ghost use Rattle.image.specs.Keeping.{standing};
ghost use Rattle.server_sends.specs.InRange.{ServerInRange};
ghost use Rattle.server_image.specs.Standing.{standing_in_range};
ghost use Rattle.server_image.specs.Image.{record_size, image_size, mark_byte, mark_of, rule_byte, rule_of, awaits_byte, awaits_number, awaits_of, record_bytes, record_in, head_bytes, records_bytes, records_in, image_of, server_in, server_keeping, StorableRecord, StorableHead, Storable};

use image::Keeper;
use records::{Awaits, Link, Mark, Pairing, Record, Records, Rule, Server};
use terms::{Guid, Luid, Mode};
use text::{Text, Wording};

// How many bytes a record has in an image, how many stand before the records, and how many an image has.
const RECORD: usize = 40;

const HEAD: usize = 28;

pub const SIZE: usize = 1312;

// What tells an image of a server from other bytes: the letters LmS, and with the form's digit, 1, after them.
pub const LETTERS: u32 = 5467468;

const FORM: u32 = 827551052;

pub fn mark_byte(mark: Mark) -> u8
    ensures { result ≡ mark_byte mark }
{
    mark as u8
}

fn mark_of(b: u8) -> Mark
    ensures { result ≡ mark_of b }
{
    match b {
        0 => Mark::Clean,
        1 => Mark::Dirty,
        2 => Mark::Offered,
        _ => Mark::Deleted,
    }
}

fn rule_byte(rule: Rule) -> u8
    ensures { result ≡ rule_byte rule }
{
    rule as u8
}

pub fn rule_of(b: u8) -> Rule
    ensures { result ≡ rule_of b }
{
    match b {
        0 => Rule::PressWins,
        _ => Rule::ServerWins,
    }
}

fn awaits_byte(awaits: Awaits) -> u8
    ensures { result ≡ awaits_byte awaits }
{
    match awaits {
        Awaits::Nothing => 0,
        Awaits::Three(Mode::Normal) => 1,
        Awaits::Three(Mode::Recovery) => 2,
        Awaits::Five(_) => 3,
    }
}

fn awaits_number(awaits: Awaits) -> u32
    ensures { result ≡ awaits_number awaits }
{
    match awaits {
        Awaits::Nothing | Awaits::Three(_) => 0,
        Awaits::Five(n) => n,
    }
}

fn awaits_of(b: u8, n: u32) -> Awaits
    ensures { result ≡ awaits_of b n }
{
    match b {
        0 => Awaits::Nothing,
        1 => Awaits::Three(Mode::Normal),
        2 => Awaits::Three(Mode::Recovery),
        _ => Awaits::Five(n),
    }
}

// A record, or what stands in a free place.
fn put_record(out: &mut [u8], at: usize, x: &Record) -> usize
    ensures { Put out.old out.new at result (record_bytes x.now) × StorableRecord x.now }
{
    let pairing = x.pairing;
    let wording = x.wording;
    let numbers = [x.guid.0, pairing.luid.0, pairing.known];
    let p = image::put_fours(out, at, &numbers);
    let small = [
        mark_byte(pairing.mark),
        wording.text.len,
        wording.station,
        0,
    ];
    let q = token::put_text(out, p, &small);
    image::put_bytes(out, q, wording.text)
}

fn put_records(out: &mut [u8], at: usize, places: &[Record; Server::PLACES]) -> usize
    ensures { Put out.old out.new at result (records_bytes places.now) × Every StorableRecord places.now × (length places.now ≡ all_places) }
{
    let mut p = at;
    for x in places {
        p = put_record(out, p, x);
    }
    p
}

fn put_head(out: &mut [u8], at: usize, server: &Server) -> usize
    ensures { Put out.old out.new at result (head_bytes server.now) × StorableHead server.now }
{
    let records = &server.records;
    let link = server.link;
    let numbers = [
        FORM,
        records.used,
        records.guid,
        link.anchor,
        link.session,
        awaits_number(link.awaits),
    ];
    let p = image::put_fours(out, at, &numbers);
    let small = [awaits_byte(link.awaits), rule_byte(server.rule), 0, 0];
    token::put_text(out, p, &small)
}

// The image of a server, at the start of what is lent.
pub fn write(out: &mut [u8], server: &Server)
    requires { image_size ≤ length out.old }
    ensures { (out.new ≡ sets out.old 0 (image_of server.now)) × Storable server.now }
{
    let p = put_head(out, 0, server);
    let q = put_records(out, p, &server.records.places);
    let sum = image::sum(&out[..q]);
    image::put_four(out, q, sum);
}

#[tactic(auto, unfolding(crate::specs::Image::record_in))]
fn record_at(s: &[u8], at: usize) -> Record
    requires { at + record_size ≤ length s.now }
    ensures { result ≡ record_in s.now at }
{
    Record {
        guid: Guid(image::four_at(s, at)),
        wording: Wording {
            text: Text {
                len: s[at + 13],
                bytes: image::text_at(s, at + 16),
            },
            station: s[at + 14],
        },
        pairing: Pairing {
            luid: Luid(image::four_at(s, at + 4)),
            known: image::four_at(s, at + 8),
            mark: mark_of(s[at + 12]),
        },
    }
}

fn records_at(s: &[u8]) -> [Record; Server::PLACES]
    requires { image_size ≤ length s.now }
    ensures { result ≡ records_in s.now }
{
    let mut places = [record_at(s, HEAD); Server::PLACES];
    for i in 0..Server::PLACES {
        places[i] = record_at(s, HEAD + i * RECORD);
    }
    places
}

// The server that stands in bytes, whatever they are.
#[tactic(auto, unfolding(crate::specs::Image::server_in))]
fn server_at(s: &[u8]) -> Server
    requires { image_size ≤ length s.now }
    ensures { result ≡ server_in s.now }
{
    Server {
        records: Records {
            used: image::four_at(s, 4),
            places: records_at(s),
            guid: image::four_at(s, 8),
        },
        link: Link {
            anchor: image::four_at(s, 12),
            session: image::four_at(s, 16),
            awaits: awaits_of(s[24], image::four_at(s, 20)),
        },
        rule: rule_of(s[25]),
    }
}

// How a server is kept.
pub struct ServerImage;

impl Keeper for ServerImage {
    type Side = Server;

    ghost keeping = { server_keeping };

    ghost in_range = { ServerInRange };

    fn read(image: &[u8]) -> Option<Server> {
        read(image)
    }

    fn write(image: &mut [u8], side: &Server) {
        write(image, side);
    }

    ghost standing_in_range = { standing_in_range };
}

// The server whose image bytes are, each of them, if it is in range.
pub fn read(s: &[u8]) -> Option<Server>
    ensures { result ≡ standing server_keeping s.now }
{
    if s.len() != SIZE {
        return None;
    }
    let server = server_at(s);
    let mut again = [0u8; SIZE];
    write(&mut again, &server);
    if again.as_slice() == s && server_range::in_range(&server) {
        Some(server)
    } else {
        None
    }
}
