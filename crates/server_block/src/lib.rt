// The server's block: a line for the server, a line for each place in use, and `end`.
#![tactic(auto)]

ghost use Rattle.std.specs.Prelude.{◌≡◌};
ghost use Rattle.token.specs.Put.{Put};
ghost use Rattle.server_block.specs.Block.{opened, marked, ruled, pairing_text, record_text, place_line, place_lines, side_line, server_block};

use records::{Awaits, Mark, Pairing, Record, Records, Rule, Server};

// The package that the server awaits.
fn open_word(awaits: Awaits) -> &'static [u8]
    ensures { result.now ≡ opened awaits }
{
    match awaits {
        Awaits::Nothing => b"closed",
        Awaits::Three(_) => b"3",
        Awaits::Five(_) => b"5",
    }
}

fn mark_word(mark: Mark) -> &'static [u8]
    ensures { result.now ≡ marked mark }
{
    match mark {
        Mark::Clean => b"clean",
        Mark::Dirty => b"dirty",
        Mark::Offered => b"offered",
        Mark::Deleted => b"deleted",
    }
}

fn rule_word(rule: Rule) -> &'static [u8]
    ensures { result.now ≡ ruled rule }
{
    match rule {
        Rule::PressWins => b" rule=press",
        Rule::ServerWins => b" rule=server",
    }
}

fn put_pairing(out: &mut [u8], at: usize, pairing: &Pairing) -> usize
    ensures { Put out.old out.new at result (pairing_text pairing.now) }
{
    let at = token::put_text(out, at, b" luid=");
    let at = answers::put_number_or(out, at, pairing.luid.0, b"none");
    let at = answers::put_field(out, at, b" known=", pairing.known);
    let at = token::put_text(out, at, b" mark=");
    token::put_text(out, at, mark_word(pairing.mark))
}

fn put_record(out: &mut [u8], at: usize, held: &Record) -> usize
    ensures { Put out.old out.new at result (record_text held.now) }
{
    let at = answers::put_field(out, at, b" record ", held.guid.0);
    let at = put_pairing(out, at, &held.pairing);
    answers::put_wording(out, at, &held.wording)
}

// The line of a place in use.
fn put_place(out: &mut [u8], at: usize, place: u32, held: &Record) -> usize
    ensures { Put out.old out.new at result (place_line place held.now) }
{
    let at = answers::put_field(out, at, b"place ", place);
    let at = put_record(out, at, held);
    token::put_byte(out, at, b'\n')
}

#[tactic(auto, unfolding(crate::specs::Block::place_lines))]
pub fn put_places(out: &mut [u8], at: usize, records: &Records) -> usize
    ensures { Put out.old out.new at result (place_lines records.now) }
{
    answers::put_lines(out, at, records.used, &records.places, put_place)
}

// The line of the server itself.
fn put_side(out: &mut [u8], at: usize, server: &Server) -> usize
    ensures { Put out.old out.new at result (side_line server.now) }
{
    let link = &server.link;
    let is = open_word(link.awaits);
    let at = answers::put_link(out, at, b"server open=", is, link.anchor, link.session);
    let at = answers::put_field(out, at, b" guid=", server.records.guid);
    let at = token::put_text(out, at, rule_word(server.rule));
    token::put_byte(out, at, b'\n')
}

// The block, without its last line feed.
pub fn put_server(out: &mut [u8], at: usize, server: &Server) -> usize
    ensures { Put out.old out.new at result (server_block server.now) }
{
    let at = put_side(out, at, server);
    let at = put_places(out, at, &server.records);
    token::put_text(out, at, b"end")
}
