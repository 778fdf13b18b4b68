// Lists of elements: read into an array with their true count, measured, written, and read and written on one by one.
#![tactic(auto)]

ghost use Rattle.std.specs.Prelude.{◌≡◌, ℕ, ◌+◌, ◌*◌, ◌≤◌, ◌<◌, length, map};
ghost use Rattle.token.specs.Limit.{limit};
ghost use Rattle.token.specs.Put.{Put};
ghost use Rattle.grammar.specs.Codec.{Moves};
ghost use Rattle.grammar.specs.Numbered.{numbered};
ghost use Rattle.elements.specs.Element.{element_c, element_in, end_c};
ghost use Rattle.lists.specs.Lists.{by_itself, blank_entry, no_end, entry_of, listed_as, write_list, elements_from, write_on, copied_as};

use elements::{End, Fields, Placed};
use page::Kinds;
use terms::{Guid, Luid};
use text::{Text, Wording};
use token::{Cursor, Misread};

// An element by itself: a report, a status of a command, or a command.
#[derive(Clone, Copy)]
pub struct Entry {
    pub fields: Fields,
    pub wording: Wording,
}

// The element that stands in s.
fn entry_in(s: &[u8], x: Placed) -> Entry
    ensures { result ≡ by_itself (element_in s.now x) }
{
    Entry {
        fields: x.fields,
        wording: Wording {
            text: spelling::text_in(s, x.text),
            station: x.station,
        },
    }
}

// A list that was read, in fixed memory: the first 33 elements, how many there are, and what its end says.
#[derive(Clone, Copy)]
pub struct Listed {
    pub n: usize,
    pub items: [Entry; Entry::KEPT],
    pub end: End,
}

impl Entry {
    // The most reports or commands of a package; and one more, which tells that there are too many.
    pub const MOST: usize = 32;

    pub const KEPT: usize = Entry::MOST + 1;

    // An element that says nothing.
    pub fn blank() -> Entry
        ensures { result ≡ blank_entry }
    {
        Entry {
            fields: Fields {
                kind: 0,
                msgref: 0,
                cmdref: 0,
                cmd: 0,
                code: 0,
                guid: Guid(0),
                luid: Luid(0),
                fp: 0,
            },
            wording: Wording {
                text: Text {
                    len: 0,
                    bytes: [0u8; Text::LONGEST],
                },
                station: Wording::SERVER,
            },
        }
    }
}

// An end that says nothing.
pub fn no_end() -> End
    ensures { result ≡ no_end }
{
    End { changes: 0 }
}

// The list at the cursor, of some kinds of elements numbered from id on, up to line `end` of the page.
pub fn read_list(
    s: &[u8],
    c: Cursor,
    kinds: Kinds,
    end: usize,
    id: u32,
) -> Result<(Listed, Cursor), Misread>
    requires { (id + length s.now < 4294967295) × ((i : ℕ) → Moves (element_c kinds i)) }
    ensures { result ≡ listed_as ((numbered id (element_c kinds) (end_c end)).read s.now c.at) }
{
    let mut items = [Entry::blank(); Entry::KEPT];
    let mut n: usize = 0;
    let mut at = c.at;
    loop {
        let due = id + n as u32;
        if let Ok((last, after)) = reader::end_at(s, at, end, due) {
            return Ok((
                Listed {
                    n,
                    items,
                    end: last,
                },
                after,
            ));
        }
        let (x, after) = reader::step_at(s, at, kinds, due)?;
        if n < Entry::KEPT {
            items[n] = entry_in(s, x);
        }
        n += 1;
        at = after.at;
    }
}

// Some elements, numbered from id on, and line `end` of the page, which says `last`.
pub fn write_list(
    out: &mut [u8],
    at: usize,
    id: u32,
    items: &[Entry],
    end: usize,
    last: End,
) -> usize
    requires { id + length items.now < 4294967296 }
    ensures { Put out.old out.new at result (write_list id end (map entry_of items.now) last) }
{
    let mut p = at;
    let mut due = id;
    for x in items {
        p = elements::write_element(out, p, due, x.fields, x.wording);
        due += 1;
    }
    elements::write_end(out, p, end, due, last)
}

// How long that is.
pub fn list_len(id: u32, items: &[Entry], end: usize, last: End) -> usize
    requires { id + length items.now < 4294967296 }
    ensures { (result ≡ length (write_list id end (map entry_of items.now) last)) × (result ≤ 1000000 * (length items.now + 1)) }
{
    let mut len: usize = 0;
    let mut due = id;
    for x in items {
        len += elements::element_len(due, x.fields, x.wording);
        due += 1;
    }
    len + elements::end_len(end, due, last)
}

// Where a list that was read and written on ends in the message, the number that is due then, and where it ends in the output.
#[derive(Clone, Copy)]
pub struct Copied {
    pub place: usize,
    pub due: u32,
    pub next: usize,
}

// The list at the cursor, written on element by element as far as it reads.
pub fn copy_list(
    out: &mut [u8],
    at: usize,
    s: &[u8],
    c: Cursor,
    kinds: Kinds,
    end: usize,
    id: u32,
) -> Copied
    requires { (id + length s.now < 4294967295) × ((i : ℕ) → Moves (element_c kinds i)) }
    ensures { (result ≡ copied_as id (elements_from kinds end id s.now c.at) result.next) × Put out.old out.new at result.next (write_on id end (elements_from kinds end id s.now c.at)) }
{
    let mut next = at;
    let mut due = id;
    let mut place = c.at;
    loop {
        if let Ok((last, after)) = reader::end_at(s, place, end, due) {
            return Copied {
                place: after.at,
                due,
                next: elements::write_end(out, next, end, due, last),
            };
        }
        let Ok((x, after)) = reader::step_at(s, place, kinds, due) else {
            return Copied { place, due, next };
        };
        let own = entry_in(s, x);
        next = elements::write_element(out, next, due, own.fields, own.wording);
        due += 1;
        place = after.at;
    }
}

// How long that is. Only the walk is the same, so one function over both would be no plainer: it would need a law of where things go.
pub fn copied_len(s: &[u8], c: Cursor, kinds: Kinds, end: usize, id: u32) -> Copied
    requires { (length s.now ≤ limit) × (id + length s.now < 4294967295) × ((i : ℕ) → Moves (element_c kinds i)) }
    ensures { (result ≡ copied_as id (elements_from kinds end id s.now c.at) (length (write_on id end (elements_from kinds end id s.now c.at)))) × (result.next ≤ 32769000000) }
{
    let mut next: usize = 0;
    let mut due = id;
    let mut place = c.at;
    loop {
        if let Ok((last, after)) = reader::end_at(s, place, end, due) {
            return Copied {
                place: after.at,
                due,
                next: next + elements::end_len(end, due, last),
            };
        }
        let Ok((x, after)) = reader::step_at(s, place, kinds, due) else {
            return Copied { place, due, next };
        };
        let own = entry_in(s, x);
        next += elements::element_len(due, own.fields, own.wording);
        due += 1;
        place = after.at;
    }
}
