// How a text is spelled in a message: XML's references, and the Data element, read and written.
#![tactic(auto)]

ghost use Rattle.std.specs.Prelude.{◌≡◌, ◌≤◌, length, drop};
ghost use Rattle.token.specs.Misread.{found_as};
ghost use Rattle.token.specs.Put.{Put};
ghost use Rattle.text.specs.Text.{longest, kept, bytes_of};
ghost use Rattle.spelling.specs.Spelling.{reference_to, reference_at, plain_here, byte_at, spell, spelled};
ghost use Rattle.spelling.specs.Data.{write_data};
ghost use Rattle.spelling.specs.Part.{count_at, part_at, text_in};

use text::Text;
use token::{Cursor, Misread};

// A text in a message: where its spelling begins, and how many bytes it has.
#[derive(Clone, Copy, PartialEq, Eq)]
pub struct Part {
    pub start: usize,
    pub len: usize,
}

// The reference that stands for a byte; only five bytes have one.
#[tactic(auto, unfolding(crate::specs::Spelling::reference_to))]
fn reference_to(b: u8) -> &'static [u8]
    ensures { result.now ≡ reference_to b }
{
    match b {
        b'&' => b"&amp;",
        b'<' => b"&lt;",
        b'>' => b"&gt;",
        b'"' => b"&quot;",
        _ => b"&apos;",
    }
}

// One of the references at the cursor: the byte that it stands for.
fn reference(s: &[u8], c: Cursor) -> Result<(u8, Cursor), Misread>
    ensures { found_as result ≡ reference_at s.now c.at }
{
    for b in *b"&<>\"'" {
        if let Ok(e) = token::literal(s, c, reference_to(b)) {
            return Ok((b, e));
        }
    }
    Err(Misread { place: c.at })
}

// Whether the byte at a place stands for itself.
fn is_plain(s: &[u8], at: usize) -> bool
    ensures { result ≡ plain_here (drop at s.now) }
{
    if s.len() <= at {
        return false;
    }
    match s[at] {
        b'&' | b'<' => false,
        b']' => !s[at..].starts_with(b"]]>"),
        b => text::ok_byte(b),
    }
}

// The byte of a text that is spelled at the cursor; most stand for themselves, and cost no call.
#[inline(always)]
fn byte_at(s: &[u8], c: Cursor) -> Result<(u8, Cursor), Misread>
    ensures { found_as result ≡ byte_at s.now c.at }
{
    if is_plain(s, c.at) {
        Ok((s[c.at], Cursor { at: c.at + 1 }))
    } else {
        reference(s, c)
    }
}

// How many bytes the text has that is spelled at the cursor.
fn run_at(s: &[u8], c: Cursor) -> Result<(usize, Cursor), Misread>
    ensures { found_as result ≡ count_at longest s.now c.at }
{
    let mut count = 0;
    let mut p = c;
    while let Ok((_, after)) = byte_at(s, p) {
        if count == Text::LONGEST {
            return Err(Misread { place: p.at });
        }
        count += 1;
        p = after;
    }
    Ok((count, p))
}

// The Data element at the cursor: where its text is spelled.
pub fn read_data(s: &[u8], c: Cursor) -> Result<(Part, Cursor), Misread>
    ensures { found_as result ≡ part_at s.now c.at }
{
    if let Ok(e) = token::literal(s, c, b"<Data/>") {
        return Ok((
            Part {
                start: c.at,
                len: 0,
            },
            e,
        ));
    }
    let refused = Misread { place: c.at };
    let Ok(text) = token::literal(s, c, b"<Data>") else {
        return Err(refused);
    };
    let Ok((len, end)) = run_at(s, text) else {
        return Err(refused);
    };
    if len == 0 {
        return Err(refused);
    }
    let Ok(after) = token::literal(s, end, b"</Data>") else {
        return Err(refused);
    };
    Ok((
        Part {
            start: text.at,
            len,
        },
        after,
    ))
}

// The text that is spelled there, by itself.
pub fn text_in(s: &[u8], x: Part) -> Text
    ensures { result ≡ kept (text_in s.now x) }
{
    let most = text::clipped(x.len);
    let mut bytes = [0u8; Text::LONGEST];
    let mut p = Cursor { at: x.start };
    for n in 0..most {
        let Ok((b, after)) = byte_at(s, p) else {
            return Text {
                len: n as u8,
                bytes,
            };
        };
        bytes[n] = b;
        p = after;
    }
    Text {
        len: most as u8,
        bytes,
    }
}

// What spells a byte.
#[tactic(auto, unfolding(crate::specs::Spelling::spell, crate::specs::Spelling::reference_to))]
fn put_spelled(out: &mut [u8], at: usize, b: u8) -> usize
    ensures { Put out.old out.new at result (spell b) }
{
    match b {
        b'&' | b'<' | b'>' => token::put_text(out, at, reference_to(b)),
        _ => token::put_byte(out, at, b),
    }
}

#[tactic(auto, unfolding(crate::specs::Spelling::spell, crate::specs::Spelling::reference_to))]
fn spelled_len(b: u8) -> usize
    ensures { (result ≡ length (spell b)) × (result ≤ 5) }
{
    match b {
        b'&' | b'<' | b'>' => reference_to(b).len(),
        _ => 1,
    }
}

// What spells a text, byte by byte.
fn put_text(out: &mut [u8], at: usize, t: Text) -> usize
    ensures { Put out.old out.new at result (spelled (bytes_of t)) }
{
    let mut p = at;
    for b in t.as_slice() {
        p = put_spelled(out, p, *b);
    }
    p
}

fn text_len(t: Text) -> usize
    ensures { (result ≡ length (spelled (bytes_of t))) × (result ≤ 120) }
{
    let mut len = 0;
    for b in t.as_slice() {
        len += spelled_len(*b);
    }
    len
}

// The Data element of a text.
pub fn put_data(out: &mut [u8], at: usize, t: Text) -> usize
    ensures { Put out.old out.new at result (write_data (bytes_of t)) }
{
    if t.len == 0 {
        return token::put_text(out, at, b"<Data/>");
    }
    let p = token::put_text(out, at, b"<Data>");
    let q = put_text(out, p, t);
    token::put_text(out, q, b"</Data>")
}

// How long it is.
pub fn data_len(t: Text) -> usize
    ensures { (result ≡ length (write_data (bytes_of t))) × (result ≤ 133) }
{
    if t.len == 0 {
        return 7;
    }
    13 + text_len(t)
}
