// Shapes: an element's written form is a text with marks in it, and one reader and one writer go by it. A mark stands for a field,
// any other byte for itself (specs/Marks.antt has the list). Here each run of bytes that stand for themselves has its length before it,
// so that it is compared, written and measured at once. A row has a number for each slot, and a text.
#![tactic(auto)]

ghost use Rattle.std.specs.Prelude.{◌≡◌, ◌+◌, ◌≤◌, ◌*◌, [], ◌++◌, length, get_or, MatchOption, IfSome};
ghost use Rattle.token.specs.Literal.{lit_ans};
ghost use Rattle.token.specs.Put.{Put};
ghost use Rattle.spelling.specs.Part.{part_at};
ghost use Rattle.shape.specs.Row.{blank_part};
ghost use Rattle.shape.specs.Marks.{field_of};
ghost use Rattle.shape.specs.Runs.{as_field, runs, plain, after_run, size_after};
ghost use Rattle.shape.specs.Shape.{run_at, exactly_at, one_at, with_value, value_of, row_of, said_of, field_ans, write_one, shape_c, row_at, row_ans};

use spelling::Part;
use text::Text;
use token::{Cursor, Misread};

// What a byte of a shape stands for: itself, the CmdID that is due, exactly this number, a number of a slot and its range, one of n words
// from one on, a text.
#[derive(Clone, Copy)]
pub enum Kind {
    Byte(u8),
    Due,
    Exactly(u32),
    Number(usize, u32, u32),
    Word(usize, u8, u8),
    Text,
}

#[tactic(auto, unfolding(crate::specs::Marks::field_of))]
fn kind_of(t: u8) -> Kind
    ensures { as_field result ≡ field_of t }
{
    match t {
        b'#' => Kind::Due,
        b'$' => Kind::Number(0, 1, 4294967295),
        b':' => Kind::Number(1, 1, 4294967295),
        b'-' => Kind::Number(2, 1, 4294967295),
        b'(' => Kind::Number(3, 1, 4294967295),
        b')' => Kind::Number(4, 0, 4294967295),
        b'[' => Kind::Number(5, 1, 4294967295),
        b']' => Kind::Number(6, 1, 4294967295),
        b'?' => Kind::Word(7, 2, 0),
        b'*' => Kind::Word(8, 3, 2),
        b'%' => Kind::Number(9, 100, 999),
        b'@' => Kind::Number(10, 1, 65535),
        b'^' => Kind::Number(11, 1, 65535),
        b'+' => Kind::Number(12, 1, 4294967295),
        b'!' => Kind::Number(13, 0, 4294967295),
        b'&' => Kind::Number(14, 0, 255),
        b'~' => Kind::Text,
        b'_' => Kind::Exactly(0),
        b'\'' => Kind::Exactly(1),
        b',' => Kind::Exactly(2),
        b'{' => Kind::Exactly(3),
        b'|' => Kind::Exactly(200),
        _ => Kind::Byte(t),
    }
}

// What a field says: nothing to keep, a slot's number, or a text.
#[derive(Clone, Copy)]
pub enum Value {
    Nothing,
    Number(usize, u32),
    Text(Part),
}

// How many numbers a row has.
pub const SLOTS: usize = 15;

// What an element says: a number for each slot, and a text: by itself, or where it is spelled in a message.
#[derive(Clone, Copy)]
pub struct Row<T> {
    pub nums: [u32; SLOTS],
    pub text: T,
}

impl Row<Part> {
    // What says nothing.
    fn blank() -> Row<Part>
        ensures { row_of result ≡ blank_part }
    {
        Row {
            nums: [0u32; SLOTS],
            text: Part { start: 0, len: 0 },
        }
    }

    // Keeps what a field says.
    fn keep(&mut self, value: Value)
        ensures { row_of self.new ≡ with_value (value_of value) (row_of self.old) }
    {
        match value {
            Value::Nothing => {}
            Value::Number(k, n) => {
                if k < SLOTS {
                    self.nums[k] = n;
                }
            }
            Value::Text(x) => self.text = x,
        }
    }
}

// What a shape begins with: a run of bytes that stand for themselves, and a mark with the rest, if the shape does not end there.
#[derive(Clone, Copy)]
struct Piece<'a> {
    run: &'a [u8],
    mark: Option<(&'a u8, &'a [u8])>,
}

fn first_piece(t: &[u8]) -> Option<Piece>
    ensures fields { MatchOption result (t.now ≡ []) (λ p. runs t.now ≡ plain p.run.now ++ after_run p.mark) }
    ensures size { IfSome result (λ p. length t.now ≡ 1 + length p.run.now + size_after p.mark) }
{
    let (n, after) = t.split_first()?;
    let n = (*n as usize).min(after.len());
    Some(Piece {
        run: &after[..n],
        mark: after[n..].split_first(),
    })
}

// Past a run of a shape, where it stands at the cursor.
fn past_run(s: &[u8], c: Cursor, run: &[u8]) -> Result<Cursor, Misread>
    ensures { lit_ans result ≡ run_at s.now c.at run.now }
{
    if run.is_empty() {
        Ok(c)
    } else {
        token::literal(s, c, run)
    }
}

// The number n, however it is spelled.
fn exactly(s: &[u8], c: Cursor, n: u32) -> Result<(Value, Cursor), Misread>
    ensures { field_ans result ≡ exactly_at s.now c.at n }
{
    let (_, after) = token::number(s, c, n, n)?;
    Ok((Value::Nothing, after))
}

#[tactic(auto, unfolding(crate::specs::Shape::one_at))]
fn read_field(s: &[u8], c: Cursor, k: Kind, id: u32) -> Result<(Value, Cursor), Misread>
    ensures { field_ans result ≡ one_at part_at id (as_field k) s.now c.at }
{
    match k {
        Kind::Byte(b) => {
            let after = token::literal(s, c, &[b])?;
            Ok((Value::Nothing, after))
        }
        Kind::Due => exactly(s, c, id),
        Kind::Exactly(n) => exactly(s, c, n),
        Kind::Number(slot, lo, hi) => {
            let (n, after) = token::number(s, c, lo, hi)?;
            Ok((Value::Number(slot, n), after))
        }
        Kind::Word(slot, n, from) => {
            let (n, after) = words::word(s, c, n, from)?;
            Ok((Value::Number(slot, n), after))
        }
        Kind::Text => {
            let (x, after) = spelling::read_data(s, c)?;
            Ok((Value::Text(x), after))
        }
    }
}

// An element of the shape t at the cursor, whose due CmdID is id.
pub fn read(s: &[u8], c: Cursor, t: &[u8], id: u32) -> Result<(Row<Part>, Cursor), Misread>
    ensures { row_ans result ≡ row_at (runs t.now) id s.now c.at }
{
    let refused = Misread { place: c.at };
    let mut row = Row::blank();
    let mut p = c;
    let mut rest = t;
    while let Some(piece) = first_piece(rest) {
        let Ok(after) = past_run(s, p, piece.run) else {
            return Err(refused);
        };
        let Some((mark, more)) = piece.mark else {
            return Ok((row, after));
        };
        let Ok((value, after)) = read_field(s, after, kind_of(*mark), id) else {
            return Err(refused);
        };
        row.keep(value);
        p = after;
        rest = more;
    }
    Ok((row, p))
}

impl Row<Text> {
    fn num(&self, slot: usize) -> u32
        ensures { result ≡ get_or self.now.nums slot 0 }
    {
        if slot < SLOTS { self.nums[slot] } else { 0 }
    }
}

fn put_field(out: &mut [u8], at: usize, k: Kind, id: u32, row: &Row<Text>) -> usize
    ensures { Put out.old out.new at result (write_one id (said_of row.now) (as_field k)) }
{
    match k {
        Kind::Byte(b) => token::put_byte(out, at, b),
        Kind::Due => token::put_number(out, at, id),
        Kind::Exactly(n) => token::put_number(out, at, n),
        Kind::Number(n, _, _) => token::put_number(out, at, row.num(n)),
        Kind::Word(n, _, _) => words::put_word(out, at, row.num(n)),
        Kind::Text => spelling::put_data(out, at, row.text),
    }
}

// The element of the shape t that says this.
pub fn write(out: &mut [u8], at: usize, t: &[u8], id: u32, row: &Row<Text>) -> usize
    ensures { Put out.old out.new at result ((shape_c (runs t.now) id).write (said_of row.now)) }
{
    let mut p = at;
    let mut rest = t;
    while let Some(piece) = first_piece(rest) {
        p = token::put_text(out, p, piece.run);
        let Some((mark, more)) = piece.mark else {
            return p;
        };
        p = put_field(out, p, kind_of(*mark), id, row);
        rest = more;
    }
    p
}

fn field_len(k: Kind, id: u32, row: &Row<Text>) -> usize
    ensures { (result ≡ length (write_one id (said_of row.now) (as_field k))) × (result ≤ 133) }
{
    match k {
        Kind::Byte(_) => 1,
        Kind::Due => token::number_len(id),
        Kind::Exactly(n) => token::number_len(n),
        Kind::Number(n, _, _) => token::number_len(row.num(n)),
        Kind::Word(n, _, _) => words::word_len(row.num(n)),
        Kind::Text => spelling::data_len(row.text),
    }
}

// How long that element is.
pub fn measure(t: &[u8], id: u32, row: &Row<Text>) -> usize
    requires { length t.now ≤ 4096 }
    ensures { (result ≡ length ((shape_c (runs t.now) id).write (said_of row.now))) × (result ≤ length t.now * 133) }
{
    let mut len = 0;
    let mut rest = t;
    while let Some(piece) = first_piece(rest) {
        len += piece.run.len();
        let Some((mark, more)) = piece.mark else {
            return len;
        };
        len += field_len(kind_of(*mark), id, row);
        rest = more;
    }
    len
}
