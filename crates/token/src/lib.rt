// The tokens of the written form: decimals and constant texts, read at a cursor and written at a place.
#![tactic(auto)]

ghost use Rattle.std.specs.Prelude.{◌≡◌, ◌+◌, ◌<◌, ◌≤◌, min, [], ◌∷◌, length, drop};
ghost use Rattle.token.specs.Misread.{found_as};
ghost use Rattle.token.specs.Number.{number_at, digits, sign};
ghost use Rattle.token.specs.Digit.{digit_of};
ghost use Rattle.token.specs.Literal.{lit_ans, literal_at};
ghost use Rattle.token.specs.Put.{Put};
ghost use Rattle.terms.specs.declared.Refusal.{Refusal};

use terms::Refusal;

// How far a reader has come.
#[derive(Clone, Copy)]
pub struct Cursor {
    pub at: usize,
}

// What does not have the written form, and where.
#[derive(Clone, Copy, PartialEq, Eq)]
pub struct Misread {
    pub place: usize,
}

impl From<Misread> for Refusal {
    ghost from_gives = { λ _ r. r ≡ Refusal.Unreadable };

    fn from(_e: Misread) -> Refusal {
        Refusal::Unreadable
    }
}

// How many characters a number has at most: its sign, leading zeros and digits.
pub const LONGEST: usize = 20;

// The constant text w at the cursor.
#[inline(always)]
pub fn literal(s: &[u8], c: Cursor, w: &[u8]) -> Result<Cursor, Misread>
    ensures { lit_ans result ≡ literal_at s.now c.at w.now }
{
    if c.at <= s.len() && s[c.at..].starts_with(w) {
        Ok(Cursor { at: c.at + w.len() })
    } else {
        Err(Misread { place: c.at })
    }
}

// Past the sign of a number, if it has one.
fn past_sign(s: &[u8], at: usize) -> usize
    ensures { result ≡ at + sign (drop at s.now) }
{
    if at < s.len() && s[at] == b'+' {
        at + 1
    } else {
        at
    }
}

// The digit at a place, if one stands there.
fn digit_at(s: &[u8], at: usize) -> Option<u64>
    ensures { result ≡ digit_of (drop at s.now) }
{
    if at < s.len() && s[at].is_ascii_digit() {
        Some((s[at] - b'0') as u64)
    } else {
        None
    }
}

// The decimal at the cursor, from lo to hi, whatever its sign and its leading zeros.
pub fn number(s: &[u8], c: Cursor, lo: u32, hi: u32) -> Result<(u32, Cursor), Misread>
    ensures { found_as result ≡ number_at s.now c.at lo hi }
{
    let refused = Misread { place: c.at };
    let from = past_sign(s, c.at);
    let mut end = from;
    let mut v: u64 = 0;
    while let Some(d) = digit_at(s, end) {
        v = v * 10 + d;
        if u64::from(hi) < v {
            return Err(refused);
        }
        end += 1;
    }
    if end == from || LONGEST < end - c.at || v < u64::from(lo) {
        return Err(refused);
    }
    Ok((v as u32, Cursor { at: end }))
}

// One byte, where there is room.
pub fn put_byte(out: &mut [u8], at: usize, b: u8) -> usize
    ensures { Put out.old out.new at result (b ∷ []) }
{
    if at < out.len() {
        out[at] = b;
        at + 1
    } else {
        at
    }
}

// A text, as far as there is room.
pub fn put_text(out: &mut [u8], at: usize, w: &[u8]) -> usize
    ensures { Put out.old out.new at result w.now }
{
    if out.len() <= at {
        return at;
    }
    let n = w.len().min(out.len() - at);
    // byte by byte: a copy of slices would be memmove's, which firmware without a C library need not have
    for i in 0..n {
        out[at + i] = w[i];
    }
    at + n
}

// The decimal of n.
pub fn put_number(out: &mut [u8], at: usize, n: u32) -> usize
    ensures { Put out.old out.new at result (digits n) }
{
    let p = if n < 10 {
        at
    } else {
        put_number(out, at, n / 10)
    };
    put_byte(out, p, b'0' + (n % 10) as u8)
}

// How many bytes the decimal of n has.
pub fn number_len(n: u32) -> usize
    ensures { (result ≡ length (digits n)) × (result ≤ 10) }
{
    let mut k = 1;
    let mut m = n;
    while 10 <= m {
        m /= 10;
        k += 1;
    }
    k
}
