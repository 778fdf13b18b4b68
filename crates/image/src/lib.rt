// What images of the two sides are made of: numbers as four bytes, the lowest first, read and written at a place; and a sum over bytes.
#![tactic(auto)]

ghost use Rattle.std.specs.Prelude.{◌≡◌, ◌+◌, ◌≤◌, length, take, drop};
ghost use Rattle.token.specs.Put.{Put};
ghost use Rattle.text.specs.Text.{longest};
ghost use Rattle.image.specs.Four.{four, fours, four_in, AllFit};
ghost use Rattle.image.specs.Sum.{sum_of};
ghost use Rattle.image.specs.Form.{digit_of, form_in};

mod kept;

pub use kept::{Keeper, call, call_in};
use text::Text;

// A number, as far as there is room.
pub fn put_four(out: &mut [u8], at: usize, n: u32) -> usize
    ensures { Put out.old out.new at result (four n) }
{
    let [a, b, c, d] = n.to_le_bytes();
    let p = token::put_byte(out, at, a);
    let q = token::put_byte(out, p, b);
    let r = token::put_byte(out, q, c);
    token::put_byte(out, r, d)
}

// Numbers one after the other, as far as there is room; each has 32 bits.
pub fn put_fours(out: &mut [u8], at: usize, ns: &[u32]) -> usize
    ensures { Put out.old out.new at result (fours ns.now) × AllFit ns.now }
{
    let mut p = at;
    for n in ns {
        p = put_four(out, p, *n);
    }
    p
}

// The number that stands at a place.
pub fn four_at(s: &[u8], at: usize) -> u32
    requires { at + 4 ≤ length s.now }
    ensures { result ≡ four_in s.now at }
{
    u32::from_le_bytes([s[at], s[at + 1], s[at + 2], s[at + 3]])
}

// What the fourth byte of a number counts.
const LETTERS: u32 = 16777216;

// The number that a digit but 0 says after the right letters; 0 for what is none.
fn digit_of(byte: u32, right: bool) -> u32
    ensures { result ≡ digit_of byte right }
{
    if right && (49..=57).contains(&byte) {
        byte - 48
    } else {
        0
    }
}

// A sum over all bytes that tells them apart by their places too (Adler's); the remainders are taken once, at the end.
pub fn sum(s: &[u8]) -> u32
    requires { length s.now ≤ 65536 }
    ensures { result ≡ sum_of s.now }
{
    let mut a: u64 = 1;
    let mut b: u64 = 0;
    for x in s {
        a += u64::from(*x);
        b += a;
    }
    (a % 65521) as u32 + 65536 * ((b % 65521) as u32)
}

// A text with what stands after it.
pub fn put_bytes(out: &mut [u8], at: usize, text: Text) -> usize
    ensures { Put out.old out.new at result text.bytes × (length text.bytes ≡ longest) }
{
    token::put_text(out, at, &text.bytes)
}

// The bytes of a text that stands at a place.
pub fn text_at(s: &[u8], at: usize) -> [u8; Text::LONGEST]
    requires { at + longest ≤ length s.now }
    ensures { result ≡ take longest (drop at s.now) }
{
    let mut bytes = [0u8; Text::LONGEST];
    bytes.copy_from_slice(&s[at..at + Text::LONGEST]);
    bytes
}

// The number of the form that an image with these three letters in front has; 0 for other bytes.
pub fn form(s: &[u8], letters: u32) -> u32
    ensures { result ≡ form_in letters s.now }
{
    if s.len() < 4 {
        return 0;
    }
    let front = four_at(s, 0);
    digit_of(front / LETTERS, front % LETTERS == letters)
}
