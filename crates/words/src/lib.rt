// The words of the written form, by number: truth values, and the commands that a status names.
#![tactic(auto)]

ghost use Rattle.std.specs.Prelude.{◌≡◌, ◌≤◌, length};
ghost use Rattle.token.specs.Misread.{found_as};
ghost use Rattle.token.specs.Put.{Put};
ghost use Rattle.words.specs.Words.{word_of, word_at};

use token::{Cursor, Misread};

// The word of a number.
#[inline(never)]
#[tactic(auto, unfolding(crate::specs::Words::word_of))]
fn word_of(k: u32) -> &'static [u8]
    ensures { result.now ≡ word_of k }
{
    match k {
        0 => b"false",
        1 => b"true",
        2 => b"Add",
        3 => b"Replace",
        4 => b"Delete",
        _ => b"",
    }
}

// The first of the n words from k on that stands at the cursor.
pub fn word(s: &[u8], c: Cursor, n: u8, k: u8) -> Result<(u32, Cursor), Misread>
    ensures { found_as result ≡ word_at n k s.now c.at }
{
    let first = k as u32;
    for i in first..first + n as u32 {
        if let Ok(e) = token::literal(s, c, word_of(i)) {
            return Ok((i, e));
        }
    }
    Err(Misread { place: c.at })
}

pub fn put_word(out: &mut [u8], at: usize, k: u32) -> usize
    ensures { Put out.old out.new at result (word_of k) }
{
    token::put_text(out, at, word_of(k))
}

#[tactic(auto, unfolding(crate::specs::Words::word_of))]
pub fn word_len(k: u32) -> usize
    ensures { (result ≡ length (word_of k)) × (result ≤ 7) }
{
    word_of(k).len()
}
