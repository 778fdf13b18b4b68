// What a card says: its text, with the text rule that edits keep to, and the station that said it last.
#![tactic(auto)]

ghost use Rattle.std.specs.Prelude.{◌≡◌, ◌≤◌, min, [], length};
ghost use Rattle.terms.specs.Refusal.{required};
ghost use Rattle.text.specs.Text.{longest, ok_byte, text_ok, kept, bytes_of};
ghost use Rattle.text.specs.Wording.{no_wording, signed_by};

use terms::Refusal;

// A text by itself, with zeros after its bytes. There is no heap, so it has its room and its length beside it.
#[derive(Clone, Copy)]
pub struct Text {
    pub len: u8,
    pub bytes: [u8; Text::LONGEST],
}

impl Text {
    // The most bytes that a text has.
    pub const LONGEST: usize = 24;

    pub fn empty() -> Text
        ensures { result ≡ kept [] }
    {
        Text {
            len: 0,
            bytes: [0u8; Text::LONGEST],
        }
    }

    // Its bytes, without the zeros after them.
    pub fn as_slice(&self) -> &[u8]
        ensures bytes { result.now ≡ bytes_of self.now }
        ensures few { length result.now ≤ longest }
    {
        &self.bytes[..clipped(self.len as usize)]
    }
}

// A byte that a text may hold.
pub fn ok_byte(b: u8) -> bool
    ensures { result ≡ ok_byte b }
{
    (32..=126).contains(&b)
}

// The text rule: at most 24 bytes, each one that a text may hold.
pub fn check_text(s: &[u8]) -> Result<(), Refusal>
    ensures { result ≡ required (text_ok s.now) Refusal.Unfit }
{
    if s.len() <= Text::LONGEST && s.iter().all(|b| ok_byte(*b)) {
        Ok(())
    } else {
        Err(Refusal::Unfit)
    }
}

// Of a length, what a text has room for.
pub fn clipped(n: usize) -> usize
    ensures { result ≡ min n longest }
{
    n.min(Text::LONGEST)
}

// A text by itself, of the bytes of s.
fn keep(s: &[u8]) -> Text
    ensures { result ≡ kept s.now }
{
    let n = clipped(s.len());
    let mut bytes = [0u8; Text::LONGEST];
    for i in 0..n {
        bytes[i] = s[i];
    }
    Text {
        len: n as u8,
        bytes,
    }
}

// What a card says, as one thing: its text, and the station that edited it last.
#[derive(Clone, Copy)]
pub struct Wording {
    pub text: Text,
    pub station: u8,
}

impl Wording {
    // The station of the server's own people; a press has one of the others.
    pub const SERVER: u8 = 0;

    // What says nothing.
    pub fn none() -> Wording
        ensures { result ≡ no_wording }
    {
        Wording {
            text: Text::empty(),
            station: Wording::SERVER,
        }
    }
}

// A text of the bytes of s, signed by a station.
pub fn signed_by(station: u8, s: &[u8]) -> Wording
    ensures { result ≡ signed_by station s.now }
{
    Wording {
        text: keep(s),
        station,
    }
}
