// The reader: it remembers the message and how far it has read. Thin functions over what reads on a slice and a number.
#![tactic(auto)]

ghost use Rattle.std.specs.Prelude.{◌≡◌};
ghost use Rattle.token.specs.Misread.{found_as};
ghost use Rattle.elements.specs.Element.{head_c, placed_at, end_c};

use elements::{End, Head, Placed};
use page::Kinds;
use token::{Cursor, Misread};

#[derive(Clone, Copy)]
pub struct Reader<'a> {
    pub message: &'a [u8],
    pub at: usize,
}

impl<'a> Reader<'a> {
    // A reader at the start of a message.
    pub fn start(message: &'a [u8]) -> Reader<'a>
        ensures { (result.message ≡ message.entry) × (result.at ≡ 0) }
    {
        Reader { message, at: 0 }
    }

    // The reader when it has come to a place.
    pub fn moved(self, at: usize) -> Reader<'a>
        ensures { (result.message ≡ self.entry.message) × (result.at ≡ at) }
    {
        Reader { at, ..self }
    }

    // The head of a package where the reader is.
    pub fn head(self) -> Result<(Head, Cursor), Misread>
        ensures { found_as result ≡ head_c.read self.entry.message.now self.entry.at }
    {
        elements::read_head(self.message, Cursor { at: self.at })
    }

    // One of some kinds of elements where the reader is, whose due CmdID is id.
    pub fn next(self, kinds: Kinds, id: u32) -> Result<(Placed, Cursor), Misread>
        ensures { found_as result ≡ placed_at kinds id self.entry.message.now self.entry.at }
    {
        elements::read_element(self.message, Cursor { at: self.at }, kinds, id)
    }

    // What ends a list where the reader is: line k of the page, whose due CmdID is id.
    pub fn end(self, k: usize, id: u32) -> Result<(End, Cursor), Misread>
        ensures { found_as result ≡ (end_c k id).read self.entry.message.now self.entry.at }
    {
        elements::read_end(self.message, Cursor { at: self.at }, k, id)
    }
}

// The same three from a slice and a number: whoever calls these needs to know of no reader.
pub fn head_of(message: &[u8]) -> Result<(Head, Cursor), Misread>
    ensures { found_as result ≡ head_c.read message.now 0 }
{
    Reader::start(message).head()
}

pub fn step_at(
    message: &[u8],
    at: usize,
    kinds: Kinds,
    id: u32,
) -> Result<(Placed, Cursor), Misread>
    ensures { found_as result ≡ placed_at kinds id message.now at }
{
    Reader::start(message).moved(at).next(kinds, id)
}

pub fn end_at(message: &[u8], at: usize, k: usize, id: u32) -> Result<(End, Cursor), Misread>
    ensures { found_as result ≡ (end_c k id).read message.now at }
{
    Reader::start(message).moved(at).end(k, id)
}
