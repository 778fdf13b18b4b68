// The commands of a script: a line, read. A text or a message is the rest of its line from a place on.
#![tactic(auto)]

ghost use Rattle.std.specs.Prelude.{◌≡◌, drop};
ghost use Rattle.script.specs.Lines.{line_end};
ghost use Rattle.script.specs.Script.{plain_at, plain_as, ends_in, last_number, last_as, edit_in, act_in, act_as, fresh_in, command_as, one_word_in, command_in};

use records::Rule;
use token::Cursor;

// What a command asks of one side.
#[derive(Clone, Copy)]
pub enum Act {
    Add(usize),
    Edit(u32, usize),
    Delete(u32),
    Message(usize),
    GiveUp,
    Tables,
    Unknown,
}

#[derive(Clone, Copy)]
pub enum Command {
    Press(Act),
    Server(Act),
    Start,
    Step,
    Run,
    Break(u32),
    Lose,
    Cut,
    Lend(u32),
    Fresh(u8),
    Rule(Rule),
    Reread(usize),
    Changes,
    Help,
    Unknown,
}

// The commands without number or text: `fresh` is `fresh 1`.
const WORDS: [(&[u8], Command); 10] = [
    (b"start", Command::Start),
    (b"step", Command::Step),
    (b"run", Command::Run),
    (b"lose", Command::Lose),
    (b"cut", Command::Cut),
    (b"fresh", Command::Fresh(1)),
    (b"rule press", Command::Rule(Rule::PressWins)),
    (b"rule server", Command::Rule(Rule::ServerWins)),
    (b"changes", Command::Changes),
    (b"help", Command::Help),
];

// The place of the first line feed from a place on, or the end.
pub fn line_end(s: &[u8], from: usize) -> usize
    ensures { result ≡ line_end s.now from }
{
    let left = rest(s, from);
    from + left.iter().position(|b| *b == b'\n').unwrap_or(left.len())
}

// The rest of a line from a place on.
pub fn rest(line: &[u8], at: usize) -> &[u8]
    ensures { result.now ≡ drop at line.now }
{
    &line[at.min(line.len())..]
}

// Whether the rest of the line is this word.
fn ends_in(s: &[u8], c: Cursor, w: &[u8]) -> bool
    ensures { result ≡ ends_in s.now c.at w.now }
{
    token::literal(s, c, w).is_ok_and(|e| e.at == s.len())
}

// A number of the script, from lo to hi: as the writer writes it, for it is no message's.
#[tactic(auto, unfolding(crate::specs::Script::plain_at))]
fn plain(s: &[u8], c: Cursor, lo: u32, hi: u32) -> Option<(u32, Cursor)>
    ensures { plain_as c.at result ≡ plain_at s.now c.at lo hi }
{
    let (n, e) = token::number(s, c, lo, hi).ok()?;
    if e.at - c.at == token::number_len(n) {
        Some((n, e))
    } else {
        None
    }
}

// The number from lo to hi that is the rest of the line.
fn last_number(s: &[u8], c: Cursor, lo: u32, hi: u32) -> Option<u32>
    ensures { last_as result ≡ last_number s.now c.at lo hi }
{
    let (n, e) = plain(s, c, lo, hi)?;
    if e.at == s.len() { Some(n) } else { None }
}

// The number and the text of an edit.
#[tactic(auto, unfolding(crate::specs::Script::edit_in))]
fn edit(s: &[u8], c: Cursor) -> Option<Act>
    ensures { act_as result ≡ edit_in s.now c.at }
{
    let (n, e) = plain(s, c, 0, u32::MAX)?;
    let text = token::literal(s, e, b" ").ok()?;
    Some(Act::Edit(n, text.at))
}

// What is asked of a side, after its name.
#[tactic(auto, unfolding(crate::specs::Script::act_in, crate::specs::Script::delete_in))]
fn asked(s: &[u8], c: Cursor) -> Act
    ensures { result ≡ act_in s.now c.at }
{
    if let Ok(e) = token::literal(s, c, b"add ") {
        Act::Add(e.at)
    } else if let Ok(e) = token::literal(s, c, b"edit ") {
        edit(s, e).unwrap_or(Act::Unknown)
    } else if let Ok(e) = token::literal(s, c, b"delete ") {
        last_number(s, e, 0, u32::MAX).map_or(Act::Unknown, Act::Delete)
    } else if let Ok(e) = token::literal(s, c, b"message ") {
        Act::Message(e.at)
    } else if ends_in(s, c, b"give up") {
        Act::GiveUp
    } else if ends_in(s, c, b"tables") {
        Act::Tables
    } else {
        Act::Unknown
    }
}

// A command without number or text.
fn one_word(s: &[u8], c: Cursor) -> Command
    ensures { result ≡ one_word_in s.now c.at }
{
    for (word, command) in WORDS {
        if ends_in(s, c, word) {
            return command;
        }
    }
    Command::Unknown
}

// Both sides are fresh, the press as this station: 0 to 255.
#[tactic(auto, unfolding(crate::specs::Script::fresh_in))]
fn fresh_as(s: &[u8], c: Cursor) -> Option<Command>
    ensures { command_as result ≡ fresh_in s.now c.at }
{
    Some(Command::Fresh(last_number(s, c, 0, 255)? as u8))
}

// The command that a line is.
#[tactic(auto, unfolding(crate::specs::Script::command_in, crate::specs::Script::lend_in, crate::specs::Script::break_in))]
pub fn command_of(s: &[u8]) -> Command
    ensures { result ≡ command_in s.now }
{
    let c = Cursor { at: 0 };
    if let Ok(e) = token::literal(s, c, b"press ") {
        Command::Press(asked(s, e))
    } else if let Ok(e) = token::literal(s, c, b"server ") {
        Command::Server(asked(s, e))
    } else if let Ok(e) = token::literal(s, c, b"lend ") {
        last_number(s, e, 0, 40000).map_or(Command::Unknown, Command::Lend)
    } else if let Ok(e) = token::literal(s, c, b"break ") {
        last_number(s, e, 1, 6).map_or(Command::Unknown, Command::Break)
    } else if let Ok(e) = token::literal(s, c, b"reread ") {
        Command::Reread(e.at)
    } else if let Ok(e) = token::literal(s, c, b"fresh ") {
        fresh_as(s, e).unwrap_or(Command::Unknown)
    } else {
        one_word(s, c)
    }
}
