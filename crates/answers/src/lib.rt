// What the bench answers, put into an output.
#![tactic(auto)]

ghost use Rattle.std.specs.Prelude.{ℕ, List, ◌≡◌, ◌≤◌, [], ◌∷◌, ◌++◌, length};
ghost use Rattle.places.specs.Set.{all_places};
ghost use Rattle.token.specs.Number.{digits};
ghost use Rattle.token.specs.Put.{Put};
ghost use Rattle.answers.specs.Words.{number_or};
ghost use Rattle.answers.specs.Help.{help_text};
ghost use Rattle.answers.specs.Block.{link_text, wording_text, lines_from};
ghost use Rattle.answers.specs.Said.{said_by, standing_to, words_of};

use text::Wording;

// What `help` lists.
const HELP: &[u8] = b"\
fresh [N]
lend N
press add TEXT
press edit LUID TEXT
press delete LUID
server add TEXT
server edit GUID TEXT
server delete GUID
rule press
rule server
press give up
server give up
start
step
press message MESSAGE
server message MESSAGE
lose
cut
run
break K
press tables
server tables
changes
reread MESSAGE
help
end";

// What a command that is not refused answers: some words, or a message or block that stands at the output's start already, of so many bytes.
#[derive(Clone, Copy, PartialEq, Eq)]
pub enum Answer {
    Yes,
    Number(u32),
    Standing(usize),
    Done,
    Idle,
    Unknown,
}

// A number, or a word where it is 0.
pub fn put_number_or(out: &mut [u8], at: usize, n: u32, word: &[u8]) -> usize
    ensures { Put out.old out.new at result (number_or word.now n) }
{
    if n == 0 {
        token::put_text(out, at, word)
    } else {
        token::put_number(out, at, n)
    }
}

// A name and a number.
pub fn put_field(out: &mut [u8], at: usize, name: &[u8], n: u32) -> usize
    ensures { Put out.old out.new at result (name.now ++ digits n) }
{
    let at = token::put_text(out, at, name);
    token::put_number(out, at, n)
}

// How the line of a card or record ends: the station that edited it last, and its text.
pub fn put_wording(out: &mut [u8], at: usize, wording: &Wording) -> usize
    ensures { Put out.old out.new at result (wording_text wording.now) }
{
    let at = put_field(out, at, b" station=", wording.station as u32);
    let at = token::put_text(out, at, b" text=");
    token::put_text(out, at, wording.text.as_slice())
}

// How the line of a side begins: its name, what is open, its anchor and its session number.
pub fn put_link(
    out: &mut [u8],
    at: usize,
    name: &[u8],
    is: &[u8],
    anchor: u32,
    session: u32,
) -> usize
    ensures { Put out.old out.new at result (link_text name.now is.now anchor session) }
{
    let at = token::put_text(out, at, name);
    let at = token::put_text(out, at, is);
    let at = put_field(out, at, b" anchor=", anchor);
    put_field(out, at, b" session=", session)
}

// The lines of the places in use, each as put_line puts it.
pub fn put_lines<T, F: Fn(&mut [u8], usize, u32, &T) -> usize>(
    out: &mut [u8],
    at: usize,
    used: u32,
    places: &[T],
    put_line: F,
) -> usize
    ghost line: { ℕ → T → List ℕ }
    requires few { length places.now ≤ all_places }
    requires callable { F.IsAlwaysCallable put_line }
    requires puts { (o : _) (p i : ℕ) (x : _) (q : ℕ) (o' : _) → F.post put_line o p i x q o' → Put o.now o'.now p q (line i x.now) }
    ensures { Put out.old out.new at result (lines_from line used 0 places.now) }
{
    let mut at = at;
    for (i, held) in places.iter().enumerate() {
        if places::in_use(used, i) {
            at = put_line(out, at, i as u32, held);
        }
    }
    at
}

// The words of what a command answers.
fn put_words(out: &mut [u8], said: Result<Answer, u8>) -> usize
    ensures { Put out.old out.new (standing_to (said_by said)) result (words_of (said_by said)) }
{
    match said {
        Ok(Answer::Yes) => token::put_text(out, 0, b"ok"),
        Ok(Answer::Number(n)) => put_field(out, 0, b"ok ", n),
        Ok(Answer::Standing(n)) => n,
        Ok(Answer::Done) => token::put_text(out, 0, b"done"),
        Ok(Answer::Idle) => token::put_text(out, 0, b"idle"),
        Ok(Answer::Unknown) => token::put_text(out, 0, b"?"),
        Err(n) => put_field(out, 0, b"refused ", u32::from(n)),
    }
}

// What a command answers, or the number of its refusal, with the line feed after it.
pub fn put_said(out: &mut [u8], said: Result<Answer, u8>) -> usize
    ensures { Put out.old out.new (standing_to (said_by said)) result (words_of (said_by said) ++ (10 ∷ [])) }
{
    let at = put_words(out, said);
    token::put_byte(out, at, b'\n')
}

// The list of the commands, without its last line feed.
pub fn put_help(out: &mut [u8]) -> usize
    ensures { Put out.old out.new 0 result help_text }
{
    token::put_text(out, 0, HELP)
}
