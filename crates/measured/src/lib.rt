// The reader, for a program in C that measures it (benchmark/). Where something is refused the place is 0.
#![tactic(auto)]

ghost use Rattle.std.specs.Prelude.{◌≡◌};
ghost use Rattle.elements.specs.Element.{head_c, element_c, end_c};
ghost use Rattle.message.specs.Message.{read_message};
ghost use Rattle.measured.specs.Places.{place_read, kinds_of, luid_in};

use lists::Entry;
use page::Kinds;

// Where the head of a message ends.
#[unsafe(no_mangle)]
pub extern "C" fn measured_head(s: &[u8]) -> usize
    ensures { result ≡ place_read (head_c.read s.now 0) }
{
    match reader::head_of(s) {
        Ok((_, after)) => after.at,
        Err(_) => 0,
    }
}

// Where the element at a place ends, one of some kinds.
#[unsafe(no_mangle)]
pub extern "C" fn measured_step(s: &[u8], at: usize, from: u8, count: u8, id: u32) -> usize
    ensures { result ≡ place_read ((element_c (kinds_of from count) id).read s.now at) }
{
    match reader::step_at(s, at, Kinds { from, count }, id) {
        Ok((_, after)) => after.at,
        Err(_) => 0,
    }
}

// Where the end of a list ends that is at a place, line k of the page.
#[unsafe(no_mangle)]
pub extern "C" fn measured_end(s: &[u8], at: usize, k: usize, id: u32) -> usize
    ensures { result ≡ place_read ((end_c k id).read s.now at) }
{
    match reader::end_at(s, at, k, id) {
        Ok((_, after)) => after.at,
        Err(_) => 0,
    }
}

// The LUID of the i-th command of a message, out of its whole content; 0 where there is none.
#[unsafe(no_mangle)]
pub extern "C" fn measured_message(s: &[u8], i: usize) -> u32
    ensures { result ≡ luid_in i (read_message s.now) }
{
    let Ok(content) = message_read::read(s) else {
        return 0;
    };
    if Entry::KEPT <= i {
        return 0;
    }
    content.commands[i].fields.luid.0
}
