// The press at Pkg 4, second part: the server's commands one after the other, and the answers to them.
#![tactic(auto)]

ghost use Rattle.std.specs.Prelude.{◌≡◌, ◌≤◌, length};
ghost use Rattle.lists.specs.Lists.{most_listed};
ghost use Rattle.press_takes.specs.Take.{taken, taken_all};

use cards::Cards;
use listing::Listing;
use lists::Entry;

// The commands of the server one after the other, and the answers to them; the first command has number `first`.
pub fn take_commands(c: &mut Cards, commands: &[Entry], first: u32) -> Listing
    requires few { length commands.now ≤ most_listed }
    requires low { first ≤ 100 }
    ensures { taken c.new result ≡ taken_all first commands.now c.old }
{
    let mut answers = Listing::none();
    for (i, o) in commands.iter().enumerate() {
        answers.push(press_replies::take_command(c, first + i as u32, o));
    }
    answers
}
