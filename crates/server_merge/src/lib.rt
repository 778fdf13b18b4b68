// The server at Pkg 3: steps 2 to 5 in their order.
#![tactic(auto)]

ghost use Rattle.std.specs.Prelude.{◌≡◌, ◌≤◌, length};
ghost use Rattle.lists.specs.Lists.{most_listed};
ghost use Rattle.server_merge.specs.Merge.{merged_by};

use listing::Listing;
use lists::Entry;
use records::{Records, Rule};
use terms::Mode;

// The records after the commands, and the statuses of these; the first has number `first`.
#[tactic(auto, using(server_deletes::proofs::StepLaws::deletes_most))]
pub fn merge(rule: Rule, mode: Mode, s: &mut Records, commands: &[Entry], first: u32) -> Listing
    requires few { length commands.now ≤ most_listed }
    requires low { first ≤ 100 }
    ensures { record { records = s.new; statuses = result } ≡ merged_by rule mode first commands.now s.old }
{
    let d = server_deletes::deletes_in(commands);
    let told = server_deletes::take_step_2(mode, s, commands, d, first);
    server_forgets::take_step_3(s);
    server_changes::take_changes(rule, s, told, &commands[d..], first + d as u32)
}
