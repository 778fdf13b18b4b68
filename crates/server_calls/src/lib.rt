// The server takes a message: the public call on bytes, with its refusals in their order.
#![tactic(auto)]

ghost use Rattle.std.specs.Prelude.{◌≡◌};
ghost use Rattle.calls.specs.Reply.{written_as};
ghost use Rattle.calls.specs.After.{after};
ghost use Rattle.server_calls.specs.Call.{server_takes};

use records::Server;
use terms::Refusal;

// The server takes a message, and its answer stands in the output, so long; or a refusal, with server and output as they were.
pub fn takes(server: &mut Server, s: &[u8], out: &mut [u8]) -> Result<usize, Refusal>
    ensures { after (written_as result) server.new out.new ≡ server_takes server.old s.now out.old }
{
    let x = message_read::read(s)?;
    let mut next = *server;
    let answer = server_awaits::does(&mut next, &x)?;
    let n = message_write::write(out, &answer)?;
    *server = next;
    Ok(n)
}
