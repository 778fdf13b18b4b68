// The bench's state: a press, a server, what is on the wire, and how much output is lent.
#![tactic(auto)]

ghost use Rattle.std.specs.Prelude.{◌≡◌};
ghost use Rattle.answers.specs.Said.{said_as};
ghost use Rattle.course.specs.Course.{alone, lose, press_give_up, server_give_up, cut};
ghost use Rattle.desk.specs.Desk.{fresh_desk, fresh_told, lending, saying, Becomes};

use answers::Answer;
use cards::Press;
use message::Content;
use records::Server;
use terms::Refusal;

// What the wire holds: nothing, or a message of so many bytes for one of the sides.
#[derive(Clone, Copy, PartialEq, Eq)]
pub enum Wire {
    Empty,
    ToPress(usize),
    ToServer(usize),
}

#[derive(Drop)]
pub struct Desk {
    pub press: Press,
    pub server: Server,
    pub wire: Wire,
    pub lent: usize,
}

impl Desk {
    // Both sides fresh, the press as the station of this number.
    pub fn fresh(station: u8) -> Desk
        ensures { result ≡ fresh_desk station }
    {
        Desk {
            press: Press::fresh_as(station),
            server: Server::fresh(),
            wire: Wire::Empty,
            lent: Content::LIMIT,
        }
    }

    // That by a command: a press that is refused leaves everything as it was.
    pub fn afresh(&mut self, station: u8) -> Result<Answer, Refusal>
        ensures { saying self.new (said_as result) ≡ fresh_told self.old station }
    {
        let press = Press::fresh(station)?;
        *self = Desk {
            press,
            ..Desk::fresh(station)
        };
        Ok(Answer::Yes)
    }

    // So many bytes are lent from now on.
    pub fn lends(&mut self, lent: usize)
        ensures { self.new ≡ lending self.old lent }
    {
        self.lent = lent;
    }

    // The wire loses its message, and nobody gives up.
    #[tactic(auto, using(crate::proofs::DeskLaws::lost_as))]
    pub fn loses(&mut self)
        ensures { Becomes self.old (alone lose) self.new }
    {
        self.wire = Wire::Empty;
    }

    // The press gives up, by itself.
    #[tactic(auto, using(crate::proofs::DeskLaws::press_up))]
    pub fn press_gives_up(&mut self)
        ensures { Becomes self.old (alone press_give_up) self.new }
    {
        self.press = self.press.gives_up();
    }

    // The server gives up, by itself.
    #[tactic(auto, using(crate::proofs::DeskLaws::server_up))]
    pub fn server_gives_up(&mut self)
        ensures { Becomes self.old (alone server_give_up) self.new }
    {
        self.server = self.server.gives_up();
    }

    // The wire loses its message, and both sides give up.
    #[tactic(auto, using(crate::proofs::DeskLaws::cut_as))]
    pub fn cut(&mut self)
        ensures { Becomes self.old cut self.new }
    {
        self.wire = Wire::Empty;
        self.press = self.press.gives_up();
        self.server = self.server.gives_up();
    }
}
