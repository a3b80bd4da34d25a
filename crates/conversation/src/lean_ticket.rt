ghost use Rattle.std.specs.Prelude.{◌≡◌, ◌<◌, ◌-◌, ◌^◌, None, Some};
ghost use Rattle.std.specs.Option.{option_copied};
ghost use Rattle.conversation.specs.Tickets.{new_lean_ticket, last_lean_key, lean_handed_in};

use crate::session_ticket::SessionTicket;
use bean_words::Reply;
use object::Key;
use std::marker::Model;

/// The ticket of a session at a hall that forgets: it has the number of the last act, 0 where none was handed in, and the reply
/// to that act alone, once it is noted.
#[derive(Drop)]
pub struct LeanTicket {
    session: u32,
    number: u64,
    reply: Option<Reply>,
}

impl Model for LeanTicket {
    ghost use Rattle.conversation.specs.Tickets.{LeanTicketState};

    ghost Value = { LeanTicketState };

    ghost view = { λ t. record { session = t.session; number = t.number; reply = t.reply } };
}

impl LeanTicket {
    /// The ticket of a session that has handed in nothing.
    pub fn new(session: u32) -> LeanTicket
        ensures { result ≡ new_lean_ticket session }
    {
        LeanTicket {
            session,
            number: 0,
            reply: None,
        }
    }

    /// The number of its session.
    pub fn session(&self) -> u32
        ensures { result ≡ self.now.session }
    {
        self.session
    }

    /// The key of its session's last command; the number is 0 where there is none.
    pub fn last_key(&self) -> Key
        ensures { result ≡ last_lean_key self.now }
    {
        Key {
            session: self.session,
            number: self.number,
        }
    }

    /// An act more was handed in, under the next number. It has no reply yet.
    pub fn hand_in(&mut self)
        requires { self.old.number < 2 ^ 64 - 1 }
        ensures { self.new ≡ lean_handed_in self.old }
    {
        self.number += 1;
        self.reply = None;
    }

    /// Notes the reply to the last act.
    pub fn note(&mut self, reply: Reply)
        ensures { self.new ≡ record self.old { reply = Some reply } }
    {
        self.reply = Some(reply);
    }
}

impl SessionTicket for LeanTicket {
    ghost use Rattle.conversation.specs.Tickets.{keeping_last};
    ghost use Rattle.conversation.specs.TicketLaws.{keeps_last};

    ghost keeping = { keeping_last };

    fn session(&self) -> u32 {
        self.session
    }

    fn noted(&self) -> Option<&Reply> {
        self.reply.as_ref()
    }

    ghost keeps = { keeps_last };
}
