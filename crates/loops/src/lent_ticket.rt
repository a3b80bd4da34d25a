ghost use Rattle.std.specs.Prelude.{◌≡◌, ◌==◌, ◌+◌, ◌<◌, ◌^◌, Some};
ghost use Rattle.loops.specs.Lending.{last_lent_key, lent_behind, lent_handed_in};

use bean_words::Reply;
use conversation::{LeanTicket, SessionTicket};
use object::Key;
use std::marker::Model;

/// The ticket of a client whose session may have been another client's before. It counts what was handed in since, which comes
/// behind the number that the session had then.
#[derive(Drop)]
pub(crate) struct LentTicket {
    ticket: LeanTicket,
    /// The number of the session's last command before; 0 where it is new.
    first: u64,
}

impl Model for LentTicket {
    ghost use Rattle.std.specs.Prelude.{◌+◌, ◌<◌, ◌^◌};
    ghost use Rattle.loops.specs.Lending.{LentState};

    ghost Value = { LentState };

    ghost view = { λ t. record { first = t.first; ticket = t.ticket } };

    ghost invariant = { λ t. t.first + t.ticket.number < 2 ^ 63 };
}

impl LentTicket {
    /// The ticket of who gets a session behind this key, its last one, and has handed in nothing.
    pub(crate) fn behind(key: Key) -> LentTicket
        requires { key.number < 2 ^ 62 }
        ensures { result ≡ lent_behind key }
    {
        LentTicket {
            ticket: LeanTicket::new(key.session),
            first: key.number,
        }
    }

    /// The key of its session's last command, which may be another client's; the number is 0 where there is none.
    pub(crate) fn last_key(&self) -> Key
        ensures { result ≡ last_lent_key self.now }
    {
        let last = self.ticket.last_key();
        Key {
            session: last.session,
            number: self.first + last.number,
        }
    }

    /// Whether nothing was handed in under it.
    pub(crate) fn is_blank(&self) -> bool
        ensures { result ≡ (self.now.ticket.number == 0) }
    {
        self.ticket.last_key().number == 0
    }

    /// An act more was handed in, under the next number. It has no reply yet.
    pub(crate) fn hand_in(&mut self)
        requires { self.old.first + self.old.ticket.number < 2 ^ 62 }
        ensures { self.new ≡ lent_handed_in self.old }
    {
        self.ticket.hand_in();
    }

    /// Notes the reply to the last act.
    pub(crate) fn note(&mut self, reply: Reply)
        ensures { self.new ≡ record self.old { ticket = record self.old.ticket { reply = Some reply } } }
    {
        self.ticket.note(reply);
    }
}

impl SessionTicket for LentTicket {
    ghost use Rattle.loops.specs.Lending.{keeping_lent};
    ghost use Rattle.loops.specs.LendingLaws.{keeps_lent};

    ghost keeping = { keeping_lent };

    fn session(&self) -> u32 {
        self.ticket.session()
    }

    fn noted(&self) -> Option<&Reply> {
        self.ticket.noted()
    }

    ghost keeps = { keeps_lent };
}
