ghost use Rattle.std.specs.Prelude.{◌≡◌, Some, OnOk, OnErr};
ghost use Rattle.std.specs.Option.{option_copied};
ghost use Rattle.hall.specs.Tickets.{new_ticket, last_key, next_key, last_noted, noted_reply, with_act, without_last, with_noted};

use object::{Act, Key, Object};
use std::alloc::{AllocError, Global};
use std::marker::Model;

/// An act that a session handed in, and the reply to it, where one was noted.
#[derive(Drop)]
pub struct NotedAct<Op, Reply> {
    pub act: Act<Op>,
    pub reply: Option<Reply>,
}

impl<Op: Drop, Reply: Drop> NotedAct<Op, Reply> {
    /// The act, with this reply noted for it.
    pub(crate) fn with_reply(self, reply: Reply) -> NotedAct<Op, Reply>
        ensures act { result.act ≡ self.act }
        ensures reply { result.reply ≡ Some reply }
    {
        NotedAct {
            act: self.act,
            reply: Some(reply),
        }
    }
}

/// A session's own record: its number, its acts in their order, and which replies were noted for them. A hall makes it
/// where it opens the session, and it can't be copied. But a hall knows a ticket for its own by the number of its session
/// and by its last command alone, so it takes one of another hall, too, that is the same in these.
#[derive(Drop)]
pub struct Ticket<O: Object> {
    session: u32,
    acts: Vec<NotedAct<O::Op, O::Reply>>,
}

impl<O: Object> Model for Ticket<O> {
    ghost use Rattle.std.specs.Coded.{codes};
    ghost use Rattle.hall.specs.Tickets.{TicketState};

    ghost Value = { TicketState O.Op O.Reply };

    ghost coded = { Prim.hlevel (codes, O.Op.code, O.Reply.code) };

    ghost view = { λ t. record { session = t.session; acts = t.acts.items } };
}

impl<O: Object> Ticket<O> {
    /// The ticket of a session that has handed in nothing.
    pub(crate) fn new(alloc: Global, session: u32) -> Ticket<O>
        ensures { result ≡ new_ticket session }
    {
        Ticket {
            session,
            acts: Vec::new(alloc),
        }
    }

    /// The number of its session.
    pub fn session(&self) -> u32
        ensures { result ≡ self.now.session }
    {
        self.session
    }

    /// The reply noted for its last command.
    pub fn noted(&self) -> Option<&O::Reply>
        ensures { option_copied result ≡ noted_reply (last_noted self.now) }
    {
        self.last()?.reply.as_ref()
    }

    /// The key of its last command, of number 0 where there is none.
    pub fn last_key(&self) -> Key
        ensures { result ≡ last_key self.now }
    {
        Key {
            session: self.session,
            number: self.acts.len() as u64,
        }
    }

    /// The key of its next command.
    pub(crate) fn next_key(&self) -> Key
        ensures { result ≡ next_key self.now }
    {
        Key {
            session: self.session,
            number: self.acts.len() as u64 + 1,
        }
    }

    /// The last act.
    pub(crate) fn last(&self) -> Option<&NotedAct<O::Op, O::Reply>>
        ensures { option_copied result ≡ last_noted self.now }
    {
        self.acts.last()
    }

    /// Its acts, in their order.
    pub(crate) fn acts(&self) -> &[NotedAct<O::Op, O::Reply>]
        ensures { result.now ≡ self.now.acts }
    {
        self.acts.as_slice()
    }

    /// Takes one act more, which has no reply yet.
    pub(crate) fn push(&mut self, act: Act<O::Op>) -> Result<(), AllocError>
        ensures ok { OnOk result (self.new ≡ with_act self.old act) }
        ensures err { OnErr result (self.new ≡ self.old) }
    {
        self.acts.push(NotedAct { act, reply: None })?;
        Ok(())
    }

    /// Drops the last act.
    pub(crate) fn pop(&mut self)
        ensures { self.new ≡ without_last self.old }
    {
        let _ = self.acts.pop();
    }

    /// Notes a reply for the last act, where there is one.
    pub(crate) fn note(&mut self, reply: O::Reply)
        ensures { self.new ≡ with_noted self.old (Some reply) }
    {
        if let Some(last) = self.acts.pop() {
            self.acts.push_reserved(last.with_reply(reply));
        }
    }
}
