ghost use Rattle.std.specs.Prelude.{◌≡◌, ◌+◌, ◌<◌, [], length, vec_len, vec_capacity};
ghost use Rattle.counted_hall.specs.Accounts.{acts_in, all_tickets};

use crate::worker::Worker;
use hall::Ticket;
use object::Object;
use std::alloc::Global;
use std::sync::ledger::{Ledger, Share};

/// The tickets that workers have brought back, a list for each, and the shares of both counts that no worker has. As many
/// sessions count here as there are tickets, and as many commands as these have acts.
#[derive(Drop)]
pub(crate) struct Tally<O: Object, S: Ledger, C: Ledger> {
    pub(crate) tickets: Vec<Vec<Ticket<O>>>,
    pub(crate) sessions: Share<S>,
    pub(crate) commands: Share<C>,
    ghost opened: { sessions.amount ≡ length (all_tickets tickets.items) },
    ghost handed_in: { commands.amount ≡ acts_in (all_tickets tickets.items) },
}

impl<O: Object, S: Ledger, C: Ledger> Tally<O, S, C> {
    /// No worker has come back. In the empty list of tickets there may be room.
    pub(crate) fn new(
        tickets: Vec<Vec<Ticket<O>>>,
        sessions: Share<S>,
        commands: Share<C>,
    ) -> Tally<O, S, C>
        requires tickets { tickets.items ≡ [] }
        requires sessions { sessions.amount ≡ 0 }
        requires commands { commands.amount ≡ 0 }
        ensures tickets { result.tickets ≡ tickets }
        ensures sessions { result.sessions ≡ sessions }
        ensures commands { result.commands ≡ commands }
    {
        Tally {
            tickets,
            sessions,
            commands,
        }
    }

    /// A worker more, with a part of both counts.
    pub(crate) fn send_out(&mut self, alloc: Global) -> Worker<O, S, C>
        requires session_parts { 1 < self.old.sessions.parts }
        requires command_parts { 1 < self.old.commands.parts }
        ensures tickets { self.new.tickets ≡ self.old.tickets }
        ensures session_parts { self.new.sessions.parts + 1 ≡ self.old.sessions.parts }
        ensures command_parts { self.new.commands.parts + 1 ≡ self.old.commands.parts }
    {
        let Tally {
            tickets: _,
            sessions,
            commands,
        } = self;
        Worker::new(alloc, sessions.split_off(1, 0), commands.split_off(1, 0))
    }

    /// A worker comes back with its tickets.
    pub(crate) fn take_in(&mut self, worker: Worker<O, S, C>)
        requires room { vec_len self.old.tickets < vec_capacity self.old.tickets }
        ensures count { vec_len self.new.tickets ≡ vec_len self.old.tickets + 1 }
        ensures room { vec_capacity self.new.tickets ≡ vec_capacity self.old.tickets }
        ensures session_parts { self.new.sessions.parts ≡ self.old.sessions.parts + 1 }
        ensures command_parts { self.new.commands.parts ≡ self.old.commands.parts + 1 }
    {
        let (brought, their_sessions, their_commands) = worker.into_parts();
        let Tally {
            tickets,
            sessions,
            commands,
        } = self;
        tickets.push_reserved(brought);
        sessions.merge(their_sessions);
        commands.merge(their_commands);
    }
}
