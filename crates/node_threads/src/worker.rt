ghost use Rattle.std.specs.Prelude.{◌≡◌, length};
ghost use Rattle.counted_hall.specs.Accounts.{acts_in};

use crate::attending::{Desk, attend};
use crate::gate::Gate;
use crate::shared::Shared;
use bean_words::{Op, Reply};
use crossbeam_channel::Receiver;
use hall::Ticket;
use object::Object;
use session::{ByteIn, ByteOut};
use std::alloc::Global;
use std::sync::Wait;
use std::sync::ledger::{Ledger, Share};

/// A worker: the tickets of the sessions that it has opened, and what it has counted. As many sessions count as it has
/// tickets, and as many commands as these have acts.
#[derive(Drop)]
pub struct Worker<O: Object, S: Ledger, C: Ledger> {
    tickets: Vec<Ticket<O>>,
    sessions: Share<S>,
    commands: Share<C>,
    ghost session_part: { sessions.parts ≡ 1 },
    ghost command_part: { commands.parts ≡ 1 },
    ghost opened: { sessions.amount ≡ length tickets.items },
    ghost handed_in: { commands.amount ≡ acts_in tickets.items },
}

impl<O: Object, S: Ledger, C: Ledger> Worker<O, S, C> {
    /// A worker that has served nobody.
    pub fn new(alloc: Global, sessions: Share<S>, commands: Share<C>) -> Worker<O, S, C>
        requires session_part { (sessions.parts ≡ 1) × (sessions.amount ≡ 0) }
        requires command_part { (commands.parts ≡ 1) × (commands.amount ≡ 0) }
    {
        Worker {
            tickets: Vec::new(alloc),
            sessions,
            commands,
        }
    }

    /// Its tickets and its shares of both counts, once it serves no more.
    pub fn into_parts(self) -> (Vec<Ticket<O>>, Share<S>, Share<C>)
        ensures parts { (result.1.parts ≡ 1) × (result.2.parts ≡ 1) }
        ensures opened { result.1.amount ≡ length result.0.items }
        ensures handed_in { result.2.amount ≡ acts_in result.0.items }
    {
        let Worker {
            tickets,
            sessions,
            commands,
        } = self;
        (tickets, sessions, commands)
    }
}

impl<O: Object<Op = Op, Reply = Reply>, S: Ledger, C: Ledger> Worker<O, S, C> {
    /// Opens a session and serves a client there. Where there is no room for the ticket, or no session can be opened, the
    /// client isn't answered.
    pub fn serve_client<R: Wait, G: Gate, I: ByteIn + Drop, W: ByteOut>(
        self,
        rt: &R,
        alloc: Global,
        shared: &Shared<O, S, C>,
        reader: I,
        writer: &mut W,
        desk: Desk,
        gate: &G,
    ) -> Worker<O, S, C> {
        let Worker {
            mut tickets,
            mut sessions,
            mut commands,
        } = self;
        if tickets.reserve(1).is_ok() {
            if let Ok(ticket) = shared.open_session(rt, &mut sessions, desk.worker) {
                let attended = attend(
                    rt, alloc, shared, commands, ticket, reader, writer, desk, gate,
                );
                commands = attended.commands;
                tickets.push_reserved(attended.ticket);
            }
        }
        Worker {
            tickets,
            sessions,
            commands,
        }
    }

    /// Serves one client after the other, until no more are let in.
    pub(crate) fn serve_clients<R: Wait, G: Gate, I: ByteIn + Drop, W: ByteOut + Drop>(
        self,
        rt: &R,
        alloc: Global,
        shared: &Shared<O, S, C>,
        clients: &Receiver<(I, W), Global>,
        desk: Desk,
        gate: &G,
    ) -> Worker<O, S, C> {
        let mut worker = self;
        for (reader, mut writer) in clients.iter(rt) {
            worker = worker.serve_client(rt, alloc, shared, reader, &mut writer, desk, gate);
        }
        worker
    }
}
