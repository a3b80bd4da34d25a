ghost use Rattle.std.specs.Prelude.{◌≡◌, ◌↔◌, ◌+◌, Option, Some, IfOk, IfErr, OnOk, OnErr};
ghost use Rattle.session.specs.declared.faults.ServiceFault.TheVariants.{Refused, Stopped};
ghost use Rattle.hall.specs.declared.error.HallError.TheVariants.{OutOfMemory};
ghost use Rattle.hall.specs.Tickets.{with_act, with_noted};
ghost use Rattle.node_threads.specs.Attending.{Adds, attendance_of};

use crate::attending::Desk;
use crate::gate::{Actor, Gate, Point};
use crate::shared::{HandedIn, Shared};
use bean_words::{Op, Reply};
use hall::{HallError, Ticket};
use object::{Act, Object, Value};
use session::{Service, ServiceFault};
use std::sync::Wait;
use std::sync::ledger::{Ledger, Share};

/// A worker with the ticket of the client that it serves: it hands in what the client asks for, and waits for the answer.
#[derive(Drop)]
pub(crate) struct Attendant<'a, O: Object, S: Ledger, C: Ledger, R, G> {
    pub(crate) rt: &'a R,
    pub(crate) shared: &'a Shared<O, S, C>,
    pub(crate) gate: &'a G,
    pub(crate) desk: Desk,
    pub(crate) ticket: Ticket<O>,
    /// How many commands it has handed in.
    pub(crate) commands: Share<C>,
    ghost one_part: { commands.parts ≡ 1 },
}

impl<'a, O: Object<Op = Op, Reply = Reply>, S: Ledger, C: Ledger, R: Wait, G: Gate> Service
    for Attendant<'a, O, S, C, R, G> {
    ghost use Rattle.node_threads.specs.Attending.{Adds, TakesLeave, attendance_of};

    ghost asks = { λ old op result new. Adds
        (attendance_of old.ticket old.commands.amount) op result
        (attendance_of new.ticket new.commands.amount) };

    ghost closes = { λ old result new. TakesLeave
        (attendance_of old.ticket old.commands.amount) result
        (attendance_of new.ticket new.commands.amount) };

    fn ask(&mut self, op: Op) -> Result<Reply, ServiceFault> {
        let worker = Actor::Worker(self.desk.worker);
        self.gate.at(worker, Point::Asked);
        let answered = self.obtain(op);
        self.gate.at(worker, Point::Answered);
        answered
    }

    fn close(&mut self) -> Result<(), ServiceFault> {
        for _ in self.rt.forever() {
            match self.hand_in(Act::Close) {
                Ok(_) => return Ok(()),
                Err(ServiceFault::Refused) => std::thread::yield_now(),
                Err(ServiceFault::Stopped) => return Err(ServiceFault::Stopped),
            }
        }
        unreachable!()
    }
}

impl<'a, O: Object<Op = Op, Reply = Reply>, S: Ledger, C: Ledger, R: Wait, G: Gate> Attendant<
    'a,
    O,
    S,
    C,
    R,
    G,
> {
    // Hands in what the client asks for, and waits for the answer to it.
    fn obtain(&mut self, op: Op) -> Result<Reply, ServiceFault>
        ensures added { Adds (attendance_of self.old.ticket self.old.commands.amount) op result
            (attendance_of self.new.ticket self.new.commands.amount) }
    {
        let handed_in = self.hand_in(Act::Do(op))?;
        let reply = self.answer(handed_in)?;
        Ok(reply)
    }
}

impl<'a, O: Object, S: Ledger, C: Ledger, R: Wait, G: Gate> Attendant<'a, O, S, C, R, G> {
    // Hands in the session's next command.
    fn hand_in(&mut self, act: Act<O::Op>) -> Result<HandedIn, ServiceFault>
        ensures ticket { OnOk result (self.new.ticket ≡ with_act self.old.ticket act) }
        ensures counted { OnOk result
            (self.new.commands.amount ≡ self.old.commands.amount + 1) }
        ensures kept { OnErr result (self.new.ticket ≡ self.old.ticket) }
        ensures err { OnErr result
            (self.new.commands.amount ≡ self.old.commands.amount) }
    {
        let Attendant {
            rt,
            shared,
            ticket,
            commands,
            desk,
            ..
        } = self;
        match shared.submit(*rt, commands, ticket, act, desk.node) {
            Ok(handed_in) => Ok(handed_in),
            Err(error) => Err(fault_of(error)),
        }
    }

    // Waits for the answer to it.
    fn answer(&mut self, handed_in: HandedIn) -> Result<O::Reply, ServiceFault>
        ensures noted { IfOk result (λ reply.
            self.new.ticket ≡ with_noted self.old.ticket (Some reply)) }
        ensures stopped { IfErr result (λ fault. (fault ≡ Stopped)
            × ((noted : Option O.Reply) × (self.new.ticket ≡ with_noted self.old.ticket noted))) }
        ensures commands { self.new.commands ≡ self.old.commands }
    {
        let Ok(()) = self
            .shared
            .note_answer(self.rt, &mut self.ticket, self.desk.worker, handed_in)
        else {
            return Err(ServiceFault::Stopped);
        };
        let Some(reply) = self.ticket.noted() else {
            return Err(ServiceFault::Stopped);
        };
        match reply.copy() {
            Ok(reply) => Ok(reply),
            Err(_) => Err(ServiceFault::Stopped),
        }
    }
}

// What the service tells where the hall takes a command no more, or has no memory for it.
fn fault_of(error: HallError) -> ServiceFault
    ensures refused { result ≡ Refused ↔ error ≡ OutOfMemory }
{
    match error {
        HallError::OutOfMemory => ServiceFault::Refused,
        _ => ServiceFault::Stopped,
    }
}
