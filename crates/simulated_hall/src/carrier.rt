ghost use Rattle.std.specs.Prelude.{◌≡◌, ◌≢◌, ◌⊎◌, ◌+◌, ◌<◌, ◌≤◌, ◌^◌, ◌∷◌, [], ℕ, true, Some, Err, IfOk, OnOk, OnErr};
ghost use Rattle.simulated_hall.specs.declared.unanswered.Unanswered.TheVariants as unanswered;
ghost use Rattle.simulated_hall.specs.declared.driver.Call.TheVariants as calls;
ghost use Rattle.object.specs.declared.command.Command.{Command};
ghost use Rattle.object.specs.Happenings.{is_submitted};
ghost use Rattle.object.specs.Keys.{stands};
ghost use Rattle.recorder.specs.Records.{own_key};
ghost use Rattle.hall.specs.declared.ticket.NotedAct.{NotedAct};
ghost use Rattle.ballot.specs.declared.letter.Letter.{Letter};
ghost use Rattle.node.specs.declared.deed.Deed.TheVariants as deeds;
ghost use Rattle.network.specs.Networks.{mail_of, front};
ghost use Rattle.hall.specs.Recorded.{asked, done, without_front_letter, repeated};
ghost use Rattle.hall.specs.Explained.{IsExplained};
ghost use Rattle.hall.specs.Halls.{new_hall, after_submit, after_tick, with_nodes, reply_to};
ghost use Rattle.hall.specs.Refusals.{is_full};
ghost use Rattle.hall.specs.Tickets.{new_ticket, last_key, last_noted, last_command, next_command, with_act};
ghost use Rattle.simulated_hall.specs.Standing.{SubmitsNothing};
ghost use Rattle.simulated_hall.specs.Stopping.{RefusesAct, most_calls};

use crate::driver::{Call, Driver, HOME, home_is_member};
use crate::unanswered::{Stopped, Unanswered};
use ballot::Members;
use hall::{Hall, HallError, Ticket};
use object::{Act, Key, Object, Value};
use std::alloc::{AllocError, Global};

/// How many calls may be made for one request, with the seconds that it waits.
pub(crate) const MOST_CALLS: u32 = 100_000;

/// A hall with the ticket of one session, and the driver that makes the calls. A call that is refused is made again.
#[derive(Drop)]
pub(crate) struct Carrier<O: Object> {
    hall: Hall<O>,
    ticket: Ticket<O>,
    driver: Driver,
    /// How many calls were made since the last request began.
    calls: u32,
}

impl<O: Object> Carrier<O> {
    /// A new hall and its first session.
    pub fn new(alloc: Global, members: Members, seed: u64) -> Result<Carrier<O>, AllocError>
        ensures hall { IfOk result (λ carrier.
            carrier.hall ≡ record (new_hall members) { book = 0 ∷ [] }) }
        ensures ticket { IfOk result (λ carrier. carrier.ticket ≡ new_ticket 1) }
    {
        let mut hall = Hall::new(alloc, members)?;
        let Ok(ticket) = hall.open_session() else {
            return Err(AllocError);
        };
        Ok(Carrier {
            hall,
            ticket,
            driver: Driver::new(seed),
            calls: 0,
        })
    }

    /// A request begins: its calls are counted from here.
    pub fn begin(&mut self)
        ensures calls { self.new.calls ≡ 0 }
        ensures hall { self.new.hall ≡ self.old.hall }
        ensures ticket { self.new.ticket ≡ self.old.ticket }
    {
        self.calls = 0;
    }

    /// Hands in the session's next command.
    pub fn submit(&mut self, act: Act<O::Op>) -> Result<(), Unanswered>
        ensures ok { OnOk result (self.new.hall
            ≡ after_submit O.rules self.old.hall 1 (next_command self.old.ticket act)) }
        ensures ticket { OnOk result (self.new.ticket ≡ with_act self.old.ticket act) }
        ensures err { OnErr result (self.new.hall ≡ self.old.hall) }
        ensures kept { OnErr result (self.new.ticket ≡ self.old.ticket) }
        ensures counted { OnOk result (self.new.calls ≡ self.old.calls + 1) }
        ensures refused { result ≡ Err unanswered.Refused →
            self.new.calls ≡ self.old.calls + 1 }
        ensures stopped { result ≡ Err unanswered.Stopped → most_calls ≤ self.new.calls
            ⊎ RefusesAct O.Op.eq self.old.hall self.old.ticket act }
        ensures turned_down { RefusesAct O.Op.eq self.old.hall self.old.ticket act →
            result ≡ Err unanswered.Stopped }
        ensures once { self.old.calls < most_calls → self.new.calls ≡ self.old.calls + 1 }
        ensures rises { self.old.calls ≤ self.new.calls }
    {
        self.count()?;
        match self.hall.submit(&mut self.ticket, act, HOME) {
            Ok(()) => Ok(()),
            Err(HallError::OutOfMemory) => Err(Unanswered::Refused),
            Err(_) => Err(Unanswered::Stopped),
        }
    }

    /// Hands in a second of the clock.
    pub fn tick(&mut self, second: u64) -> Result<(), Stopped>
        requires some { 1 ≤ second }
        requires known { second ≤ 2 ^ 40 }
        ensures ok { OnOk result (self.new.hall ≡ after_tick O.rules self.old.hall 1 second) }
        ensures ticket { self.new.ticket ≡ self.old.ticket }
        ensures stopped { OnErr result (most_calls ≤ self.new.calls ⊎ (is_full self.new.hall ≡ true)) }
        ensures rises { self.old.calls ≤ self.new.calls }
    {
        home_is_member(self.hall.members());
        for _ in 0..MOST_CALLS {
            self.count()?;
            match self.hall.tick(second, HOME) {
                Ok(()) => return Ok(()),
                Err(HallError::OutOfMemory) => {}
                Err(_) => return Err(Stopped),
            }
        }
        Err(Stopped)
    }

    /// The key of the session's last command.
    pub fn last_key(&self) -> Key
        ensures { result ≡ last_key self.now.ticket }
    {
        self.ticket.last_key()
    }

    /// Makes calls until the command of the key has taken effect, which was handed in before.
    pub fn place(&mut self, key: Key) -> Result<(), Stopped>
        requires { is_submitted key self.old.hall.nodes.past.happenings.submitted ≡ true }
        ensures placed { OnOk result (stands own_key key self.new.hall.nodes.past.order ≡ true) }
        ensures nothing { SubmitsNothing self.old.hall.nodes.past self.new.hall.nodes.past }
        ensures ticket { self.new.ticket ≡ self.old.ticket }
        ensures stopped { OnErr result (most_calls ≤ self.new.calls) }
        ensures rises { self.old.calls ≤ self.new.calls }
    {
        self.driver.begin(self.hall.members(), key.session != 0);
        let mut refused = None;
        for count in 0..MOST_CALLS {
            self.count()?;
            let call = match refused {
                Some(call) => call,
                None => self.driver.next(&self.hall, count),
            };
            refused = match self.make(call, key) {
                Ok(()) => None,
                Err(_) => Some(call),
            };
            if self.hall.placed(key) {
                return Ok(());
            }
        }
        Err(Stopped)
    }

    /// The reply to the session's last command, where it has one.
    pub fn reply(&mut self) -> Result<Option<O::Reply>, Stopped>
        ensures reply { IfOk result (λ reply.
            reply ≡ reply_to self.old.hall (last_key self.old.ticket)) }
        ensures legal { OnOk result (IsExplained O.rules O.promise self.old.hall.nodes.past) }
        ensures hall { self.new.hall ≡ self.old.hall }
        ensures ticket { self.new.ticket ≡ self.old.ticket }
        ensures stopped { OnErr result (most_calls ≤ self.new.calls) }
        ensures rises { self.old.calls ≤ self.new.calls }
    {
        for _ in 0..MOST_CALLS {
            self.count()?;
            let Some(reply) = self.hall.take_answer(&self.ticket) else {
                return Ok(None);
            };
            if let Ok(reply) = reply.copy() {
                return Ok(Some(reply));
            }
        }
        Err(Stopped)
    }
}

impl<O: Object> Carrier<O> {
    // One call more, where one is left.
    fn count(&mut self) -> Result<(), Stopped>
        ensures left { OnOk result (self.old.calls < most_calls) }
        ensures ok { OnOk result (self.new.calls ≡ self.old.calls + 1) }
        ensures stopped { OnErr result (most_calls ≤ self.old.calls) }
        ensures err { OnErr result (self.new.calls ≡ self.old.calls) }
        ensures hall { self.new.hall ≡ self.old.hall }
        ensures ticket { self.new.ticket ≡ self.old.ticket }
    {
        if self.calls >= MOST_CALLS {
            return Err(Stopped);
        }
        self.calls += 1;
        Ok(())
    }

    // Makes the call, while the command of the key is carried.
    fn make(&mut self, call: Call, key: Key) -> Result<(), HallError>
        requires { is_submitted key self.old.hall.nodes.past.happenings.submitted ≡ true }
        ensures lost { OnOk result ((node : ℕ) → call ≡ calls.Lose node → self.new.hall
            ≡ with_nodes self.old.hall (without_front_letter self.old.hall.nodes node)) }
        ensures repeated { OnOk result ((node : ℕ) (l : Letter (Command O.Op)) → call ≡ calls.Repeat node
            → front (mail_of self.old.hall.nodes.network node) ≡ Some l → self.new.hall
            ≡ with_nodes self.old.hall (repeated self.old.hall.nodes node l)) }
        ensures restarted { OnOk result ((node : ℕ) → call ≡ calls.Restart node → self.new.hall
            ≡ with_nodes self.old.hall (done O.rules self.old.hall.nodes node deeds.Restart)) }
        ensures nothing { SubmitsNothing self.old.hall.nodes.past self.new.hall.nodes.past }
        ensures ticket { self.new.ticket ≡ self.old.ticket }
        ensures calls { self.new.calls ≡ self.old.calls }
    {
        match call {
            Call::Deliver(node) => {
                self.hall.deliver(node)?;
            }
            Call::Lose(node) => {
                self.hall.lose(node)?;
            }
            Call::Repeat(node) => {
                self.hall.repeat(node)?;
            }
            Call::Wake(node) => self.hall.wake(node)?,
            Call::Nudge(node) => self.hall.nudge(node)?,
            Call::Propose(node) => {
                self.hall.propose(node)?;
            }
            Call::Perform(node) => {
                self.hall.perform(node)?;
            }
            Call::Restart(node) => self.hall.restart(node)?,
            Call::HandInAgain => self.hand_in_again(key)?,
        }
        Ok(())
    }

    // Hands the command of the key in again: a second of the clock, or the session's last command.
    fn hand_in_again(&mut self, key: Key) -> Result<(), HallError>
        requires { is_submitted key self.old.hall.nodes.past.happenings.submitted ≡ true }
        ensures second { key.session ≡ 0 → OnOk result
            (self.new.hall ≡ after_tick O.rules self.old.hall 1 key.number) }
        ensures command { key.session ≢ 0 → OnOk result ((noted : NotedAct O.Op O.Reply) →
            last_noted self.old.ticket ≡ Some noted → self.new.hall
            ≡ with_nodes self.old.hall (asked O.rules self.old.hall.nodes 1
            (last_command self.old.ticket noted.act))) }
        ensures nothing { SubmitsNothing self.old.hall.nodes.past self.new.hall.nodes.past }
        ensures ticket { self.new.ticket ≡ self.old.ticket }
        ensures calls { self.new.calls ≡ self.old.calls }
    {
        if key.session == 0 {
            self.hall.tick(key.number, HOME)
        } else {
            self.hall.resubmit(&self.ticket, HOME)
        }
    }
}
