ghost use Rattle.std.specs.Prelude.{◌≡◌, ◌⊎◌, ◌+◌, ◌<◌, ◌≤◌, Some, Err, IfOk, IfErr, OnOk, OnErr};
ghost use Rattle.object.specs.declared.command.Act.TheVariants.{Do, Close};
ghost use Rattle.simulated_hall.specs.declared.unanswered.Unanswered.TheVariants as unanswered;
ghost use Rattle.simulated_hall.specs.OneClient.{Talk, opened, next_obeyed, passed, answered, left};
ghost use Rattle.hall.specs.Tickets.{last_key, with_act};
ghost use Rattle.simulated_hall.specs.Standing.{StandsFor, IsSaid, IsUnanswered};
ghost use Rattle.simulated_hall.specs.Stopping.{HasNoCallLeft, HasNoSecondLeft, IsNotLetGo, IsStopped, RefusesAct, most_calls};

use crate::carrier::{Carrier, MOST_CALLS};
use crate::unanswered::{Stopped, Unanswered};
use ballot::Members;
use hall::LAST_SECOND;
use object::{Act, Key, Object};
use std::alloc::{AllocError, Global};
use std::marker::Model;

/// How many seconds a client waits for a reply.
const LONGEST_WAIT: u32 = 3_600;

/// A hall whose nodes are simulated, and the one client that it serves.
///
/// The seed draws what happens between the nodes. A call of the hall that is refused is made again.
#[derive(Drop)]
pub struct SimulatedHall<O: Object> {
    carrier: Carrier<O>,
    /// The second that it is.
    second: u64,
}

impl<O: Object> Model for SimulatedHall<O> {
    ghost use Rattle.std.specs.Coded.{codes};
    ghost use Rattle.ballot.specs.Slots.{slots_code};
    ghost use Rattle.simulated_hall.specs.Standing.{SimulatedState};

    ghost Value = { SimulatedState O.Op O.Reply };

    ghost coded = { Prim.hlevel (codes, slots_code, O.code, O.Op.code, O.Reply.code) };

    ghost view = { λ s. record { hall = s.carrier.hall; ticket = s.carrier.ticket; second = s.second; calls = s.carrier.calls } };
}

impl<O: Object> SimulatedHall<O> {
    /// A new hall of these members, at second 0.
    pub fn new(alloc: Global, members: Members, seed: u64) -> Result<SimulatedHall<O>, AllocError>
        ensures stands { IfOk result (λ s. StandsFor O.rules s (opened O.rules)) }
        ensures members { IfOk result (λ s. s.hall.nodes.network.members ≡ members) }
    {
        Ok(SimulatedHall {
            carrier: Carrier::new(alloc, members, seed)?,
            second: 0,
        })
    }

    /// What one object replies to the next request. Where it has no reply yet, seconds pass, 3,600 at most. A refused
    /// request takes no place: it is as if it had not been asked. Its calls are counted from 0; a hall that refuses it, and
    /// not for want of memory, is asked once.
    pub fn ask(&mut self, op: O::Op) -> Result<O::Reply, Unanswered>
        ensures reply { IfOk result (λ reply. (t : Talk O) → StandsFor O.rules self.old t
            → (answered O.rules t op).reply ≡ Some reply) }
        ensures stands { OnOk result ((t : Talk O) → StandsFor O.rules self.old t
            → StandsFor O.rules self.new (answered O.rules t op).talk) }
        ensures refused { result ≡ Err unanswered.Refused →
            self.new ≡ record self.old { calls = 1 } }
        ensures kept { result ≡ Err unanswered.Refused → (t : Talk O)
            → StandsFor O.rules self.old t → StandsFor O.rules self.new t }
        ensures stopped { result ≡ Err unanswered.Stopped →
            IsStopped O.rules O.Op.eq self.old self.new op }
        ensures turned_down { RefusesAct O.Op.eq self.old.hall self.old.ticket (Do op) →
            result ≡ Err unanswered.Stopped }
        ensures once { RefusesAct O.Op.eq self.old.hall self.old.ticket (Do op) →
            self.new ≡ record self.old { calls = 1 } }
    {
        self.carrier.begin();
        let mut reply = self.request(Act::Do(op))?;
        for _ in 0..LONGEST_WAIT {
            if let Some(reply) = reply {
                return Ok(reply);
            }
            reply = self.pass_second()?;
        }
        match reply {
            Some(reply) => Ok(reply),
            None => Err(Unanswered::Stopped),
        }
    }

    /// The client leaves. That is never refused, but a hall that doesn't let it, and not for want of memory, is asked once.
    pub fn close(&mut self) -> Result<(), Unanswered>
        ensures stands { OnOk result ((t : Talk O) → StandsFor O.rules self.old t
            → StandsFor O.rules self.new (left O.rules t)) }
        ensures never_refused { IfErr result (λ e. e ≡ unanswered.Stopped) }
        ensures stopped { OnErr result (IsNotLetGo O.Op.eq self.old self.new) }
        ensures turned_down { RefusesAct O.Op.eq self.old.hall self.old.ticket Close →
            result ≡ Err unanswered.Stopped }
        ensures once { RefusesAct O.Op.eq self.old.hall self.old.ticket Close →
            self.new ≡ record self.old { calls = 1 } }
    {
        self.carrier.begin();
        for _ in 0..MOST_CALLS {
            match self.request(Act::Close) {
                Ok(_) => return Ok(()),
                Err(Unanswered::Refused) => {}
                Err(Unanswered::Stopped) => return Err(Unanswered::Stopped),
            }
        }
        Err(Unanswered::Stopped)
    }
}

impl<O: Object> SimulatedHall<O> {
    // Carries the next request.
    fn request(&mut self, act: Act<O::Op>) -> Result<Option<O::Reply>, Unanswered>
        ensures said { IfOk result (λ reply. (t : Talk O) → StandsFor O.rules self.old t
            → IsSaid O.rules self.new (next_obeyed O.rules t act) reply) }
        ensures ticket { OnOk result (self.new.ticket ≡ with_act self.old.ticket act) }
        ensures second { OnOk result (self.new.second ≡ self.old.second) }
        ensures refused { result ≡ Err unanswered.Refused →
            self.new ≡ record self.old { calls = self.old.calls + 1 } }
        ensures stopped { result ≡ Err unanswered.Stopped → HasNoCallLeft self.new
            ⊎ RefusesAct O.Op.eq self.old.hall self.old.ticket act }
        ensures turned_down { RefusesAct O.Op.eq self.old.hall self.old.ticket act →
            result ≡ Err unanswered.Stopped }
        ensures once { RefusesAct O.Op.eq self.old.hall self.old.ticket act →
            self.old.calls < most_calls → self.new ≡ record self.old { calls = self.old.calls + 1 } }
        ensures rises { self.old.calls ≤ self.new.calls }
    {
        self.carrier.submit(act)?;
        let key = self.carrier.last_key();
        self.carrier.place(key)?;
        Ok(self.carrier.reply()?)
    }

    // Lets a second pass, while the last request waits.
    fn pass_second(&mut self) -> Result<Option<O::Reply>, Stopped>
        ensures said { IfOk result (λ reply. (t : Talk O) → StandsFor O.rules self.old t
            → IsUnanswered O.rules self.old
            → IsSaid O.rules self.new (passed O.rules (last_key self.old.ticket) t) reply) }
        ensures ticket { self.new.ticket ≡ self.old.ticket }
        ensures second { OnOk result (self.new.second ≡ self.old.second + 1) }
        ensures not_passed { OnErr result (self.new.second ≡ self.old.second) }
        ensures stopped { OnErr result (HasNoCallLeft self.new ⊎ HasNoSecondLeft self.new) }
        ensures rises { self.old.calls ≤ self.new.calls }
    {
        if self.second >= LAST_SECOND {
            return Err(Stopped);
        }
        let second = self.second + 1;
        self.carrier.tick(second)?;
        self.carrier.place(Key {
            session: 0,
            number: second,
        })?;
        let reply = self.carrier.reply()?;
        self.second = second;
        Ok(reply)
    }
}
