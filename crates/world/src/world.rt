ghost use Rattle.std.specs.Prelude.{◌≡◌, ◌<◌, length, take, None, Some, IsOk, IfOk, IfErr, OnOk, OnErr};
ghost use Rattle.world.specs.declared.error.WorldError.{WorldError};
ghost use Rattle.world.specs.declared.error.WorldError.TheVariants.{OutOfMemory};
ghost use Rattle.agreement.specs.Worlds.{opening};
ghost use Rattle.agreement.specs.Steps.{Step};
ghost use Rattle.world.specs.Quiet.{BringsNothing};
ghost use Rattle.agreement.specs.Runs.{Leads};
ghost use Rattle.world.specs.Refusals.{refusal, reason_for, IsRefused};
ghost use Rattle.world.specs.Agreed.{HasAgreement, Continues};

mod acting;
mod copying;
mod looking;
mod refusing;

use crate::error::WorldError;
use crate::task::{Task, task_of};
use crate::watched::Watched;
use agreement::Event;
use ballot::{Letter, Members, ballot_laws};
use object::{Answer, Command, Key, Object, Submission, Value};
use std::alloc::{AllocError, Global};
use std::marker::Model;

/// All nodes with all letters that they sent, and what clients and clocks saw.
#[derive(Drop)]
pub struct World<O: Object> {
    pub(crate) alloc: Global,
    pub(crate) members: Members,
    pub(crate) nodes: Vec<Watched<O>>,
    letters: Vec<Letter<Command<O::Op>>>,
    submitted: Vec<Submission<O::Op>>,
    answers: Vec<Answer<O::Reply>>,
    // the keys of the commands of slots 1 to the reach
    pub(crate) performed: Vec<Key>,
    pub(crate) reach: u64,
    taken: u64,
}

impl<O: Object> Model for World<O> {
    ghost use Rattle.std.specs.Coded.{codes};
    ghost use Rattle.ballot.specs.Slots.{slots_code};
    ghost use Rattle.agreement.specs.Worlds.{World};
    ghost use Rattle.world.specs.Kept.{IsNoted};

    ghost Value = { World O.Op O.Reply };

    ghost coded = { Prim.hlevel (codes, slots_code, O.code, O.Op.code, O.Reply.code) };

    ghost view = { λ w. record {
      cluster = record { members = w.members; nodes = w.nodes.items; letters = w.letters.items };
      happenings = record { submitted = w.submitted.items; answers = w.answers.items };
      reach = w.reach;
      taken = w.taken;
    } };

    ghost invariant = { λ w. IsNoted O.rules (record {
      cluster = record { members = w.members; nodes = w.nodes.items; letters = w.letters.items };
      happenings = record { submitted = w.submitted.items; answers = w.answers.items };
      reach = w.reach;
      taken = w.taken;
    }) w.performed.items };
}

impl<O: Object> World<O> {
    /// These members, to whom nothing happened yet.
    pub fn new(alloc: Global, members: Members) -> Result<World<O>, AllocError>
        ensures opening { IfOk result (λ w. w ≡ opening members) }
        ensures agrees { IfOk result (HasAgreement O.rules O.promise) }
    {
        ballot_laws();
        let mut nodes = Vec::new(alloc);
        for before in 0..members.count() {
            nodes.push(Watched::new(alloc, members, before + 1)?)?;
        }
        let world = World {
            alloc,
            members,
            nodes,
            letters: Vec::new(alloc),
            submitted: Vec::new(alloc),
            answers: Vec::new(alloc),
            performed: Vec::new(alloc),
            reach: 0,
            taken: 0,
        };
        world.show_agreement();
        Ok(world)
    }

    /// Takes one event. A refusal changes nothing; of several, the first in this order is told: no such node, no such
    /// letter, bad number, full, out of memory. An event that brings nothing takes no memory.
    pub fn step(&mut self, event: Event<O::Op>) -> Result<(), WorldError>
        ensures ok { OnOk result (Step O.rules self.old event self.new) }
        ensures err { OnErr result (self.new ≡ self.old) }
        ensures refused { (r : WorldError) → refusal O.Op.eq self.old event ≡ Some r → result
            ≡ Err r }
        ensures memory { refusal O.Op.eq self.old event ≡ None →
            IfErr result (λ r. r ≡ OutOfMemory) }
        ensures idle { refusal O.Op.eq self.old event ≡ None →
            BringsNothing O.rules self.old.cluster event → IsOk result }
        ensures agrees { HasAgreement O.rules O.promise self.new }
        ensures continues { Continues self.old self.new }
    {
        let _ = &self.alloc;
        ballot_laws();
        match self.refusal(&event) {
            Some(refused) => {
                self.show_agreement();
                return Err(refused);
            }
            None => {}
        }
        let taken = match task_of(event) {
            Task::Act(id, deed) => self.act(id, deed),
            Task::Deliver(index) => self.deliver(index),
        };
        self.show_agreement();
        taken?;
        Ok(())
    }

    /// Takes these events in turn, up to the first that is refused, and tells its place and the refusal, as `step` would
    /// tell it. Those before it were taken.
    pub fn run(&mut self, events: &[Event<O::Op>]) -> Result<(), (usize, WorldError)>
        ensures ok { OnOk result (Leads O.rules self.old events.now self.new) }
        ensures err { IfErr result (λ e. Leads O.rules self.old (take e.0 events.now) self.new) }
        ensures place { IfErr result (λ e. e.0 < length events.now) }
        ensures refused { IfErr result (λ e. IsRefused O.Op.eq self.new events.now e.0 e.1) }
        ensures agrees { HasAgreement O.rules O.promise self.new }
        ensures continues { Continues self.old self.new }
    {
        let _ = &self.alloc;
        ballot_laws();
        for (index, event) in events.iter().enumerate() {
            if let Err(refused) = self.take_copy(event) {
                self.show_agreement();
                return Err((index, refused));
            }
        }
        self.show_agreement();
        Ok(())
    }

    // Takes an event that stays where it is.
    fn take_copy(&mut self, event: &Event<O::Op>) -> Result<(), WorldError>
        ensures ok { OnOk result (Step O.rules self.old event.now self.new) }
        ensures err { OnErr result (self.new ≡ self.old) }
        ensures refused { IfErr result (λ r. r ≡ reason_for O.Op.eq self.old event.now) }
        ensures continues { Continues self.old self.new }
    {
        let _ = &self.alloc;
        ballot_laws();
        if let Some(refused) = self.refusal(event) {
            return Err(refused);
        }
        let event = event.copy()?;
        self.step(event)
    }

    /// A law: what every world agrees on, whichever events led to it. No ballot and slot has two commands, what is chosen
    /// stays in later ballots, no slot has two chosen commands, and each Decision names one; there is one order, for which
    /// what happened is legal; what the object promises holds of it; and what was performed is answered.
    pub fn show_agreement(&self)
        ensures { HasAgreement O.rules O.promise self.now }
    {
        let _ = &self.alloc;
        ballot_laws();
        O::keeps_promise();
    }

    /// The letters ever sent, in the order sent. They are numbered from 0.
    pub fn letters(&self) -> &[Letter<Command<O::Op>>]
        ensures { result.now ≡ self.now.cluster.letters }
    {
        self.letters.as_slice()
    }

    /// The first submission of each key, in the order in which they came.
    pub fn submitted(&self) -> &[Submission<O::Op>]
        ensures { result.now ≡ self.now.happenings.submitted }
    {
        self.submitted.as_slice()
    }

    /// The answers that replicas gave, in the order in which they came.
    pub fn answers(&self) -> &[Answer<O::Reply>]
        ensures { result.now ≡ self.now.happenings.answers }
    {
        self.answers.as_slice()
    }
}
