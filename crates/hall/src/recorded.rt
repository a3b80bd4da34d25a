ghost use Rattle.std.specs.Prelude.{◌≡◌, ◌<◌, true, Some, None, List, IsOk, IfOk, OnOk, OnErr};
ghost use Rattle.object.specs.declared.command.Answer.{Answer};
ghost use Rattle.object.specs.declared.command.Command.{Command};
ghost use Rattle.object.specs.declared.command.Key.{Key};
ghost use Rattle.object.specs.Lists.{In};
ghost use Rattle.object.specs.Happenings.{is_submitted};
ghost use Rattle.ballot.specs.Members.{is_member};
ghost use Rattle.ballot.specs.declared.letter.Letter.{Letter};
ghost use Rattle.node.specs.Deeds.{outcome_of, IsAble, ComesToNothing};
ghost use Rattle.node.specs.Outcomes.{key_placed};
ghost use Rattle.node.specs.Receiving.{IsFit};
ghost use Rattle.network.specs.Networks.{node_of, mail_of, front, has_mail, turn_of};
ghost use Rattle.agreement.specs.Runs.{most_events};
ghost use Rattle.hall.specs.Recorded.{untouched, asked, done, HasReceived, without_front_letter, repeated};

use ballot::Members;
use network::Network;
use node::{Deed, Outcome};
use object::{Command, Object};
use recorder::Recorder;
use std::alloc::{AllocError, Global};
use std::marker::Model;

/// Nodes with their mail, and what happened there: nodes and record change together, or not at all.
#[derive(Drop)]
pub(crate) struct RecordedNetwork<O: Object> {
    pub(crate) network: Network<O>,
    pub(crate) recorder: Recorder<O::Op, O::Reply>,
    reach: u64,
    pub(crate) taken: u64,
    alloc: Global,
}

impl<O: Object> Model for RecordedNetwork<O> {
    ghost use Rattle.std.specs.Coded.{codes};
    ghost use Rattle.ballot.specs.Slots.{slots_code};
    ghost use Rattle.hall.specs.Recorded.{RecordedState};

    ghost Value = { RecordedState O.Op O.Reply };

    ghost coded = { Prim.hlevel (codes, slots_code, O.code, O.Op.code, O.Reply.code) };

    ghost view = { λ k. record { network = k.network; past = k.recorder; reach = k.reach; taken = k.taken } };
}

impl<O: Object> RecordedNetwork<O> {
    /// These members, before anything happened.
    pub(crate) fn new(alloc: Global, members: Members) -> Result<RecordedNetwork<O>, AllocError>
        ensures { IfOk result (λ k. k ≡ untouched members) }
    {
        Ok(RecordedNetwork {
            network: Network::new(alloc, members)?,
            recorder: Recorder::new(alloc),
            reach: 0,
            taken: 0,
            alloc,
        })
    }

    /// A node is asked for a command, which is submitted unless its key was.
    pub(crate) fn ask(&mut self, node: u8, command: Command<O::Op>) -> Result<(), AllocError>
        requires member { is_member self.old.network.members node ≡ true }
        requires room { self.old.taken < most_events }
        ensures ok { OnOk result (self.new ≡ asked O.rules self.old node command) }
        ensures err { OnErr result (self.new ≡ self.old) }
    {
        let is_new = self.recorder.submit(&command)?;
        let mut none = Vec::new(self.alloc);
        let asked = self.network.act(node, Deed::Request(command), &mut none);
        if asked.is_err() && is_new {
            self.recorder.withdraw();
        }
        asked?;
        self.taken += 1;
        Ok(())
    }

    /// A node does this by itself, and what comes of it is recorded. The commands that it answers, and what it
    /// performs past the reach, were submitted.
    pub(crate) fn act(&mut self, node: u8, deed: Deed<O::Op>) -> Result<Outcome, AllocError>
        requires member { is_member self.old.network.members node ≡ true }
        requires able { IsAble (node_of self.old.network node) deed }
        requires room { self.old.taken < most_events }
        requires answered { (a : Answer O.Reply)
            → In a (turn_of O.rules self.old.network node deed).answers
            → is_submitted a.to self.old.past.happenings.submitted ≡ true }
        requires placed { (key : Key) → key_placed self.old.reach
            (outcome_of (node_of self.old.network node) deed) ≡ Some key
            → is_submitted key self.old.past.happenings.submitted ≡ true }
        ensures ok { OnOk result (self.new ≡ done O.rules self.old node deed) }
        ensures outcome { IfOk result (λ outcome.
            outcome ≡ outcome_of (node_of self.old.network node) deed) }
        ensures err { OnErr result (self.new ≡ self.old) }
        ensures idle { ComesToNothing O.rules (node_of self.old.network node) deed → IsOk result }
    {
        let mut given = Vec::new(self.alloc);
        let outcome = self.network.act(node, deed, &mut given)?;
        self.recorder.answer_all(&mut given);
        if let Some(key) = outcome.key_placed(self.reach) {
            self.recorder.place(key);
        }
        self.reach = outcome.reach_after(self.reach);
        self.taken += 1;
        Ok(outcome)
    }

    /// A node receives the letter in front of its mail; false where there is none, which takes no memory.
    pub(crate) fn deliver(&mut self, node: u8) -> Result<bool, AllocError>
        requires member { is_member self.old.network.members node ≡ true }
        requires room { self.old.taken < most_events }
        requires fit { (l : Letter (Command O.Op))
            → front (mail_of self.old.network node) ≡ Some l
            → IsFit (node_of self.old.network node) l.body }
        ensures came { IfOk result (λ came. came ≡ has_mail self.old.network node) }
        ensures ok { OnOk result ((l : Letter (Command O.Op))
            → front (mail_of self.old.network node) ≡ Some l
            → HasReceived self.old node l self.new) }
        ensures none { OnOk result (front (mail_of self.old.network node) ≡ None
            → self.new ≡ self.old) }
        ensures idle { front (mail_of self.old.network node) ≡ None → IsOk result }
        ensures err { OnErr result (self.new ≡ self.old) }
    {
        let came = self.network.deliver(node)?;
        if came {
            self.taken += 1;
        }
        Ok(came)
    }

    /// Drops the letter in front of a node's mail; false where there is none. It takes no memory.
    pub(crate) fn lose(&mut self, node: u8) -> bool
        requires { is_member self.old.network.members node ≡ true }
        ensures came { result ≡ has_mail self.old.network node }
        ensures left { self.new ≡ without_front_letter self.old node }
    {
        self.network.lose(node)
    }

    /// Copies the letter in front of a node's mail to its back; false where there is none, which takes no memory.
    pub(crate) fn repeat(&mut self, node: u8) -> Result<bool, AllocError>
        requires { is_member self.old.network.members node ≡ true }
        ensures came { IfOk result (λ came. came ≡ has_mail self.old.network node) }
        ensures ok { OnOk result ((l : Letter (Command O.Op))
            → front (mail_of self.old.network node) ≡ Some l → self.new ≡ repeated self.old node l) }
        ensures none { OnOk result (front (mail_of self.old.network node) ≡ None
            → self.new ≡ self.old) }
        ensures idle { front (mail_of self.old.network node) ≡ None → IsOk result }
        ensures err { OnErr result (self.new ≡ self.old) }
    {
        self.network.repeat(node)
    }
}
