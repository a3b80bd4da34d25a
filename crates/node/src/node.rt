ghost use Rattle.std.specs.Prelude.{◌≡◌, true, length, is_some, IsOk, IfOk, OnOk, OnErr};
ghost use Rattle.std.specs.FinMap as map;
ghost use Rattle.object.specs.Results.{Becomes, AddsAtEnd};
ghost use Rattle.ballot.specs.Ballots.{is_promise};
ghost use Rattle.ballot.specs.Members.{is_member};
ghost use Rattle.leader.specs.Leaders.{says_again};
ghost use Rattle.slot_log.specs.Proposals.{next_proposal};
ghost use Rattle.slot_log.specs.Decisions.{next_decided, undecided};
ghost use Rattle.node.specs.Nodes.{members_of, number_of, new_node};
ghost use Rattle.node.specs.Deeds.{own_turn, outcome_of, IsAble, ComesToNothing};
ghost use Rattle.node.specs.Receiving.{IsFit, SaysNothingNew, ShowsReceived};

use crate::deed::{Deed, Outcome};
use crate::lean_node::{LeanNode, Letters};
use ballot::{Ballot, LetterBody, Members, Slot, ballot_laws};
use object::{Answer, Command, Object, filter_remembers};
use slot_log::SlotLog;
use std::alloc::{AllocError, Global};
use std::marker::Model;

/// A node that forgets nothing: its object has obeyed all that its replica knows to be performed. So what it answers can
/// be told from its slots alone.
#[derive(Drop)]
pub struct Node<O: Object> {
    lean: LeanNode<O>,
}

impl<O: Object> Model for Node<O> {
    ghost use Rattle.std.specs.Coded.{codes};
    ghost use Rattle.object.specs.OnceOnly.{latest_code};
    ghost use Rattle.ballot.specs.Slots.{slots_code};
    ghost use Rattle.node.specs.Nodes.{NodeState};
    ghost use Rattle.node.specs.Kept.{ObeysBook};
    ghost use Rattle.object.specs.declared.command.Command.{Command};

    ghost Value = { NodeState (Command O.Op) };

    ghost coded = { Prim.hlevel (codes, slots_code, latest_code, O.code, O.Op.code) };

    ghost view = { λ n. n.lean.state };

    ghost invariant = { λ n. ObeysBook O.rules n.lean.object n.lean.state.replica };
}

impl<O: Object> Node<O> {
    /// Node `number` of these members, to which nothing happened yet.
    pub fn new(alloc: Global, members: Members, number: u8) -> Result<Node<O>, AllocError>
        requires { is_member members number ≡ true }
        ensures { IfOk result (λ node. node ≡ new_node members number) }
    {
        Ok(Node {
            lean: LeanNode::new(alloc, members, number)?,
        })
    }

    /// The same node once more. Its object obeys again what its replica performed.
    pub fn copy(&self) -> Result<Node<O>, AllocError>
        ensures { IfOk result (λ copy. copy ≡ self.now) }
    {
        Ok(Node {
            lean: self.lean.copy_obeying()?,
        })
    }

    /// The members that it knows.
    pub fn members(&self) -> Members
        ensures members { result ≡ members_of self.now }
        ensures own { is_member result (number_of self.now) ≡ true }
    {
        self.lean.members()
    }

    /// Its own number among them.
    pub fn number(&self) -> u8
        ensures { result ≡ number_of self.now }
    {
        self.lean.number()
    }

    /// Whether its leader is active.
    pub fn is_active(&self) -> bool
        ensures { result ≡ self.now.leader.active }
    {
        self.lean.is_active()
    }

    /// How many things its leader waits for.
    pub fn awaited_count(&self) -> usize
        ensures { result ≡ length (says_again self.now.leader) }
    {
        self.lean.awaited_count()
    }

    /// Whether its leader has a proposal for the slot.
    pub fn has_proposal(&self, slot: Slot) -> bool
        ensures { result ≡ map.contains_key self.now.leader.proposals slot }
    {
        self.lean.has_proposal(slot)
    }

    /// The slots of its replica.
    pub fn slots(&self) -> &SlotLog<Command<O::Op>>
        ensures { result.now ≡ self.now.replica }
    {
        self.lean.slots()
    }

    /// The least slot that its replica proposed a command for without a known decision. It takes no memory.
    pub fn undecided(&self) -> Option<Slot>
        ensures { result ≡ undecided self.now.replica }
    {
        self.lean.undecided()
    }

    /// Whether its replica has a request that it can propose. It takes no memory.
    pub fn can_propose(&self) -> bool
        ensures { result ≡ is_some (next_proposal self.now.replica) }
    {
        self.lean.can_propose()
    }

    /// Whether its replica knows the decision that it performs next. It takes no memory.
    pub fn can_perform(&self) -> bool
        ensures { result ≡ is_some (next_decided self.now.replica) }
    {
        self.lean.can_perform()
    }

    /// Whether its acceptor has promised this ballot, and no higher one.
    pub fn has_promised(&self, ballot: Ballot) -> bool
        ensures { result ≡ is_promise self.now.acceptor.promised ballot }
    {
        self.lean.has_promised(ballot)
    }

    /// Does this, and appends the letters that it sends and the answers that it gives. For want of memory it changes
    /// nothing. Where there is nothing to do it takes no memory.
    pub fn act(
        &mut self,
        deed: Deed<O::Op>,
        sent: &mut Letters<O>,
        answers: &mut Vec<Answer<O::Reply>>,
    ) -> Result<Outcome, AllocError>
        requires { IsAble self.old deed }
        ensures state { Becomes result self.old self.new (own_turn O.rules self.old deed).state }
        ensures sent { AddsAtEnd result sent.old sent.new (own_turn O.rules self.old deed).sent }
        ensures answers { AddsAtEnd result answers.old answers.new
            (own_turn O.rules self.old deed).answers }
        ensures outcome { IfOk result (λ outcome. outcome ≡ outcome_of self.old deed) }
        ensures idle { ComesToNothing O.rules self.old deed → IsOk result }
    {
        filter_remembers::<O::Op>();
        self.lean.act(deed, sent, answers)
    }

    /// Receives a body from a member, and appends what it sends. What it keeps of the body it copies. For want of memory
    /// it changes nothing. What says nothing new takes no memory.
    pub fn receive(
        &mut self,
        from: u8,
        body: &LetterBody<Command<O::Op>>,
        out: &mut Letters<O>,
    ) -> Result<(), AllocError>
        requires { IsFit self.old body.now }
        ensures ok { OnOk result
            (ShowsReceived «from» self.old body.now self.new out.old.items out.new.items) }
        ensures idle { SaysNothingNew self.old body.now → IsOk result }
        ensures err { OnErr result ((self.new ≡ self.old) × (out.new.items ≡ out.old.items)) }
    {
        ballot_laws();
        self.lean.receive(from, body, out)
    }
}
