ghost use Rattle.std.specs.Prelude.{◌≡◌, true, None, IsOk, IfOk, OnOk, OnErr};
ghost use Rattle.ballot.specs.Members.{is_member};
ghost use Rattle.node.specs.Nodes.{new_node};
ghost use Rattle.node.specs.Deeds.{outcome_of};
ghost use Rattle.node.specs.Receiving.{IsFit, SaysNothingNew, Received};
ghost use Rattle.agreement.specs.Voters.{accepts};
ghost use Rattle.world.specs.Kept.{accepts_of, is_performance};

use crate::submissions::{make_room_if, push_in_room};
use ballot::{Ballot, Letter, LetterBody, Members, Pvalue, Slot};
use node::{Deed, Node};
use object::{Command, Object, Value, copies_of};
use std::alloc::{AllocError, Global};
use std::marker::Model;

/// A node, with every pvalue that its acceptor ever accepted beside it, whatever the acceptor keeps.
#[derive(Drop)]
pub(crate) struct Watched<O: Object> {
    pub(crate) node: Node<O>,
    accepted: Vec<Pvalue<Command<O::Op>>>,
}

impl<O: Object> Model for Watched<O> {
    ghost use Rattle.std.specs.Coded.{codes};
    ghost use Rattle.ballot.specs.Slots.{slots_code};
    ghost use Rattle.node.specs.Nodes.{NodeState};
    ghost use Rattle.node.specs.Receiving.{ShowsNode};
    ghost use Rattle.world.specs.Kept.{with_accepted};
    ghost use Rattle.object.specs.declared.command.Command.{Command};

    ghost Value = { NodeState (Command O.Op) };

    ghost coded = { Prim.hlevel (codes, slots_code, O.code, O.Op.code) };

    ghost view = { λ w. with_accepted w.node w.accepted.items };

    ghost invariant = { λ w. ShowsNode w.node (with_accepted w.node w.accepted.items) };
}

impl<O: Object> Watched<O> {
    /// Node `id` of these members, to which nothing happened yet.
    pub(crate) fn new(alloc: Global, members: Members, id: u8) -> Result<Watched<O>, AllocError>
        requires { is_member members id ≡ true }
        ensures { IfOk result (λ node. node ≡ new_node members id) }
    {
        Ok(Watched {
            node: Node::new(alloc, members, id)?,
            accepted: Vec::new(alloc),
        })
    }

    /// The same node once more.
    pub(crate) fn copy(&self) -> Result<Watched<O>, AllocError>
        ensures { IfOk result (λ copy. copy ≡ self.now) }
    {
        Ok(Watched {
            node: self.node.copy()?,
            accepted: copies_of(*self.accepted.allocator(), &self.accepted)?,
        })
    }

    /// Whether it performs a command by this deed.
    pub(crate) fn performs(&self, deed: &Deed<O::Op>) -> bool
        ensures { result ≡ is_performance (outcome_of self.now deed.now) }
    {
        match deed {
            Deed::Perform => self.node.can_perform(),
            _ => false,
        }
    }

    /// Receives a body from a member, and appends what it sends. For want of memory it changes nothing. What says nothing
    /// new takes no memory.
    pub(crate) fn receive(
        &mut self,
        from: u8,
        body: &LetterBody<Command<O::Op>>,
        out: &mut Vec<Letter<Command<O::Op>>>,
    ) -> Result<(), AllocError>
        requires { IsFit self.old body.now }
        ensures ok { OnOk result
            (Received «from» self.old body.now self.new out.old.items out.new.items) }
        ensures idle { SaysNothingNew self.old body.now → IsOk result }
        ensures err { OnErr result ((self.new ≡ self.old) × (out.new.items ≡ out.old.items)) }
    {
        let accepted = self.accepts_of(body)?;
        make_room_if(&mut self.accepted, accepted.is_some())?;
        self.node.receive(from, body, out)?;
        push_in_room(&mut self.accepted, accepted);
        Ok(())
    }

    // A copy of what its acceptor accepts of a letter with this body. To tell that it is nothing takes no memory.
    fn accepts_of(
        &self,
        body: &LetterBody<Command<O::Op>>,
    ) -> Result<Option<Pvalue<Command<O::Op>>>, AllocError>
        ensures accepted { IfOk result (λ accepted. accepted
            ≡ accepts_of self.now.acceptor body.now) }
        ensures idle { accepts_of self.now.acceptor body.now ≡ None → IsOk result }
    {
        match body {
            LetterBody::P2a(pvalue) if self.node.has_promised(pvalue.ballot) => Ok(Some(
                pvalue.copy()?,
            )),
            _ => Ok(None),
        }
    }

    /// All that its acceptor ever accepted.
    pub(crate) fn accepted(&self) -> &[Pvalue<Command<O::Op>>]
        ensures { result.now ≡ self.now.acceptor.accepted }
    {
        self.accepted.as_slice()
    }

    /// Whether its acceptor accepted something under this ballot and slot.
    pub(crate) fn accepts(&self, ballot: Ballot, slot: Slot) -> bool
        ensures { result ≡ accepts ballot slot self.now }
    {
        self.accepted
            .iter()
            .any(|pvalue| pvalue.ballot == ballot && pvalue.slot == slot)
    }
}
