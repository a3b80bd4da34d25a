ghost use Rattle.std.specs.Prelude.{◌≡◌, None, Some, true, IsOk, IfOk, OnOk, OnErr};
ghost use Rattle.object.specs.Results.{Becomes, AddsAtEnd};
ghost use Rattle.object.specs.declared.command.Command.{Command};
ghost use Rattle.ballot.specs.Members.{is_member};
ghost use Rattle.ballot.specs.declared.letter.Letter.{Letter};
ghost use Rattle.node.specs.Deeds.{outcome_of, IsAble, ComesToNothing};
ghost use Rattle.node.specs.Receiving.{IsFit};
ghost use Rattle.network.specs.Networks.{new_network, node_of, mail_of, front, has_mail, turn_of, acted_net, without_front, with_last, IsDelivered};

use crate::mail::Mail;
use crate::post;
use crate::sorting::sort;
use ballot::{Letter, Members};
use node::{Deed, Node, Outcome};
use object::{Answer, Command, Object};
use std::alloc::{AllocError, Global};
use std::marker::Model;

/// The nodes 1, 2, .. of some members, and the mail of each: the letters that were sent to it and that it hasn't received.
/// Each call takes the number of a member. Want of memory is the only refusal, and changes nothing.
#[derive(Drop)]
pub struct Network<O: Object> {
    alloc: Global,
    members: Members,
    nodes: Vec<Node<O>>,
    mails: Vec<Mail<Command<O::Op>>>,
    // Letters that were sent, for which there was no memory in the mails yet.
    fresh: Vec<Letter<Command<O::Op>>>,
}

impl<O: Object> Model for Network<O> {
    ghost use Rattle.std.specs.Coded.{codes};
    ghost use Rattle.ballot.specs.Slots.{slots_code};
    ghost use Rattle.object.specs.declared.command.Command.{Command};
    ghost use Rattle.network.specs.Networks.{NetworkState, posted};
    ghost use Rattle.network.specs.Posting.{IsNetwork};

    ghost Value = { NetworkState (Command O.Op) };

    ghost coded = { Prim.hlevel (codes, slots_code, O.code, O.Op.code) };

    ghost view = { λ k. record { members = k.members; nodes = k.nodes.items; mails = posted k.fresh.items k.mails.items } };

    ghost invariant = { λ k. IsNetwork k.members k.nodes.items k.mails.items k.fresh.items };
}

impl<O: Object> Network<O> {
    /// The nodes of these members, to which nothing happened yet.
    pub fn new(alloc: Global, members: Members) -> Result<Network<O>, AllocError>
        ensures { IfOk result (λ k. k ≡ new_network members) }
    {
        let mut nodes = Vec::new(alloc);
        let mut mails = Vec::new(alloc);
        for before in 0..members.count() {
            nodes.push(Node::new(alloc, members, before + 1)?)?;
            mails.push(Mail::new(alloc))?;
        }
        Ok(Network {
            alloc,
            members,
            nodes,
            mails,
            fresh: Vec::new(alloc),
        })
    }

    /// The members.
    pub fn members(&self) -> Members
        ensures { result ≡ self.now.members }
    {
        self.members
    }

    /// A node.
    pub fn node(&self, id: u8) -> &Node<O>
        requires { is_member self.now.members id ≡ true }
        ensures { result.now ≡ node_of self.now id }
    {
        &self.nodes[usize::from(id - 1)]
    }

    /// Whether a letter is on its way to a node.
    pub fn has_mail(&self, id: u8) -> bool
        requires { is_member self.now.members id ≡ true }
        ensures { result ≡ has_mail self.now id }
    {
        post::has_mail(&self.mails, &self.fresh, id)
    }

    /// A node does this, and appends the answers that it gives. Where there is nothing to do it can't be
    /// refused memory.
    pub fn act(
        &mut self,
        id: u8,
        deed: Deed<O::Op>,
        answers: &mut Vec<Answer<O::Reply>>,
    ) -> Result<Outcome, AllocError>
        requires member { is_member self.old.members id ≡ true }
        requires able { IsAble (node_of self.old id) deed }
        ensures ok { Becomes result self.old self.new (acted_net O.rules self.old id deed) }
        ensures answers { AddsAtEnd result answers.old answers.new
            (turn_of O.rules self.old id deed).answers }
        ensures outcome { IfOk result (λ outcome. outcome ≡ outcome_of (node_of self.old id) deed) }
        ensures idle { ComesToNothing O.rules (node_of self.old id) deed → IsOk result }
    {
        let outcome = self.nodes[usize::from(id - 1)].act(deed, &mut self.fresh, answers)?;
        self.sort_mail();
        Ok(outcome)
    }

    /// A node receives the letter in front of its mail; false where there is none, which takes no memory.
    pub fn deliver(&mut self, id: u8) -> Result<bool, AllocError>
        requires member { is_member self.old.members id ≡ true }
        requires fit { (l : Letter (Command O.Op)) → front (mail_of self.old id) ≡ Some l
            → IsFit (node_of self.old id) l.body }
        ensures came { IfOk result (λ came. came ≡ has_mail self.old id) }
        ensures ok { OnOk result ((l : Letter (Command O.Op)) → front (mail_of self.old id) ≡ Some l
            → IsDelivered self.old id l self.new) }
        ensures none { OnOk result (front (mail_of self.old id) ≡ None → self.new ≡ self.old) }
        ensures idle { front (mail_of self.old id) ≡ None → IsOk result }
        ensures err { OnErr result (self.new ≡ self.old) }
    {
        if !self.has_mail(id) {
            return Ok(false);
        }
        sort(self.alloc, &mut self.mails, &mut self.fresh)?;
        let place = usize::from(id - 1);
        let Some(letter) = self.mails[place].front() else {
            return Ok(false);
        };
        self.nodes[place].receive(letter.from, &letter.body, &mut self.fresh)?;
        self.mails[place].drop_front();
        self.sort_mail();
        Ok(true)
    }

    /// Copies the letter in front of a node's mail to its back; false where there is none, which takes no memory.
    pub fn repeat(&mut self, id: u8) -> Result<bool, AllocError>
        requires { is_member self.old.members id ≡ true }
        ensures came { IfOk result (λ came. came ≡ has_mail self.old id) }
        ensures ok { OnOk result ((l : Letter (Command O.Op)) → front (mail_of self.old id) ≡ Some l
            → self.new ≡ with_last self.old id l) }
        ensures none { OnOk result (front (mail_of self.old id) ≡ None → self.new ≡ self.old) }
        ensures idle { front (mail_of self.old id) ≡ None → IsOk result }
        ensures err { OnErr result (self.new ≡ self.old) }
    {
        post::repeat(self.alloc, &mut self.mails, &mut self.fresh, id)
    }

    /// Drops the letter in front of a node's mail; false where there is none. It takes no memory.
    pub fn lose(&mut self, id: u8) -> bool
        requires { is_member self.old.members id ≡ true }
        ensures lost { result ≡ has_mail self.old id }
        ensures left { self.new ≡ without_front self.old id }
    {
        post::lose(&mut self.mails, &mut self.fresh, id)
    }

    // Moves what was sent to the back of its receivers' mail, as far as there is memory.
    fn sort_mail(&mut self)
        ensures { self.new ≡ self.old }
    {
        let _ = sort(self.alloc, &mut self.mails, &mut self.fresh);
    }
}
