ghost use Rattle.std.specs.Prelude.{◌≡◌, ◌<◌, ◌≤◌, ℕ, length, slice_index_or, None, Some, true, map, IsOk, IfOk, OnOk, OnErr};
ghost use Rattle.object.specs.Results.{Becomes, AddsAtEnd};
ghost use Rattle.object.specs.declared.command.Command.{Command};
ghost use Rattle.ballot.specs.Members.{is_member};
ghost use Rattle.ballot.specs.Rests.{rest_of_body};
ghost use Rattle.ballot.specs.declared.letter.Letter.{Letter};
ghost use Rattle.ballot.specs.declared.letter.LetterBody.{LetterBody};
ghost use Rattle.node.specs.declared.deed.Deed.TheVariants as deeds;
ghost use Rattle.node.specs.Deeds.{IsAble, ComesToNothing};
ghost use Rattle.node.specs.Holding.{Holding, outcome_held};
ghost use Rattle.node.specs.Receiving.{IsFit, ShowsReceived};
ghost use Rattle.network.specs.Networks.{front, has_mail};
ghost use Rattle.lean_network.specs.LeanNetworks.{states, new_lean, lean_node_of, lean_mail_of, lean_turn_of, acted_lean, lean_without_front};
ghost use Rattle.lean_network.specs.LeanNetworks.{lean_with_last, rest_of_holding, forgotten_lean, IsLeanDelivered};
ghost use Rattle.lean_network.specs.Receipts.{receipt_of, receipt_of_rest};

use crate::receipt::Receipt;
use ballot::{Left, Letter, Members, left_of};
use network::mail::Mail;
use network::post;
use network::sorting::sort;
use node::{Deed, LeanNode, Outcome};
use object::{Answer, Command, Object};
use std::alloc::{AllocError, Global};
use std::marker::Model;

// Letters between nodes.
type Letters<O> = Vec<Letter<Command<<O as Object>::Op>>>;

/// The nodes 1, 2, .. of some members, and the mail of each: the letters that were sent to it and that it hasn't received.
/// The nodes can forget slots, and what letters say of such a slot is not received. Each call that takes a number takes
/// that of a member. Want of memory is the only refusal, and changes nothing.
#[derive(Drop)]
pub struct LeanNetwork<O: Object> {
    alloc: Global,
    members: Members,
    nodes: Vec<LeanNode<O>>,
    mails: Vec<Mail<Command<O::Op>>>,
    // Letters that were sent, for which there was no memory in the mails yet.
    fresh: Vec<Letter<Command<O::Op>>>,
}

impl<O: Object> Model for LeanNetwork<O> {
    ghost use Rattle.std.specs.Prelude.{map};
    ghost use Rattle.std.specs.Coded.{codes};
    ghost use Rattle.ballot.specs.Slots.{slots_code};
    ghost use Rattle.object.specs.OnceOnly.{latest_code};
    ghost use Rattle.node.specs.Holding.{Holding};
    ghost use Rattle.network.specs.Networks.{posted};
    ghost use Rattle.network.specs.Posting.{IsNetwork};
    ghost use Rattle.lean_network.specs.LeanNetworks.{LeanState};

    ghost Value = { LeanState O.Op O };

    ghost coded = { Prim.hlevel (codes, slots_code, latest_code, O.code, O.Op.code) };

    ghost view = { λ k. record { members = k.members; nodes = k.nodes.items; mails = posted k.fresh.items k.mails.items } };

    ghost invariant = { λ k. IsNetwork k.members (map (λ (h : Holding O.Op O). h.state) k.nodes.items) k.mails.items k.fresh.items };
}

impl<O: Object> LeanNetwork<O> {
    /// The nodes of these members, to which nothing happened yet.
    pub fn new(alloc: Global, members: Members) -> Result<LeanNetwork<O>, AllocError>
        ensures { IfOk result (λ k. k ≡ new_lean O.rules members) }
    {
        let mut nodes = Vec::new(alloc);
        let mut mails = Vec::new(alloc);
        for before in 0..members.count() {
            nodes.push(LeanNode::new(alloc, members, before + 1)?)?;
            mails.push(Mail::new(alloc))?;
        }
        Ok(LeanNetwork {
            alloc,
            members,
            nodes,
            mails,
            fresh: Vec::new(alloc),
        })
    }

    /// The members.
    pub fn members(&self) -> Members
        ensures { result ≡ self.now.members }
    {
        self.members
    }

    /// A node.
    pub fn node(&self, id: u8) -> &LeanNode<O>
        requires { is_member self.now.members id ≡ true }
        ensures { result.now ≡ lean_node_of O.rules self.now id }
    {
        &self.nodes[usize::from(id - 1)]
    }

    /// Whether a letter is on its way to a node.
    pub fn has_mail(&self, id: u8) -> bool
        requires { is_member self.now.members id ≡ true }
        ensures { result ≡ has_mail (states self.now) id }
    {
        post::has_mail(&self.mails, &self.fresh, id)
    }

    /// A node does this, and appends the answers that its object gives. Where there is nothing to do it can't be refused
    /// memory.
    pub fn act(
        &mut self,
        id: u8,
        deed: Deed<O::Op>,
        answers: &mut Vec<Answer<O::Reply>>,
    ) -> Result<Outcome, AllocError>
        requires member { is_member self.old.members id ≡ true }
        requires able { IsAble (lean_node_of O.rules self.old id).state deed }
        ensures ok { Becomes result self.old self.new (acted_lean O.rules self.old id deed) }
        ensures answers { AddsAtEnd result answers.old answers.new
            (lean_turn_of O.rules self.old id deed).answers }
        ensures outcome { IfOk result (λ outcome. outcome
            ≡ outcome_held (lean_node_of O.rules self.old id) deed) }
        ensures idle { ComesToNothing O.rules (lean_node_of O.rules self.old id).state deed → IsOk result }
    {
        let outcome = self.nodes[usize::from(id - 1)].act(deed, &mut self.fresh, answers)?;
        self.sort_mail();
        Ok(outcome)
    }

    /// A node performs the next decided command, and answers nobody. Where none is known it can't be refused memory.
    pub fn obey(&mut self, id: u8) -> Result<Outcome, AllocError>
        requires { is_member self.old.members id ≡ true }
        ensures ok { Becomes result self.old self.new
            (acted_lean O.rules self.old id deeds.Perform) }
        ensures outcome { IfOk result (λ outcome. outcome
            ≡ outcome_held (lean_node_of O.rules self.old id) deeds.Perform) }
        ensures idle { ComesToNothing O.rules (lean_node_of O.rules self.old id).state deeds.Perform →
            IsOk result }
    {
        let outcome = self.nodes[usize::from(id - 1)].obey()?;
        self.sort_mail();
        Ok(outcome)
    }

    /// A node receives what the letter in front of its mail says of slots from the base on, and only a report that says
    /// more is copied for that. A letter that speaks of an earlier slot alone is dropped.
    pub fn deliver(&mut self, id: u8, base: u64) -> Result<Receipt, AllocError>
        requires member { is_member self.old.members id ≡ true }
        requires fit { (l : Letter (Command O.Op)) (left : LetterBody (Command O.Op))
            → front (lean_mail_of self.old id) ≡ Some l → rest_of_body base l.body ≡ Some left
            → IsFit (lean_node_of O.rules self.old id).state left }
        ensures came { IfOk result (λ came. came ≡ receipt_of base (front (lean_mail_of self.old id))) }
        ensures received { OnOk result ((l : Letter (Command O.Op)) (left : LetterBody (Command O.Op))
            → front (lean_mail_of self.old id) ≡ Some l → rest_of_body base l.body ≡ Some left
            → IsLeanDelivered O.rules self.old id l left self.new) }
        ensures forgotten { OnOk result ((l : Letter (Command O.Op))
            → front (lean_mail_of self.old id) ≡ Some l → rest_of_body base l.body ≡ None
            → self.new ≡ lean_without_front self.old id) }
        ensures none { OnOk result (front (lean_mail_of self.old id) ≡ None → self.new ≡ self.old) }
        ensures idle { front (lean_mail_of self.old id) ≡ None → IsOk result }
        ensures err { OnErr result (self.new ≡ self.old) }
    {
        if !self.has_mail(id) {
            return Ok(Receipt::Nothing);
        }
        sort(self.alloc, &mut self.mails, &mut self.fresh)?;
        let place = usize::from(id - 1);
        let Some(letter) = self.mails[place].front() else {
            return Ok(Receipt::Nothing);
        };
        let receipt = receive_left(&mut self.nodes[place], letter, base, &mut self.fresh)?;
        self.mails[place].drop_front();
        self.sort_mail();
        Ok(receipt)
    }

    /// Copies the letter in front of a node's mail to its back; false where there is none, which takes no memory.
    pub fn repeat(&mut self, id: u8) -> Result<bool, AllocError>
        requires { is_member self.old.members id ≡ true }
        ensures came { IfOk result (λ came. came ≡ has_mail (states self.old) id) }
        ensures ok { OnOk result ((l : Letter (Command O.Op))
            → front (lean_mail_of self.old id) ≡ Some l → self.new ≡ lean_with_last self.old id l) }
        ensures none { OnOk result (front (lean_mail_of self.old id) ≡ None → self.new ≡ self.old) }
        ensures idle { front (lean_mail_of self.old id) ≡ None → IsOk result }
        ensures err { OnErr result (self.new ≡ self.old) }
    {
        post::repeat(self.alloc, &mut self.mails, &mut self.fresh, id)
    }

    /// Drops the letter in front of a node's mail; false where there is none. It takes no memory.
    pub fn lose(&mut self, id: u8) -> bool
        requires { is_member self.old.members id ≡ true }
        ensures lost { result ≡ has_mail (states self.old) id }
        ensures left { self.new ≡ lean_without_front self.old id }
    {
        post::lose(&mut self.mails, &mut self.fresh, id)
    }

    /// Each node forgets the slots below the base, which is at most the slot that its replica performs next. It takes no
    /// memory.
    pub fn forget(&mut self, base: u64)
        requires { (n : ℕ) → is_member self.old.members n ≡ true
            → base ≤ (lean_node_of O.rules self.old n).state.replica.slot_out }
        ensures { self.new ≡ forgotten_lean base self.old }
    {
        forget_each(&mut self.nodes, base);
    }

    // Moves what was sent to the back of its receivers' mail, as far as there is memory.
    fn sort_mail(&mut self)
        ensures { self.new ≡ self.old }
    {
        let _ = sort(self.alloc, &mut self.mails, &mut self.fresh);
    }
}

// A node receives what is left of a letter from the base on, and appends what it sends.
fn receive_left<O: Object>(
    node: &mut LeanNode<O>,
    letter: &Letter<Command<O::Op>>,
    base: u64,
    sent: &mut Letters<O>,
) -> Result<Receipt, AllocError>
    requires { (left : LetterBody (Command O.Op)) → rest_of_body base letter.now.body ≡ Some left
        → IsFit node.old.state left }
    ensures came { IfOk result (λ came. came ≡ receipt_of_rest (rest_of_body base letter.now.body)) }
    ensures received { OnOk result ((left : LetterBody (Command O.Op))
        → rest_of_body base letter.now.body ≡ Some left
        → ShowsReceived letter.now.«from» node.old.state left node.new.state sent.old.items sent.new.items) }
    ensures object { OnOk result (node.new.object ≡ node.old.object) }
    ensures forgotten { OnOk result (rest_of_body base letter.now.body ≡ None
        → (node.new ≡ node.old) × (sent.new.items ≡ sent.old.items)) }
    ensures err { OnErr result ((node.new ≡ node.old) × (sent.new.items ≡ sent.old.items)) }
{
    match left_of(*sent.allocator(), &letter.body, base)? {
        Left::Nothing => Ok(Receipt::Forgotten),
        Left::All => {
            node.receive(letter.from, &letter.body, sent)?;
            Ok(Receipt::Received)
        }
        Left::Part(part) => {
            node.receive(letter.from, &part, sent)?;
            Ok(Receipt::Received)
        }
    }
}

// Each of these forgets the slots below the base.
fn forget_each<O: Object>(nodes: &mut Vec<LeanNode<O>>, base: u64)
    requires { (i : ℕ) (h : Holding O.Op O) → i < length nodes.old.items → h ≡ slice_index_or nodes.old.items i h
        → base ≤ h.state.replica.slot_out }
    ensures { nodes.new.items ≡ map (rest_of_holding base) nodes.old.items }
{
    for place in 0..nodes.len() {
        nodes[place].forget(base);
    }
}
