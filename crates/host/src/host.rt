ghost use Rattle.std.specs.Prelude.{◌≡◌, ◌<◌, ◌≤◌, ◌↔◌, ◌⊎◌, List, [], Some, true, false, IsOk, IsErrOf, IfOk, IfErr, OnErr};
ghost use Rattle.std.specs.Option.{option_map};
ghost use Rattle.object.specs.Results.{Becomes, AddsAtEnd};
ghost use Rattle.ballot.specs.Members.{is_member};
ghost use Rattle.ballot.specs.Rests.{rest_of_body};
ghost use Rattle.node.specs.Deeds.{ComesToNothing};
ghost use Rattle.node.specs.Holding.{outcome_held};
ghost use Rattle.node.specs.Receiving.{SaysNothingNew};
ghost use Rattle.cluster.specs.Hosts.{host_turn};
ghost use Rattle.host.specs.Counting.{most_host_events};
ghost use Rattle.host.specs.Deeds.{deed_of, is_let_through};
ghost use Rattle.host.specs.Hearing.{ReadsEnvelope};
ghost use Rattle.host.specs.Leading.{destination_of};
ghost use Rattle.host.specs.Outboxes.{sent_on};
ghost use Rattle.host.specs.Receiving.{AsksForVote, IsLeftOut};
ghost use Rattle.object.specs.declared.command.Command.{Command};
ghost use Rattle.ballot.specs.declared.letter.Letter.{Letter};
ghost use Rattle.host.specs.Views.{new_view, acted_view};

mod bases;
mod catching_up;
mod voting;

use crate::destination::Destination;
use crate::envelope::Envelope;
use crate::event_count::EventCount;
use crate::host_deed::HostDeed;
use crate::host_fault::HostFault;
use crate::kept::Account;
use crate::outbox::Outbox;
use crate::receipt::Receipt;
use crate::receiving::{asks_for_vote, is_forgotten, receive_counted};
use ballot::{Letter, Members};
use node::{LeanNode, Outcome};
use object::{Answer, Command, Object};
use std::alloc::{AllocError, Global};
use std::collections::VecDeque;
use std::marker::Model;

// Letters between nodes.
pub(crate) type Letters<O> = Vec<Letter<Command<<O as Object>::Op>>>;

/// One node in a process of its own. It keeps the slots from its base on. What asks it for a vote it puts aside, and
/// receives once its record is kept. What it sends goes under its base. It counts its events, and refuses what would be
/// one too many. A refusal, for that or for want of memory, changes nothing.
#[derive(Drop)]
pub struct Host<O: Object> {
    node: LeanNode<O>,
    number: u8,
    base: u64,
    aside: VecDeque<Envelope<Command<O::Op>>>,
    voted: u64,
    events: EventCount,
}

impl<O: Object> Model for Host<O> {
    ghost use Rattle.std.specs.Coded.{codes};
    ghost use Rattle.object.specs.OnceOnly.{latest_code};
    ghost use Rattle.object.specs.ListLaws.{Each};
    ghost use Rattle.ballot.specs.Slots.{slots_code};
    ghost use Rattle.host.specs.Receiving.{AwaitsVote};
    ghost use Rattle.host.specs.Views.{HostView};

    ghost Value = { HostView O.Op O };

    ghost coded = { Prim.hlevel (codes, slots_code, latest_code, O.code, O.Op.code) };

    ghost view = { λ h. record {
      number = h.number;
      shown = record { base = h.base; holding = h.node };
      aside = h.aside.items;
      voted = h.voted;
      taken = h.events;
    } };

    ghost invariant = { λ h. Each (AwaitsVote h.number h.base) h.aside.items };
}

impl<O: Object> Host<O> {
    /// Node `number` of these members, to which nothing happened yet, and the account for its journal. Who has stored
    /// anything comes back instead.
    pub fn new(
        alloc: Global,
        members: Members,
        number: u8,
    ) -> Result<(Host<O>, Account), AllocError>
        requires { is_member members number ≡ true }
        ensures host { IfOk result (λ both. both.0 ≡ new_view O.rules members number) }
        ensures account { IfOk result (λ both. (both.1.boot ≡ 0) × (both.1.written ≡ 0)
            × (both.1.kept ≡ 0)) }
    {
        let host = Host {
            node: LeanNode::new(alloc, members, number)?,
            number,
            base: 0,
            aside: VecDeque::new(alloc),
            voted: 0,
            events: EventCount::new(),
        };
        Ok((host, Account::new(0)))
    }

    /// The node.
    pub fn node(&self) -> &LeanNode<O>
        ensures { result.now ≡ self.now.shown.holding }
    {
        &self.node
    }

    /// The number of its node.
    pub fn number(&self) -> u8
        ensures { result ≡ self.now.number }
    {
        self.number
    }

    /// The first slot that is kept, under which it sends.
    pub fn base(&self) -> u64
        ensures { result ≡ self.now.shown.base }
    {
        self.base
    }

    /// The slot that its replica performs next.
    pub fn slot_out(&self) -> u64
        ensures { result ≡ self.now.shown.holding.state.replica.slot_out }
    {
        self.node.slots().slot_out()
    }

    /// The node that leads, as far as is known here: that of the ballot which its acceptor promised.
    pub fn leader(&self) -> Option<u8>
        ensures { result
            ≡ option_map (λ b. b.node) self.now.shown.holding.state.acceptor.promised }
    {
        Some(self.node.acceptor().promised()?.node())
    }

    /// Where a command of one of its clients is asked for: here while its node leads, or while nobody does, and else at
    /// the host of the node that leads. That is told by the ballot which its acceptor promised.
    pub fn destination(&self) -> Destination
        ensures { result ≡ destination_of self.now }
    {
        match self.node.acceptor().promised() {
            Some(ballot) if ballot.node() != self.number => Destination::There(ballot.node()),
            _ => Destination::Here,
        }
    }

    /// A place for what it sends while it keeps its base.
    pub fn outbox(&self, alloc: Global) -> Outbox<Command<O::Op>>
        ensures { result ≡ record { base = self.now.shown.base; letters = [] } }
    {
        Outbox::new(alloc, self.base)
    }

    /// How many of the letters that asked for a vote are received.
    pub fn voted(&self) -> u64
        ensures { result ≡ self.now.voted }
    {
        self.voted
    }

    /// How many events there were here: a deed is one, unless the filter knows the command that it asks for, and so is
    /// each letter that is received, also by a vote; a snapshot is two for each slot that it skips.
    pub fn events(&self) -> u64
        ensures count { result ≡ self.now.taken }
        ensures most { result ≤ most_host_events }
    {
        self.events.count()
    }

    /// Does this, where it is no request that the object's filter knows, and appends the letters that it sends and the
    /// answers that it gives.
    pub fn act(
        &mut self,
        deed: HostDeed<O::Op>,
        sent: &mut Outbox<Command<O::Op>>,
        answers: &mut Vec<Answer<O::Reply>>,
    ) -> Result<Outcome, HostFault>
        requires { sent.old.base ≡ self.old.shown.base }
        ensures state { Becomes result self.old self.new
            (acted_view O.rules self.old (deed_of deed)) }
        ensures sent { Becomes result sent.old sent.new
            (sent_on sent.old (host_turn O.rules self.old.shown (deed_of deed)).sent) }
        ensures answers { AddsAtEnd result answers.old answers.new
            (host_turn O.rules self.old.shown (deed_of deed)).answers }
        ensures outcome { IfOk result (λ outcome. outcome
            ≡ outcome_held self.old.shown.holding (deed_of deed)) }
        ensures exhausted { IsErrOf result HostFault.EventsExhausted
            ↔ (self.old.taken ≡ most_host_events)
            × (is_let_through self.old.shown.holding.object (deed_of deed) ≡ true) }
        ensures idle { ComesToNothing O.rules self.old.shown.holding.state (deed_of deed) →
            self.old.taken < most_host_events → IsOk result }
        ensures faults { IfErr result (λ fault.
            (fault ≡ HostFault.OutOfMemory) ⊎ (fault ≡ HostFault.EventsExhausted)) }
        ensures known { is_let_through self.old.shown.holding.object (deed_of deed) ≡ false →
            IsOk result }
    {
        if !self.lets_through(&deed) {
            return Ok(Outcome::Done);
        }
        let events = self.events.plus(1)?;
        let outcome = self.node.act(deed.deed(), &mut sent.letters, answers)?;
        self.events = events;
        Ok(outcome)
    }

    // Whether the object's filter lets the command through that is asked for.
    fn lets_through(&self, deed: &HostDeed<O::Op>) -> bool
        ensures { result ≡ is_let_through self.now.shown.holding.object (deed_of deed.now) }
    {
        match deed {
            HostDeed::Request(command) => self.node.lets_through(command.key()),
            _ => true,
        }
    }

    /// Receives what an envelope says of the slots that are kept, and appends what it sends; but what asks for a vote
    /// is put aside. What is for another node, what it can't read, what speaks of forgotten slots alone, and what
    /// doesn't fit is left out, which takes no memory; nor does what is kept whole and says nothing new.
    pub fn receive(
        &mut self,
        envelope: Envelope<Command<O::Op>>,
        sent: &mut Outbox<Command<O::Op>>,
    ) -> Result<Receipt, HostFault>
        requires { sent.old.base ≡ self.old.shown.base }
        ensures ok { IfOk result (λ receipt.
            ReadsEnvelope receipt self.old envelope self.new sent.old.letters sent.new.letters) }
        ensures exhausted { IsErrOf result HostFault.EventsExhausted →
            self.old.taken ≡ most_host_events }
        ensures faults { IfErr result (λ fault.
            (fault ≡ HostFault.OutOfMemory) ⊎ (fault ≡ HostFault.EventsExhausted)) }
        ensures idle { IsLeftOut self.old.number self.old.shown envelope → IsOk result }
        ensures again { rest_of_body self.old.shown.base envelope.letter.body ≡ Some envelope.letter.body →
            SaysNothingNew self.old.shown.holding.state envelope.letter.body →
            self.old.taken < most_host_events → IsOk result }
        ensures base { sent.new.base ≡ sent.old.base }
        ensures keeps { self.new.shown.base ≡ self.old.shown.base }
        ensures err { OnErr result ((self.new ≡ self.old) × (sent.new ≡ sent.old)) }
    {
        self.hear(envelope, &mut sent.letters)
    }

    // Receives an envelope, or puts it aside, or leaves it out.
    fn hear(
        &mut self,
        envelope: Envelope<Command<O::Op>>,
        sent: &mut Letters<O>,
    ) -> Result<Receipt, HostFault>
        ensures ok { IfOk result (λ receipt.
            ReadsEnvelope receipt self.old envelope self.new sent.old.items sent.new.items) }
        ensures exhausted { IsErrOf result HostFault.EventsExhausted →
            self.old.taken ≡ most_host_events }
        ensures faults { IfErr result (λ fault.
            (fault ≡ HostFault.OutOfMemory) ⊎ (fault ≡ HostFault.EventsExhausted)) }
        ensures idle { IsLeftOut self.old.number self.old.shown envelope → IsOk result }
        ensures again { rest_of_body self.old.shown.base envelope.letter.body ≡ Some envelope.letter.body →
            SaysNothingNew self.old.shown.holding.state envelope.letter.body →
            self.old.taken < most_host_events → IsOk result }
        ensures keeps { self.new.shown.base ≡ self.old.shown.base }
        ensures err { OnErr result ((self.new ≡ self.old) × (sent.new.items ≡ sent.old.items)) }
    {
        let letter = envelope.letter();
        if letter.to != self.number {
            return Ok(Receipt::Astray);
        }
        if asks_for_vote(&letter.body) {
            return self.put_aside(envelope);
        }
        self.receive_now(&envelope, sent)
    }

    // Puts an envelope to it aside that asks for a vote, unless its slot is forgotten.
    fn put_aside(&mut self, envelope: Envelope<Command<O::Op>>) -> Result<Receipt, HostFault>
        requires to { envelope.letter.to ≡ self.old.number }
        requires asks { AsksForVote envelope.letter.body }
        ensures ok { IfOk result (λ receipt. (now : List (Letter (Command O.Op))) →
            ReadsEnvelope receipt self.old envelope self.new now now) }
        ensures faults { IfErr result (λ fault. fault ≡ HostFault.OutOfMemory) }
        ensures idle { IsLeftOut self.old.number self.old.shown envelope → IsOk result }
        ensures keeps { self.new.shown.base ≡ self.old.shown.base }
        ensures err { OnErr result (self.new ≡ self.old) }
    {
        if is_forgotten(&envelope.letter().body, self.base) {
            return Ok(Receipt::Forgotten);
        }
        self.aside.reserve(1)?;
        self.aside.push_back(envelope).unwrap();
        Ok(Receipt::Aside)
    }

    // Receives an envelope to it that doesn't ask for a vote, or leaves it out.
    fn receive_now(
        &mut self,
        envelope: &Envelope<Command<O::Op>>,
        sent: &mut Letters<O>,
    ) -> Result<Receipt, HostFault>
        requires to { envelope.now.letter.to ≡ self.old.number }
        requires at_once { AsksForVote envelope.now.letter.body → ⊥ }
        ensures ok { IfOk result (λ receipt.
            ReadsEnvelope receipt self.old envelope.now self.new sent.old.items sent.new.items) }
        ensures exhausted { IsErrOf result HostFault.EventsExhausted →
            self.old.taken ≡ most_host_events }
        ensures faults { IfErr result (λ fault.
            (fault ≡ HostFault.OutOfMemory) ⊎ (fault ≡ HostFault.EventsExhausted)) }
        ensures idle { IsLeftOut self.old.number self.old.shown envelope.now → IsOk result }
        ensures again { rest_of_body self.old.shown.base envelope.now.letter.body ≡ Some envelope.now.letter.body →
            SaysNothingNew self.old.shown.holding.state envelope.now.letter.body →
            self.old.taken < most_host_events → IsOk result }
        ensures keeps { self.new.shown.base ≡ self.old.shown.base }
        ensures err { OnErr result ((self.new ≡ self.old) × (sent.new.items ≡ sent.old.items)) }
    {
        let (number, base) = (self.number, self.base);
        let (node, events) = (&mut self.node, &mut self.events);
        receive_counted(node, number, envelope, base, events, sent)
    }
}
