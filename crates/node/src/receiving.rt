ghost use Rattle.std.specs.Prelude.{◌≡◌, ◌<◌, ◌^◌, true, map, IsOk, IfOk, OnOk, OnErr, None, Some};
ghost use Rattle.std.specs.FinMap as slots;
ghost use Rattle.object.specs.Results.{Becomes, AddsAtEnd};
ghost use Rattle.object.specs.declared.command.Command.{Command};
ghost use Rattle.ballot.specs.Ballots.{Numbers};
ghost use Rattle.ballot.specs.Letters.{letter};
ghost use Rattle.ballot.specs.declared.letter.LetterBody.TheVariants.{P1a, P1b, P2a, P2b, Propose, Decision, Ask};
ghost use Rattle.acceptor.specs.Acceptors.{Keeps, after_p2a};
ghost use Rattle.leader.specs.Leaders.{letters_of, on_propose};
ghost use Rattle.leader.specs.Promises.{HearsP1b};
ghost use Rattle.leader.specs.Votes as votes;
ghost use Rattle.slot_log.specs.Decisions.{learnt};
ghost use Rattle.node.specs.Receiving.{IsFit, SaysNothingNew, ShowsReceived};

use crate::lean_node::{LeanNode, Letters};
use acceptor::Acceptor;
use ballot::{Ballot, Letter, LetterBody, Pvalue, Pvalues, Slot, ballot_laws};
use leader::{Leader, LeaderError};
use object::{Command, Object, Value};
use replica::Replica;
use slot_log::LearnError;
use std::alloc::AllocError;

impl<O: Object> LeanNode<O> {
    /// Receives a body from a member, and appends what it sends. What it keeps of the body it copies. For want of memory
    /// it changes nothing. What says nothing new takes no memory.
    pub fn receive(
        &mut self,
        from: u8,
        body: &LetterBody<Command<O::Op>>,
        out: &mut Letters<O>,
    ) -> Result<(), AllocError>
        requires { IsFit self.old.state body.now }
        ensures ok { OnOk result
            (ShowsReceived «from» self.old.state body.now self.new.state out.old.items out.new.items) }
        ensures object { OnOk result (self.new.object ≡ self.old.object) }
        ensures idle { SaysNothingNew self.old.state body.now → IsOk result }
        ensures err { OnErr result ((self.new ≡ self.old) × (out.new.items ≡ out.old.items)) }
    {
        match body {
            LetterBody::P1a(ballot) => self.on_p1a(from, *ballot, out),
            LetterBody::P2a(pvalue) => self.on_p2a(from, pvalue, out),
            LetterBody::P1b(ballot, report) => self.on_p1b(from, *ballot, report, out),
            LetterBody::P2b {
                ballot,
                slot,
                asked,
            } => self.on_p2b(from, *ballot, *slot, *asked, out),
            LetterBody::Propose(slot, command) => self.on_propose(from, *slot, command, out),
            LetterBody::Decision(slot, command) => self.on_decision(from, *slot, command, out),
            LetterBody::Ask(slot) => self.on_ask(from, *slot, out),
        }
    }

    // A leader asks for a promise.
    fn on_p1a(&mut self, from: u8, ballot: Ballot, out: &mut Letters<O>) -> Result<(), AllocError>
        ensures ok { OnOk result
            (ShowsReceived «from» self.old.state (P1a ballot) self.new.state out.old.items out.new.items) }
        ensures object { OnOk result (self.new.object ≡ self.old.object) }
        ensures err { OnErr result ((self.new ≡ self.old) × (out.new.items ≡ out.old.items)) }
    {
        ballot_laws();
        out.reserve(1)?;
        let number = self.leader.node();
        let (promised, report) = self.acceptor.on_p1a(ballot)?;
        out.push(Letter {
            from: number,
            to: from,
            body: LetterBody::P1b(promised, Pvalues::from_vec(report)),
        })?;
        Ok(())
    }

    // A leader asks to accept a pvalue.
    fn on_p2a(
        &mut self,
        from: u8,
        pvalue: &Pvalue<Command<O::Op>>,
        out: &mut Letters<O>,
    ) -> Result<(), AllocError>
        ensures ok { OnOk result
            (ShowsReceived «from» self.old.state (P2a pvalue.now) self.new.state out.old.items out.new.items) }
        ensures object { OnOk result (self.new.object ≡ self.old.object) }
        ensures err { OnErr result ((self.new ≡ self.old) × (out.new.items ≡ out.old.items)) }
    {
        ballot_laws();
        out.reserve(1)?;
        let number = self.leader.node();
        let ballot = vote(&mut self.acceptor, pvalue)?;
        out.push(Letter {
            from: number,
            to: from,
            body: LetterBody::P2b {
                ballot,
                slot: pvalue.slot,
                asked: pvalue.ballot,
            },
        })?;
        Ok(())
    }

    // An acceptor has promised a ballot.
    fn on_p1b(
        &mut self,
        from: u8,
        ballot: Ballot,
        report: &Pvalues<Command<O::Op>>,
        out: &mut Letters<O>,
    ) -> Result<(), AllocError>
        requires not_last { ballot.round < 2 ^ 62 }
        ensures ok { OnOk result
            (ShowsReceived «from» self.old.state
            (P1b ballot report.now) self.new.state out.old.items out.new.items) }
        ensures object { OnOk result (self.new.object ≡ self.old.object) }
        ensures idle { self.old.state.leader.scout ≡ None → IsOk result }
        ensures err { OnErr result ((self.new ≡ self.old) × (out.new.items ≡ out.old.items)) }
    {
        hear_promise(&mut self.leader, from, ballot, report.as_slice(), out)?;
        Ok(())
    }

    // An acceptor votes.
    fn on_p2b(
        &mut self,
        from: u8,
        ballot: Option<Ballot>,
        slot: Slot,
        asked: Ballot,
        out: &mut Letters<O>,
    ) -> Result<(), AllocError>
        requires not_last { (b : Numbers) → ballot ≡ Some b → b.round < 2 ^ 62 }
        ensures ok { OnOk result
            (ShowsReceived «from» self.old.state
            (P2b ballot slot asked) self.new.state out.old.items out.new.items) }
        ensures object { OnOk result (self.new.object ≡ self.old.object) }
        ensures idle { slots.get self.old.state.leader.commanders slot ≡ None → IsOk result }
        ensures err { OnErr result ((self.new ≡ self.old) × (out.new.items ≡ out.old.items)) }
    {
        hear_vote(&mut self.leader, from, ballot, slot, asked, out)?;
        Ok(())
    }

    // A replica proposes a command.
    fn on_propose(
        &mut self,
        from: u8,
        slot: Slot,
        command: &Command<O::Op>,
        out: &mut Letters<O>,
    ) -> Result<(), AllocError>
        ensures ok { OnOk result
            (ShowsReceived «from» self.old.state
            (Propose slot command.now) self.new.state out.old.items out.new.items) }
        ensures object { OnOk result (self.new.object ≡ self.old.object) }
        ensures idle { slots.contains_key self.old.state.leader.proposals slot ≡ true → IsOk result }
        ensures err { OnErr result ((self.new ≡ self.old) × (out.new.items ≡ out.old.items)) }
    {
        hear_proposal(&mut self.leader, slot, command, out)?;
        Ok(())
    }

    // A command is decided.
    fn on_decision(
        &mut self,
        from: u8,
        slot: Slot,
        command: &Command<O::Op>,
        out: &mut Letters<O>,
    ) -> Result<(), AllocError>
        requires agrees { (d : Command O.Op) → slots.get self.old.state.replica.decisions slot
            ≡ Some d → d ≡ command.now }
        ensures ok { OnOk result
            (ShowsReceived «from» self.old.state
            (Decision slot command.now) self.new.state out.old.items out.new.items) }
        ensures object { OnOk result (self.new.object ≡ self.old.object) }
        ensures idle { slots.contains_key self.old.state.replica.decisions slot ≡ true → IsOk result }
        ensures err { OnErr result ((self.new ≡ self.old) × (out.new.items ≡ out.old.items)) }
    {
        learn(&mut self.replica, slot, command)?;
        Ok(())
    }

    // A replica asks what is decided from a slot on.
    fn on_ask(&mut self, from: u8, slot: Slot, out: &mut Letters<O>) -> Result<(), AllocError>
        ensures ok { OnOk result
            (ShowsReceived «from» self.old.state (Ask slot) self.new.state out.old.items out.new.items) }
        ensures object { OnOk result (self.new.object ≡ self.old.object) }
        ensures same { self.new ≡ self.old }
        ensures err { OnErr result (out.new.items ≡ out.old.items) }
    {
        let told = self.replica.ask(slot)?;
        send_each(self.leader.node(), from, told, out)?;
        Ok(())
    }
}

// Sends these bodies, or none of them.
fn send_each<C: Value>(
    from: u8,
    to: u8,
    bodies: Vec<LetterBody<C>>,
    out: &mut Vec<Letter<C>>,
) -> Result<(), AllocError>
    ensures ok { AddsAtEnd result out.old out.new (map (λ b. letter «from» b to) bodies.items) }
{
    let alloc = *bodies.allocator();
    let mut letters: Vec<Letter<C>> = bodies
        .into_iter()
        .map(|body| Letter { from, to, body })
        .collect(alloc)?;
    out.append(&mut letters)?;
    Ok(())
}

// An acceptor votes on a pvalue, and keeps a copy of it where it accepts it. The ballot that it promised is told.
fn vote<C: Value>(
    acceptor: &mut Acceptor<C>,
    pvalue: &Pvalue<C>,
) -> Result<Option<Ballot>, AllocError>
    ensures state { OnOk result (Keeps (after_p2a acceptor.old pvalue.now) acceptor.new) }
    ensures promised { IfOk result (λ promised. promised ≡ acceptor.old.promised) }
    ensures err { OnErr result (acceptor.new ≡ acceptor.old) }
{
    ballot_laws();
    if acceptor.has_promised(pvalue.ballot) {
        acceptor.on_p2a(pvalue.copy()?)
    } else {
        Ok(acceptor.promised())
    }
}

// A leader hears a P1b of no last round.
fn hear_promise<C: Value>(
    leader: &mut Leader<C>,
    from: u8,
    ballot: Ballot,
    report: &[Pvalue<C>],
    out: &mut Vec<Letter<C>>,
) -> Result<(), AllocError>
    requires { ballot.round < 2 ^ 62 }
    ensures hears { OnOk result
        (HearsP1b leader.old from ballot report.now leader.new out.old.items out.new.items) }
    ensures idle { leader.old.scout ≡ None → IsOk result }
    ensures err { OnErr result ((leader.new ≡ leader.old) × (out.new.items ≡ out.old.items)) }
{
    match leader.on_p1b(from, ballot, report, out) {
        Ok(()) => Ok(()),
        Err(LeaderError::OutOfMemory) => Err(AllocError),
        Err(LeaderError::NoBallotLeft) => unreachable!(),
    }
}

// A leader hears a P2b of no last round.
fn hear_vote<C: Value>(
    leader: &mut Leader<C>,
    from: u8,
    ballot: Option<Ballot>,
    slot: Slot,
    asked: Ballot,
    out: &mut Vec<Letter<C>>,
) -> Result<(), AllocError>
    requires { (b : Numbers) → ballot ≡ Some b → b.round < 2 ^ 62 }
    ensures state { Becomes result leader.old leader.new
        (votes.on_p2b leader.old from ballot slot asked).state }
    ensures out { AddsAtEnd result out.old out.new
        (letters_of leader.old (votes.on_p2b leader.old from ballot slot asked).says) }
    ensures idle { slots.get leader.old.commanders slot ≡ None → IsOk result }
{
    match leader.on_p2b(from, ballot, slot, asked, out) {
        Ok(()) => Ok(()),
        Err(LeaderError::OutOfMemory) => Err(AllocError),
        Err(LeaderError::NoBallotLeft) => unreachable!(),
    }
}

// A leader hears a Propose, and keeps a copy of the command where the slot has no proposal yet.
fn hear_proposal<C: Value>(
    leader: &mut Leader<C>,
    slot: Slot,
    command: &C,
    out: &mut Vec<Letter<C>>,
) -> Result<(), AllocError>
    ensures state { Becomes result leader.old leader.new
        (on_propose leader.old slot command.now).state }
    ensures out { AddsAtEnd result out.old out.new
        (letters_of leader.old (on_propose leader.old slot command.now).says) }
    ensures idle { slots.contains_key leader.old.proposals slot ≡ true → IsOk result }
{
    if leader.has_proposal(slot) {
        return Ok(());
    }
    leader.propose(slot, command.copy()?, out)
}

// A replica learns a decision that is no other than the one it knows.
fn learn<O: Object>(
    replica: &mut Replica<O>,
    slot: Slot,
    command: &Command<O::Op>,
) -> Result<(), AllocError>
    requires { (d : Command O.Op) → slots.get replica.old.slots.decisions slot ≡ Some d → d
        ≡ command.now }
    ensures state { Becomes result replica.old replica.new
        (record replica.old { slots = learnt replica.old.slots slot command.now }) }
    ensures idle { slots.contains_key replica.old.slots.decisions slot ≡ true → IsOk result }
{
    if replica.knows(slot) {
        return Ok(());
    }
    match replica.learn(slot, command.copy()?) {
        Ok(()) => Ok(()),
        Err(LearnError::OutOfMemory) => Err(AllocError),
        Err(LearnError::Clash) => unreachable!(),
    }
}
