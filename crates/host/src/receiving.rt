ghost use Rattle.std.specs.Prelude.{◌≡◌, ◌<◌, ◌+◌, ◌^◌, ◌⊎◌, ℕ, List, true, false, is_none, Some, [], IsErrOf, IsOk, IfOk, IfErr, IfSome, IfNone, OnOk, OnErr};
ghost use Rattle.object.specs.declared.command.Command.{Command};
ghost use Rattle.ballot.specs.Rests.{rest_of_body};
ghost use Rattle.ballot.specs.declared.letter.Letter.{Letter};
ghost use Rattle.node.specs.Receiving.{IsFit, SaysNothingNew};
ghost use Rattle.cluster.specs.Envelopes.{IsLegible};
ghost use Rattle.host.specs.Counting.{most_host_events, receipt_events};
ghost use Rattle.host.specs.Receiving.{AsksForVote, Comes, Takes, TakesBody, IsLeftOut, MayReceive, put_aside};

use crate::envelope::Envelope;
use crate::event_count::EventCount;
use crate::host_fault::HostFault;
use crate::receipt::Receipt;
use ballot::{Ballot, Left, Letter, LetterBody, left_of};
use node::LeanNode;
use object::{Command, Object};
use std::alloc::AllocError;

// Whether it asks for a promise or an acceptance.
pub(crate) fn asks_for_vote<C>(body: &LetterBody<C>) -> bool
    ensures yes { result ≡ true → AsksForVote body.now }
    ensures no { result ≡ false → AsksForVote body.now → ⊥ }
{
    matches!(body, LetterBody::P1a(_) | LetterBody::P2a(_))
}

// Whether nothing of it is left from the base on.
pub(crate) fn is_forgotten<C>(body: &LetterBody<C>, base: u64) -> bool
    ensures { result ≡ is_none (rest_of_body base body.now) }
{
    match body {
        LetterBody::P2a(pvalue) => pvalue.slot.number() < base,
        LetterBody::P2b { slot, .. } => slot.number() < base,
        LetterBody::Propose(slot, _) => slot.number() < base,
        LetterBody::Decision(slot, _) => slot.number() < base,
        _ => false,
    }
}

// Whether it can be read under this label: a report leaves out what is below its label.
fn is_legible<C>(base: u64, label: u64, body: &LetterBody<C>) -> bool
    ensures yes { result ≡ true → IsLegible base label body.now }
    ensures no { result ≡ false → IsLegible base label body.now → ⊥ }
{
    match body {
        LetterBody::P1b(_, _) => label <= base,
        _ => true,
    }
}

// Whether the node may receive it.
fn is_fit<O: Object>(node: &LeanNode<O>, body: &LetterBody<Command<O::Op>>) -> bool
    ensures yes { result ≡ true → IsFit node.now.state body.now }
    ensures no { result ≡ false → IsFit node.now.state body.now → ⊥ }
{
    match body {
        LetterBody::P1b(ballot, _) => has_next(*ballot),
        LetterBody::P2b { ballot, .. } => match ballot {
            None => true,
            Some(ballot) => has_next(*ballot),
        },
        LetterBody::Decision(slot, command) => match node.slots().decision(*slot) {
            None => true,
            Some(known) => *known == *command,
        },
        _ => true,
    }
}

// Whether its round is not the last.
fn has_next(ballot: Ballot) -> bool
    ensures yes { result ≡ true → ballot.round < 2 ^ 62 }
    ensures no { result ≡ false → ballot.round < 2 ^ 62 → ⊥ }
{
    ballot.next_after(1, 0).is_some()
}

// A node reads an envelope to it and receives what is left of it from the base on, which is an event, or leaves it out.
pub(crate) fn receive_counted<O: Object>(
    node: &mut LeanNode<O>,
    number: u8,
    envelope: &Envelope<Command<O::Op>>,
    base: u64,
    events: &mut EventCount,
    sent: &mut Vec<Letter<Command<O::Op>>>,
) -> Result<Receipt, HostFault>
    requires { envelope.now.letter.to ≡ number }
    ensures ok { IfOk result (λ receipt. Comes receipt number
        (record { base = base; holding = node.old }) envelope.now
        (record { base = base; holding = node.new }) sent.old.items sent.new.items
        × (put_aside receipt envelope.now ≡ [])
        × (events.new ≡ events.old + receipt_events receipt)) }
    ensures faults { IfErr result (λ fault.
        (fault ≡ HostFault.OutOfMemory) ⊎ (fault ≡ HostFault.EventsExhausted)) }
    ensures exhausted { IsErrOf result HostFault.EventsExhausted → events.old ≡ most_host_events }
    ensures idle { IsLeftOut number (record { base = base; holding = node.old }) envelope.now →
        IsOk result }
    ensures again { rest_of_body base envelope.now.letter.body ≡ Some envelope.now.letter.body →
        SaysNothingNew node.old.state envelope.now.letter.body → events.old < most_host_events →
        IsOk result }
    ensures err { OnErr result ((node.new ≡ node.old) × (sent.new.items ≡ sent.old.items)
        × (events.new ≡ events.old)) }
{
    if let Some(receipt) = leave_out(node, envelope, base) {
        return Ok(receipt);
    }
    let next = events.plus(1)?;
    receive_left(node, number, envelope, base, sent)?;
    *events = next;
    Ok(Receipt::Received)
}

// Why an envelope is left out, if it is.
fn leave_out<O: Object>(
    node: &LeanNode<O>,
    envelope: &Envelope<Command<O::Op>>,
    base: u64,
) -> Option<Receipt>
    ensures some { IfSome result (λ receipt. (n : ℕ) (now : List (Letter (Command O.Op))) →
        envelope.now.letter.to ≡ n →
        Comes receipt n (record { base = base; holding = node.now }) envelope.now
        (record { base = base; holding = node.now }) now now) }
    ensures now { IfSome result (λ receipt. (put_aside receipt envelope.now ≡ [])
        × (receipt_events receipt ≡ 0)) }
    ensures none { IfNone result (MayReceive (record { base = base; holding = node.now }) envelope.now) }
{
    let body = &envelope.letter().body;
    if !is_legible(base, envelope.label(), body) {
        return Some(Receipt::Illegible);
    }
    if is_forgotten(body, base) {
        return Some(Receipt::Forgotten);
    }
    if !is_fit(node, body) {
        return Some(Receipt::Unfit);
    }
    None
}

// A node receives what is left of an envelope from the base on.
fn receive_left<O: Object>(
    node: &mut LeanNode<O>,
    number: u8,
    envelope: &Envelope<Command<O::Op>>,
    base: u64,
    sent: &mut Vec<Letter<Command<O::Op>>>,
) -> Result<(), AllocError>
    requires to { envelope.now.letter.to ≡ number }
    requires may { MayReceive (record { base = base; holding = node.old }) envelope.now }
    ensures ok { OnOk result (Takes number
        (record { base = base; holding = node.old }) envelope.now
        (record { base = base; holding = node.new }) sent.old.items sent.new.items) }
    ensures again { rest_of_body base envelope.now.letter.body ≡ Some envelope.now.letter.body →
        SaysNothingNew node.old.state envelope.now.letter.body → IsOk result }
    ensures err { OnErr result ((node.new ≡ node.old) × (sent.new.items ≡ sent.old.items)) }
{
    let letter = envelope.letter();
    match left_of(*sent.allocator(), &letter.body, base)? {
        Left::Part(part) => receive_body(node, letter.from, &part, sent),
        _ => receive_body(node, letter.from, &letter.body, sent),
    }
}

// A node receives a body.
pub(crate) fn receive_body<O: Object>(
    node: &mut LeanNode<O>,
    from: u8,
    body: &LetterBody<Command<O::Op>>,
    sent: &mut Vec<Letter<Command<O::Op>>>,
) -> Result<(), AllocError>
    requires { IsFit node.old.state body.now }
    ensures ok { OnOk result
        (TakesBody «from» node.old body.now node.new sent.old.items sent.new.items) }
    ensures again { SaysNothingNew node.old.state body.now → IsOk result }
    ensures err { OnErr result ((node.new ≡ node.old) × (sent.new.items ≡ sent.old.items)) }
{
    node.receive(from, body, sent)?;
    Ok(())
}
