ghost use Rattle.std.specs.Prelude.{◌≡◌, MatchOption};
ghost use Rattle.std.specs.FinMap as slots;
ghost use Rattle.object.specs.Results.{Becomes, AddsAtEnd};
ghost use Rattle.ballot.specs.Letters.{to_all};
ghost use Rattle.scout_commander.specs.Commanders.{new_commander, on_p2b as voting};

use ballot::{Ballot, Letter, LetterBody, Members, Pvalue, Slot, SlotMap, send_to_all};
use object::Value;
use scout_commander::Commander;
use std::alloc::AllocError;

/// Asks all members to accept the pvalue. For want of memory nothing is sent.
pub(crate) fn send_p2a<C: Value>(
    members: Members,
    from: u8,
    pvalue: &Pvalue<C>,
    out: &mut Vec<Letter<C>>,
) -> Result<(), AllocError>
    ensures ok { AddsAtEnd result out.old out.new
        (to_all members from (LetterBody.P2a pvalue.now)) }
{
    send_to_all(members, from, LetterBody::P2a(pvalue.copy()?), out)
}

/// Starts a commander of the pvalue, which asks all members to accept it. For want of memory nothing is done.
pub(crate) fn start_commander<C: Value>(
    members: Members,
    from: u8,
    pvalue: Pvalue<C>,
    commanders: &mut SlotMap<Commander<C>>,
    out: &mut Vec<Letter<C>>,
) -> Result<(), AllocError>
    ensures commander { Becomes result commanders.old commanders.new
        (slots.insert commanders.old pvalue.slot (new_commander members pvalue)) }
    ensures out { AddsAtEnd result out.old out.new (to_all members from (LetterBody.P2a pvalue)) }
{
    let len = out.len();
    send_p2a(members, from, &pvalue, out)?;
    let slot = pvalue.slot;
    let started = commanders.insert(slot, Commander::new(members, pvalue));
    if started.is_err() {
        out.truncate(len);
    }
    started
}

/// Tells all members that the command is decided for the slot. For want of memory nothing is sent.
pub(crate) fn send_decision<C: Value>(
    members: Members,
    from: u8,
    slot: Slot,
    command: &C,
    out: &mut Vec<Letter<C>>,
) -> Result<(), AllocError>
    ensures ok { AddsAtEnd result out.old out.new
        (to_all members from (LetterBody.Decision slot command.now)) }
{
    send_to_all(
        members,
        from,
        LetterBody::Decision(slot, command.copy()?),
        out,
    )
}

/// The slot's commander, if it has one, hears a P2b.
pub(crate) fn hear_p2b<C>(
    commanders: &mut SlotMap<Commander<C>>,
    slot: Slot,
    from: u8,
    ballot: Option<Ballot>,
)
    ensures { MatchOption (slots.get commanders.old slot) (commanders.new ≡ commanders.old)
        (λ c. commanders.new ≡ slots.insert commanders.old slot (voting c from ballot).commander) }
{
    if let Some(commander) = commanders.get_mut(slot) {
        commander.on_p2b(from, ballot);
    }
}
