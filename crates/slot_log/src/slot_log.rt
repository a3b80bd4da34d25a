ghost use Rattle.std.specs.Prelude.{◌≡◌, ◌↔◌, ◌++◌, ◌+◌, ◌^◌, ◌<◌, ◌≤◌, ◌==◌, ℕ, true, not, length, None, Some, IsOk, IsSome, IfSome, IfOk, OnOk, IsErrOf};
ghost use Rattle.std.specs.Option.{option_map, option_copied};
ghost use Rattle.std.specs.FinMap as map;
ghost use Rattle.object.specs.Results.{Becomes};
ghost use Rattle.slot_log.specs.Books.{new_book};
ghost use Rattle.slot_log.specs.Places.{ranked};
ghost use Rattle.slot_log.specs.Requests.{is_known, requested};
ghost use Rattle.slot_log.specs.Proposals as proposing;
ghost use Rattle.slot_log.specs.Decisions as deciding;
ghost use Rattle.slot_log.specs.Advances.{advanced};

mod catching_up;
mod copying;
mod forgetting;

use crate::errors::LearnError;
use crate::places::{Place, Places};
use ballot::{Slot, SlotMap, SlotRow};
use object::{Keyed, Value};
use std::alloc::{AllocError, Global};
use std::collections::{BTreeMap, VecDeque};
use std::marker::Model;

/// How many slots from `slot_out` on may have a proposal, and how many decisions are told at once.
const WINDOW: u64 = 64;

const LAST_SLOT: u64 = 1 << 62;

/// The requests, proposals and decisions of a replica, whatever its commands are.
#[derive(Drop)]
pub struct SlotLog<C: Value + Keyed> {
    slot_in: u64,
    slot_out: u64,
    requests: VecDeque<C>,
    proposals: SlotMap<C>,
    decisions: SlotRow<C>,
    // The rank of the first request, which is how many have left before it.
    front_rank: usize,
    // Where each command of the three stands.
    places: Places<C>,
    alloc: Global,
}

impl<C: Value + Keyed> Model for SlotLog<C> {
    ghost use Rattle.std.specs.Coded.{codes};
    ghost use Rattle.ballot.specs.Slots.{slots_code};
    ghost use Rattle.slot_log.specs.Books.{SlotBook};

    ghost Value = { SlotBook C };

    ghost coded = { Prim.hlevel (codes, slots_code, C.code) };

    ghost use Rattle.slot_log.specs.Kept.{book_of, KeepsBook};

    ghost view = { book_of };

    ghost invariant = { λ a. KeepsBook C.eq C.key_of a };
}

impl<C: Value + Keyed> SlotLog<C> {
    /// A log with nothing in it.
    pub fn new(alloc: Global) -> SlotLog<C>
        ensures { result ≡ new_book }
    {
        SlotLog {
            slot_in: 1,
            slot_out: 1,
            requests: VecDeque::new(alloc),
            proposals: SlotMap::new(alloc),
            decisions: SlotRow::new(alloc),
            front_rank: 0,
            places: Places::new(alloc),
            alloc,
        }
    }

    /// The slot whose decision is performed next, or the number behind the last slot.
    pub fn slot_out(&self) -> u64
        ensures slot { result ≡ self.now.slot_out }
        ensures above { 0 < result }
        ensures within { result ≤ 2 ^ 62 + 1 }
    {
        self.slot_out
    }

    /// Whether a request waits to be proposed.
    pub fn has_requests(&self) -> bool
        ensures { result ≡ not (length self.now.requests == 0) }
    {
        !self.requests.is_empty()
    }

    /// The proposals, in rising slot. There are no more than the window has slots.
    pub fn proposals(&self) -> &BTreeMap<Slot, C>
        ensures entries { result.now.entries ≡ map.entries self.now.proposals }
        ensures near { (s : ℕ) → IsSome (map.get self.now.proposals s) →
            proposing.IsInWindow self.now.slot_out s }
    {
        self.proposals.entries()
    }

    /// A command is asked for. It goes last in the requests, unless it is known.
    pub fn request(&mut self, command: C) -> Result<(), AllocError>
        ensures state { Becomes result self.old self.new (requested C.eq self.old command) }
        ensures known { is_known C.eq self.old command ≡ true → IsOk result }
    {
        if self.is_known(&command) {
            return Ok(());
        }
        let proposals = self.proposals.len();
        self.requests.reserve(proposals + 1)?;
        let rank = self.front_rank + self.requests.len();
        self.places.note(&command, Place::Requested(rank))?;
        self.requests.push_back(command)?;
        Ok(())
    }

    // Whether the command stands in the requests, proposals or decisions.
    fn is_known(&self, command: &C) -> bool
        ensures { result ≡ is_known C.eq self.now command.now }
    {
        let Some(place) = self.places.of(command.key()) else {
            return self.places.has_other(command);
        };
        let standing = match place {
            Place::Requested(rank) => ranked(&self.requests, self.front_rank, rank),
            Place::Proposed(slot) => self.proposals.get(slot),
            Place::Decided(slot) => self.decisions.get(slot),
        };
        match standing {
            Some(other) if other == command => true,
            _ => self.places.has_other(command),
        }
    }

    /// What `propose_next` would take. It takes no memory.
    pub fn next_proposal(&self) -> Option<(Slot, &C)>
        ensures proposal { option_map (λ p. (p.0, p.1.now)) result
            ≡ proposing.next_proposal self.now }
        ensures least { IfSome result (λ p. proposing.IsLeastOpen self.now p.0) }
    {
        let command = self.requests.front()?;
        let slot = self.open_slot()?;
        Some((slot, command))
    }

    /// Proposes the first request in the least slot that is open to it, and answers both. It answers None
    /// where no request waits, or no such slot is left in the window.
    pub fn propose_next(&mut self) -> Result<Option<(Slot, C)>, AllocError>
        ensures state { Becomes result self.old self.new (proposing.proposed_next self.old) }
        ensures proposal { IfOk result (λ proposal. proposal
            ≡ proposing.next_proposal self.old) }
        ensures idle { proposing.next_proposal self.old ≡ None → IsOk result }
    {
        let Some(first) = self.requests.front() else {
            return Ok(None);
        };
        let Some(slot) = self.open_slot() else {
            return Ok(None);
        };
        let copy = first.copy()?;
        self.proposals.insert(slot, copy)?;
        self.slot_in = slot.number() + 1;
        let command = self.requests.pop_front().unwrap();
        self.front_rank += 1;
        self.places.relocate(&command, Place::Proposed(slot));
        Ok(Some((slot, command)))
    }

    // The least slot from `slot_in` on, within the window, that has no known decision. Those before
    // `slot_out` have one.
    fn open_slot(&self) -> Option<Slot>
        ensures { result ≡ proposing.open_slot self.now }
    {
        for number in self.slot_in.max(self.slot_out)..self.slot_out + WINDOW {
            let slot = Slot::new(number)?;
            if !self.decisions.contains(slot) {
                return Some(slot);
            }
        }
        None
    }

    /// Whether a decision of the slot is known.
    pub fn knows(&self, slot: Slot) -> bool
        ensures { result ≡ map.contains_key self.now.decisions slot }
    {
        self.decisions.contains(slot)
    }

    /// The known decision of the slot. It takes no memory.
    pub fn decision(&self, slot: Slot) -> Option<&C>
        ensures { option_copied result ≡ map.get self.now.decisions slot }
    {
        self.decisions.get(slot)
    }

    /// A command is decided in a slot.
    pub fn learn(&mut self, slot: Slot, command: C) -> Result<(), LearnError>
        ensures state { Becomes result self.old self.new (deciding.learnt self.old slot command) }
        ensures clash { IsErrOf result LearnError.Clash ↔ deciding.IsClash self.old slot command }
        ensures again { map.get self.old.decisions slot ≡ Some command → IsOk result }
        ensures unchanged { map.get self.old.decisions slot ≡ Some command → self.new
            ≡ self.old }
    {
        match self.decisions.get(slot) {
            Some(decided) if *decided == command => Ok(()),
            Some(_) => Err(LearnError::Clash),
            None => self
                .decide(slot, command)
                .map_err(|_| LearnError::OutOfMemory),
        }
    }

    // Learns the first decision of a slot.
    fn decide(&mut self, slot: Slot, command: C) -> Result<(), AllocError>
        requires { map.get self.old.decisions slot ≡ None }
        ensures ok { Becomes result self.old self.new (deciding.learnt self.old slot command) }
    {
        // What every slot is, for the invariant.
        prove!(slot.number() <= LAST_SLOT);
        let known = self.is_known(&command);
        self.decisions.insert(slot, command)?;
        if known {
            return Ok(());
        }
        let command = self.decisions.get(slot).unwrap();
        match self.places.note(command, Place::Decided(slot)) {
            Ok(()) => Ok(()),
            Err(failed) => {
                self.decisions.remove(slot);
                Err(failed)
            }
        }
    }

    /// The known decisions of the slot and the 63 that follow it, in rising slot.
    pub fn decided_from(&self, slot: Slot) -> Result<Vec<(Slot, C)>, AllocError>
        ensures { IfOk result (λ known. known.items ≡ deciding.decided_from self.now slot) }
    {
        let last = Slot::new((slot.number() + (WINDOW - 1)).min(LAST_SLOT)).unwrap();
        let mut known = Vec::new(self.alloc);
        for number in slot.number()..last.number() + 1 {
            let slot = Slot::new(number).unwrap();
            push_copy(slot, self.decisions.get(slot), &mut known)?;
        }
        Ok(known)
    }

    /// The least slot with a proposal and without a known decision. It takes no memory.
    pub fn undecided(&self) -> Option<Slot>
        ensures { result ≡ deciding.undecided self.now }
    {
        let decisions = &self.decisions;
        self.proposals
            .entries()
            .keys()
            .copied()
            .find(|slot| !decisions.contains(*slot))
    }

    /// The decision at `slot_out`. It takes no memory.
    pub fn next_decided(&self) -> Option<&C>
        ensures decision { option_copied result ≡ deciding.next_decided self.now }
        ensures numbered { IsSome result → self.now.slot_out ≤ 2 ^ 62 }
    {
        let slot = Slot::new(self.slot_out)?;
        self.decisions.get(slot)
    }

    /// The decision at `slot_out` was performed. A proposal that lost this slot goes back to the requests.
    /// It takes no memory.
    pub fn advance(&mut self)
        requires { IsSome (deciding.next_decided self.old) }
        ensures { self.new ≡ advanced C.eq self.old }
    {
        let slot = Slot::new(self.slot_out).unwrap();
        let rank = self.front_rank + self.requests.len();
        self.slot_out += 1;
        let Some(proposal) = self.proposals.remove(slot) else {
            return;
        };
        if proposal == *self.decisions.get(slot).unwrap() {
            self.places.relocate(&proposal, Place::Decided(slot));
        } else {
            self.places.relocate(&proposal, Place::Requested(rank));
            self.requests.push_back(proposal).unwrap();
        }
    }
}

// The request of the rank, where the first one is of rank `front`.
fn ranked<C>(requests: &VecDeque<C>, front: usize, rank: usize) -> Option<&C>
    ensures { option_copied result ≡ ranked requests.now.items front rank }
{
    let index = rank.checked_sub(front)?;
    requests.get(index)
}

// Appends the slot with a copy of the command, if there is one.
fn push_copy<C: Value>(
    slot: Slot,
    command: Option<&C>,
    known: &mut Vec<(Slot, C)>,
) -> Result<(), AllocError>
    ensures { OnOk result (known.new.items ≡ known.old.items
        ++ deciding.entry_of slot (option_copied command.entry)) }
{
    match command {
        None => Ok(()),
        Some(command) => {
            known.push((slot, command.copy()?))?;
            Ok(())
        }
    }
}
