ghost use Rattle.std.specs.Prelude.{◌≡◌, ◌<◌, ◌+◌, ℕ, true, false, length, IfSome, IfNone, OnOk};
ghost use Rattle.std.specs.FinMap.{empty};
ghost use Rattle.world.specs.WaysOut.{ArePlaces, AreAllRead, Proposes, Decides, is_proposal, is_decision, noted_place};

use crate::letters::find_decision;
use ballot::{Letter, LetterBody, Slot, SlotMap};
use object::Value;
use std::alloc::{AllocError, Global};

/// Where letters to node 1 stand that propose something for a slot, and those that tell what is decided there. The first
/// `read` letters were read.
#[derive(Drop)]
pub(crate) struct LetterPlaces {
    proposals: SlotMap<usize>,
    decisions: SlotMap<usize>,
    read: usize,
}

impl LetterPlaces {
    /// Nothing is read yet.
    pub(crate) fn new(alloc: Global) -> LetterPlaces
        ensures proposals { result.proposals ≡ empty }
        ensures decisions { result.decisions ≡ empty }
        ensures read { result.read ≡ 0 }
    {
        LetterPlaces {
            proposals: SlotMap::new(alloc),
            decisions: SlotMap::new(alloc),
            read: 0,
        }
    }

    /// Reads the letters that weren't read.
    pub(crate) fn read_on<C: Value>(&mut self, letters: &[Letter<C>]) -> Result<(), AllocError>
        requires { ArePlaces letters.now self.old.read self.old }
        ensures { OnOk result (AreAllRead letters.now self.new) }
    {
        for place in self.read..letters.len() {
            self.read_one(letters, place)?;
        }
        self.read = letters.len();
        Ok(())
    }

    // Reads one letter more.
    fn read_one<C: Value>(&mut self, letters: &[Letter<C>], place: usize) -> Result<(), AllocError>
        requires within { place < length letters.now }
        requires before { ArePlaces letters.now place self.old }
        ensures read { OnOk result (ArePlaces letters.now (place + 1) self.new) }
        ensures count { OnOk result (self.new.read ≡ self.old.read) }
    {
        let letter = &letters[place];
        note(&mut self.proposals, proposed_slot(letter), place)?;
        note(&mut self.decisions, decided_slot(letter), place)?;
        Ok(())
    }

    /// A letter that proposes something for the slot to node 1, where all letters were read.
    pub(crate) fn proposal_for<C: Value>(&self, letters: &[Letter<C>], slot: Slot) -> Option<usize>
        requires { AreAllRead letters.now self.now }
        ensures some { IfSome result (λ place. Proposes letters.now place slot) }
        ensures none { IfNone result ((place : ℕ) → Proposes letters.now place slot → ⊥) }
    {
        let _ = letters;
        self.proposals.get(slot).copied()
    }

    /// A letter that tells node 1 what is decided in the slot, read or not.
    pub(crate) fn decision_for<C: Value>(&self, letters: &[Letter<C>], slot: Slot) -> Option<usize>
        requires { ArePlaces letters.now self.now.read self.now }
        ensures some { IfSome result (λ place. Decides letters.now place slot) }
        ensures none { IfNone result ((place : ℕ) → Decides letters.now place slot → ⊥) }
    {
        if let Some(place) = self.decisions.get(slot) {
            return Some(*place);
        }
        find_decision(letters, self.read, slot)
    }
}

// Notes the place for the slot, if there is one.
fn note(places: &mut SlotMap<usize>, slot: Option<Slot>, place: usize) -> Result<(), AllocError>
    ensures { OnOk result (places.new ≡ noted_place places.old slot place) }
{
    if let Some(slot) = slot {
        places.insert(slot, place)?;
    }
    Ok(())
}

// The slot for which the letter proposes something to node 1, if it does.
fn proposed_slot<C: Value>(letter: &Letter<C>) -> Option<Slot>
    ensures some { IfSome result (λ slot. is_proposal slot letter.now ≡ true) }
    ensures none { IfNone result ((slot : ℕ) → is_proposal slot letter.now ≡ false) }
{
    match &letter.body {
        LetterBody::Propose(slot, _) if letter.to == 1 => Some(*slot),
        _ => None,
    }
}

// The slot of which the letter tells node 1 what is decided, if it does.
fn decided_slot<C: Value>(letter: &Letter<C>) -> Option<Slot>
    ensures some { IfSome result (λ slot. is_decision slot letter.now ≡ true) }
    ensures none { IfNone result ((slot : ℕ) → is_decision slot letter.now ≡ false) }
{
    match &letter.body {
        LetterBody::Decision(slot, _) if letter.to == 1 => Some(*slot),
        _ => None,
    }
}
