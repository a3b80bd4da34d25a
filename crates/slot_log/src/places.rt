ghost use Rattle.std.specs.Prelude.{◌≡◌, true, false, [], not, nat_le, filter, Some, None, if◌then◌else◌, IsSome, IfOk, OnOk, OnErr};
ghost use Rattle.std.specs.List.{list_any};
ghost use Rattle.object.specs.declared.command.Key.{Key};
ghost use Rattle.object.specs.KeyMaps.{at_key, with_key};
ghost use Rattle.object.specs.Keys.{same_key};
ghost use Rattle.slot_log.specs.Books.{SlotBook};
ghost use Rattle.slot_log.specs.Places.{with_new_key, others_noted, place_from};
ghost use Rattle.slot_log.specs.Requests.{is_known};

use crate::looking::stands_in;
use ballot::{Slot, SlotMap, SlotRow};
use object::{Key, KeyMap, Keyed, Value, copies_of};
use std::alloc::{AllocError, Global};
use std::collections::VecDeque;

/// Where a command stands.
#[derive(Clone, Copy)]
pub(crate) enum Place {
    /// In the requests, by its rank: how many were there before it, those included that have left.
    Requested(usize),
    /// In the proposals, by its slot.
    Proposed(Slot),
    /// In the decisions, by its slot.
    Decided(Slot),
}

impl Place {
    /// Whether it is a decision's of a slot below the base.
    fn is_below(self, base: u64) -> bool
        ensures { place_from base (Some self) ≡ (if result then None else Some self) }
    {
        match self {
            Place::Decided(slot) => is_before(slot, base),
            _ => false,
        }
    }
}

fn is_before(slot: Slot, base: u64) -> bool
    ensures { result ≡ not (nat_le base slot) }
{
    slot.number() < base
}

/// Where the command of each key stands.
#[derive(Drop)]
pub(crate) struct Places<C> {
    by_key: KeyMap<Place>,
    // Copies of the commands whose key stands for another command. There are none, unless somebody uses a
    // key twice.
    others: Vec<C>,
}

impl<C: Value + Keyed> Places<C> {
    /// No commands.
    pub(crate) fn new(alloc: Global) -> Places<C>
        ensures places { result.by_key ≡ [] }
        ensures others { result.others.items ≡ [] }
    {
        Places {
            by_key: KeyMap::new(alloc),
            others: Vec::new(alloc),
        }
    }

    /// The same places once more.
    pub(crate) fn copy(&self) -> Result<Places<C>, AllocError>
        ensures places { IfOk result (λ copy. copy.by_key ≡ self.now.by_key) }
        ensures others { IfOk result (λ copy. copy.others.items ≡ self.now.others.items) }
    {
        Ok(Places {
            by_key: self.by_key.copy()?,
            others: copies_of(*self.others.allocator(), &self.others)?,
        })
    }

    /// Where the command of the key stands.
    pub(crate) fn of(&self, key: Key) -> Option<Place>
        ensures { result ≡ at_key self.now.by_key key }
    {
        self.by_key.get(key)
    }

    /// Whether the command's key stands for another command.
    pub(crate) fn has_other(&self, command: &C) -> bool
        ensures { result ≡ list_any (λ d. C.eq d command.now) self.now.others.items }
    {
        self.others.contains(command)
    }

    /// Notes where a new command stands.
    pub(crate) fn note(&mut self, command: &C, place: Place) -> Result<(), AllocError>
        ensures places { OnOk result ((q : Key) → at_key self.new.by_key q
            ≡ with_new_key (at_key self.old.by_key) (C.key_of command.now) place q) }
        ensures others { OnOk result (self.new.others.items
            ≡ others_noted
            (at_key self.old.by_key
            (C.key_of command.now)) self.old.others.items command.now) }
        ensures err { OnErr result (((q : Key)
            → at_key self.new.by_key q ≡ at_key self.old.by_key q)
            × (self.new.others.items ≡ self.old.others.items)) }
    {
        let key = command.key();
        if self.by_key.get(key).is_some() {
            self.others.push(command.copy()?)?;
        } else {
            self.by_key.insert(key, place)?;
        }
        Ok(())
    }

    /// Notes where a command stands now. It takes no memory.
    pub(crate) fn relocate(&mut self, command: &C, place: Place)
        requires { list_any (λ d. C.eq d command.now) self.old.others.items ≡ false
            → IsSome (at_key self.old.by_key (C.key_of command.now)) }
        ensures here { list_any (λ d. C.eq d command.now) self.old.others.items ≡ false
            → (q : Key) → at_key self.new.by_key q
            ≡ with_key (at_key self.old.by_key) (C.key_of command.now) place q }
        ensures other { list_any (λ d. C.eq d command.now) self.old.others.items ≡ true
            → (q : Key) → at_key self.new.by_key q ≡ at_key self.old.by_key q }
        ensures others { self.new.others.items ≡ self.old.others.items }
    {
        if self.has_other(command) {
            return;
        }
        self.by_key.replace(command.key(), place);
    }

    /// Takes away the key's place where it is a decision's of a slot below the base. It takes no memory.
    pub(crate) fn forget(&mut self, key: Key, base: u64)
        ensures places { (q : Key) → at_key self.new.by_key q
            ≡ (if same_key key q then place_from base (at_key self.old.by_key q)
            else at_key self.old.by_key q) }
        ensures others { self.new.others.items ≡ self.old.others.items }
    {
        let Some(place) = self.by_key.get(key) else {
            return;
        };
        if place.is_below(base) {
            self.by_key.remove(key);
        }
    }

    /// Keeps those of the others that a book with these requests, proposals and decisions knows. It takes no memory.
    pub(crate) fn keep_others(
        &mut self,
        requests: &VecDeque<C>,
        proposals: &SlotMap<C>,
        decisions: &SlotRow<C>,
    )
        ensures places { self.new.by_key ≡ self.old.by_key }
        ensures others { (book : SlotBook C) → book.requests ≡ requests.now.items
            → book.proposals ≡ proposals.now → book.decisions ≡ decisions.now
            → self.new.others.items ≡ filter (is_known C.eq book) self.old.others.items }
    {
        self.others
            .retain(|other| stands_in(requests, proposals, decisions, other));
    }
}
