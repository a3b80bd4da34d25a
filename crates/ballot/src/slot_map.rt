ghost use Rattle.std.specs.Prelude.{◌≡◌, ◌==◌, ◌<◌, ◌^◌, IfOk, filter, nat_le};
ghost use Rattle.std.specs.Option.{option_copied, option_copied_mut};
ghost use Rattle.std.specs.Borrow.{LendsIf, sem};
ghost use Rattle.std.specs.FinMap as slots;
ghost use Rattle.object.specs.Results.{Becomes};
ghost use Rattle.ballot.specs.Rests.{kept_from};
ghost use Rattle.ballot.specs.contracts.slot_map.SlotMap.{the_row};

use crate::slot::Slot;
use object::Value;
use std::alloc::{AllocError, Global};
use std::collections::BTreeMap;
use std::marker::Model;

/// Values by slot.
#[derive(Drop)]
pub struct SlotMap<X> {
    entries: BTreeMap<Slot, X>,
    alloc: Global,
}

impl<X> Model for SlotMap<X> {
    ghost use Rattle.std.specs.Prelude.{T};
    ghost use Rattle.std.specs.Ordering.{nat_cmp};
    ghost use Rattle.std.specs.FinMap as slots;
    ghost use Rattle.ballot.specs.Slots.{Slots, slots_code};

    ghost Value = { Slots X };

    ghost coded = { slots_code X.code };

    ghost view = { λ m. slots.from_sorted m.entries.entries };

    ghost invariant = { λ m. T (slots.is_sorted nat_cmp m.entries.entries) };
}

impl<X> SlotMap<X> {
    /// No values.
    pub fn new(alloc: Global) -> Self
        ensures { result ≡ slots.empty }
    {
        SlotMap {
            entries: BTreeMap::new(alloc),
            alloc,
        }
    }

    /// How many slots have a value.
    pub fn len(&self) -> usize
        ensures len { result ≡ slots.len self.now }
        ensures small { result < 2 ^ 63 }
    {
        self.entries.len()
    }

    /// Whether no slot has a value.
    pub fn is_empty(&self) -> bool
        ensures { result ≡ (slots.len self.now == 0) }
    {
        self.len() == 0
    }

    /// The value of the slot, if it has one.
    pub fn get(&self, slot: Slot) -> Option<&X>
        ensures { option_copied result ≡ slots.get self.now slot }
    {
        self.entries.get(&slot)
    }

    /// The value of the slot, if it has one, to be changed.
    pub fn get_mut(&mut self, slot: Slot) -> Option<&mut X>
        ensures* writes_back { sem 𝓛 (LendsIf (the_row X.row) X.row self.entry result
            (λ value. slots.insert self.entry.now slot value) self.entry.now) }
        ensures value { option_copied_mut result ≡ slots.get self.old slot }
    {
        self.entries.get_mut(&slot)
    }

    /// Whether the slot has a value.
    pub fn contains(&self, slot: Slot) -> bool
        ensures { result ≡ slots.contains_key self.now slot }
    {
        self.entries.contains_key(&slot)
    }

    /// The slots with their values, in rising slot.
    pub fn entries(&self) -> &BTreeMap<Slot, X>
        ensures { result.now.entries ≡ slots.entries self.now }
    {
        &self.entries
    }

    /// Gives the slot the value, in place of one that it has.
    pub fn insert(&mut self, slot: Slot, value: X) -> Result<(), AllocError>
    where
        X: Drop,
        ensures ok { Becomes result self.old self.new (slots.insert self.old slot value) }
    {
        self.entries.insert(slot, value)?;
        Ok(())
    }

    /// Takes the slot's value away, if it has one, and answers it.
    pub fn remove(&mut self, slot: Slot) -> Option<X>
        ensures value { result ≡ slots.get self.old slot }
        ensures rest { self.new ≡ slots.remove self.old slot }
    {
        self.entries.remove(&slot)
    }

    /// Forgets the slots below the base. It takes no memory, and its time is that of what is forgotten.
    pub fn forget(&mut self, base: u64)
    where
        X: Drop,
        ensures { self.new ≡ kept_from base self.old }
    {
        drop_below(&mut self.entries, base);
    }
}

impl<C: Value> SlotMap<C> {
    /// The same values once more.
    pub fn copy(&self) -> Result<SlotMap<C>, AllocError>
        ensures { IfOk result (λ m. m ≡ self.now) }
    {
        let mut copy = SlotMap::new(self.alloc);
        let entries = &self.entries;
        for (slot, value) in entries {
            copy.insert(*slot, value.copy()?)?;
        }
        Ok(copy)
    }
}

// Drops the entries of the slots below the base.
fn drop_below<X: Drop>(entries: &mut BTreeMap<Slot, X>, base: u64)
    ensures { entries.new.entries ≡ filter (λ e. nat_le base e.0) entries.old.entries }
{
    while let Some((first, _)) = entries.first_key_value() {
        if first.number() >= base {
            return;
        }
        entries.pop_first();
    }
}
