ghost use Rattle.std.specs.Prelude.{◌≡◌, ◌⊎◌, ◌∷◌, [], ◌+◌, ◌<◌, ◌≤◌, ◌^◌, ℕ, Some, None, IfOk, IfSome, IfNone, OnOk, OnErr, length, max, nat_le, if◌then◌else◌};
ghost use Rattle.std.specs.Option.{option_copied};
ghost use Rattle.std.specs.FinMap as slots;
ghost use Rattle.object.specs.Results.{Becomes};
ghost use Rattle.ballot.specs.Rests.{kept_from};
ghost use Rattle.ballot.specs.SlotRows.{in_row, with_row, but_at};
ghost use Rattle.ballot.specs.Slots.{Slots};

mod bounds;

use crate::slot::Slot;
use crate::slot_map::SlotMap;
use object::Value;
use std::alloc::{AllocError, Global};
use std::collections::VecDeque;
use std::marker::Model;
use std::mem;

/// A slot that is no further than this behind the row's end makes it longer.
const GAP: u64 = 64;

/// Values by slot, mostly of slots that follow one another: from a first slot on they lie in a row, one beside the
/// other, and what doesn't fit there is kept as a `SlotMap`.
#[derive(Drop)]
pub struct SlotRow<X> {
    // The number of the row's first slot.
    first: u64,
    row: VecDeque<Option<X>>,
    beside: SlotMap<X>,
}

impl<X> Model for SlotRow<X> {
    ghost use Rattle.std.specs.Prelude.{◌<◌, ◌≤◌, ◌+◌, ◌^◌, length};
    ghost use Rattle.ballot.specs.Slots.{Slots, slots_code};
    ghost use Rattle.ballot.specs.SlotRows.{with_row};

    ghost Value = { Slots X };

    ghost coded = { slots_code X.code };

    ghost view = { λ r. with_row r.first r.row.items r.beside };

    ghost invariant = { λ r. (0 < r.first) × (r.first + length r.row.items ≤ 2 ^ 62 + 1) };
}

impl<X> SlotRow<X> {
    /// No values.
    pub fn new(alloc: Global) -> Self
        ensures { result ≡ slots.empty }
    {
        SlotRow::from_map(alloc, SlotMap::new(alloc))
    }

    /// These values.
    pub fn from_map(alloc: Global, values: SlotMap<X>) -> Self
        ensures { result ≡ values }
    {
        SlotRow {
            first: 1,
            row: VecDeque::new(alloc),
            beside: values,
        }
    }

    /// The value of the slot, if it has one.
    #[tactic(auto, using(crate::proofs::SlotRows::get_with_row))]
    pub fn get(&self, slot: Slot) -> Option<&X>
        ensures { option_copied result ≡ slots.get self.now slot }
    {
        match in_row(self.first, &self.row, slot) {
            Some(value) => Some(value),
            None => self.beside.get(slot),
        }
    }

    /// Whether the slot has a value.
    pub fn contains(&self, slot: Slot) -> bool
        ensures { result ≡ slots.contains_key self.now slot }
    {
        self.get(slot).is_some()
    }

    /// Gives the slot the value, in place of one that it has.
    pub fn insert(&mut self, slot: Slot, value: X) -> Result<(), AllocError>
    where
        X: Drop,
        ensures ok { Becomes result self.old self.new (slots.insert self.old slot value) }
    {
        self.first = first_for(self.first, &self.row, slot);
        if let Some(place) = place_in_row(self.first, self.row.len(), slot) {
            return put(&mut self.row, place, value);
        }
        self.beside.insert(slot, value)
    }

    /// Takes the slot's value away, if it has one, and answers it.
    pub fn remove(&mut self, slot: Slot) -> Option<X>
    where
        X: Drop,
        ensures value { result ≡ slots.get self.old slot }
        ensures rest { self.new ≡ slots.remove self.old slot }
    {
        let beside = self.beside.remove(slot);
        match take(self.first, &mut self.row, slot) {
            Some(value) => Some(value),
            None => beside,
        }
    }

    /// Forgets the slots below the base. It takes no memory, and its time is that of what is forgotten.
    pub fn forget(&mut self, base: u64)
    where
        X: Drop,
        ensures { self.new ≡ kept_from base self.old }
    {
        self.beside.forget(base);
        self.first = cut(self.first, &mut self.row, base);
    }
}

impl<X: Value> SlotRow<X> {
    /// The same values once more.
    pub fn copy(&self) -> Result<SlotRow<X>, AllocError>
        ensures { IfOk result (λ copy. copy ≡ self.now) }
    {
        Ok(SlotRow {
            first: self.first,
            row: copy_of_row(&self.row)?,
            beside: self.beside.copy()?,
        })
    }

    /// The same values once more, as a map.
    pub fn to_map(&self) -> Result<SlotMap<X>, AllocError>
        ensures { IfOk result (λ m. m ≡ self.now) }
    {
        let mut map = self.beside.copy()?;
        copy_row(self.first, &self.row, &mut map)?;
        Ok(map)
    }
}

// The value that the row has for the slot, if it has one.
fn in_row<X>(first: u64, row: &VecDeque<Option<X>>, slot: Slot) -> Option<&X>
    ensures { option_copied result ≡ in_row first row.now.items slot }
{
    let place = slot.number().checked_sub(first)?;
    row.get(place as usize)?.as_ref()
}

// Where the row begins with which this slot is to be kept: an empty one may begin anywhere.
fn first_for<X>(first: u64, row: &VecDeque<Option<X>>, slot: Slot) -> u64
    requires some { 0 < first }
    requires within { first + length row.now.items ≤ 2 ^ 62 + 1 }
    ensures same { (m : Slots X) → with_row result row.now.items m
        ≡ with_row first row.now.items m }
    ensures some { 0 < result }
    ensures within { result + length row.now.items ≤ 2 ^ 62 + 1 }
{
    if row.is_empty() { slot.number() } else { first }
}

// The slot's place in a row of this length, or a little behind its end.
fn place_in_row(first: u64, length: usize, slot: Slot) -> Option<usize>
    requires { first + length ≤ 2 ^ 62 + 1 }
    ensures place { IfSome result (λ place. slot ≡ first + place) }
    ensures beside { IfNone result ((slot < first) ⊎ (first + length ≤ slot)) }
{
    let place = slot.number().checked_sub(first)?;
    if place < length as u64 + GAP {
        Some(place as usize)
    } else {
        None
    }
}

// Puts a value at a place of the row, which is made long enough.
fn put<X: Drop>(row: &mut VecDeque<Option<X>>, place: usize, value: X) -> Result<(), AllocError>
    requires { place < 2 ^ 62 }
    ensures ok { OnOk result ((first s : ℕ) → in_row first row.new.items s
        ≡ but_at (in_row first row.old.items) (first + place) (Some value) s) }
    ensures err { OnErr result ((first s : ℕ) → in_row first row.new.items s
        ≡ in_row first row.old.items s) }
    ensures length { length row.new.items ≤ max (length row.old.items) (place + 1) }
{
    for _ in row.len()..place + 1 {
        row.push_back(None)?;
    }
    row[place] = Some(value);
    Ok(())
}

// Takes the value of the slot out of the row, if it has one there.
fn take<X: Drop>(first: u64, row: &mut VecDeque<Option<X>>, slot: Slot) -> Option<X>
    ensures value { result ≡ in_row first row.old.items slot }
    ensures rest { (s : ℕ) → in_row first row.new.items s
        ≡ but_at (in_row first row.old.items) slot None s }
    ensures length { length row.new.items ≡ length row.old.items }
{
    let place = slot.number().checked_sub(first)? as usize;
    if place < row.len() {
        mem::replace(&mut row[place], None)
    } else {
        None
    }
}

// Cuts the slots below the base off the row, and answers where it begins then. Where none is left, it holds no memory.
fn cut<X: Drop>(first: u64, row: &mut VecDeque<Option<X>>, base: u64) -> u64
    requires { first + length row.old.items ≤ 2 ^ 62 + 1 }
    ensures kept { (s : ℕ) → in_row result row.new.items s
        ≡ (if nat_le base s then in_row first row.old.items s else None) }
    ensures later { first ≤ result }
    ensures end { result + length row.new.items ≡ first + length row.old.items }
{
    let below = base.saturating_sub(first).min(row.len() as u64);
    for _ in 0..below {
        row.pop_front();
    }
    if row.is_empty() {
        row.shrink_to_fit();
    }
    first + below
}

// The same row once more.
fn copy_of_row<X: Value>(row: &VecDeque<Option<X>>) -> Result<VecDeque<Option<X>>, AllocError>
    ensures { IfOk result (λ copy. copy.items ≡ row.now.items) }
{
    let mut copy = VecDeque::with_capacity(*row.allocator(), row.len())?;
    for entry in row {
        copy.push_back(entry.copy()?)?;
    }
    Ok(copy)
}

// Copies the values of the row into the map.
fn copy_row<X: Value>(
    first: u64,
    row: &VecDeque<Option<X>>,
    map: &mut SlotMap<X>,
) -> Result<(), AllocError>
    requires some { 0 < first }
    requires within { first + length row.now.items ≤ 2 ^ 62 + 1 }
    ensures { OnOk result (map.new ≡ with_row first row.now.items map.old) }
{
    for place in 0..row.len() {
        copy_entry(first + place as u64, &row[place], map)?;
    }
    Ok(())
}

// Copies the value of one slot into the map, if there is one.
fn copy_entry<X: Value>(
    number: u64,
    entry: &Option<X>,
    map: &mut SlotMap<X>,
) -> Result<(), AllocError>
    requires { (0 < number) × (number ≤ 2 ^ 62) }
    ensures { OnOk result (map.new ≡ with_row number (entry.now ∷ []) map.old) }
{
    match entry {
        None => Ok(()),
        Some(value) => map.insert(Slot::new(number).unwrap(), value.copy()?),
    }
}
