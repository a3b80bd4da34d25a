ghost use Rattle.std.specs.Prelude.{◌≡◌, ◌↔◌, ◌≤◌, ℕ, ◌+◌, ◌++◌, ◌∷◌, [], true, length, take, IfOk, OnOk, OnErr, Some, if◌then◌else◌, ◌&&◌, is_some, nat_le};
ghost use Rattle.std.specs.List.{list_all};
ghost use Rattle.std.specs.BTreeMap.{get, is_at};
ghost use Rattle.object.specs.Lists.{In};
ghost use Rattle.object.specs.Results.{Becomes};
ghost use Rattle.ballot.specs.Ballots.{Numbers};
ghost use Rattle.ballot.specs.Rests.{pvalues_from};
ghost use Rattle.scout_commander.specs.Reports.{IsFresh, HasNews, beyond};
ghost use Rattle.scout_commander.specs.Starts.{start, place_cmp, HasStarts, IsIndexOf};

use ballot::{Ballot, Pvalue, Slot};
use object::Value;
use std::alloc::{AllocError, Global};
use std::collections::BTreeMap;
use std::marker::Model;

/// Pvalues that were reported, each once, in the order in which they came.
///
/// For a slot and a ballot `starts` has an index before which no pvalue of theirs stands, so that a look-up need not
/// read what is before. What was taken back for want of memory can leave an index beyond the end, which stands for it.
#[derive(Drop)]
pub(crate) struct Gathered<C> {
    pvalues: Vec<Pvalue<C>>,
    starts: BTreeMap<(Slot, Ballot), usize>,
}

impl<C> Model for Gathered<C> {
    ghost use Rattle.std.specs.Prelude.{List};
    ghost use Rattle.ballot.specs.declared.pvalue.Pvalue.{Pvalue};
    ghost use Rattle.scout_commander.specs.Starts.{IsIndexOf};

    ghost Value = { List (Pvalue C) };

    ghost view = { λ g. g.pvalues.items };

    ghost invariant = { λ g. IsIndexOf g.starts g.pvalues.items };
}

impl<C: Value> Gathered<C> {
    /// None.
    pub(crate) fn new(alloc: Global) -> Self
        ensures { result ≡ [] }
    {
        Gathered {
            pvalues: Vec::new(alloc),
            starts: BTreeMap::new(alloc),
        }
    }

    /// The pvalues.
    pub(crate) fn as_slice(&self) -> &[Pvalue<C>]
        ensures { result.now ≡ self.now }
    {
        self.pvalues.as_slice()
    }

    /// The pvalues, without what tells where to look.
    pub(crate) fn into_vec(self) -> Vec<Pvalue<C>>
        ensures { result.items ≡ self }
    {
        self.pvalues
    }

    /// Puts in what is new of the report.
    pub(crate) fn gather(&mut self, report: &[Pvalue<C>]) -> Result<(), AllocError>
        ensures kept { Becomes result self.old self.new (self.old ++ beyond self.old self.new) }
        ensures fresh { OnOk result (IsFresh self.old report.now (beyond self.old self.new)) }
        ensures known { OnErr result (HasNews self.old report.now) }
    {
        let len = self.pvalues.len();
        let gathered = self.append_new(report);
        if gathered.is_err() {
            self.pvalues.truncate(len);
        }
        gathered
    }

    // The same, but for what was put in before memory ran out.
    fn append_new(&mut self, report: &[Pvalue<C>]) -> Result<(), AllocError>
        ensures kept { self.new ≡ self.old ++ beyond self.old self.new }
        ensures fresh { OnOk result (IsFresh self.old report.now (beyond self.old self.new)) }
        ensures known { OnErr result (HasNews self.old report.now) }
    {
        for pvalue in report {
            if !self.contains(pvalue) {
                self.push(pvalue.copy()?)?;
            }
        }
        Ok(())
    }

    /// Whether the pvalue is one of them.
    fn contains(&self, pvalue: &Pvalue<C>) -> bool
        ensures { (result ≡ true) ↔ In pvalue.now self.now }
    {
        let start = start(&self.starts, pvalue.slot, pvalue.ballot, self.pvalues.len());
        self.pvalues[start..].contains(pvalue)
    }

    /// Puts one more at the end.
    fn push(&mut self, pvalue: Pvalue<C>) -> Result<(), AllocError>
        ensures ok { Becomes result self.old self.new (self.old ++ pvalue ∷ []) }
    {
        let len = self.pvalues.len();
        note_end(&mut self.starts, pvalue.slot, pvalue.ballot, len)?;
        self.pvalues.push(pvalue)?;
        Ok(())
    }

    /// Forgets the slots below the base. It takes no memory.
    pub(crate) fn forget(&mut self, base: u64)
        ensures { self.new ≡ pvalues_from base self.old }
    {
        if are_from(base, &self.pvalues) {
            return;
        }
        self.pvalues.retain(|pvalue| pvalue.slot.number() >= base);
        drop_starts(&mut self.starts, base);
        set_starts(&mut self.starts, &self.pvalues);
    }

    /// The same pvalues once more.
    pub(crate) fn copy(&self) -> Result<Self, AllocError>
        ensures { IfOk result (λ gathered. gathered ≡ self.now) }
    {
        let mut copy = Gathered::new(*self.pvalues.allocator());
        let pvalues = self.pvalues.as_slice();
        for pvalue in pvalues {
            copy.push(pvalue.copy()?)?;
        }
        Ok(copy)
    }
}

/// Where to begin to look, among so many pvalues, for those of this slot and ballot.
fn start(starts: &BTreeMap<(Slot, Ballot), usize>, slot: Slot, ballot: Ballot, len: usize) -> usize
    ensures { result ≡ start starts.now (slot, ballot) len }
{
    starts.get(&(slot, ballot)).copied().unwrap_or(len).min(len)
}

/// Notes that of this slot and ballot a pvalue comes after so many, unless one is among them.
fn note_end(
    starts: &mut BTreeMap<(Slot, Ballot), usize>,
    slot: Slot,
    ballot: Ballot,
    len: usize,
) -> Result<(), AllocError>
    ensures noted { OnOk result (start starts.new (slot, ballot) (len + 1) ≤ len) }
    ensures same { (place : ℕ × Numbers) → start starts.new place len
        ≡ start starts.old place len }
{
    if start(starts, slot, ballot, len) == len {
        starts.insert((slot, ballot), len)?;
    }
    Ok(())
}

/// Whether no slot of the pvalues is below the base.
fn are_from<C>(base: u64, pvalues: &[Pvalue<C>]) -> bool
    ensures { result ≡ list_all (λ p. nat_le base p.slot) pvalues.now }
{
    pvalues.iter().all(|pvalue| pvalue.slot.number() >= base)
}

/// Drops the indices of the slots below the base.
fn drop_starts(starts: &mut BTreeMap<(Slot, Ballot), usize>, base: u64)
    ensures { (place : ℕ × Numbers) → base ≤ place.0
        → get place_cmp starts.new place ≡ get place_cmp starts.old place }
{
    while let Some(((slot, _), _)) = starts.first_key_value() {
        if slot.number() >= base {
            return;
        }
        starts.pop_first();
    }
}

/// Sets the index of each slot and ballot of the pvalues anew, to that of their first pvalue.
fn set_starts<C>(starts: &mut BTreeMap<(Slot, Ballot), usize>, pvalues: &[Pvalue<C>])
    requires { HasStarts starts.old pvalues.now }
    ensures { IsIndexOf starts.new pvalues.now }
{
    // The first pvalue is put last, and stays.
    for index in (0..pvalues.len()).rev() {
        let pvalue = &pvalues[index];
        set_start(starts, pvalue.slot, pvalue.ballot, index);
    }
}

/// Sets the index of this slot and ballot, where one is kept.
fn set_start(starts: &mut BTreeMap<(Slot, Ballot), usize>, slot: Slot, ballot: Ballot, index: usize)
    ensures { (place : ℕ × Numbers) → get place_cmp starts.new place
        ≡ (if is_at (place_cmp (slot, ballot)) place && is_some (get place_cmp starts.old place)
        then Some index else get place_cmp starts.old place) }
{
    if let Some(start) = starts.get_mut(&(slot, ballot)) {
        *start = index;
    }
}
