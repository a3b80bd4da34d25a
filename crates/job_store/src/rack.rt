ghost use Rattle.std.specs.Prelude.{◌≡◌, ◌^◌, [], true, map, IfOk, OnOk, IfSome, IfNone};
ghost use Rattle.job_store.specs.Entries.{Rising};
ghost use Rattle.job_store.specs.ShelfStates.{bare, numbered_place, IsFound, HasGained, HasLost, HasReached, IsFrom};
ghost use Rattle.job_store.specs.Shelves.{belongs, number, CanLookUp, FindsFirst, HasMovedOn};
ghost use Rattle.job_store.specs.Racks.{shelf_at, ChangesOne};
ghost use Rattle.job_store.specs.Counts.{count_of, AreApart, AreCounted};

use crate::count::Count;
use crate::job::Job;
use crate::label::Label;
use crate::shelf::Shelf;
use crate::shelf_number::ShelfNumber;
use crate::stored_job::StoredJob;
use bean_words::Name;
use object::Value;
use std::alloc::{AllocError, Global};
use std::collections::{BTreeMap, BTreeSet};

/// What shelves are told apart by.
pub trait ShelfName: Ord + Drop + Sized {
    /// The same name once more.
    fn copy_name(&self) -> Result<Self, AllocError>
        ensures { IfOk result (λ name. name ≡ self.now) };

    ghost exact: { (x y : Self) → Self.eq x y ≡ true → x ≡ y };
}

impl ShelfName for Name {
    ghost use Rattle.std.proofs.Common.{rules};
    ghost use Rattle.std.proofs.lemmas.Grind.{common_steps};

    ghost exact = { Prim.grind (rules, common_steps) };

    fn copy_name(&self) -> Result<Self, AllocError> {
        self.copy()
    }
}

impl ShelfName for u32 {
    ghost use Rattle.std.proofs.Common.{eqb-true};

    ghost exact = { eqb-true };

    fn copy_name(&self) -> Result<Self, AllocError> {
        Ok(*self)
    }
}

/// Shelves by name, as by tube or by session. A shelf is there while it has a place.
#[derive(Drop)]
pub struct Rack<K: ShelfName, N: ShelfNumber> {
    pub alloc: Global,
    pub shelves: BTreeMap<K, Shelf<N>>,
}

impl<K: ShelfName, N: ShelfNumber> Rack<K, N> {
    /// No shelves.
    pub fn new(alloc: Global) -> Rack<K, N>
        ensures { (k : K) → shelf_at K.cmp result.shelves k ≡ bare }
    {
        Rack {
            alloc,
            shelves: BTreeMap::new(alloc),
        }
    }

    /// Adds a place to a shelf, unless it is there.
    pub fn put(&mut self, key: &K, number: N, id: u64) -> Result<(), AllocError>
        ensures ok { OnOk result (IsFound (shelf_at K.cmp self.new.shelves key.now) (N.value number, id)) }
        ensures put { ChangesOne K.cmp key.now self.old.shelves self.new.shelves
            (λ old new. HasGained old new (N.value number, id)) }
    {
        if let Some(shelf) = self.shelves.get_mut(key) {
            shelf.put(number, id)?;
            return Ok(());
        }
        let mut shelf = Shelf::new(self.alloc);
        shelf.put(number, id)?;
        self.shelves.insert(key.copy_name()?, shelf)?;
        Ok(())
    }

    /// Takes a place from a shelf, if it is there.
    pub fn take(&mut self, key: &K, number: N, id: u64)
        ensures { ChangesOne K.cmp key.now self.old.shelves self.new.shelves
            (λ old new. HasLost old new (N.value number, id)) }
    {
        let Some(shelf) = self.shelves.get_mut(key) else {
            return;
        };
        shelf.take(number, id);
        if shelf.is_empty() {
            self.shelves.remove(key);
        }
    }

    /// Whether look-ups of a shelf begin after a place.
    pub fn is_behind(&self, key: &K, number: N, id: u64) -> bool
        ensures { result ≡ true
            → IsFrom (shelf_at K.cmp self.now.shelves key.now).from (N.value number, id) → ⊥ }
    {
        match self.shelves.get(key) {
            Some(shelf) => shelf.is_behind(number, id),
            None => false,
        }
    }

    /// Lets look-ups of a shelf begin at a place, if they begin after it.
    pub fn reach(&mut self, key: &K, number: N, id: u64)
        ensures { ChangesOne K.cmp key.now self.old.shelves self.new.shelves
            (λ old new. HasReached old new (N.value number, id)) }
    {
        if let Some(shelf) = self.shelves.get_mut(key) {
            shelf.reach(number, id);
        }
    }

    /// Lets look-ups of a shelf begin after the places that were left, as far as the first job stands behind them. A job has
    /// left this place.
    pub fn settle(
        &mut self,
        key: &K,
        label: Label,
        jobs: &BTreeMap<u64, StoredJob>,
        number: N,
        id: u64,
    )
        requires { Rising 0 (2 ^ 64) jobs.now.entries }
        ensures { ChangesOne K.cmp key.now self.old.shelves self.new.shelves
            (HasMovedOn label.entry jobs.now.entries) }
    {
        if let Some(shelf) = self.shelves.get_mut(key) {
            shelf.settle(label, jobs, number, id);
        }
    }

    /// The places on a shelf, if there are any.
    pub fn places(&self, key: &K) -> Option<&BTreeSet<(N, u64)>>
        ensures some { IfSome result (λ set. map (numbered_place N.value) set.now.keys
            ≡ (shelf_at K.cmp self.now.shelves key.now).places) }
        ensures filled { IfSome result (λ set. set.now.keys ≡ [] → ⊥) }
        ensures none { IfNone result ((shelf_at K.cmp self.now.shelves key.now).places ≡ []) }
    {
        match self.shelves.get(key) {
            Some(shelf) if !shelf.places().is_empty() => Some(shelf.places()),
            _ => None,
        }
    }

    /// How many places there are on a shelf. None is there twice.
    pub fn count(&self, key: &K) -> Count
        ensures count { result ≡ count_of (shelf_at K.cmp self.now.shelves key.now).places }
        ensures apart { AreApart (shelf_at K.cmp self.now.shelves key.now).places }
    {
        match self.shelves.get(key) {
            Some(shelf) => shelf.count(),
            None => Count::NONE,
        }
    }

    /// How many places there are on all shelves. It goes over the shelves.
    pub fn count_all(&self) -> Count
        ensures { AreCounted K.cmp self.now.shelves result }
    {
        let mut count = Count::NONE;
        for (_, shelf) in &self.shelves {
            let more = shelf.count();
            count = Count {
                all: count.all.saturating_add(more.all),
                low: count.low.saturating_add(more.low),
            };
        }
        count
    }

    /// The first of the jobs that belong on a shelf, where a look-up finds all of them.
    pub fn first<'a>(
        &self,
        key: &K,
        label: Label,
        jobs: &'a BTreeMap<u64, StoredJob>,
    ) -> Option<(u64, &'a Job)>
        requires { CanLookUp label (shelf_at K.cmp self.now.shelves key.now) jobs.now.entries }
        ensures { FindsFirst (belongs label.entry) (number label.entry) jobs.now.entries result }
    {
        match self.shelves.get(key) {
            Some(shelf) => shelf.first(label, jobs),
            None => None,
        }
    }
}
