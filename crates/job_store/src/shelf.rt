ghost use Rattle.std.specs.Prelude.{◌≡◌, ◌^◌, ◌&&◌, ℕ, true, map, nat_lt, OnOk, IfSome, if◌then◌else◌};
ghost use Rattle.object.specs.Lists.{In};
ghost use Rattle.job_store.specs.Entries.{Rising};
ghost use Rattle.job_store.specs.Least.{IsLeast};
ghost use Rattle.job_store.specs.ShelfStates.{bare, numbered_place, IsFound, HasGained, HasLost, HasReached, IsFrom};
ghost use Rattle.job_store.specs.Counts.{count_of, AreApart};
ghost use Rattle.job_store.specs.Shelves.{belongs, belongs_after, number, CanLookUp, FindsFirst, IsPassed, BeginsAtLeft, HasMovedOn};

use crate::count::Count;
use crate::job::Job;
use crate::label::Label;
use crate::shelf_number::ShelfNumber;
use crate::stored_job::StoredJob;
use crate::tally::URGENT_BELOW;
use std::alloc::{AllocError, Global};
use std::cmp::min;
use std::collections::{BTreeMap, BTreeSet};
use std::marker::Model;
use std::ops::Bound;

/// Places of jobs in their order. A place is a number, as the second that is due, and the id of a job.
///
/// A job may stand at places that it has left. So who looks for a job asks the map of jobs what stands at a place.
/// Before `from` there are left places alone, so a look-up begins there.
#[derive(Drop)]
pub struct Shelf<N: ShelfNumber> {
    places: BTreeSet<(N, u64)>,
    /// How many of the places have a number below 1024: of a shelf of ready jobs, the urgent ones.
    low: u64,
    from: (N, u64),
}

impl<N: ShelfNumber> Model for Shelf<N> {
    ghost use Rattle.std.specs.Prelude.{◌≡◌, map, length};
    ghost use Rattle.std.specs.List.{filter};
    ghost use Rattle.job_store.specs.ShelfStates.{ShelfState, numbered_place};
    ghost use Rattle.job_store.specs.Counts.{is_low};

    ghost Value = { ShelfState };

    ghost view = { λ s. record { places = map (numbered_place N.value) s.places.keys; from = numbered_place N.value s.from } };

    ghost invariant = { λ s. s.low ≡ length (filter (λ p. is_low (numbered_place N.value p)) s.places.keys) };
}

/// By how much the number of low places changes: by one, where a place of this number came or went, and it is below 1024.
fn low_change<N: ShelfNumber>(has_changed: bool, number: N) -> u64
    ensures { result ≡ (if has_changed && nat_lt (N.value number) 1024 then 1 else 0) }
{
    u64::from(has_changed && number.wide() < URGENT_BELOW)
}

impl<N: ShelfNumber> Shelf<N> {
    /// A shelf where nothing stands.
    pub fn new(alloc: Global) -> Shelf<N>
        ensures { result ≡ bare }
    {
        Shelf {
            places: BTreeSet::new(alloc),
            low: 0,
            from: (N::zero(), 0),
        }
    }

    /// Adds a place, unless it is there.
    pub fn put(&mut self, number: N, id: u64) -> Result<(), AllocError>
        ensures ok { OnOk result (IsFound self.new (N.value number, id)) }
        ensures gained { HasGained self.old self.new (N.value number, id) }
    {
        let is_new = self.places.insert((number, id))?;
        // Gives the proof that there are less than 2^63 places.
        let _ = self.places.len();
        self.low += low_change(is_new, number);
        self.reach(number, id);
        Ok(())
    }

    /// Takes a place out, if it is there. Where look-ups begin after all places, it takes out all: no job stands there.
    pub fn take(&mut self, number: N, id: u64)
        ensures { HasLost self.old self.new (N.value number, id) }
    {
        if self.is_behind(number, id) && self.is_left() {
            self.places.clear();
            self.low = 0;
            return;
        }
        let was_there = self.places.remove(&(number, id));
        self.low -= low_change(was_there, number);
    }

    /// Whether look-ups begin after the last place.
    fn is_left(&self) -> bool
        ensures { result ≡ true → (p : ℕ × ℕ) → IsFound self.now p → ⊥ }
    {
        // Gives the proof that the places are in order.
        let _ = self.places.len();
        match self.places.last() {
            Some(last) => self.is_behind(last.0, last.1),
            None => false,
        }
    }

    /// Whether look-ups begin after a place.
    pub fn is_behind(&self, number: N, id: u64) -> bool
        ensures { result ≡ true → IsFrom self.now.from (N.value number, id) → ⊥ }
    {
        (number, id) < self.from
    }

    /// Lets look-ups begin at a place, if they begin after it.
    pub fn reach(&mut self, number: N, id: u64)
        ensures { HasReached self.old self.new (N.value number, id) }
    {
        self.from = min(self.from, (number, id));
    }

    /// Lets look-ups begin after the places that were left, as far as the first job stands behind them. A job has left this
    /// place: mostly they began there, and then they begin right after it.
    pub fn settle(&mut self, label: Label, jobs: &BTreeMap<u64, StoredJob>, number: N, id: u64)
        requires { Rising 0 (2 ^ 64) jobs.now.entries }
        ensures { HasMovedOn label.entry jobs.now.entries self.old self.new }
    {
        if self.begins_at_left(label, jobs, number, id) {
            self.from = (number, id.saturating_add(1));
        } else {
            self.from = self.front(label, jobs);
        }
    }

    /// Whether look-ups begin at a place where no job stands.
    fn begins_at_left(
        &self,
        label: Label,
        jobs: &BTreeMap<u64, StoredJob>,
        number: N,
        id: u64,
    ) -> bool
        requires { Rising 0 (2 ^ 64) jobs.now.entries }
        ensures { result ≡ true
            → BeginsAtLeft label.entry jobs.now.entries self.now (N.value number, id) }
    {
        let begins = self.from.0.wide() == number.wide() && self.from.1 == id;
        begins && label.job_at(jobs, number.wide(), id).is_none()
    }

    /// The first place at which a job stands, or the last one where there is no job.
    fn front(&self, label: Label, jobs: &BTreeMap<u64, StoredJob>) -> (N, u64)
        requires { Rising 0 (2 ^ 64) jobs.now.entries }
        ensures { IsPassed label.entry jobs.now.entries self.now (numbered_place N.value result) }
    {
        let mut front = self.from;
        for place in self.places.range(self.from..) {
            front = *place;
            if label.job_at(jobs, place.0.wide(), place.1).is_some() {
                break;
            }
        }
        front
    }

    /// Whether nothing stands on the shelf.
    pub fn is_empty(&self) -> bool
        ensures { result ≡ true → (p : ℕ × ℕ) → In p self.now.places → ⊥ }
    {
        self.places.is_empty()
    }

    /// How many places there are. None is there twice.
    pub fn count(&self) -> Count
        ensures count { result ≡ count_of self.now.places }
        ensures apart { AreApart self.now.places }
    {
        Count {
            all: self.places.len() as u64,
            low: self.low,
        }
    }

    /// All places.
    pub fn places(&self) -> &BTreeSet<(N, u64)>
        ensures { map (numbered_place N.value) result.now.keys ≡ self.now.places }
    {
        &self.places
    }

    /// The first of the places that look-ups may find, if there are any: the first of all, or the one at which they begin.
    fn first_place(&self) -> Option<(N, u64)>
        ensures { IfSome result (λ place. (p : ℕ × ℕ) → IsFound self.now p
            → IsFrom (numbered_place N.value place) p) }
    {
        // Gives the proof that the places are in order.
        let _ = self.places.len();
        let place = self.places.first()?;
        if self.is_behind(place.0, place.1) {
            return Some(self.from);
        }
        Some(*place)
    }

    /// The job that belongs at the first place that look-ups may find, if there is one.
    fn at_first_place<'a>(
        &self,
        label: Label,
        jobs: &'a BTreeMap<u64, StoredJob>,
    ) -> Option<(u64, &'a Job)>
        requires { CanLookUp label self.now jobs.now.entries }
        ensures { IfSome result (λ e. IsLeast (belongs label.entry) (number label.entry)
            jobs.now.entries (e.0, e.1.now)) }
    {
        let place = self.first_place()?;
        let job = label.job_at(jobs, place.0.wide(), place.1)?;
        Some((place.1, job))
    }

    /// The first of the jobs that belong on the shelf, where a look-up finds all of them. It mostly stands at the first of
    /// the places that look-ups may find, which is found without a search.
    pub fn first<'a>(
        &self,
        label: Label,
        jobs: &'a BTreeMap<u64, StoredJob>,
    ) -> Option<(u64, &'a Job)>
        requires { CanLookUp label self.now jobs.now.entries }
        ensures { FindsFirst (belongs label.entry) (number label.entry) jobs.now.entries result }
    {
        if let Some(found) = self.at_first_place(label, jobs) {
            return Some(found);
        }
        for place in self.places.range(self.from..) {
            if let Some(job) = label.job_at(jobs, place.0.wide(), place.1) {
                return Some((place.1, job));
            }
        }
        None
    }

    /// The first of the jobs that belong on the shelf after a place, where a look-up finds all of them. It begins right
    /// after that place.
    pub fn first_after<'a>(
        &self,
        label: Label,
        jobs: &'a BTreeMap<u64, StoredJob>,
        after: (N, u64),
    ) -> Option<(u64, &'a Job)>
        requires { CanLookUp label self.now jobs.now.entries }
        ensures { FindsFirst (belongs_after label.entry (numbered_place N.value after))
            (number label.entry) jobs.now.entries result }
    {
        for place in self
            .places
            .range((Bound::Excluded(after), Bound::Unbounded))
        {
            if let Some(job) = label.job_at(jobs, place.0.wide(), place.1) {
                return Some((place.1, job));
            }
        }
        None
    }
}
