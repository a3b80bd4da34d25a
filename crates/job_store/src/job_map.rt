ghost use Rattle.std.specs.Prelude.{◌≡◌, ◌^◌, ◌⊎◌, ℕ, true, List, [], ◌∷◌, Option, None, Some, IsSome, IfOk, OnOk, OnErr, IfSome, IfNone, option_map, option_copied};
ghost use Rattle.std.specs.Map.{keys_of};
ghost use Rattle.object.specs.Lists.{In};
ghost use Rattle.job_store.specs.declared.job.Job.{Job};
ghost use Rattle.job_store.specs.Entries.{Rising, value_at, with_value, altered, without};
ghost use Rattle.job_store.specs.States.{marked, marked_at};
ghost use Rattle.job_store.specs.Least.{IsLeast, NonePasses};
ghost use Rattle.job_store.specs.LookUps.{ready_in, delayed_in, buried_in, due_by, due_after, held_by, pri_of_job, due_of_job, rank_of_job, not_paused, best_ready, first_ready, first_delayed, first_buried, first_due, first_due_after, first_held, has_jobs};
ghost use Rattle.job_store.specs.Tallies.{tally_in, tally_all};

use crate::job::Job;
use crate::mark::Mark;
use crate::state::State;
use crate::stored_job::StoredJob;
use crate::tally::Tally;
use bean_words::Name;
use indexmap::IndexSet;
use std::alloc::{AllocError, Global};
use std::collections::{BTreeMap, BTreeSet};

/// A map of jobs by id, which finds the least of some jobs.
///
/// `entries` is what it holds, each job under its id. No look-up takes memory. What changes the map fails for want
/// of memory alone, and then changes nothing.
///
/// In a trial the changes can be taken back, all of them, which takes no memory. `before` is what the map then goes
/// back to; outside a trial it is `None`.
pub trait JobMap: Drop + Sized {
    ghost entries: { Self → List (ℕ × Job) };

    ghost before: { Self → Option (List (ℕ × Job)) };

    /// A map with no jobs.
    fn new(alloc: Global) -> Self
        ensures jobs { entries result ≡ [] }
        ensures before { before result ≡ None };

    /// The same map once more, in no trial.
    fn copy(&self) -> Result<Self, AllocError>
        ensures jobs { IfOk result (λ copy. entries copy ≡ entries self.now) }
        ensures before { IfOk result (λ copy. before copy ≡ None) };

    /// Begins a trial. One that is on ends, and its changes stay.
    fn begin(&mut self)
        ensures jobs { entries self.new ≡ entries self.old }
        ensures before { before self.new ≡ Some (entries self.old) };

    /// Ends the trial, if one is on. The changes stay.
    fn commit(&mut self)
        ensures jobs { entries self.new ≡ entries self.old }
        ensures before { before self.new ≡ None };

    /// Ends the trial, and takes its changes back.
    fn roll_back(&mut self)
        requires { IsSome (before self.old) }
        ensures jobs { Some (entries self.new) ≡ before self.old }
        ensures before { before self.new ≡ None };

    /// All jobs, by rising id.
    fn by_id(&self) -> &BTreeMap<u64, StoredJob>
        ensures jobs { result.now.entries ≡ entries self.now }
        ensures rising { Rising 0 (2 ^ 64) (entries self.now) };

    /// The job at an id.
    fn get(&self, id: u64) -> Option<&Job>
        ensures { option_copied result ≡ value_at id (entries self.now) };

    /// Puts a job at an id, in the place of the one that may be there.
    fn insert(&mut self, id: u64, job: Job) -> Result<(), AllocError>
        ensures ok { OnOk result (entries self.new ≡ with_value id job (entries self.old)) }
        ensures err { OnErr result (entries self.new ≡ entries self.old) }
        ensures before { before self.new ≡ before self.old };

    /// Sets the state of the job at an id, with this mark in its history, if there is one.
    fn set_state(&mut self, id: u64, state: State, mark: Mark) -> Result<(), AllocError>
        ensures ok { OnOk result (entries self.new
            ≡ altered id (marked state mark) (entries self.old)) }
        ensures err { OnErr result (entries self.new ≡ entries self.old) }
        ensures there { OnErr result (IsSome (value_at id (entries self.old))) }
        ensures before { before self.new ≡ before self.old };

    /// Sets the priority and the state of the job at an id, with this mark in its history, if there is one.
    fn set(&mut self, id: u64, pri: u32, state: State, mark: Mark) -> Result<(), AllocError>
        ensures ok { OnOk result (entries self.new
            ≡ altered id (marked_at pri state mark) (entries self.old)) }
        ensures err { OnErr result (entries self.new ≡ entries self.old) }
        ensures there { OnErr result (IsSome (value_at id (entries self.old))) }
        ensures before { before self.new ≡ before self.old };

    /// Takes out the job at an id. It can't be taken back: a trial that is on ends, and its changes stay.
    fn remove(&mut self, id: u64) -> Option<Job>
        ensures job { result ≡ value_at id (entries self.old) }
        ensures jobs { entries self.new ≡ without id (entries self.old) }
        ensures before { before self.new ≡ None };

    /// The best job for one who watches these tubes, and its id: of the ready ones in those of the tubes that are not
    /// paused, that of the least (priority, id). It takes no memory.
    fn best_ready(
        &self,
        tubes: &IndexSet<Name>,
        paused: &BTreeMap<Name, u64>,
    ) -> Option<(u64, &Job)>
        ensures job { option_map (λ e. (e.0, e.1.now)) result
            ≡ best_ready (not_paused (keys_of paused.now.entries) tubes.now.keys)
            (entries self.now) }
        ensures found { IfSome result (λ e.
            IsLeast (ready_in (not_paused (keys_of paused.now.entries) tubes.now.keys)) pri_of_job
            (entries self.now) (e.0, e.1.now)) }
        ensures none { IfNone result
            (NonePasses (ready_in (not_paused (keys_of paused.now.entries) tubes.now.keys))
            (entries self.now)) };

    /// The tube's ready job of the least (priority, id).
    fn first_ready(&self, tube: &Name) -> Option<(u64, &Job)>
        ensures job { option_map (λ e. (e.0, e.1.now)) result
            ≡ first_ready tube.now (entries self.now) }
        ensures found { IfSome result
            (λ e. IsLeast (ready_in (tube.now ∷ [])) pri_of_job (entries self.now) (e.0, e.1.now)) }
        ensures none { IfNone result (NonePasses (ready_in (tube.now ∷ [])) (entries self.now)) };

    /// The tube's delayed job of the least (due, id).
    fn first_delayed(&self, tube: &Name) -> Option<(u64, &Job)>
        ensures job { option_map (λ e. (e.0, e.1.now)) result
            ≡ first_delayed tube.now (entries self.now) }
        ensures found { IfSome result
            (λ e. IsLeast (delayed_in tube.now) due_of_job (entries self.now) (e.0, e.1.now)) }
        ensures none { IfNone result (NonePasses (delayed_in tube.now) (entries self.now)) };

    /// The tube's buried job of the least (rank, id).
    fn first_buried(&self, tube: &Name) -> Option<(u64, &Job)>
        ensures job { option_map (λ e. (e.0, e.1.now)) result
            ≡ first_buried tube.now (entries self.now) }
        ensures found { IfSome result
            (λ e. IsLeast (buried_in tube.now) rank_of_job (entries self.now) (e.0, e.1.now)) }
        ensures none { IfNone result (NonePasses (buried_in tube.now) (entries self.now)) };

    /// Of the delayed and reserved jobs that are due at this second, that of the least (due, id).
    fn due(&self, second: u64) -> Option<(u64, &Job)>
        ensures job { option_map (λ e. (e.0, e.1.now)) result
            ≡ first_due second (entries self.now) }
        ensures found { IfSome result
            (λ e. IsLeast (due_by second) due_of_job (entries self.now) (e.0, e.1.now)) }
        ensures none { IfNone result (NonePasses (due_by second) (entries self.now)) };

    /// Of the delayed and reserved jobs that are due at this second and come after a place by (due, id), the first one.
    fn due_after(&self, second: u64, place: (u64, u64)) -> Option<(u64, &Job)>
        ensures job { option_map (λ e. (e.0, e.1.now)) result
            ≡ first_due_after second place (entries self.now) }
        ensures found { IfSome result
            (λ e. IsLeast (due_after second place) due_of_job (entries self.now) (e.0, e.1.now)) }
        ensures none { IfNone result (NonePasses (due_after second place) (entries self.now)) };

    /// Of the jobs that the session has, that of the least (due, id).
    fn first_held(&self, session: u32) -> Option<(u64, &Job)>
        ensures job { option_map (λ e. (e.0, e.1.now)) result
            ≡ first_held session (entries self.now) }
        ensures found { IfSome result
            (λ e. IsLeast (held_by session) due_of_job (entries self.now) (e.0, e.1.now)) }
        ensures none { IfNone result (NonePasses (held_by session) (entries self.now)) };

    /// Whether a job is in the tube. It takes no memory.
    fn has_jobs(&self, tube: &Name) -> bool
        ensures { result ≡ has_jobs tube.now (entries self.now) };

    /// How many jobs of the tube are in each state. It takes no memory.
    fn tally_in(&self, tube: &Name) -> Tally
        ensures { result ≡ tally_in tube.now (entries self.now) };

    /// How many of all jobs are in each state. It takes no memory.
    fn tally_all(&self) -> Tally
        ensures { result ≡ tally_all (entries self.now) };

    /// Puts the tubes that have jobs among the names.
    fn add_tubes(&self, names: &mut BTreeSet<Name>) -> Result<(), AllocError>
        ensures kept { (tube : List ℕ) → In tube names.old.keys → In tube names.new.keys }
        ensures only { (tube : List ℕ) → In tube names.new.keys
            → In tube names.old.keys ⊎ (has_jobs tube (entries self.now) ≡ true) }
        ensures all { OnOk result ((tube : List ℕ) → has_jobs tube (entries self.now) ≡ true
            → In tube names.new.keys) };
}
