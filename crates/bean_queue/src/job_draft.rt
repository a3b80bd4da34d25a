ghost use Rattle.std.specs.Prelude.{◌≡◌, ◌^◌, [], IsSome};
ghost use Rattle.job_store.specs.Entries.{Rising, with_value, altered, without};
ghost use Rattle.job_store.specs.States.{marked, marked_at};
ghost use Rattle.session_store.specs.Drafts.{DraftsState, IsKept, KeepsDraft, TakesDraftBack};

use job_store::{Job, JobMap, Mark, State};
use std::alloc::{AllocError, Global};
use std::marker::Model;

/// A map of jobs whose changes can be taken back until they are kept. That takes no memory.
#[derive(Drop)]
pub(crate) struct JobDraft<M: JobMap> {
    jobs: M,
}

impl<M: JobMap> Model for JobDraft<M> {
    ghost use Rattle.std.specs.Prelude.{ℕ, List, [], IsSome, unwrap_or};
    ghost use Rattle.job_store.specs.declared.job.Job.{Job};
    ghost use Rattle.session_store.specs.Drafts.{Draft};

    ghost Value = { Draft (List (ℕ × Job)) };

    ghost view = { λ d. record { now = M.entries d.jobs; before = unwrap_or (M.before d.jobs) [] } };

    ghost invariant = { λ d. IsSome (M.before d.jobs) };
}

impl<M: JobMap> JobDraft<M> {
    /// No jobs.
    pub fn new(alloc: Global) -> Self
        ensures { IsKept result [] }
    {
        let mut jobs = M::new(alloc);
        jobs.begin();
        JobDraft { jobs }
    }

    /// The map.
    pub fn map(&self) -> &M
        ensures jobs { M.entries result.now ≡ self.now.now }
        ensures rising { Rising 0 (2 ^ 64) self.now.now }
    {
        // All jobs are looked at for a clause alone: their ids rise.
        let _ = self.jobs.by_id();
        &self.jobs
    }

    /// Puts a job at an id.
    pub fn insert(&mut self, id: u64, job: Job) -> Result<(), AllocError>
        ensures { DraftsState self.old self.new (with_value id job self.old.now) result }
    {
        self.jobs.insert(id, job)
    }

    /// Sets the priority and the state of the job at an id, with this mark in its history, if there is one.
    pub fn set(&mut self, id: u64, pri: u32, state: State, mark: Mark) -> Result<(), AllocError>
        ensures { DraftsState self.old self.new
            (altered id (marked_at pri state mark) self.old.now) result }
    {
        self.jobs.set(id, pri, state, mark)
    }

    /// Sets the state of the job at an id, with this mark in its history, if there is one.
    pub fn set_state(&mut self, id: u64, state: State, mark: Mark) -> Result<(), AllocError>
        ensures { DraftsState self.old self.new (altered id (marked state mark) self.old.now) result }
    {
        self.jobs.set_state(id, state, mark)
    }

    /// Keeps all changes.
    pub fn keep(&mut self)
        ensures { KeepsDraft self.old self.new }
    {
        self.jobs.begin();
    }

    /// Keeps all changes, and takes out the job at an id. That can't be taken back.
    pub fn remove_for_good(&mut self, id: u64)
        ensures { IsKept self.new (without id self.old.now) }
    {
        self.jobs.remove(id);
        self.jobs.begin();
    }

    /// Takes back all changes since they were kept last.
    pub fn take_back(&mut self)
        ensures { TakesDraftBack self.old self.new }
    {
        self.jobs.roll_back();
        self.jobs.begin();
    }
}
