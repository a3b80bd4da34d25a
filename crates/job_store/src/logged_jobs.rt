ghost use Rattle.std.specs.Prelude.{◌≡◌, ◌^◌, [], None, Some, IsSome, is_some, IfOk, OnOk, OnErr, option_copied};
ghost use Rattle.job_store.specs.Entries.{Rising, value_at, with_value, altered, without};
ghost use Rattle.job_store.specs.States.{marked, marked_at};

use crate::change::Change;
use crate::changes::{make, set_state};
use crate::job::Job;
use crate::mark::Mark;
use crate::state::State;
use crate::stored_job::StoredJob;
use crate::undo::{Undo, put, undo_all};
use object::Value;
use std::alloc::{AllocError, Global};
use std::collections::BTreeMap;
use std::marker::Model;

/// A map of jobs by id, with the log by which the changes of a trial are taken back.
///
/// `jobs` is what it holds. What changes the map fails for want of memory alone, and then changes nothing. `before`
/// is what the map goes back to from a trial; outside a trial it is `None`.
#[derive(Drop)]
pub struct LoggedJobs {
    alloc: Global,
    jobs: BTreeMap<u64, StoredJob>,
    is_trial: bool,
    /// What takes back the changes of the trial.
    log: Vec<Undo>,
}

impl Model for LoggedJobs {
    ghost use Rattle.std.specs.Prelude.{◌^◌};
    ghost use Rattle.job_store.specs.Entries.{Rising};
    ghost use Rattle.job_store.specs.Undone.{MapState, with_log};

    ghost Value = { MapState };

    ghost view = { λ m. with_log m.is_trial m.log.items m.jobs.entries };

    ghost invariant = { λ m. Rising 0 (2 ^ 64) m.jobs.entries };
}

/// The same jobs under the same ids.
fn copy_of(
    alloc: Global,
    jobs: &BTreeMap<u64, StoredJob>,
) -> Result<BTreeMap<u64, StoredJob>, AllocError>
    requires { Rising 0 (2 ^ 64) jobs.now.entries }
    ensures { IfOk result (λ copy. copy.entries ≡ jobs.now.entries) }
{
    let mut copy = BTreeMap::new(alloc);
    for (id, stored) in jobs {
        let job = stored.as_job().copy()?;
        copy.insert(*id, StoredJob::new(alloc, job)?)?;
    }
    Ok(copy)
}

impl LoggedJobs {
    /// A map with no jobs.
    pub fn new(alloc: Global) -> Self
        ensures jobs { result.jobs ≡ [] }
        ensures before { result.before ≡ None }
    {
        LoggedJobs::of(alloc, BTreeMap::new(alloc))
    }

    /// A map of these jobs, in no trial.
    fn of(alloc: Global, jobs: BTreeMap<u64, StoredJob>) -> Self
        requires { Rising 0 (2 ^ 64) jobs.entries }
        ensures jobs { result.jobs ≡ jobs.entries }
        ensures before { result.before ≡ None }
    {
        LoggedJobs {
            alloc,
            jobs,
            is_trial: false,
            log: Vec::new(alloc),
        }
    }

    /// The same map once more, in no trial.
    pub fn copy(&self) -> Result<Self, AllocError>
        ensures jobs { IfOk result (λ copy. copy.jobs ≡ self.now.jobs) }
        ensures before { IfOk result (λ copy. copy.before ≡ None) }
    {
        let jobs = copy_of(self.alloc, &self.jobs)?;
        Ok(LoggedJobs::of(self.alloc, jobs))
    }

    /// Begins a trial. One that is on ends, and its changes stay.
    pub fn begin(&mut self)
        ensures jobs { self.new.jobs ≡ self.old.jobs }
        ensures before { self.new.before ≡ Some self.old.jobs }
    {
        self.is_trial = true;
        self.log.clear();
    }

    /// Ends the trial, if one is on. The changes stay.
    pub fn commit(&mut self)
        ensures jobs { self.new.jobs ≡ self.old.jobs }
        ensures before { self.new.before ≡ None }
    {
        self.is_trial = false;
        self.log.clear();
    }

    /// Ends the trial, and takes its changes back.
    pub fn roll_back(&mut self)
        requires { IsSome self.old.before }
        ensures jobs { Some self.new.jobs ≡ self.old.before }
        ensures before { self.new.before ≡ None }
    {
        undo_all(&mut self.jobs, &mut self.log);
        self.is_trial = false;
    }

    /// Whether a trial is on.
    pub fn is_trial(&self) -> bool
        ensures { result ≡ is_some self.now.before }
    {
        self.is_trial
    }

    /// All jobs, by rising id.
    pub fn by_id(&self) -> &BTreeMap<u64, StoredJob>
        ensures jobs { result.now.entries ≡ self.now.jobs }
        ensures rising { Rising 0 (2 ^ 64) self.now.jobs }
    {
        &self.jobs
    }

    /// The job at an id.
    pub fn get(&self, id: u64) -> Option<&Job>
        ensures { option_copied result ≡ value_at id self.now.jobs }
    {
        self.jobs.get(&id).map(StoredJob::as_job)
    }

    /// Puts a job at an id, in the place of the one that may be there.
    pub fn insert(&mut self, id: u64, job: Job) -> Result<(), AllocError>
        ensures ok { OnOk result (self.new.jobs ≡ with_value id job self.old.jobs) }
        ensures err { OnErr result (self.new.jobs ≡ self.old.jobs) }
        ensures rising { Rising 0 (2 ^ 64) self.new.jobs }
        ensures before { self.new.before ≡ self.old.before }
    {
        let stored = StoredJob::new(self.alloc, job)?;
        if self.is_trial {
            put(&mut self.jobs, &mut self.log, id, stored)?;
            return Ok(());
        }
        self.jobs.insert(id, stored)?;
        Ok(())
    }

    /// Sets the state of the job at an id, with this mark in its history, if there is one.
    pub fn set_state(&mut self, id: u64, state: State, mark: Mark) -> Result<(), AllocError>
        ensures ok { OnOk result (self.new.jobs ≡ altered id (marked state mark) self.old.jobs) }
        ensures err { OnErr result (self.new.jobs ≡ self.old.jobs) }
        ensures there { OnErr result (IsSome (value_at id self.old.jobs)) }
        ensures rising { Rising 0 (2 ^ 64) self.new.jobs }
        ensures before { self.new.before ≡ self.old.before }
    {
        set_state(
            &mut self.jobs,
            &mut self.log,
            self.is_trial,
            id,
            state,
            mark,
        )?;
        Ok(())
    }

    /// Sets the priority and the state of the job at an id, with this mark in its history, if there is one.
    pub fn set(&mut self, id: u64, pri: u32, state: State, mark: Mark) -> Result<(), AllocError>
        ensures ok { OnOk result (self.new.jobs
            ≡ altered id (marked_at pri state mark) self.old.jobs) }
        ensures err { OnErr result (self.new.jobs ≡ self.old.jobs) }
        ensures there { OnErr result (IsSome (value_at id self.old.jobs)) }
        ensures rising { Rising 0 (2 ^ 64) self.new.jobs }
        ensures before { self.new.before ≡ self.old.before }
    {
        let change = Change {
            id,
            pri,
            state,
            mark,
        };
        make(&mut self.jobs, &mut self.log, self.is_trial, &change)?;
        Ok(())
    }

    /// Takes out the job at an id. It can't be taken back: a trial that is on ends, and its changes stay.
    pub fn remove(&mut self, id: u64) -> Option<Job>
        ensures job { result ≡ value_at id self.old.jobs }
        ensures jobs { self.new.jobs ≡ without id self.old.jobs }
        ensures before { self.new.before ≡ None }
    {
        self.commit();
        self.jobs.remove(&id).map(StoredJob::into_job)
    }
}
