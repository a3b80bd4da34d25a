ghost use Rattle.std.specs.Prelude.{◌≡◌, IfOk};
ghost use Rattle.job_store.specs.Undone.{set_to};

use crate::history::History;
use crate::job::Job;
use crate::state::State;
use std::alloc::{AllocError, Global};
use std::marker::Model;

/// A job in a block of its own. Where ids rise, the nodes of the tree are half full, so they hold no more than where a job
/// lies.
#[derive(Drop)]
pub struct StoredJob {
    job: Box<Job>,
}

impl Model for StoredJob {
    ghost use Rattle.job_store.specs.declared.job.Job.{Job};

    ghost Value = { Job };

    ghost view = { λ s. s.job.value };
}

impl StoredJob {
    /// Stores a job.
    pub(crate) fn new(alloc: Global, job: Job) -> Result<StoredJob, AllocError>
        ensures { IfOk result (λ stored. stored ≡ job) }
    {
        Ok(StoredJob {
            job: Box::new(alloc, job)?,
        })
    }

    /// The job.
    pub fn as_job(&self) -> &Job
        ensures { result.now ≡ self.now }
    {
        &self.job
    }

    /// The job, which is stored no more.
    pub(crate) fn into_job(self) -> Job
        ensures { result ≡ self }
    {
        Box::into_inner(self.job)
    }

    /// Sets the priority, the state and the history of the job.
    pub(crate) fn set(&mut self, pri: u32, state: State, history: History)
        ensures { self.new ≡ set_to pri state history self.old }
    {
        self.job.pri = pri;
        self.job.state = state;
        self.job.history = history;
    }
}
