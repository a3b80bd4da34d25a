ghost use Rattle.std.specs.Prelude.{◌≡◌, Some, IsSome, IfOk, option_map};
ghost use Rattle.job_store.specs.Entries.{value_at};
ghost use Rattle.job_store.specs.LookUps.{first_ready, first_delayed, first_buried};
ghost use Rattle.bean_queue.specs.Queue.{used_by};
ghost use Rattle.bean_queue.specs.Rows.{shown, at_id};

use crate::logic::Logic;
use bean_words::Reply;
use job_store::{Job, JobMap};
use object::Value;
use std::alloc::AllocError;

/// The reply that shows a job, under its id.
fn shown(found: Option<(u64, &Job)>) -> Result<Reply, AllocError>
    ensures { IfOk result (λ reply. reply ≡ shown (option_map (λ e. (e.0, e.1.now)) found.entry)) }
{
    match found {
        Some((id, job)) => Ok(Reply::Found {
            id,
            body: job.body.copy()?,
        }),
        None => Ok(Reply::NotFound),
    }
}

impl<M: JobMap> Logic<M> {
    /// Shows a job.
    pub fn peek(&self, id: u64) -> Result<Reply, AllocError>
        ensures { IfOk result (λ reply. reply ≡ shown (at_id id self.now.now.jobs)) }
    {
        match self.jobs.map().get(id) {
            Some(job) => shown(Some((id, job))),
            None => Ok(Reply::NotFound),
        }
    }

    /// Shows the next ready job of the tube that a session uses.
    pub fn peek_ready(&self, session: u32) -> Result<Reply, AllocError>
        requires { IsSome (value_at session self.now.now.sessions) }
        ensures { IfOk result (λ reply. reply
            ≡ shown (first_ready (used_by self.now.now session) self.now.now.jobs)) }
    {
        shown(self.jobs.map().first_ready(&self.session(session).used))
    }

    /// Shows the delayed job of the tube that a session uses that is ready first.
    pub fn peek_delayed(&self, session: u32) -> Result<Reply, AllocError>
        requires { IsSome (value_at session self.now.now.sessions) }
        ensures { IfOk result (λ reply. reply
            ≡ shown (first_delayed (used_by self.now.now session) self.now.now.jobs)) }
    {
        shown(self.jobs.map().first_delayed(&self.session(session).used))
    }

    /// Shows the job of the tube that a session uses that was buried first.
    pub fn peek_buried(&self, session: u32) -> Result<Reply, AllocError>
        requires { IsSome (value_at session self.now.now.sessions) }
        ensures { IfOk result (λ reply. reply
            ≡ shown (first_buried (used_by self.now.now session) self.now.now.jobs)) }
    {
        shown(self.jobs.map().first_buried(&self.session(session).used))
    }
}
