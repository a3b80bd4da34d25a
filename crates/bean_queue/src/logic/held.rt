ghost use Rattle.std.specs.Prelude.{◌≡◌, ◌^◌, ◌==◌, false};
ghost use Rattle.job_store.specs.Entries.{value_at};
ghost use Rattle.job_store.specs.States.{is_held};
ghost use Rattle.bean_queue.specs.Rows.{is_job_that, may_delete, delete_row, touch_row, release_row, bury_row, reserve_job_row};
ghost use Rattle.bean_queue.specs.Calls.{DoesRow, DraftsRow};

use crate::logic::Logic;
use crate::logic::put::ready_after;
use bean_words::Reply;
use job_store::{JobMap, Mark, State};
use object::Value;
use std::alloc::AllocError;
use tube_store::TubeMark;

/// Whether the session may delete a job in this state: nobody else has it.
fn may_delete(session: u32, state: State) -> bool
    ensures { result ≡ may_delete session state }
{
    match state {
        State::Reserved {
            session: holder,
            ..
        } => session == holder,
        State::Ready | State::Delayed { .. } | State::Buried { .. } => true,
    }
}

impl<M: JobMap> Logic<M> {
    /// Whether the session has the job with this id.
    fn has(&self, session: u32, id: u64) -> bool
        ensures { result ≡ is_job_that (is_held session) (value_at id self.now.now.jobs) }
    {
        match self.jobs.map().get(id) {
            Some(job) => job.state.is_held_by(session),
            None => false,
        }
    }

    /// Deletes a job.
    #[tactic(auto, unfolding(crate::specs::Rows::delete_row))]
    pub fn delete(&mut self, session: u32, id: u64) -> Result<Reply, AllocError>
        ensures { DoesRow self.old self.new (delete_row self.old.now session id) result }
    {
        match self.jobs.map().get(id) {
            Some(job) if may_delete(session, job.state) => {
                let tube = job.tube.copy()?;
                self.tubes.mark(&tube, TubeMark::Deleted)?;
                self.jobs.remove_for_good(id);
                self.settle(&tube);
                Ok(Reply::Deleted)
            }
            _ => Ok(Reply::NotFound),
        }
    }

    /// Lets the time to run of a job begin anew.
    #[tactic(auto, unfolding(crate::specs::Rows::touch_row))]
    pub fn touch(&mut self, session: u32, id: u64) -> Result<Reply, AllocError>
        ensures { DraftsRow self.old self.new (touch_row self.old.now session id) result }
    {
        match self.jobs.map().get(id) {
            Some(job) if job.state.is_held_by(session) => {
                let due = self.counters.now + u64::from(job.ttr);
                let state = State::Reserved { session, due };
                self.jobs.set_state(id, state, Mark::Nothing)?;
                Ok(Reply::Touched)
            }
            _ => Ok(Reply::NotFound),
        }
    }

    /// Gives a job back.
    #[tactic(auto, unfolding(crate::specs::Rows::release_row))]
    pub fn release(
        &mut self,
        session: u32,
        id: u64,
        pri: u32,
        delay: u32,
    ) -> Result<Reply, AllocError>
        ensures { DraftsRow self.old self.new
            (release_row self.old.now session id pri delay) result }
    {
        if !self.has(session, id) {
            return Ok(Reply::NotFound);
        }
        let state = ready_after(self.counters.now, delay);
        self.jobs.set(id, pri, state, Mark::Released { delay })?;
        Ok(Reply::Released)
    }

    /// Lays a job aside, where a rank is left.
    #[tactic(auto, unfolding(crate::specs::Rows::bury_row))]
    pub fn bury(&mut self, session: u32, id: u64, pri: u32) -> Result<Reply, AllocError>
        requires { (self.old.now.next_rank == 2 ^ 63) ≡ false }
        ensures { DraftsRow self.old self.new (bury_row self.old.now session id pri) result }
    {
        let rank = self.counters.next_rank;
        if !self.has(session, id) {
            return Ok(Reply::NotFound);
        }
        self.jobs
            .set(id, pri, State::Buried { rank }, Mark::Buried)?;
        self.counters.next_rank = rank + 1;
        Ok(Reply::Buried)
    }

    /// Gives a session a job that nobody has.
    #[tactic(auto, unfolding(crate::specs::Rows::reserve_job_row))]
    pub fn reserve_job(&mut self, session: u32, id: u64) -> Result<Reply, AllocError>
        ensures { DraftsRow self.old self.new (reserve_job_row self.old.now session id) result }
    {
        match self.jobs.map().get(id) {
            Some(job) if !job.state.is_reserved() => {
                let body = job.body.copy()?;
                let due = self.counters.now + u64::from(job.ttr);
                let state = State::Reserved { session, due };
                self.jobs.set_state(id, state, Mark::Reserved)?;
                Ok(Reply::Reserved { id, body })
            }
            _ => Ok(Reply::NotFound),
        }
    }
}
