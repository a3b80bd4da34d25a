ghost use Rattle.std.specs.Prelude.{◌≡◌, ◌≤◌, ◌^◌, ◌==◌, false, IsSome};
ghost use Rattle.job_store.specs.Entries.{value_at};
ghost use Rattle.bean_queue.specs.Rows.{ready_after, put_row};
ghost use Rattle.bean_queue.specs.Calls.{DraftsRow};

use crate::logic::Logic;
use bean_words::{Body, Reply};
use job_store::{History, Job, JobMap, State};
use object::Value;
use std::alloc::AllocError;
use tube_store::TubeMark;

/// The state of a job that is ready after so many seconds.
pub fn ready_after(now: u64, delay: u32) -> State
    requires { now ≤ 2 ^ 40 }
    ensures { result ≡ ready_after now delay }
{
    if delay == 0 {
        State::Ready
    } else {
        State::Delayed {
            due: now + u64::from(delay),
        }
    }
}

impl<M: JobMap> Logic<M> {
    /// Puts a job, for a session that is there, where an id is left.
    #[tactic(auto, unfolding(crate::specs::Rows::put_row))]
    pub fn put(
        &mut self,
        session: u32,
        pri: u32,
        delay: u32,
        ttr: u32,
        body: &Body,
    ) -> Result<Reply, AllocError>
        requires there { IsSome (value_at session self.old.now.sessions) }
        requires numbered { (self.old.now.next_id == 2 ^ 63) ≡ false }
        ensures { DraftsRow self.old self.new
            (put_row self.old.now session pri delay ttr body.now) result }
    {
        let id = self.counters.next_id;
        let tube = self.session(session).used.copy()?;
        self.tubes.mark(&tube, TubeMark::Put)?;
        let job = Job {
            tube,
            pri,
            ttr: ttr.max(1),
            body: body.copy()?,
            state: ready_after(self.counters.now, delay),
            history: History::new(self.counters.now, delay),
        };
        self.jobs.insert(id, job)?;
        self.counters.next_id = id + 1;
        Ok(Reply::Inserted(id))
    }
}
