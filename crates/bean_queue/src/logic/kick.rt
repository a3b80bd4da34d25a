ghost use Rattle.std.specs.Prelude.{◌≡◌, IsSome, IfOk, OnOk, option_map, if◌then◌else◌};
ghost use Rattle.job_store.specs.Entries.{value_at};
ghost use Rattle.job_store.specs.LookUps.{first_buried, first_delayed};
ghost use Rattle.bean_queue.specs.Rows.{kicked, kick_in, kick_row, kick_job_row};
ghost use Rattle.bean_queue.specs.Calls.{DraftsRow};

use crate::job_draft::JobDraft;
use crate::logic::Logic;
use bean_words::{Name, Reply};
use job_store::{Job, JobMap, Mark, State};
use object::Value;
use std::alloc::AllocError;

/// The next job of the tube for a kick: a buried one, or else a delayed one.
fn first_idle<'a, M: JobMap>(jobs: &'a M, tube: &Name, buried: bool) -> Option<(u64, &'a Job)>
    ensures { option_map (λ e. (e.0, e.1.now)) result
        ≡ (if buried then first_buried tube.now else first_delayed tube.now) (M.entries jobs.now) }
{
    if buried {
        jobs.first_buried(tube)
    } else {
        jobs.first_delayed(tube)
    }
}

/// Makes up to `bound` buried jobs of the tube ready, or else delayed ones, and tells how many.
fn kick_idle<M: JobMap>(
    jobs: &mut JobDraft<M>,
    tube: &Name,
    buried: bool,
    bound: u32,
) -> Result<u64, AllocError>
    ensures now { OnOk result (jobs.new.now
        ≡ (kicked (if buried then first_buried tube.now else first_delayed tube.now) bound
        jobs.old.now).jobs) }
    ensures count { IfOk result (λ count. count
        ≡ (kicked (if buried then first_buried tube.now else first_delayed tube.now) bound
        jobs.old.now).count) }
    ensures before { jobs.new.before ≡ jobs.old.before }
{
    for count in 0..bound {
        let Some((id, _)) = first_idle(jobs.map(), tube, buried) else {
            return Ok(u64::from(count));
        };
        jobs.set_state(id, State::Ready, Mark::Kicked)?;
    }
    Ok(u64::from(bound))
}

impl<M: JobMap> Logic<M> {
    /// Makes buried or delayed jobs of a tube ready.
    fn kick_in(&mut self, tube: &Name, bound: u32) -> Result<Reply, AllocError>
        ensures { DraftsRow self.old self.new (kick_in self.old.now tube.now bound) result }
    {
        let buried = self.jobs.map().first_buried(tube).is_some();
        let count = kick_idle(&mut self.jobs, tube, buried, bound)?;
        Ok(Reply::KickedCount(count))
    }

    /// Makes buried or delayed jobs of the tube that a session uses ready.
    #[tactic(auto, unfolding(crate::specs::Rows::kick_row))]
    pub fn kick(&mut self, session: u32, bound: u32) -> Result<Reply, AllocError>
        requires { IsSome (value_at session self.old.now.sessions) }
        ensures { DraftsRow self.old self.new (kick_row self.old.now session bound) result }
    {
        let tube = self.session(session).used.copy()?;
        self.kick_in(&tube, bound)
    }

    /// Makes a job ready that is buried or delayed.
    #[tactic(auto, unfolding(crate::specs::Rows::kick_job_row))]
    pub fn kick_job(&mut self, id: u64) -> Result<Reply, AllocError>
        ensures { DraftsRow self.old self.new (kick_job_row self.old.now id) result }
    {
        match self.jobs.map().get(id) {
            Some(job) if job.state.is_buried() || job.state.is_delayed() => {
                self.jobs.set_state(id, State::Ready, Mark::Kicked)?;
                Ok(Reply::Kicked)
            }
            _ => Ok(Reply::NotFound),
        }
    }
}
