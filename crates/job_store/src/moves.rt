ghost use Rattle.std.specs.Prelude.{IsSome, is_some, OnErr};
ghost use Rattle.job_store.specs.Entries.{value_at, with_value, altered};
ghost use Rattle.job_store.specs.States.{marked};
ghost use Rattle.job_store.specs.Changes.{after_change};
ghost use Rattle.job_store.specs.Shelves.{HoldJobs, AreSwept, CanGoBack, HasCaughtUp, MovesJobs};

use crate::change::Change;
use crate::job::Job;
use crate::logged_jobs::LoggedJobs;
use crate::mark::Mark;
use crate::shelves::Shelves;
use crate::spot::Spot;
use crate::state::State;
use std::alloc::AllocError;

/// Sets the state of the job at an id, with this mark in its history, if there is one, after the shelves.
pub fn move_to_state(
    shelves: &mut Shelves,
    jobs: &mut LoggedJobs,
    id: u64,
    state: State,
    mark: Mark,
) -> Result<(), AllocError>
    ensures moved { MovesJobs shelves.old shelves.new jobs.old jobs.new
        (altered id (marked state mark) jobs.old.jobs) result }
    ensures there { OnErr result (IsSome (value_at id jobs.old.jobs)) }
{
    let Some(stored) = jobs.by_id().get(&id) else {
        return Ok(());
    };
    let job = stored.as_job();
    shelves.put_changed(id, job, job.pri, state)?;
    jobs.set_state(id, state, mark)?;
    shelves.keep_last();
    Ok(())
}

/// Makes a change of a job, if it is there, after the shelves.
pub fn move_to(
    shelves: &mut Shelves,
    jobs: &mut LoggedJobs,
    change: &Change,
) -> Result<(), AllocError>
    ensures moved { MovesJobs shelves.old shelves.new jobs.old jobs.new
        (after_change change.now jobs.old.jobs) result }
    ensures there { OnErr result (IsSome (value_at change.now.id jobs.old.jobs)) }
{
    let Some(stored) = jobs.by_id().get(&change.id) else {
        return Ok(());
    };
    shelves.put_changed(change.id, stored.as_job(), change.pri, change.state)?;
    jobs.set(change.id, change.pri, change.state, change.mark)?;
    shelves.keep_last();
    Ok(())
}

/// Puts a job at an id, after the shelves.
pub fn store(
    shelves: &mut Shelves,
    jobs: &mut LoggedJobs,
    id: u64,
    job: Job,
) -> Result<(), AllocError>
    ensures { MovesJobs shelves.old shelves.new jobs.old jobs.new
        (with_value id job jobs.old.jobs) result }
{
    // Gives the proof that the ids rise.
    let _ = jobs.by_id();
    let spot = Spot::of(&job)?;
    shelves.leave_at(jobs.by_id(), id)?;
    shelves.put(id, spot)?;
    jobs.insert(id, job)?;
    shelves.keep_last();
    Ok(())
}

/// Where the changes stay: takes out the places of the jobs that went, and lists none. Look-ups find all jobs.
pub fn sweep(shelves: &mut Shelves, jobs: &LoggedJobs)
    requires { HoldJobs shelves.old jobs.now.jobs shelves.old.went.items }
    ensures { AreSwept shelves.new jobs.now.jobs }
{
    shelves.sweep(jobs.by_id());
}

/// Where the changes were taken back: takes out the places of the jobs that came, and lists none. Look-ups find all jobs.
pub fn go_back(shelves: &mut Shelves, jobs: &LoggedJobs)
    requires { CanGoBack shelves.old jobs.now.jobs }
    ensures { AreSwept shelves.new jobs.now.jobs }
{
    shelves.go_back(jobs.by_id());
}

/// After a change of a job: in a trial look-ups begin after the places that it has left, and else those go.
pub fn follow(shelves: &mut Shelves, jobs: &LoggedJobs)
    requires { HoldJobs shelves.old jobs.now.jobs shelves.old.went.items }
    ensures { HasCaughtUp (is_some jobs.now.before) shelves.old shelves.new jobs.now.jobs }
{
    shelves.follow(jobs.by_id(), jobs.is_trial());
}
