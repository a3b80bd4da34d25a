ghost use Rattle.std.specs.Prelude.{◌≡◌, OnOk};
ghost use Rattle.job_store.specs.Entries.{each_value};
ghost use Rattle.job_store.specs.States.{is_due, is_held, with_state, over_job};
ghost use Rattle.job_store.specs.declared.state.State.{State};
ghost use Rattle.bean_queue.specs.Counting.{and_more};
ghost use Rattle.bean_queue.specs.Effects.{change_if, times_over};
ghost use Rattle.bean_queue.specs.Calls.{DraftsWaking};

use crate::job_draft::JobDraft;
use bean_words::Name;
use indexmap::IndexSet;
use job_store::{Job, JobMap, Mark, State};
use object::Value;
use std::alloc::{AllocError, Global};

/// The jobs that are to be ready again.
#[derive(Clone, Copy)]
enum Returning {
    /// Those whose delay or time to run is over at this second.
    Due { second: u64 },
    /// Those that the session has.
    Held { session: u32 },
}

impl Returning {
    ghost use Rattle.std.specs.Prelude.{option_map};
    ghost use Rattle.job_store.specs.Least.{least};
    ghost use Rattle.job_store.specs.LookUps.{due_of_job};
    ghost use Rattle.job_store.specs.declared.history.History.{History};
    ghost use Rattle.job_store.specs.Histories.{after_mark};
    ghost use Rattle.bean_queue.specs.Effects.{is_returning, has_run_out, run_out, returned_history, returned_job};

    /// Of these jobs in a map, that of the least (due, id).
    fn first<M: JobMap>(self, jobs: &M) -> Option<(u64, &Job)>
        ensures { option_map (λ e. (e.0, e.1.now)) result
            ≡ least (λ e. is_returning self e.1.state) due_of_job (M.entries jobs.now) }
    {
        match self {
            Returning::Due { second } => jobs.due(second),
            Returning::Held { session } => jobs.first_held(session),
        }
    }

    /// Whether the time to run of one from this state is over.
    fn has_run_out(self, state: State) -> bool
        ensures { result ≡ has_run_out self state }
    {
        match self {
            Returning::Due { .. } => state.is_reserved(),
            Returning::Held { .. } => false,
        }
    }

    /// What of the return of one from this state goes into its history.
    fn mark(self, state: State) -> Mark
        ensures { (h : History) → after_mark result h ≡ returned_history self state h }
    {
        if self.has_run_out(state) {
            Mark::TimedOut
        } else {
            Mark::Nothing
        }
    }

    /// Makes them ready, and tells their tubes. Those whose time to run is over are counted.
    fn make_ready<M: JobMap>(
        self,
        alloc: Global,
        jobs: &mut JobDraft<M>,
        timeouts: &mut u64,
    ) -> Result<IndexSet<Name>, AllocError>
        ensures counted { OnOk result (timeouts.new
            ≡ and_more (run_out self jobs.old.now) timeouts.old) }
        ensures ready { DraftsWaking (λ jobs. jobs) jobs.old jobs.new
            (each_value (change_if (is_returning self) (returned_job self)) jobs.old.now) result }
    {
        let mut woken = IndexSet::new(alloc);
        let mut over: u64 = 0;
        'again: while let Some((id, job)) = self.first(jobs.map()) {
            let mark = self.mark(job.state);
            let one = u64::from(self.has_run_out(job.state));
            woken.insert(job.tube.copy()?)?;
            jobs.set_state(id, State::Ready, mark)?;
            over = over.saturating_add(one);
        }
        *timeouts = timeouts.saturating_add(over);
        Ok(woken)
    }
}

/// Makes the jobs ready whose delay or time to run is over at this second, and tells their tubes. Of the latter it counts
/// how many there are.
pub fn make_due_ready<M: JobMap>(
    alloc: Global,
    jobs: &mut JobDraft<M>,
    second: u64,
    timeouts: &mut u64,
) -> Result<IndexSet<Name>, AllocError>
    ensures counted { OnOk result (timeouts.new
        ≡ and_more (times_over second jobs.old.now) timeouts.old) }
    ensures ready { DraftsWaking (λ jobs. jobs) jobs.old jobs.new
        (each_value (change_if (is_due second) over_job) jobs.old.now) result }
{
    Returning::Due { second }.make_ready(alloc, jobs, timeouts)
}

/// Makes the jobs ready that the session has, and tells their tubes.
pub fn release_held<M: JobMap>(
    alloc: Global,
    jobs: &mut JobDraft<M>,
    session: u32,
) -> Result<IndexSet<Name>, AllocError>
    ensures { DraftsWaking (λ jobs. jobs) jobs.old jobs.new
        (each_value (change_if (is_held session) (with_state State.Ready)) jobs.old.now) result }
{
    Returning::Held { session }.make_ready(alloc, jobs, &mut 0)
}
