ghost use Rattle.std.specs.Prelude.{◌≡◌, ◌^◌, ◌++◌, IsSome, OnOk, OnErr};
ghost use Rattle.job_store.specs.Entries.{Rising, value_at, altered};
ghost use Rattle.job_store.specs.States.{marked};
ghost use Rattle.job_store.specs.Changes.{after_change};
ghost use Rattle.job_store.specs.Undone.{set_back};

use crate::change::Change;
use crate::mark::Mark;
use crate::state::State;
use crate::stored_job::StoredJob;
use crate::undo::{Undo, note};
use std::alloc::AllocError;
use std::collections::BTreeMap;

/// Sets the state of the job at an id, with this mark in its history, if there is one. In a trial it adds to the log what
/// takes that back. The job is looked up once.
pub fn set_state(
    jobs: &mut BTreeMap<u64, StoredJob>,
    log: &mut Vec<Undo>,
    is_trial: bool,
    id: u64,
    state: State,
    mark: Mark,
) -> Result<(), AllocError>
    requires { Rising 0 (2 ^ 64) jobs.old.entries }
    ensures jobs { OnOk result (jobs.new.entries ≡ altered id (marked state mark) jobs.old.entries) }
    ensures log { OnOk result (log.new.items
        ≡ log.old.items ++ set_back is_trial id (value_at id jobs.old.entries)) }
    ensures jobs_stay { OnErr result (jobs.new.entries ≡ jobs.old.entries) }
    ensures log_stays { OnErr result (log.new.items ≡ log.old.items) }
    ensures there { OnErr result (IsSome (value_at id jobs.old.entries)) }
{
    let Some(stored) = jobs.get_mut(&id) else {
        return Ok(());
    };
    let job = stored.as_job();
    note(log, is_trial, id, job)?;
    let (pri, history) = (job.pri, job.history.marked(mark));
    stored.set(pri, state, history);
    Ok(())
}

/// Makes a change, if the job is there. In a trial it adds to the log what takes that back. The job is looked up once.
pub fn make(
    jobs: &mut BTreeMap<u64, StoredJob>,
    log: &mut Vec<Undo>,
    is_trial: bool,
    change: &Change,
) -> Result<(), AllocError>
    requires { Rising 0 (2 ^ 64) jobs.old.entries }
    ensures jobs { OnOk result (jobs.new.entries ≡ after_change change.now jobs.old.entries) }
    ensures log { OnOk result (log.new.items
        ≡ log.old.items ++ set_back is_trial change.now.id (value_at change.now.id jobs.old.entries)) }
    ensures jobs_stay { OnErr result (jobs.new.entries ≡ jobs.old.entries) }
    ensures log_stays { OnErr result (log.new.items ≡ log.old.items) }
    ensures there { OnErr result (IsSome (value_at change.now.id jobs.old.entries)) }
{
    let Some(stored) = jobs.get_mut(&change.id) else {
        return Ok(());
    };
    let job = stored.as_job();
    note(log, is_trial, change.id, job)?;
    let history = job.history.marked(change.mark);
    stored.set(change.pri, change.state, history);
    Ok(())
}
