ghost use Rattle.std.specs.Prelude.{◌≡◌, ◌^◌, ◌++◌, ◌∷◌, [], Some, OnOk, OnErr};
ghost use Rattle.job_store.specs.Entries.{Rising, value_at, with_value, altered};
ghost use Rattle.job_store.specs.Undone.{undone, all_undone, set_to, set_back, put_back};

use crate::history::History;
use crate::job::Job;
use crate::state::State;
use crate::stored_job::StoredJob;
use std::alloc::AllocError;
use std::collections::BTreeMap;

/// What takes back a change of the jobs.
#[derive(Drop)]
pub enum Undo {
    /// The job at this id goes.
    TakeOut(u64),
    /// This job stands at its id again.
    PutBack {
        id: u64,
        job: StoredJob,
    },
    /// The job at this id has the priority, the state and the history again that it had.
    SetBack {
        id: u64,
        pri: u32,
        state: State,
        history: History,
    },
}

/// In a trial, adds to the log what takes back a change of the job at an id.
pub fn note(log: &mut Vec<Undo>, is_trial: bool, id: u64, job: &Job) -> Result<(), AllocError>
    ensures ok { OnOk result (log.new.items ≡ log.old.items ++ set_back is_trial id (Some job.now)) }
    ensures err { OnErr result (log.new.items ≡ log.old.items) }
{
    if is_trial {
        log.push(Undo::SetBack {
            id,
            pri: job.pri,
            state: job.state,
            history: job.history,
        })?;
    }
    Ok(())
}

/// Puts a job at an id, and adds to the log what takes that back.
pub fn put(
    jobs: &mut BTreeMap<u64, StoredJob>,
    log: &mut Vec<Undo>,
    id: u64,
    job: StoredJob,
) -> Result<(), AllocError>
    ensures jobs { OnOk result (jobs.new.entries ≡ with_value id job jobs.old.entries) }
    ensures log { OnOk result (log.new.items
        ≡ log.old.items ++ put_back id (value_at id jobs.old.entries) ∷ []) }
    ensures jobs_stay { OnErr result (jobs.new.entries ≡ jobs.old.entries) }
    ensures log_stays { OnErr result (log.new.items ≡ log.old.items) }
{
    log.reserve(1)?;
    let undo = match jobs.insert(id, job)? {
        Some(job) => Undo::PutBack { id, job },
        None => Undo::TakeOut(id),
    };
    log.push(undo)?;
    Ok(())
}

/// Sets the priority, the state and the history of the job at an id, if there is one.
fn set_to(jobs: &mut BTreeMap<u64, StoredJob>, id: u64, pri: u32, state: State, history: History)
    requires { Rising 0 (2 ^ 64) jobs.old.entries }
    ensures { jobs.new.entries ≡ altered id (set_to pri state history) jobs.old.entries }
{
    if let Some(stored) = jobs.get_mut(&id) {
        stored.set(pri, state, history);
    }
}

/// Takes one change back.
fn undo_one(jobs: &mut BTreeMap<u64, StoredJob>, undo: Undo)
    requires { Rising 0 (2 ^ 64) jobs.old.entries }
    ensures { jobs.new.entries ≡ undone undo jobs.old.entries }
{
    match undo {
        Undo::TakeOut(id) => {
            jobs.remove(&id);
        }
        Undo::PutBack { id, job } => {
            if let Some(place) = jobs.get_mut(&id) {
                *place = job;
            }
        }
        Undo::SetBack {
            id,
            pri,
            state,
            history,
        } => set_to(jobs, id, pri, state, history),
    }
}

/// Takes all changes of a log back, the last one first.
pub fn undo_all(jobs: &mut BTreeMap<u64, StoredJob>, log: &mut Vec<Undo>)
    requires { Rising 0 (2 ^ 64) jobs.old.entries }
    ensures jobs { jobs.new.entries ≡ all_undone log.old.items jobs.old.entries }
    ensures log { log.new.items ≡ [] }
{
    while let Some(undo) = log.pop() {
        undo_one(jobs, undo);
    }
}
