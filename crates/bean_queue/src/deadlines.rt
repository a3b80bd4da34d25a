ghost use Rattle.std.specs.Prelude.{◌≡◌, ◌++◌, ℕ, IfOk, OnOk, OnErr};
ghost use Rattle.object.specs.Lists.{In};
ghost use Rattle.bean_queue.specs.Queue.{holds_by};
ghost use Rattle.bean_queue.specs.Holders.{waits_at, waiting_holder, AreHolders, IsSomeHolder, StandAsOften};

use job_store::{JobMap, State};
use session_store::SessionState;
use std::alloc::{AllocError, Global};
use std::collections::BTreeMap;

/// Whether the session has a job that is due by this second.
pub fn holds_by<M: JobMap>(jobs: &M, session: u32, second: u64) -> bool
    ensures { result ≡ holds_by session second (M.entries jobs.now) }
{
    match jobs.first_held(session) {
        Some((_, job)) => job.state.due() <= second,
        None => false,
    }
}

/// Whether the session of this number waits.
pub fn waits_at(sessions: &BTreeMap<u32, SessionState>, number: u32) -> bool
    ensures { result ≡ waits_at sessions.now.entries number }
{
    match sessions.get(&number) {
        Some(session) => session.wait.is_some(),
        None => false,
    }
}

/// Notes the session that has a job in this state, if it waits.
fn note_holder(
    numbers: &mut Vec<u32>,
    sessions: &BTreeMap<u32, SessionState>,
    state: State,
) -> Result<(), AllocError>
    ensures ok { OnOk result (numbers.new.items
        ≡ numbers.old.items ++ waiting_holder sessions.now.entries state) }
    ensures err { OnErr result ((x : ℕ) × In x (waiting_holder sessions.now.entries state)) }
{
    let State::Reserved { session, .. } = state else {
        return Ok(());
    };
    if !waits_at(sessions, session) {
        return Ok(());
    }
    numbers.push(session)?;
    Ok(())
}

/// The numbers of the sessions that wait and have a job due by this second, each as often as it has one. It goes over
/// the jobs that are due, and no others, and takes no memory where there is no such session.
pub fn holders_by<M: JobMap>(
    alloc: Global,
    jobs: &M,
    sessions: &BTreeMap<u32, SessionState>,
    second: u64,
) -> Result<Vec<u32>, AllocError>
    ensures ok { IfOk result
        (λ numbers. AreHolders numbers.items second (M.entries jobs.now) sessions.now.entries) }
    ensures often { IfOk result (λ numbers.
        StandAsOften numbers.items second (M.entries jobs.now) sessions.now.entries) }
    ensures err { OnErr result (IsSomeHolder second (M.entries jobs.now) sessions.now.entries) }
{
    // Gives the proof that the ids rise.
    let _ = jobs.by_id();
    let mut numbers = Vec::new(alloc);
    let mut next = jobs.due(second);
    'jobs: while let Some((id, job)) = next {
        note_holder(&mut numbers, sessions, job.state)?;
        next = jobs.due_after(second, (job.state.due(), id));
    }
    Ok(numbers)
}
