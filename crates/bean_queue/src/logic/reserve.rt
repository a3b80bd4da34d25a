ghost use Rattle.std.specs.Prelude.{◌≡◌, ◌≤◌, ◌^◌, ◌+◌, ◌==◌, false, IsSome, IfOk, option_map};
ghost use Rattle.job_store.specs.Entries.{value_at};
ghost use Rattle.session_store.specs.Drafts.{DraftsState};
ghost use Rattle.session_store.specs.Sessions.{with_wait_ended};
ghost use Rattle.bean_queue.specs.Queue.{with_sessions};
ghost use Rattle.bean_queue.specs.Rows.{time_out, waiting};
ghost use Rattle.bean_queue.specs.Effects.{ends_wait};
ghost use Rattle.bean_queue.specs.Calls.{CanReserve, DraftsOutcome};
ghost use Rattle.bean_queue.specs.Reserving.{best_for, denial, reserve_outcome, IsTaken};

use crate::deadlines::holds_by;
use crate::logic::Logic;
use crate::waiting::best_ready;
use bean_words::Reply;
use job_store::{Job, JobMap, Mark, State};
use object::{Answer, Key, Value};
use session_store::Wait;
use std::alloc::AllocError;

/// The second in which a wait of so many seconds is over.
fn time_out(now: u64, seconds: Option<u32>) -> Option<u64>
    requires { now ≤ 2 ^ 40 }
    ensures { result ≡ time_out now seconds }
{
    match seconds {
        Some(seconds) => Some(now + u64::from(seconds)),
        None => None,
    }
}

/// The second in which the time to run of a job that is given now is over.
fn due_of(now: u64, ttr: u32) -> u64
    requires { now ≤ 2 ^ 40 }
    ensures { result ≡ now + ttr }
{
    now + u64::from(ttr)
}

impl<M: JobMap> Logic<M> {
    /// The best job for a session that is there.
    fn best_for(&self, session: u32) -> Option<(u64, &Job)>
        requires { IsSome (value_at session self.now.now.sessions) }
        ensures { option_map (λ e. (e.0, e.1.now)) result ≡ best_for self.now.now session }
    {
        let watched = self.session(session).watched.as_slice();
        best_ready(self.jobs.map(), &self.pauses, watched)
    }

    /// Gives the best job for a session to it, and tells whether there is one.
    fn take_best(&mut self, key: Key, answers: &mut Vec<Answer<Reply>>) -> Result<bool, AllocError>
        requires { CanReserve key self.old.now }
        ensures taken { IfOk result (λ is_one. IsTaken key self.old.now self.new.now
            answers.old.items answers.new.items is_one) }
        ensures before { self.new.before ≡ self.old.before }
    {
        let Some((id, job)) = self.best_for(key.session) else {
            return Ok(false);
        };
        let due = due_of(self.counters.now, job.ttr);
        let body = job.body.copy()?;
        answers.push(Answer {
            to: key,
            reply: Reply::Reserved { id, body },
        })?;
        let session = key.session;
        let state = State::Reserved { session, due };
        self.jobs.set_state(id, state, Mark::Reserved)?;
        self.counters.next_rank += 1;
        Ok(true)
    }

    /// What a session that gets no job is told, if it may not wait.
    fn denial(&self, session: u32, seconds: Option<u32>) -> Option<Reply>
        ensures { result ≡ denial self.now.now session seconds }
    {
        let second = self.counters.now + 1;
        if holds_by(self.jobs.map(), session, second) {
            Some(Reply::DeadlineSoon)
        } else if seconds == Some(0) {
            Some(Reply::TimedOut)
        } else {
            None
        }
    }

    /// Lets a session wait for a job, where a rank is left.
    fn begin_wait(&mut self, key: Key, seconds: Option<u32>) -> Result<(), AllocError>
        requires { (self.old.now.next_rank == 2 ^ 63) ≡ false }
        ensures { DraftsState self.old self.new (waiting self.old.now key.session key.number seconds)
            result }
    {
        let rank = self.counters.next_rank;
        let wait = Wait {
            number: key.number,
            rank,
            time_out: time_out(self.counters.now, seconds),
        };
        self.sessions.set_wait(key.session, Some(wait))?;
        self.counters.next_rank = rank + 1;
        Ok(())
    }

    /// Obeys a reserve of a session that is there, where a rank is left: the session gets the best job for it, or is
    /// told that it may not wait, or waits. Only who waits joins the lines of its tubes.
    #[tactic(auto, unfolding(crate::specs::Reserving::reserve_outcome))]
    pub fn reserve(
        &mut self,
        key: Key,
        seconds: Option<u32>,
        answers: &mut Vec<Answer<Reply>>,
    ) -> Result<(), AllocError>
        requires { CanReserve key self.old.now }
        ensures { DraftsOutcome self.old self.new answers.old.items answers.new.items
            (reserve_outcome key seconds self.old.now) result }
    {
        if self.take_best(key, answers)? {
            return Ok(());
        }
        let Some(reply) = self.denial(key.session, seconds) else {
            return self.begin_wait(key, seconds);
        };
        answers.push(Answer { to: key, reply })?;
        self.counters.next_rank += 1;
        Ok(())
    }

    /// Lets a session wait no longer.
    pub fn stop_waiting(&mut self, session: u32) -> Result<(), AllocError>
        ensures { DraftsState self.old self.new
            (with_sessions self.old.now (with_wait_ended session self.old.now.sessions)) result }
    {
        self.sessions.set_wait(session, None)
    }

    /// Answers a command, and lets its session wait no longer.
    pub fn end_wait(
        &mut self,
        key: Key,
        reply: Reply,
        answers: &mut Vec<Answer<Reply>>,
    ) -> Result<(), AllocError>
        ensures { DraftsOutcome self.old self.new answers.old.items answers.new.items
            (ends_wait self.old.now key reply) result }
    {
        answers.push(Answer { to: key, reply })?;
        self.stop_waiting(key.session)
    }
}
