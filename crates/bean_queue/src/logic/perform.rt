ghost use Rattle.std.specs.Prelude.{◌≡◌, true, false, None, Some, IsSome, IfOk, OnOk};
ghost use Rattle.object.specs.declared.command.Key.{Key};
ghost use Rattle.job_store.specs.Entries.{value_at};
ghost use Rattle.bean_queue.specs.Rows.{row};
ghost use Rattle.bean_queue.specs.Turns.{serve_turn};
ghost use Rattle.bean_queue.specs.Effects.{has_no_number, carried_out, do_effect, is_quiet, lists_tubes, only_reports};
ghost use Rattle.bean_queue.specs.Calls.{CanObey, CanCarryOut, CanWake, DoesRow, DoesQuietly, DraftsRow, DraftsOutcome};
ghost use Rattle.bean_queue.specs.Reserving.{wake_outcome};
ghost use Rattle.bean_queue.specs.Tubes.{all_tubes};

use crate::counters::LIMIT;
use crate::logic::Logic;
use bean_words::{Names, Op, Reply};
use job_store::JobMap;
use object::{Answer, Key, Value};
use std::alloc::{AllocError, Global};

impl<M: JobMap> Logic<M> {
    /// Whether no id or no rank is left for an operation that needs one.
    fn has_no_number(&self, op: &Op) -> bool
        ensures { result ≡ has_no_number op.now self.now.now }
    {
        match op {
            Op::Put { .. } => self.counters.next_id == LIMIT,
            Op::Reserve { .. } | Op::Bury { .. } => self.counters.next_rank == LIMIT,
            _ => false,
        }
    }

    /// Obeys a quiet operation of a session that is there, where a number is left for it. It lists no tubes.
    #[tactic(auto, unfolding(crate::specs::Rows::row, crate::specs::Rows::peek_row, crate::specs::Rows::stats_job_row, crate::specs::Rows::stats_tube_row))]
    fn quiet_row(&mut self, alloc: Global, key: Key, op: &Op) -> Result<Reply, AllocError>
        requires there { IsSome (value_at key.session self.old.now.sessions) }
        requires quiet { is_quiet op.now ≡ true }
        requires other { lists_tubes op.now ≡ false }
        requires numbered { has_no_number op.now self.old.now ≡ false }
        ensures { DoesRow self.old self.new (row op.now key self.old.now) result }
    {
        let session = key.session;
        match op {
            Op::Use(tube) => self.use_tube(session, tube),
            Op::Watch(tube) => self.watch(session, tube),
            Op::Ignore(tube) => Ok(self.ignore(session, tube)),
            Op::Delete(id) => self.delete(session, *id),
            Op::Touch(id) => self.touch(session, *id),
            Op::Bury { id, pri } => self.bury(session, *id, *pri),
            Op::ReserveJob(id) => self.reserve_job(session, *id),
            Op::Peek(id) => self.peek(*id),
            Op::PeekReady => self.peek_ready(session),
            Op::PeekDelayed => self.peek_delayed(session),
            Op::PeekBuried => self.peek_buried(session),
            Op::ListTubeUsed => Ok(Reply::Using(self.used(session)?)),
            Op::ListTubesWatched => Ok(Reply::Tubes(self.watched(alloc, session)?)),
            Op::StatsJob(id) => self.stats_job(alloc, *id),
            Op::StatsTube(tube) => self.stats_tube(alloc, tube),
            Op::ListTubes
            | Op::Stats
            | Op::Put { .. }
            | Op::Reserve { .. }
            | Op::Release { .. }
            | Op::Kick(_)
            | Op::KickJob(_)
            | Op::Pause { .. } => unreachable!(),
        }
    }

    /// Carries out a quiet operation, where a number is left for it and nothing is left to give. It lists no tubes.
    fn carry_out_quietly(&mut self, alloc: Global, key: Key, op: &Op) -> Result<Reply, AllocError>
        requires can { CanCarryOut true op.now self.old.now }
        requires other { lists_tubes op.now ≡ false }
        ensures { DoesQuietly key self.old self.new (carried_out op.now key self.old.now) result }
    {
        self.call(key.session, op)?;
        self.quiet_row(alloc, key, op)
    }

    /// Obeys a quiet operation that lists no tubes, where nothing is left to give.
    #[tactic(auto, unfolding(crate::specs::Effects::do_effect))]
    pub fn obey_quiet(&mut self, alloc: Global, key: Key, op: &Op) -> Result<Reply, AllocError>
        requires can { CanObey true op.now self.old.now }
        requires other { lists_tubes op.now ≡ false }
        ensures { DoesQuietly key self.old self.new (do_effect op.now key self.old.now) result }
    {
        if self.has_no_number(op) {
            self.stop_waiting(key.session)?;
            return Ok(Reply::InternalError);
        }
        self.carry_out_quietly(alloc, key, op)
    }

    /// Answers an operation that lists all tubes, whose names these are, or counts them.
    #[tactic(auto, unfolding(crate::specs::Rows::row, crate::specs::Rows::stats_row))]
    fn listing_row(&self, alloc: Global, op: &Op, names: &Names) -> Result<Reply, AllocError>
        requires lists { lists_tubes op.now ≡ true }
        requires names { names.now ≡ all_tubes self.now.now }
        ensures { IfOk result (λ reply. (key : Key) → (row op.now key self.now.now).reply ≡ Some reply) }
    {
        match op {
            Op::ListTubes => Ok(Reply::Tubes(names.copy()?)),
            Op::Stats => self.stats(alloc, names.as_slice().len() as u64),
            _ => unreachable!(),
        }
    }

    /// Obeys an operation that lists all tubes, whose names these are, or counts them. Nothing is left to give before.
    #[tactic(auto, unfolding(crate::specs::Effects::do_effect))]
    pub fn obey_listing(
        &mut self,
        alloc: Global,
        key: Key,
        op: &Op,
        names: &Names,
    ) -> Result<Reply, AllocError>
        requires lists { lists_tubes op.now ≡ true }
        requires calm { serve_turn self.old.now ≡ None }
        requires names { names.now ≡ all_tubes self.old.now }
        ensures does { DoesQuietly key self.old self.new (do_effect op.now key self.old.now) result }
        ensures names { IfOk result (λ _. names.now ≡ all_tubes self.new.now) }
    {
        self.call(key.session, op)?;
        self.listing_row(alloc, op, names)
    }

    /// Obeys an operation that only reports, where nothing is left to give, and answers nobody: its session is there, and
    /// it is counted. No tube comes or goes.
    pub fn obey_report(&mut self, key: Key, op: &Op) -> Result<(), AllocError>
        requires reports { only_reports op.now ≡ true }
        requires calm { serve_turn self.old.now ≡ None }
        ensures state { OnOk result (self.new.now ≡ (do_effect op.now key self.old.now).state) }
        ensures tubes { OnOk result (all_tubes self.new.now ≡ all_tubes self.old.now) }
        ensures before { self.new.before ≡ self.old.before }
    {
        self.call(key.session, op)
    }

    /// Obeys an operation that may make jobs ready, of a session that is there, where a number is left for it, but for
    /// the sessions that wait.
    #[tactic(auto, unfolding(crate::specs::Rows::row))]
    fn waking_row(&mut self, key: Key, op: &Op) -> Result<Reply, AllocError>
        requires { CanWake op.now key self.old.now }
        ensures { DraftsRow self.old self.new (row op.now key self.old.now) result }
    {
        let session = key.session;
        match op {
            Op::Put {
                pri,
                delay,
                ttr,
                body,
            } => self.put(session, *pri, *delay, *ttr, body),
            Op::Release { id, pri, delay } => self.release(session, *id, *pri, *delay),
            Op::Kick(bound) => self.kick(session, *bound),
            Op::KickJob(id) => self.kick_job(*id),
            Op::Pause { tube, seconds } => self.pause_tube(tube, *seconds),
            _ => unreachable!(),
        }
    }

    /// Obeys it, appends its own answer, and then serves the sessions that wait, where nothing was left to give.
    #[tactic(auto, unfolding(crate::specs::Turns::serve))]
    fn wake(
        &mut self,
        key: Key,
        op: &Op,
        answers: &mut Vec<Answer<Reply>>,
    ) -> Result<(), AllocError>
        requires wakes { CanWake op.now key self.old.now }
        requires calm { serve_turn self.old.now ≡ None }
        ensures { DraftsOutcome self.old self.new answers.old.items answers.new.items
            (wake_outcome op.now key self.old.now) result }
    {
        let woken = self.woken_by(key, op)?;
        let reply = self.waking_row(key, op)?;
        answers.push(Answer { to: key, reply })?;
        match woken {
            Some(tube) => self.serve(&[tube], answers),
            None => self.serve(&[], answers),
        }
    }

    /// Carries out an operation that is not quiet, where a number is left for it and nothing is left to give.
    fn carry_out(
        &mut self,
        key: Key,
        op: &Op,
        answers: &mut Vec<Answer<Reply>>,
    ) -> Result<(), AllocError>
        requires { CanCarryOut false op.now self.old.now }
        ensures { DraftsOutcome self.old self.new answers.old.items answers.new.items
            (carried_out op.now key self.old.now) result }
    {
        self.call(key.session, op)?;
        self.numbers_rise();
        match op {
            Op::Reserve { seconds } => self.reserve(key, *seconds, answers),
            _ => self.wake(key, op, answers),
        }
    }

    /// Obeys an operation that is not quiet, where nothing is left to give.
    #[tactic(auto, unfolding(crate::specs::Effects::do_effect))]
    pub fn obey_loud(
        &mut self,
        key: Key,
        op: &Op,
        answers: &mut Vec<Answer<Reply>>,
    ) -> Result<(), AllocError>
        requires { CanObey false op.now self.old.now }
        ensures { DraftsOutcome self.old self.new answers.old.items answers.new.items
            (do_effect op.now key self.old.now) result }
    {
        if self.has_no_number(op) {
            return self.end_wait(key, Reply::InternalError, answers);
        }
        self.carry_out(key, op, answers)
    }
}
