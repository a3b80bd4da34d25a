ghost use Rattle.std.specs.Prelude.{◌≡◌, ◌+◌, ◌^◌, true, IsSome, IfOk, OnErr, option_map};
ghost use Rattle.job_store.specs.Entries.{Rising};
ghost use Rattle.session_store.specs.Fronts.{AreFronts};
ghost use Rattle.session_store.specs.LateLines.{HasLate};
ghost use Rattle.bean_queue.specs.Turns.{next_job, serve_turn, deadline_turn, timeout_turn, all_turns};
ghost use Rattle.bean_queue.specs.Calls.{DraftsOutcome, DraftsTurn};
ghost use Rattle.bean_queue.specs.Woken.{Covers};
ghost use Rattle.bean_queue.specs.Offers.{OffersJobsOf};
ghost use Rattle.bean_queue.specs.HolderLines.{HasAllHolders};

use crate::deadlines::holders_by;
use crate::holder_line::HolderLine;
use crate::logic::Logic;
use crate::offers::{Offers, offers_of};
use bean_words::{Name, Reply};
use job_store::{Job, JobMap, Mark, State};
use object::{Answer, Key, Value};
use session_store::{Fronts, LateLine};
use std::alloc::{AllocError, Global};

impl<M: JobMap> Logic<M> {
    /// What these tubes offer, while the sessions that wait now are served.
    fn offers(
        &self,
        alloc: Global,
        woken: &[Name],
        fronts: &mut Fronts,
    ) -> Result<Offers, AllocError>
        requires covers { Covers woken.now self.now.now }
        requires fronts { AreFronts fronts.old self.now.now.sessions }
        ensures offers { IfOk result (λ offers. OffersJobsOf offers self.now.now) }
        ensures err { OnErr result (IsSome (serve_turn self.now.now)) }
        ensures fronts { AreFronts fronts.new self.now.now.sessions }
    {
        offers_of(
            alloc,
            self.jobs.map(),
            &self.sessions,
            &self.pauses,
            woken,
            fronts,
        )
    }

    /// Of the best jobs of all waiting sessions, the most urgent. It is the most urgent offer that has a taker.
    fn next_job(&self, offers: &mut Offers, fronts: &mut Fronts) -> Option<(u64, &Job)>
        requires offers { OffersJobsOf offers.old self.now.now }
        requires fronts { AreFronts fronts.old self.now.now.sessions }
        ensures best { option_map (λ e. (e.0, e.1.now)) result ≡ next_job self.now.now }
        ensures ids_rise { Rising 0 (2 ^ 64) self.now.now.jobs }
        ensures offers { OffersJobsOf offers.new self.now.now }
        ensures fronts { AreFronts fronts.new self.now.now.sessions }
    {
        offers.next(self.jobs.map(), &self.sessions, &self.pauses, fronts)
    }

    /// Gives the next job to the session whose turn it is, and tells whether there was one. Then the next ready job of
    /// its tube is offered.
    fn serve_one(
        &mut self,
        offers: &mut Offers,
        fronts: &mut Fronts,
        answers: &mut Vec<Answer<Reply>>,
    ) -> Result<bool, AllocError>
        requires offers { OffersJobsOf offers.old self.old.now }
        requires fronts { AreFronts fronts.old self.old.now.sessions }
        ensures turn { DraftsTurn serve_turn self.old self.new answers.old.items answers.new.items
            result }
        ensures err { OnErr result (IsSome (serve_turn self.old.now)) }
        ensures offers { IfOk result (λ more. OffersJobsOf offers.new self.new.now) }
        ensures fronts { IfOk result (λ more. AreFronts fronts.new self.new.now.sessions) }
    {
        let Some((id, job)) = self.next_job(offers, fronts) else {
            return Ok(false);
        };
        let Some((session, watcher)) = self.sessions.next_watcher(&job.tube, fronts) else {
            return Ok(false);
        };
        let to = Key {
            session,
            number: watcher.wait_number(),
        };
        let place = (job.pri, id);
        let due = self.counters.now + u64::from(job.ttr);
        let body = job.body.copy()?;
        answers.push(Answer {
            to,
            reply: Reply::Reserved { id, body },
        })?;
        let state = State::Reserved { session, due };
        self.jobs.set_state(id, state, Mark::Reserved)?;
        self.sessions.set_wait(session, None)?;
        offers.replace(self.jobs.map(), place)?;
        Ok(true)
    }

    /// Gives jobs of these tubes to waiting sessions, while there is one for them. It takes no memory where there is none.
    pub fn serve(
        &mut self,
        woken: &[Name],
        answers: &mut Vec<Answer<Reply>>,
    ) -> Result<(), AllocError>
        requires { Covers woken.now self.old.now }
        ensures turns { DraftsOutcome self.old self.new answers.old.items answers.new.items
            (all_turns serve_turn self.old.now) result }
        ensures err { OnErr result (IsSome (serve_turn self.old.now)) }
    {
        let mut fronts = self.sessions.fronts();
        let mut offers = self.offers(*answers.allocator(), woken, &mut fronts)?;
        'turns: while self.serve_one(&mut offers, &mut fronts, answers)? {}
        Ok(())
    }

    /// Tells the first waiting session with a job due within a second so, and whether there was one. It stands in this
    /// line.
    fn tell_deadline(
        &mut self,
        line: &mut HolderLine,
        answers: &mut Vec<Answer<Reply>>,
    ) -> Result<bool, AllocError>
        requires { HasAllHolders line.old (self.old.now.now + 1) self.old.now.jobs
            self.old.now.sessions }
        ensures turn { DraftsTurn deadline_turn self.old self.new answers.old.items
            answers.new.items result }
        ensures err { OnErr result (IsSome (deadline_turn self.old.now)) }
        ensures left { IfOk result (λ more. more ≡ true → HasAllHolders line.new
            (self.new.now.now + 1) self.new.now.jobs self.new.now.sessions) }
    {
        let second = self.counters.now + 1;
        let Some((session, holder)) = line.next(self.jobs.map(), self.sessions.map(), second) else {
            return Ok(false);
        };
        let to = Key {
            session,
            number: holder.wait_number(),
        };
        answers.push(Answer {
            to,
            reply: Reply::DeadlineSoon,
        })?;
        self.sessions.set_wait(session, None)?;
        Ok(true)
    }

    /// Tells all waiting sessions with a job due within a second so. It takes no memory where there is none.
    pub fn tell_deadlines(
        &mut self,
        alloc: Global,
        answers: &mut Vec<Answer<Reply>>,
    ) -> Result<(), AllocError>
        ensures turns { DraftsOutcome self.old self.new answers.old.items answers.new.items
            (all_turns deadline_turn self.old.now) result }
        ensures err { OnErr result (IsSome (deadline_turn self.old.now)) }
    {
        let second = self.counters.now + 1;
        let holders = holders_by(alloc, self.jobs.map(), self.sessions.map(), second)?;
        let mut line = HolderLine::of(alloc, self.sessions.map(), holders.as_slice())?;
        'turns: while self.tell_deadline(&mut line, answers)? {}
        Ok(())
    }

    /// Tells the first session whose wait is over so, and whether there was one. It stands in this line.
    fn tell_timeout(
        &mut self,
        late: &mut LateLine,
        answers: &mut Vec<Answer<Reply>>,
    ) -> Result<bool, AllocError>
        requires { HasLate self.old.now.now late.old self.old.now.sessions }
        ensures turn { DraftsTurn timeout_turn self.old self.new answers.old.items answers.new.items
            result }
        ensures err { OnErr result (IsSome (timeout_turn self.old.now)) }
        ensures left { IfOk result (λ more. more ≡ true
            → HasLate self.new.now.now late.new self.new.now.sessions) }
    {
        let Some((session, waiter)) = self.sessions.next_late(late, self.counters.now) else {
            return Ok(false);
        };
        let to = Key {
            session,
            number: waiter.wait_number(),
        };
        answers.push(Answer {
            to,
            reply: Reply::TimedOut,
        })?;
        self.sessions.set_wait(session, None)?;
        Ok(true)
    }

    /// Tells all sessions whose wait is over so. It takes no memory where there is none.
    pub fn tell_timeouts(&mut self, answers: &mut Vec<Answer<Reply>>) -> Result<(), AllocError>
        ensures turns { DraftsOutcome self.old self.new answers.old.items answers.new.items
            (all_turns timeout_turn self.old.now) result }
        ensures err { OnErr result (IsSome (timeout_turn self.old.now)) }
    {
        let mut late = self.sessions.late(self.counters.now)?;
        'turns: while self.tell_timeout(&mut late, answers)? {}
        Ok(())
    }
}
