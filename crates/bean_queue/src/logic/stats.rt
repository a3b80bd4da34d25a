ghost use Rattle.std.specs.Prelude.{◌≡◌, length, IfOk, if◌then◌else◌};
ghost use Rattle.job_store.specs.Entries.{value_at};
ghost use Rattle.job_store.specs.LookUps.{is_among};
ghost use Rattle.pause_store.specs.Pauses.{is_paused};
ghost use Rattle.tube_store.specs.TubeCounts.{counts_at};
ghost use Rattle.bean_queue.specs.Reports.{tube_figures, tube_report, queue_figures, queue_report};
ghost use Rattle.bean_queue.specs.Rows.{reported};
ghost use Rattle.bean_queue.specs.Tubes.{all_tubes};

use crate::figures::{QueueFigures, TubeFigures};
use crate::group::Group;
use crate::job_report::job_report;
use crate::logic::Logic;
use crate::report::Report;
use crate::tube_report::tube_report;
use bean_words::{Name, Reply};
use job_store::JobMap;
use std::alloc::{AllocError, Global};

impl<M: JobMap> Logic<M> {
    /// Tells what has happened to a job.
    pub fn stats_job(&self, alloc: Global, id: u64) -> Result<Reply, AllocError>
        ensures { IfOk result (λ reply. reply
            ≡ reported self.now.now.now id (value_at id self.now.now.jobs)) }
    {
        match self.jobs.map().get(id) {
            Some(job) => Ok(Reply::Data(job_report(alloc, self.counters.now, id, job)?)),
            None => Ok(Reply::NotFound),
        }
    }

    /// For how many seconds a tube is paused, and 0 where it isn't.
    fn pause_of(&self, tube: &Name) -> u64
        ensures { result ≡ (if is_paused tube.now self.now.now.pauses
            then (counts_at tube.now self.now.now.tubes).pause
            else 0) }
    {
        if !self.pauses.is_paused(tube) {
            return 0;
        }
        u64::from(self.tubes.counts(tube).pause)
    }

    /// What is told of a tube, in numbers.
    fn tube_figures(&self, tube: &Name) -> TubeFigures
        ensures { result ≡ tube_figures self.now.now tube.now }
    {
        let counts = self.tubes.counts(tube);
        let sessions = self.sessions.map();
        TubeFigures {
            tally: self.jobs.map().tally_in(tube),
            puts: counts.puts,
            using: Group::Using(tube).count(sessions),
            watching: Group::Watching(tube).count(sessions),
            waiting: Group::WaitingFor(tube).count(sessions),
            deletes: counts.deletes,
            pauses: counts.pauses,
            pause: self.pause_of(tube),
            pause_left: self.pauses.end(tube).saturating_sub(self.counters.now),
        }
    }

    /// Tells what was done with a tube, and how many jobs and sessions it has, if list-tubes names it.
    pub fn stats_tube(&self, alloc: Global, tube: &Name) -> Result<Reply, AllocError>
        ensures { IfOk result (λ reply. reply
            ≡ (if is_among tube.now (all_tubes self.now.now)
            then Reply.Data (tube_report tube.now (tube_figures self.now.now tube.now))
            else Reply.NotFound)) }
    {
        if !self.is_tube(tube) {
            return Ok(Reply::NotFound);
        }
        let text = tube_report(alloc, tube, &self.tube_figures(tube))?;
        Ok(Reply::Data(text))
    }

    /// What is told of the queue beside its jobs and how often each operation was carried out, in numbers.
    fn queue_figures(&self, tubes: u64) -> QueueFigures
        requires { tubes ≡ length (all_tubes self.now.now) }
        ensures { result ≡ queue_figures self.now.now }
    {
        let sessions = self.sessions.map();
        QueueFigures {
            timeouts: self.counters.counts.timeouts,
            puts: self.counters.next_id.saturating_sub(1),
            tubes,
            sessions: sessions.len() as u64,
            producers: Group::Producers.count(sessions),
            workers: Group::Workers.count(sessions),
            waiting: Group::Waiting.count(sessions),
            second: self.counters.now,
        }
    }

    /// Tells how many jobs, tubes and sessions there are, and how often each operation was carried out. There are so
    /// many tubes.
    #[tactic(auto, unfolding(crate::specs::Reports::queue_report))]
    pub fn stats(&self, alloc: Global, tubes: u64) -> Result<Reply, AllocError>
        requires { tubes ≡ length (all_tubes self.now.now) }
        ensures { IfOk result (λ reply. reply ≡ Reply.Data (queue_report self.now.now)) }
    {
        let mut report = Report::new(alloc)?;
        report.tally(self.jobs.map().tally_all())?;
        report.job_counts(&self.counters.counts)?;
        report.other_counts(&self.counters.counts)?;
        report.totals(&self.queue_figures(tubes))?;
        Ok(Reply::Data(report.text()?))
    }
}
