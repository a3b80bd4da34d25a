ghost use Rattle.std.specs.Prelude.{◌≡◌, ◌++◌, codes, OnOk, IfOk};
ghost use Rattle.bean_queue.specs.Reports.{report_line, report_number, tally_report, job_counts_report, other_counts_report, totals_report};

use crate::counts::Counts;
use crate::figures::QueueFigures;
use bean_words::Body;
use itoa::Buffer;
use job_store::Tally;
use std::alloc::{AllocError, Global};
use std::marker::Model;

/// The greatest body of a job that clients may put, in bytes.
const MAX_JOB_SIZE: u64 = 65535;

/// The text of a report, as far as it is written. Where memory is refused, a part of a line may stand there.
#[derive(Drop)]
pub(crate) struct Report {
    alloc: Global,
    text: Vec<u8>,
}

impl Model for Report {
    ghost use Rattle.std.specs.Prelude.{List, ℕ};

    ghost Value = { List ℕ };

    ghost view = { λ r. r.text.items };
}

impl Report {
    /// A report without lines.
    pub fn new(alloc: Global) -> Result<Report, AllocError>
        ensures { IfOk result (λ report. report ≡ codes "---\n") }
    {
        Ok(Report {
            alloc,
            text: Vec::from_slice(alloc, b"---\n")?,
        })
    }

    /// Writes a line more: a name and its value.
    #[tactic(auto, unfolding(crate::specs::Reports::report_line))]
    pub fn line(&mut self, name: &[u8], value: &[u8]) -> Result<(), AllocError>
        ensures { OnOk result (self.new ≡ self.old ++ report_line name.now value.now) }
    {
        self.text.extend_from_slice(name)?;
        self.text.extend_from_slice(b": ")?;
        self.text.extend_from_slice(value)?;
        self.text.extend_from_slice(b"\n")
    }

    /// Writes a line more: a name and a number.
    #[tactic(auto, unfolding(crate::specs::Reports::report_number))]
    pub fn number(&mut self, name: &[u8], number: u64) -> Result<(), AllocError>
        ensures { OnOk result (self.new ≡ self.old ++ report_number name.now number) }
    {
        let mut digits = Buffer::new();
        self.line(name, digits.format(number).as_bytes())
    }

    /// Writes how many jobs of each kind there are.
    #[tactic(auto, unfolding(crate::specs::Reports::tally_report))]
    pub fn tally(&mut self, tally: Tally) -> Result<(), AllocError>
        ensures { OnOk result (self.new ≡ self.old ++ tally_report tally) }
    {
        self.number(b"current-jobs-urgent", tally.urgent)?;
        self.number(b"current-jobs-ready", tally.ready)?;
        self.number(b"current-jobs-reserved", tally.reserved)?;
        self.number(b"current-jobs-delayed", tally.delayed)?;
        self.number(b"current-jobs-buried", tally.buried)
    }

    /// Writes how often operations on jobs were carried out.
    #[tactic(auto, unfolding(crate::specs::Reports::job_counts_report))]
    pub fn job_counts(&mut self, counts: &Counts) -> Result<(), AllocError>
        ensures { OnOk result (self.new ≡ self.old ++ job_counts_report counts.now) }
    {
        self.number(b"cmd-put", counts.put)?;
        self.number(b"cmd-peek", counts.peek)?;
        self.number(b"cmd-peek-ready", counts.peek_ready)?;
        self.number(b"cmd-peek-delayed", counts.peek_delayed)?;
        self.number(b"cmd-peek-buried", counts.peek_buried)?;
        self.number(b"cmd-reserve", counts.reserve)?;
        self.number(b"cmd-reserve-with-timeout", counts.reserve_with_timeout)?;
        self.number(b"cmd-delete", counts.delete)?;
        self.number(b"cmd-release", counts.release)
    }

    /// Writes how often the others were.
    #[tactic(auto, unfolding(crate::specs::Reports::other_counts_report))]
    pub fn other_counts(&mut self, counts: &Counts) -> Result<(), AllocError>
        ensures { OnOk result (self.new ≡ self.old ++ other_counts_report counts.now) }
    {
        self.number(b"cmd-use", counts.use_tube)?;
        self.number(b"cmd-watch", counts.watch)?;
        self.number(b"cmd-ignore", counts.ignore)?;
        self.number(b"cmd-bury", counts.bury)?;
        self.number(b"cmd-kick", counts.kick)?;
        self.number(b"cmd-touch", counts.touch)?;
        self.number(b"cmd-stats", counts.stats)?;
        self.number(b"cmd-stats-job", counts.stats_job)?;
        self.number(b"cmd-stats-tube", counts.stats_tube)?;
        self.number(b"cmd-list-tubes", counts.list_tubes)?;
        self.number(b"cmd-list-tube-used", counts.list_tube_used)?;
        self.number(b"cmd-list-tubes-watched", counts.list_tubes_watched)?;
        self.number(b"cmd-pause-tube", counts.pause_tube)
    }

    /// Writes how many jobs there were, and how many tubes and sessions there are.
    #[tactic(auto, unfolding(crate::specs::Reports::totals_report))]
    pub fn totals(&mut self, figures: &QueueFigures) -> Result<(), AllocError>
        ensures { OnOk result (self.new ≡ self.old ++ totals_report figures.now) }
    {
        self.number(b"job-timeouts", figures.timeouts)?;
        self.number(b"total-jobs", figures.puts)?;
        self.number(b"max-job-size", MAX_JOB_SIZE)?;
        self.number(b"current-tubes", figures.tubes)?;
        self.number(b"current-connections", figures.sessions)?;
        self.number(b"current-producers", figures.producers)?;
        self.number(b"current-workers", figures.workers)?;
        self.number(b"current-waiting", figures.waiting)?;
        self.line(b"version", b"\"beanpax 0.1\"")?;
        self.number(b"uptime", figures.second)
    }

    /// The text.
    pub fn text(&self) -> Result<Body, AllocError>
        ensures { IfOk result (λ text. text ≡ self.now) }
    {
        Body::new(self.alloc, self.text.as_slice())
    }
}
