ghost use Rattle.std.specs.Prelude.{◌≡◌, IfOk};
ghost use Rattle.bean_queue.specs.Reports.{state_word, time_left, job_report};

use crate::report::Report;
use bean_words::Body;
use job_store::{Job, State};
use std::alloc::{AllocError, Global};

/// The word for a state.
fn state_word(state: State) -> &'static [u8]
    ensures { result.now ≡ state_word state }
{
    match state {
        State::Ready => b"ready",
        State::Delayed { .. } => b"delayed",
        State::Reserved { .. } => b"reserved",
        State::Buried { .. } => b"buried",
    }
}

/// The seconds until the delay or the time to run of a job in this state is over, and 0 of other jobs.
fn time_left(now: u64, state: State) -> u64
    ensures { result ≡ time_left now state }
{
    match state {
        State::Delayed { due } | State::Reserved { due, .. } => due.saturating_sub(now),
        State::Ready | State::Buried { .. } => 0,
    }
}

/// What has happened to a job, at this second, as a text.
#[tactic(auto, unfolding(crate::specs::Reports::job_report))]
pub(crate) fn job_report(alloc: Global, now: u64, id: u64, job: &Job) -> Result<Body, AllocError>
    ensures { IfOk result (λ text. text ≡ job_report now id job.now) }
{
    let history = job.history;
    let mut report = Report::new(alloc)?;
    report.number(b"id", id)?;
    report.line(b"tube", job.tube.as_slice())?;
    report.line(b"state", state_word(job.state))?;
    report.number(b"pri", u64::from(job.pri))?;
    report.number(b"age", now.saturating_sub(history.put_at))?;
    report.number(b"delay", u64::from(history.delay))?;
    report.number(b"ttr", u64::from(job.ttr))?;
    report.number(b"time-left", time_left(now, job.state))?;
    report.number(b"file", 0)?;
    report.number(b"reserves", u64::from(history.reserves))?;
    report.number(b"timeouts", u64::from(history.timeouts))?;
    report.number(b"releases", u64::from(history.releases))?;
    report.number(b"buries", u64::from(history.buries))?;
    report.number(b"kicks", u64::from(history.kicks))?;
    report.text()
}
