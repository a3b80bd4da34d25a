ghost use Rattle.std.specs.Prelude.{◌≡◌, IfOk};
ghost use Rattle.bean_queue.specs.Reports.{tube_report};

use crate::figures::TubeFigures;
use crate::report::Report;
use bean_words::{Body, Name};
use std::alloc::{AllocError, Global};

/// What was done with a tube, and how many jobs and sessions it has, as a text.
#[tactic(auto, unfolding(crate::specs::Reports::tube_report))]
pub(crate) fn tube_report(
    alloc: Global,
    tube: &Name,
    figures: &TubeFigures,
) -> Result<Body, AllocError>
    ensures { IfOk result (λ text. text ≡ tube_report tube.now figures.now) }
{
    let mut report = Report::new(alloc)?;
    report.line(b"name", tube.as_slice())?;
    report.tally(figures.tally)?;
    report.number(b"total-jobs", figures.puts)?;
    report.number(b"current-using", figures.using)?;
    report.number(b"current-watching", figures.watching)?;
    report.number(b"current-waiting", figures.waiting)?;
    report.number(b"cmd-delete", figures.deletes)?;
    report.number(b"cmd-pause-tube", figures.pauses)?;
    report.number(b"pause", figures.pause)?;
    report.number(b"pause-time-left", figures.pause_left)?;
    report.text()
}
