ghost use Rattle.std.specs.Prelude.{◌≡◌};
ghost use Rattle.bean_queue.specs.Effects.{is_quiet, lists_tubes, only_reports};

use bean_words::Op;

/// Whether an operation makes no job ready and lets nobody wait, so that nobody is served after it.
pub(crate) fn is_quiet(op: &Op) -> bool
    ensures { result ≡ is_quiet op.now }
{
    match op {
        Op::Put { .. }
        | Op::Reserve { .. }
        | Op::Release { .. }
        | Op::Kick(_)
        | Op::KickJob(_)
        | Op::Pause { .. } => false,
        Op::Use(_)
        | Op::Watch(_)
        | Op::Ignore(_)
        | Op::Delete(_)
        | Op::Touch(_)
        | Op::Bury { .. }
        | Op::ReserveJob(_)
        | Op::Peek(_)
        | Op::PeekReady
        | Op::PeekDelayed
        | Op::PeekBuried
        | Op::ListTubes
        | Op::ListTubeUsed
        | Op::ListTubesWatched
        | Op::StatsJob(_)
        | Op::StatsTube(_)
        | Op::Stats => true,
    }
}

/// Whether an operation lists all tubes, or counts them.
pub(crate) fn lists_tubes(op: &Op) -> bool
    ensures { result ≡ lists_tubes op.now }
{
    matches!(op, Op::ListTubes | Op::Stats)
}

/// Whether an operation only reports.
pub(crate) fn only_reports(op: &Op) -> bool
    ensures { result ≡ only_reports op.now }
{
    matches!(
        op,
        Op::Peek(_)
            | Op::PeekReady
            | Op::PeekDelayed
            | Op::PeekBuried
            | Op::ListTubes
            | Op::ListTubeUsed
            | Op::ListTubesWatched
            | Op::StatsJob(_)
            | Op::StatsTube(_)
            | Op::Stats
    )
}
