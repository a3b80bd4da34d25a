ghost use Rattle.std.specs.Prelude.{◌≡◌, option_map};
ghost use Rattle.std.specs.Map.{keys_of};
ghost use Rattle.job_store.specs.LookUps.{best_ready, not_paused};
ghost use Rattle.session_store.specs.Fronts.{AreFronts};
ghost use Rattle.bean_queue.specs.Woken.{has_taker};

use bean_words::Name;
use job_store::{Job, JobMap, more_urgent};
use pause_store::PauseDraft;
use session_store::{Fronts, SessionDraft};

/// Whether a tube is not paused, and a waiting session watches it.
pub fn has_taker(
    sessions: &SessionDraft,
    pauses: &PauseDraft,
    tube: &Name,
    fronts: &mut Fronts,
) -> bool
    requires { AreFronts fronts.old sessions.now.now }
    ensures taker { result
        ≡ has_taker (keys_of pauses.now.now.pauses) sessions.now.now tube.now }
    ensures fronts { AreFronts fronts.new sessions.now.now }
{
    !pauses.is_paused(tube) && sessions.next_watcher(tube, fronts).is_some()
}

/// The best job for one who watches these tubes: of the ready ones in those of them that are not paused, that of the
/// least (priority, id).
pub fn best_ready<'a, M: JobMap>(
    jobs: &'a M,
    pauses: &PauseDraft,
    tubes: &[Name],
) -> Option<(u64, &'a Job)>
    ensures { option_map (λ e. (e.0, e.1.now)) result
        ≡ best_ready (not_paused (keys_of pauses.now.now.pauses) tubes.now) (M.entries jobs.now) }
{
    // Gives the proof that the ids rise.
    let _ = jobs.by_id();
    let mut best = None;
    for tube in tubes {
        if !pauses.is_paused(tube) {
            let first = jobs.first_ready(tube);
            best = more_urgent(best, first);
        }
    }
    best
}
