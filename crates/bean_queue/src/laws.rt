ghost use Rattle.std.specs.Prelude.{◌≡◌, ◌<◌, ◌↔◌, ℕ, List, length, map, min, None, Some, true, false};
ghost use Rattle.std.specs.Ordering.{nat_cmp};
ghost use Rattle.std.specs.Cmp.Lexicographic.{slice_cmp};
ghost use Rattle.std.specs.List.Sorted.{IsStrictlySortedBy};
ghost use Rattle.object.specs.declared.command.Command.{Command};
ghost use Rattle.object.specs.Answers.{AnswersOnce};
ghost use Rattle.session_store.specs.declared.session.SessionState.{SessionState};
ghost use Rattle.session_store.specs.Sessions.{is_waiting};
ghost use Rattle.bean_words.specs.declared.op.Op.{Op};
ghost use Rattle.bean_queue.specs.Places.{queue_places, placed_from, queue_replay, HasDistinctKeys};
ghost use Rattle.bean_queue.specs.Holds.{IsGivenOnce, IsHeldByOne};
ghost use Rattle.job_store.specs.LookUps.{best_ready, not_paused};
ghost use Rattle.bean_queue.specs.Best.{IsBestTurn};
ghost use Rattle.bean_words.specs.declared.reply.Reply.{Reply};
ghost use Rattle.bean_queue.specs.Effects.{tick_effect, effect};
ghost use Rattle.bean_queue.specs.Forgetful.{without_counts, asks_for_report};
ghost use Rattle.bean_queue.specs.Owed.{OwesNothing};
ghost use Rattle.bean_queue.specs.Queue.{QueueState, paused_tubes, HasRisingIds, fresh, used_by, with_jobs};
ghost use Rattle.bean_queue.specs.Kicking.{after_kick};
ghost use Rattle.bean_queue.specs.Rows.{kick_row, kickable};
ghost use Rattle.bean_queue.specs.Tubes.{all_tubes, IsTube};
ghost use Rattle.bean_queue.specs.Sound.{IsSoundQueue};
ghost use Rattle.bean_queue.specs.Turns.{QueueTurn, serve_turn, serve};
ghost use Rattle.object.specs.Lists.{In};

use job_store::{Job, least_is_least};
use session_store::SessionState;

/// No job is held by two sessions at once, whatever commands a new queue obeys, be their keys distinct or not: no
/// place gives two RESERVED of one job; and where a session gets a job and the job is given again later, the first
/// hold ended between, in one of the ways that `Ends` lists. The places are those of the replay.
pub fn one_holder()
    ensures once { (commands : List (Command Op)) → IsGivenOnce (queue_places commands) }
    ensures ended { (commands : List (Command Op)) → IsHeldByOne (queue_places commands) }
    ensures replay { (commands : List (Command Op))
        → queue_replay commands ≡ placed_from 0 (queue_places commands) }
{}

/// Where no key stands twice among the commands that a new queue obeys, no key is answered twice.
pub fn one_answer()
    ensures { (commands : List (Command Op)) → HasDistinctKeys commands →
        AnswersOnce (map (λ p. p.answer) (queue_replay commands)) }
{}

/// Serve gives the most urgent job that is wanted, to the session that has waited longest for its tube; and it goes on
/// until there is no ready job in a tube that a waiting session watches and that is not paused.
pub fn serve_gives_the_best()
    ensures turn { (s : QueueState) (t : QueueTurn) → serve_turn s ≡ Some t → IsBestTurn s t }
    ensures end { (s : QueueState) (w : ℕ × SessionState) → In w (serve s).state.sessions
        → is_waiting w.1 ≡ true →
        best_ready (not_paused (paused_tubes (serve s).state) w.1.watched) (serve s).state.jobs
        ≡ None }
{
    // What is least is least, of jobs and of sessions.
    least_is_least::<Job>();
    least_is_least::<SessionState>();
}

/// After a second has come, nothing is due to a session that waits: no job for it is ready, none that it has is due
/// within a second, and its wait is not over.
pub fn tick_owes_nothing()
    ensures { (s : QueueState) (second : ℕ) → s.now < second →
        OwesNothing (tick_effect second s).state }
{}

/// A kick tells the least of its bound and of how many jobs are there for it.
pub fn kick_counts()
    ensures { (s : QueueState) (x bound : ℕ) → HasRisingIds s →
        (kick_row s x bound).reply
        ≡ Some (Reply.KickedCount (min bound (length (kickable (used_by s x) s.jobs)))) }
{}

/// A kick makes the first so many buried jobs of the used tube ready, by rank, or, where it has none, the first so many of
/// its delayed ones, by the second in which they are due. Nothing else changes: no other job, session, pause or number.
pub fn kick_makes_the_first_ready()
    ensures { (s : QueueState) (x bound : ℕ) → HasRisingIds s →
        (kick_row s x bound).state ≡ with_jobs s (after_kick (used_by s x) bound s.jobs) }
{}

/// The list of all tubes has each of them once, in the order of their bytes, and no other name.
pub fn tubes_are_listed_once()
    ensures order { (s : QueueState) → IsStrictlySortedBy (slice_cmp nat_cmp) (all_tubes s) }
    ensures exact { (s : QueueState) (tube : List ℕ) → In tube (all_tubes s) ↔ IsTube s tube }
{}

/// No answer but that of a report depends on what is counted: where two states are the same but for the histories of
/// their jobs, what was done with their tubes and how often commands were obeyed, any other command gives the same
/// answers. The states after a command, a report too, are again the same but for these.
pub fn counts_change_no_answer()
    ensures answers { (c : Command Op) (s t : QueueState) → asks_for_report c.act ≡ false →
        without_counts s ≡ without_counts t → (effect c s).answers ≡ (effect c t).answers }
    ensures state { (c : Command Op) (s t : QueueState) →
        without_counts s ≡ without_counts t →
        without_counts (effect c s).state ≡ without_counts (effect c t).state }
{}

/// A new queue's state is sound, and stays so whatever it obeys.
pub fn queue_stays_sound()
    ensures fresh { IsSoundQueue fresh }
    ensures effect { (c : Command Op) (s : QueueState) → IsSoundQueue s → IsSoundQueue (effect c s).state }
{}
