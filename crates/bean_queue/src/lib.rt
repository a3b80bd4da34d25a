//! The work queue: what each command does to the jobs and to the sessions.
#![tactic(auto)]

mod counters;
mod counts;
mod deadlines;
mod figures;
mod group;
mod holder_line;
mod job_draft;
mod job_report;
mod laws;
mod logic;
mod look_up;
mod offers;
mod queue;
mod quiet;
mod ready_again;
mod report;
mod role;
mod scan_jobs;
mod tube_report;
mod waiting;

pub use bean_words::{Body, Name, Names, Op, Reply};
pub use job_store::{History, Job, State};
pub use laws::{
    counts_change_no_answer, kick_counts, kick_makes_the_first_ready, one_answer, one_holder,
    queue_stays_sound, serve_gives_the_best, tick_owes_nothing, tubes_are_listed_once,
};
pub use queue::{PlainQueue, Queue, QueueOver};
pub use session_store::{SessionState, Wait, WatchList};
