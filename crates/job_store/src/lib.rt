//! The jobs of a work queue: their states, and the map of jobs by id with its least look-ups.
#![tactic(auto)]

mod change;
mod changes;
mod count;
mod history;
mod job;
mod job_map;
mod jobs;
mod label;
mod laws;
mod logged_jobs;
mod mark;
mod moves;
mod rack;
mod shelf;
mod shelf_number;
mod shelves;
mod spot;
mod state;
mod stored_job;
mod tallies;
mod tally;
mod undo;

pub use bean_words::{Body, Name};
pub use history::History;
pub use job::Job;
pub use job_map::JobMap;
pub use jobs::{Jobs, more_urgent};
pub use laws::{among_is_member, least_is_least};
pub use logged_jobs::LoggedJobs;
pub use mark::Mark;
pub use state::State;
pub use stored_job::StoredJob;
pub use tally::Tally;
