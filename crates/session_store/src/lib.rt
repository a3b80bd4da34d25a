//! The sessions of a work queue: the tubes that they use and watch, who waits, and changes that can be taken back.
#![tactic(auto)]

mod fronts;
mod late_line;
mod lines;
mod place;
mod rolls;
mod session;
mod session_change;
mod session_draft;
mod session_step;
mod time_outs;
mod tube_lines;
mod waiting;
mod watch_list;

pub use fronts::Fronts;
pub use late_line::LateLine;
pub use session::{Role, SessionState, Wait};
pub use session_draft::SessionDraft;
pub use waiting::first;
pub use watch_list::WatchList;
