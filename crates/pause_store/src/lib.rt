//! The pauses of tubes, and changes of them that can be taken back.
#![tactic(auto)]

mod laws;
mod pause;
mod pause_draft;

pub use laws::{a_pause_goes_on_or_is_over, one_tube_is_paused};
pub use pause_draft::PauseDraft;
