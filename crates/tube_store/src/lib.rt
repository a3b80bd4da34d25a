//! Values by the names of tubes, and what was done with each tube. Changes can be taken back.
#![tactic(auto)]

mod laws;
mod name_draft;
mod name_step;
mod tube_counts;
mod tube_draft;
mod tube_mark;
mod value_change;

pub use laws::a_mark_is_of_one_tube;
pub use name_draft::NameDraft;
pub use tube_counts::TubeCounts;
pub use tube_draft::TubeDraft;
pub use tube_mark::TubeMark;
pub use value_change::ValueChange;
