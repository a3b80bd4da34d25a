//! The slots of a replica: what it was asked, what it proposed, and what it knows to be decided.
#![tactic(auto)]

mod errors;
mod looking;
mod places;
mod slot_log;

pub use errors::LearnError;
pub use slot_log::SlotLog;
