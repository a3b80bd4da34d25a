//! A log that many wait for: what took effect is given to it in turn, and is written and synced a batch at a time.
#![tactic(auto)]

mod fault;
mod journal;
mod kept;

pub use fault::JournalFault;
pub use journal::Journal;
pub use kept::Kept;
