//! A start from a log: a hall obeys the commands of the log once more, in their order and with their keys, and then ends each
//! session that the log leaves open. `Recovery` is for a hall that forgets, `KeepingRecovery` for one that keeps all.
#![tactic(auto)]

mod clock;
mod fault;
mod keeping;
mod open_sessions;
mod recovery;
mod sessions;
mod steps;
mod used_again;

pub use fault::RecoverFault;
pub use keeping::{KeepingRecovery, RecoveredKeeping};
pub use recovery::{Recovered, Recovery};
