//! A leader: what it proposes, and what it makes of the answers of acceptors.
#![tactic(auto)]

mod commanding;
mod error;
mod greatest;
mod leader;

pub use error::LeaderError;
pub use leader::Leader;
