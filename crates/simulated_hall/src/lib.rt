//! A hall whose nodes are simulated on one thread, and the one client that it serves.
//!
//! `specs/OneClient.antt` says what one object answers to one client, and `specs/Standing.antt` that a hall stands for it.
#![tactic(auto)]

mod carrier;
mod driver;
mod simulated_hall;
mod unanswered;

pub use simulated_hall::SimulatedHall;
pub use unanswered::Unanswered;
