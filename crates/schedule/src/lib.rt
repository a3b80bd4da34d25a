//! The events of a world as a seed draws them, for tests and simulations.
#![tactic(auto)]

mod schedule;

pub use schedule::Schedule;
