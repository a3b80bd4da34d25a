//! Scouts and commanders: who was heard, and whether they are a majority.
#![tactic(auto)]

mod commander;
mod gathered;
mod scout;

pub use commander::{Commander, Voted};
pub use scout::{Heard, Scout};
