//! A replica: its slots, and the object that obeys what they decide.
#![tactic(auto)]

mod obeying;
mod performed;
mod replica;

pub use performed::Performed;
pub use replica::Replica;
