//! All nodes and all letters as one world, which takes one event at a time.
#![tactic(auto)]

mod error;
mod letter_places;
mod letters;
mod order;
mod rescuing;
mod submissions;
mod task;
mod watched;
mod way;
mod world;

pub use agreement::{Event, MOST_EVENTS, every_world};
pub use error::WorldError;
pub use schedule::Schedule;
pub use world::World;
