//! The hall: all nodes with their mail, what happened there, and the sessions that use them.
//!
//! A `Hall` shows a world that events lead to, and each of its calls is one event or none, so what is proved of every
//! world is so of it. `specs/Shows.antt` says what showing is, and `specs/Explained.antt` what follows.
#![tactic(auto)]

mod error;
mod hall;
mod laws;
mod recorded;
mod ticket;
mod work;

pub use error::HallError;
pub use hall::{Hall, LAST_SECOND};
pub use laws::every_hall;
pub use ticket::{NotedAct, Ticket};
pub use work::Work;
