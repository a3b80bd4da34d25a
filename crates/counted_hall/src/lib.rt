//! A hall, and beside it how many sessions were opened there and how many commands these handed in: what the threads of a
//! cluster share under one lock. With it the turns of its nodes, and the comparison of the tickets with the hall in the end.
#![tactic(auto)]

mod comparing;
mod counted;
mod seconds;

pub use comparing::{are_its_tickets, mark};
pub use counted::CountedHall;
pub use seconds::Seconds;
pub use turns::{Mishap, Watch};
