//! How nodes take their turns: what each does in one, from what it keeps in mind (`Watch`), and how they settle, one after the
//! other, until none has anything to do. It is the same in any hall: `Nodes` says what it takes of one. With it the mishaps that
//! may befall the nodes of a hall.
#![tactic(auto)]

mod going;
mod mishap;
mod nodes;
mod settling;
mod watch;

pub use going::halls_go_on;
pub use mishap::{Mishap, befall};
pub use nodes::Nodes;
pub use settling::settle;
pub use watch::Watch;
