//! A node: its acceptor, its leader and its replica, and what it does by itself and with a letter.
#![tactic(auto)]

mod deed;
mod laws;
mod lean_node;
mod node;
mod receiving;

pub use deed::{Deed, Outcome};
pub use laws::deeds_are_shown;
pub use lean_node::LeanNode;
pub use node::Node;
