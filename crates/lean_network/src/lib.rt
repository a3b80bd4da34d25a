//! Nodes in one process that can forget slots, each with its mail: the letters that are on their way to it.
#![tactic(auto)]

mod laws;
mod lean_network;
mod receipt;

pub use laws::lean_networks;
pub use lean_network::LeanNetwork;
pub use receipt::Receipt;
