//! Nodes in one process, each with its mail: the letters that are on their way to it.
#![tactic(auto)]

pub mod mail;
mod network;
pub mod post;
pub mod sorting;

pub use network::Network;
