//! Acceptors: what they promise, and what they accept.
#![tactic(auto)]

mod accepted;
mod acceptor;

pub use acceptor::Acceptor;
