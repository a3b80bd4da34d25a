//! Hosts: nodes that are processes of their own, each of which keeps the slots from a base of its own on. What each
//! shows of a world it goes on showing, whatever the others do. Each function is a law.
//!
//! `specs/Hosts.antt` says what a host shows of a world, `specs/Steps.antt` what may happen to hosts together, and
//! `specs/Showing.antt` what all of them show.
#![tactic(auto)]

mod laws;

pub use laws::{every_cluster, hosts_alone, snapshots};
