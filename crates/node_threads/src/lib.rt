//! Threads round a hall: each node, the clock and the workers that serve clients have one, and share the hall under a lock.
#![tactic(auto)]

mod accept;
mod attendant;
mod attending;
mod clock;
mod cluster;
mod cluster_error;
mod faults;
mod gate;
mod node_thread;
mod places;
mod rig;
mod rounds;
mod shared;
mod staff;
mod tally;
mod watched_reader;
mod worker;

pub use accept::Accept;
pub use attending::{Attended, Desk, attend};
pub use cluster::{Ended, run_cluster, run_cluster_faulty};
pub use cluster_error::ClusterError;
pub use counted_hall::{Mishap, Seconds};
pub use faults::Faults;
pub use gate::{Actor, Gate, Point};
pub use shared::Shared;
pub use worker::Worker;
