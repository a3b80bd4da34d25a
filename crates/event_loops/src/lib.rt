//! The loops of a server over many connections, which share one hall under a lock: any hall that is a desk (`LoopDesk`).
//!
//! Each loop has a thread of its own and waits for all of its clients at once. What these ask for is handed in under one hold
//! of the lock; the loop then takes the nodes' turns itself, until none has anything left to do, and tells the other loops
//! whose clients were answered meanwhile.
#![tactic(auto)]

mod beginning;
mod clients;
mod clock;
mod desk;
mod doorman;
mod event_loop;
mod fault;
mod house;
mod mailbox;
mod seat;
mod seats;
mod serving;
mod shared_log;
mod stream;
mod syncs;
mod troubles;
mod wire;

pub use clients::Clients;
pub use desk::LoopDesk;
pub use fault::ServeFault;
pub use serving::{Host, Terms, serve_desk};
pub use shared_log::{Logging, SharedLog};
pub use stream::Stream;
pub use wire::Wire;
