//! The clients of one host: their sessions, of each its last command with the reply to it, and which numbers are used
//! for sessions. A session whose end has taken effect is used again, with greater numbers.
#![tactic(auto)]

mod client_fault;
mod clients;
mod laws;
mod seat;

pub use client_fault::ClientFault;
pub use clients::Clients;
pub use laws::clients_of_a_host;
pub use seat::Seat;
