//! A server over a hall: one that keeps all, with which the tickets of its sessions are compared, or one that forgets.
//!
//! Either is a desk for the loops of `event_loops`, which serve its clients.
#![tactic(auto)]

mod ends;
mod forgetting_desk;
mod hall_desk;
mod lent_ticket;
mod server;
mod steps;

pub use counted_hall::Seconds;
pub use event_loops::{Clients, Host, Logging, ServeFault};
pub use server::{
    KeptHall, Served, ServedForgetting, serve_again, serve_clients, serve_forgetting, serve_logged,
};
