//! A client's conversation as a value: it does no IO, and waits for nobody.
//!
//! It holds the client's `Session` and its `Ticket`, and says what is to be done next. `specs/Conversing.antt` says what the
//! client was told, and what its session handed in, wherever it stands; `specs/Talks.antt` where it goes from there, and
//! `specs/Desks.antt` what it does at the desk of a hall.
#![tactic(auto)]

mod client;
mod conversation;
mod desk;
mod laws;
mod lean_ticket;
mod link;
mod session_ticket;
mod stage;

pub use client::Client;
pub use conversation::{Conversation, LONGEST_PIECE, LONGEST_UNSENT};
pub use desk::Desk;
pub use laws::whole_transcript;
pub use lean_ticket::LeanTicket;
pub use link::{Link, Pause};
pub use session_ticket::SessionTicket;
pub use stage::Stage;
