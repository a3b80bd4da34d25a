//! What a hall that forgets keeps of its clients: of each session the last command, and the reply to it (the client table of
//! Viewstamped Replication Revisited, 4.1). `specs/Clients.antt` says what each call makes of it.
#![tactic(auto)]

mod client;
mod table;

pub use client::Client;
pub use table::ClientTable;
