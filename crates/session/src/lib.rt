//! Sessions: the bytes of one client, however they are cut, become asks of a service, and its answers become bytes.
//!
//! `specs/Items.antt` says what a client is told for the bytes that it sent, `specs/Held.antt` what a session holds on
//! the way, and `specs/Serving.antt` what `serve` has read, asked and written when it ends.
#![tactic(auto)]

mod faults;
mod laws;
pub mod memory;
mod reading;
mod server;
mod service;
mod session;
mod streams;
mod writing;

pub use faults::{End, ServiceFault, SessionFault};
pub use laws::one_transcript;
pub use reading::Reading;
pub use server::{serve, serve_in};
pub use service::Service;
pub use session::Session;
pub use streams::{ByteIn, ByteOut, Failed};
pub use writing::{Writing, write_all};
