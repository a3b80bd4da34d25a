//! The work queue as a program: requests as bytes in, replies as bytes out.
//!
//! `specs/Sessions.antt` says what one queue replies to one client, `specs/Told.antt` what the client is told for its
//! bytes, and `specs/Runs.antt` what a run over streams has read and written.
#![tactic(auto)]

mod entry;
mod faults;
mod host;
mod inspecting;
mod laws;
mod opening;
mod restoring;
mod run;
mod seconds;
mod server;
mod simulation;
mod start_fault;
mod starting;
mod telling;
mod warning;

pub use bean_codec::Profile;
pub use entry::{DONE, DUMP_REFUSED, FAULT, WRONG_WORDS, program};
pub use faults::{ProgramFault, fault_number};
pub use host::{Host, no_sockets};
pub use inspection::{Verdict, inspect_text, no_fault_in_a_dump, one_verdict};
pub use laws::one_output;
pub use options::{Action, ServerOptions, parse_words};
pub use run::{run_bytes, run_bytes_in, run_bytes_weighted};
pub use session::{
    ByteIn, ByteOut, End, Failed, Reading, SessionFault, Writing, memory, write_all,
};
pub use telling::tell_fault;
pub use warning::{warn, warn_of_host};
