//! A log on a disk: its text is written to any writer, a batch at a time, read from any reader, and both are done with a
//! file.
//!
//! `specs/Logs.antt` says what a log's writer holds, and `specs/Reads.antt` what was read of one. No contract says what a
//! file keeps: what they say of bytes is said of writers and readers whose bytes are known.
#![tactic(auto)]

mod bytes;
mod durable;
mod faults;
mod file;
mod laws;
mod locked;
mod reader;
mod storage;
mod stored;
mod writer;

pub use durable::Durable;
pub use faults::{KeepFault, NoteFault, OpenFault, ReadFault};
pub use file::{OpenedLog, open_in, open_log};
pub use laws::{kept_is_read, other_head_is_damage, stray_is_damage};
pub use locked::{Locked, Unlocked};
pub use reader::{Recovered, read_log};
pub use storage::Storage;
pub use writer::LogWriter;
