//! The text of a log of commands: how its head and its lines are written, and what is read from any bytes.
//!
//! `specs/Text.antt` says how a log is written, and `specs/Lines.antt` which lines are right. `specs/Reading.antt` says what
//! any bytes are, read as a log, and `specs/Progress.antt` where a reader stands that takes them in pieces.
#![tactic(auto)]

mod chain;
mod faults;
mod head;
mod laws;
mod line;
mod reader;
mod stage;
mod sum;
mod version;
mod whole;

pub use chain::Chain;
pub use faults::{LogFault, WriteFault};
pub use head::write_head;
pub use laws::one_log;
pub use line::{MAX_LINE, MAX_WORDS, write_command};
pub use reader::LogReader;
pub use version::LogVersion;
pub use whole::Whole;
