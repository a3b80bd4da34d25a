//! The text of what happened in a run of nodes: how a chronicle of a queue is written and read. The chronicle itself is a
//! value of crate `recorder`; what is wrong with one is for crate `chronicle`.
//!
//! `specs/Happenings.antt` says in which order submissions and answers came, and `specs/Dump.antt` how a chronicle is
//! written. `specs/Reading.antt` says which text is read, and where reading stops.
#![tactic(auto)]

mod acts;
mod append;
mod draft;
mod entry;
mod faults;
mod laws;
mod lines;
mod reader;
mod replies;
mod tell;
mod tell_acts;
mod tell_head;
mod tell_replies;
mod version;
mod writer;

pub use acts::append_act;
pub use append::{append_number, append_numbers, append_word};
pub use entry::{Entry, read_entry};
pub use faults::ReadFault;
pub use laws::{one_bad_line, one_chronicle, one_dump};
pub use reader::read_text;
pub use recorder::Chronicle;
pub use version::{Version, first_line};
pub use writer::WriteText;
