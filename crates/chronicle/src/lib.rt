//! What is wrong with a chronicle of a queue, by the lines of its dump. How a chronicle is written and read is for crate
//! `chronicle_text`, whose names are exported here, too; the chronicle itself is a value of crate `recorder`.
//!
//! `specs/Checking.antt` says when each line of a dump is right, and `specs/CheckFaults.antt` what is
//! wrong with one.
#![tactic(auto)]

mod check_fault;
mod checker;
mod first_places;
mod laws;
mod replay;
mod walk;

pub use check_fault::{CheckFault, What};
pub use checker::check;
pub use chronicle_text::{
    Entry, ReadFault, Version, WriteText, append_act, append_number, append_numbers, append_word,
    one_bad_line, one_chronicle, one_dump, read_entry, read_text,
};
pub use laws::{faultless_is_legal, legal_is_faultless, one_fault};
pub use recorder::Chronicle;
