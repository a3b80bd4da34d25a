//! The text protocol: requests are read from bytes, and replies are written as bytes.
//!
//! `specs/Grammar.antt` says which text spells which request or fault, and `specs/Replies.antt` has
//! the texts of replies. A text spells one item and begins no other, so that requests may follow one
//! another in one buffer. What is too long is dropped as it comes: `specs/Wants.antt` says which text
//! may have been dropped before what a reader waits for.
#![tactic(auto)]

mod append;
mod command;
mod dropped;
mod front;
mod laws;
mod line;
mod name_lines;
mod number;
mod number_lines;
mod profile;
mod reader;
mod request;
mod tube_list;
mod words;
mod writer;

pub use command::{CommandName, command_of};
pub use laws::{front_item, one_item, plain_is_extended};
pub use line::{Meaning, line_of};
pub use name_lines::name_of;
pub use number::{u32_of, u64_of};
pub use profile::Profile;
pub use reader::{Read, Want, read_request, read_request_in};
pub use request::{Fault, Request};
pub use words::Words;
pub use writer::{write_fault, write_reply};
