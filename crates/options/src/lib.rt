//! The command line: what its words ask the program to do.
//!
//! `specs/Words.antt` says which words those are, and what they ask for; `specs/Numbers.antt`, `specs/Weights.antt` and
//! `specs/Hosts.antt` what the values of options are read as.
#![tactic(auto)]

mod hosts;
mod laws;
mod weights;
mod words;

pub use laws::version_alone;
pub use words::{Action, RunOptions, ServerOptions, VERSION, parse_words};
