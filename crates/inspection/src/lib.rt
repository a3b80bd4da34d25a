//! What is found of a text that is a dump or a log, or isn't: that nothing is wrong with it, or its first fault.
//!
//! `specs/Verdicts.antt` says when a verdict is right, and by which line it is told.
#![tactic(auto)]

mod inspecting;
mod inspecting_log;
mod laws;
mod verdict;

pub use inspecting::inspect_text;
pub use laws::{no_fault_in_a_dump, one_verdict};
pub use verdict::Verdict;
