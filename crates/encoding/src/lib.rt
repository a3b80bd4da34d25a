//! Values as bytes, on disk and on the wire: one text for each value, and one value for each text.
#![tactic(auto)]

mod commands;
mod encode;
mod fault;
mod operations;
mod words;

pub use encode::Encode;
pub use fault::DecodeFault;
