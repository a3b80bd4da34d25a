//! What happened: what was submitted, what was answered and which commands took effect.
//!
//! A `Recorder` records it, and finds each by its key (`specs/Records.antt`). A `Chronicle` tells it
//! of a run of nodes (`specs/Chronicles.antt`); its text is for crate `chronicle`.
#![tactic(auto)]

mod chronicle;
mod fate;
mod keyed_list;
mod laws;
mod recorder;
mod room;
mod timeline;

pub use chronicle::Chronicle;
pub use laws::firsts_of_firsts;
pub use recorder::Recorder;
