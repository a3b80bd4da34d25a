//! What is replicated: commands under keys, the answers to them, and the objects that obey them.
#![tactic(auto)]

mod command;
mod key_map;
mod keyed;
mod latest;
mod laws;
mod number_map;
mod objects;
mod once;
mod register;
mod value;

pub use command::{Act, Answer, Command, Key, Submission};
pub use key_map::KeyMap;
pub use keyed::Keyed;
pub use latest::Latest;
pub use laws::filter_remembers;
pub use objects::Object;
pub use once::{Effect, Once};
pub use register::{Register, RegisterOp, RegisterReply};
pub use value::{Value, copies_of};
