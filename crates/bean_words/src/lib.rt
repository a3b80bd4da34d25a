//! What clients and queue say to each other, as values: what is asked, what is answered, and in these the names of tubes and
//! the bodies of jobs. How they are spelled is told in crate `bean_codec`, and what is done with them in `bean_queue`.
#![tactic(auto)]

mod body;
mod name;
mod name_bytes;
mod name_set;
mod names;
mod op;
mod reply;
mod shared_bytes;

pub use body::Body;
pub use name::Name;
pub use name_set::add_name;
pub use names::Names;
pub use op::Op;
pub use reply::Reply;
