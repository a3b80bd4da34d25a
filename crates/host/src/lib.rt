//! A host: one node in a process of its own, which forgets the slots below a base of its own, and receives what asks
//! for a vote once that is kept.
#![tactic(auto)]

mod catch_up;
mod destination;
mod envelope;
mod event_count;
mod host;
mod host_deed;
mod host_fault;
mod kept;
mod laws;
mod outbox;
mod receipt;
mod receiving;
mod stored;

pub use catch_up::CatchUp;
pub use destination::Destination;
pub use envelope::Envelope;
pub use host::Host;
pub use host_deed::HostDeed;
pub use host_fault::HostFault;
pub use kept::{Account, Kept};
pub use laws::{calls_are_steps, counted_hosts, hosts_come_back, hosts_stay, letters_fit};
pub use outbox::Outbox;
pub use receipt::Receipt;
pub use stored::Stored;
