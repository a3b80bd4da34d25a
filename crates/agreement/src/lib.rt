//! What every run of the nodes agrees on, as laws that need no running code.
//!
//! `specs/Worlds.antt` has all nodes with all letters and what clients and clocks saw, as a value; `specs/Steps.antt` what an
//! event makes of it; `specs/Agreements.antt` and `specs/OneOrder.antt` what is so of each that events lead to. A function
//! without a body, `every_world`, says that; whoever keeps nodes, in whatever way, takes it as his law.
#![tactic(auto)]

mod event;
mod laws;

pub use event::Event;
pub use laws::every_world;

/// How many events a world takes, and whoever keeps its nodes.
pub const MOST_EVENTS: u64 = 1 << 48;
