ghost use Rattle.std.specs.Prelude.{◌≡◌, true};

use object::{Command, Value};
use std::alloc::AllocError;

/// What may happen in a world. Nodes are numbered from 1, and letters from 0, in the order in which they were sent.
#[derive(Drop, PartialEq, Eq)]
pub enum Event<Op> {
    /// A client or a clock submits a command at a node.
    Submit(u8, Command<Op>),
    /// The letter of this number reaches its receiver, for the first time or again.
    Deliver(usize),
    /// A leader that isn't active begins to gather promises.
    Wake(u8),
    /// A node says again what it waits for.
    Nudge(u8),
    /// A replica proposes its first request.
    Propose(u8),
    /// A replica performs the next decided command.
    Perform(u8),
    /// A node stops and begins anew; of what it knew its acceptor and the count of its boots are left.
    Restart(u8),
}

impl<Op: Value> Value for Event<Op> {
    ghost use Rattle.std.proofs.Common.{rules};
    ghost use Rattle.std.proofs.lemmas.Grind.{common_steps};

    ghost exact = { Prim.grind (rules, common_steps, Op.exact) };

    fn copy(&self) -> Result<Self, AllocError> {
        match self {
            Event::Submit(id, command) => Ok(Event::Submit(*id, command.copy()?)),
            Event::Deliver(index) => Ok(Event::Deliver(*index)),
            Event::Wake(id) => Ok(Event::Wake(*id)),
            Event::Nudge(id) => Ok(Event::Nudge(*id)),
            Event::Propose(id) => Ok(Event::Propose(*id)),
            Event::Perform(id) => Ok(Event::Perform(*id)),
            Event::Restart(id) => Ok(Event::Restart(*id)),
        }
    }
}
