ghost use Rattle.std.specs.Prelude.{◌≡◌};
ghost use Rattle.node.specs.Outcomes.{reach_after, key_placed};

use object::{Command, Effect, Key};
use replica::Performed;

/// What a node does by itself.
#[derive(Drop, PartialEq, Eq)]
pub enum Deed<Op> {
    /// Is asked for a command.
    Request(Command<Op>),
    /// Sends a scout out, where the leader isn't active and has none.
    Wake,
    /// Says again what it waits for.
    Nudge,
    /// Proposes its first request, where a slot is open to it.
    Propose,
    /// Performs the next decided command.
    Perform,
    /// Stops and begins anew; of what it knew its acceptor and the count of its boots are left.
    Restart,
}

/// What came of a deed.
#[derive(Clone, Copy, Debug, PartialEq, Eq)]
pub enum Outcome {
    /// Nothing: there was no request to propose or no slot for it, or no decision to perform.
    Idle,
    Done,
    Performed(Performed),
}

impl Outcome {
    /// The greatest slot that was performed, where it was this one before.
    pub fn reach_after(&self, reach: u64) -> u64
        ensures { result ≡ reach_after reach self.now }
    {
        match self {
            Outcome::Performed(performed) => reach.max(performed.slot.number()),
            _ => reach,
        }
    }

    /// The key that takes effect, where the slots up to this one were performed before: that of a later slot, unless its
    /// command is stale.
    pub fn key_placed(&self, reach: u64) -> Option<Key>
        ensures { result ≡ key_placed reach self.now }
    {
        match self {
            Outcome::Performed(performed)
                if performed.slot.number() > reach && performed.effect == Effect::Done => {
                Some(performed.key)
            }
            _ => None,
        }
    }
}
