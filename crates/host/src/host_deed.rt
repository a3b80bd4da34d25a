ghost use Rattle.std.specs.Prelude.{◌≡◌};
ghost use Rattle.host.specs.Deeds.{deed_of};

use node::Deed;
use object::Command;

/// What a host does by itself: what a node does, but that it never begins anew. A new process does.
#[derive(Drop, PartialEq, Eq)]
pub enum HostDeed<Op> {
    /// Is asked for a command.
    Request(Command<Op>),
    /// Sends a scout out, where the leader isn't active and has none.
    Wake,
    /// Says again what it waits for.
    Nudge,
    /// Proposes its first request, where a slot is open to it.
    Propose,
    /// Performs the next decided command.
    Perform,
}

impl<Op> HostDeed<Op> {
    /// The deed of its node.
    pub fn deed(self) -> Deed<Op>
        ensures { result ≡ deed_of self }
    {
        match self {
            HostDeed::Request(command) => Deed::Request(command),
            HostDeed::Wake => Deed::Wake,
            HostDeed::Nudge => Deed::Nudge,
            HostDeed::Propose => Deed::Propose,
            HostDeed::Perform => Deed::Perform,
        }
    }
}
