ghost use Rattle.std.specs.Prelude.{◌≡◌, ◌==◌, not, length};
ghost use Rattle.std.specs.FinMap.{contains_key};
ghost use Rattle.ballot.specs.Members.{IsMembers};
ghost use Rattle.leader.specs.Leaders.{says_again};
ghost use Rattle.agreement.specs.Runs.{IsWorld};
ghost use Rattle.world.specs.WaysOut.{first_leader, first_book};

use super::World;
use ballot::{Slot, ballot_laws};
use node::Node;
use object::Object;
use std::alloc::Global;

impl<O: Object> World<O> {
    /// A law: events lead to every world from the opening world of its members, and it counts 2^48 at most. Its members are
    /// 1 to 7, and weigh 1 to 1000 each.
    pub fn show_reachable(&self)
        ensures world { IsWorld O.rules self.now }
        ensures members { IsMembers self.now.cluster.members }
    {
        let _ = self.members.weights();
    }

    /// Where its memory comes from.
    pub(crate) fn allocator(&self) -> Global {
        self.alloc
    }

    /// How many members there are.
    pub(crate) fn count(&self) -> u8
        ensures { result ≡ length self.now.cluster.members }
    {
        self.members.count()
    }

    /// How many events it has taken.
    pub(crate) fn taken(&self) -> u64
        ensures { result ≡ self.now.taken }
    {
        self.taken
    }

    // Node 1, which is always a member.
    fn first(&self) -> &Node<O>
        ensures leader { result.now.leader ≡ first_leader self.now.cluster }
        ensures book { result.now.replica ≡ first_book self.now.cluster }
    {
        ballot_laws();
        let _ = self.members.weights();
        &self.nodes[0].node
    }

    /// Whether the leader of node 1 is active.
    pub(crate) fn is_active(&self) -> bool
        ensures { result ≡ (first_leader self.now.cluster).active }
    {
        self.first().is_active()
    }

    /// How many things its leader waits for.
    pub(crate) fn awaited_count(&self) -> usize
        ensures { result ≡ length (says_again (first_leader self.now.cluster)) }
    {
        self.first().awaited_count()
    }

    /// Whether its leader has a proposal for the slot.
    pub(crate) fn has_proposal(&self, slot: Slot) -> bool
        ensures { result ≡ contains_key (first_leader self.now.cluster).proposals slot }
    {
        self.first().has_proposal(slot)
    }

    /// The slot that replica 1 performs next.
    pub(crate) fn slot_out(&self) -> Slot
        ensures { result ≡ (first_book self.now.cluster).slot_out }
    {
        ballot_laws();
        self.show_reachable();
        Slot::new(self.first().slots().slot_out()).unwrap()
    }

    /// Whether replica 1 has a request.
    pub(crate) fn has_requests(&self) -> bool
        ensures { result ≡ not (length (first_book self.now.cluster).requests == 0) }
    {
        self.first().slots().has_requests()
    }

    /// Whether replica 1 knows what is decided in the slot.
    pub(crate) fn knows(&self, slot: Slot) -> bool
        ensures { result ≡ contains_key (first_book self.now.cluster).decisions slot }
    {
        self.first().slots().decision(slot).is_some()
    }
}
