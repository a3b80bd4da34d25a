ghost use Rattle.std.specs.Prelude.{◌≡◌, None, IsOk, IfOk, OnOk, is_some};
ghost use Rattle.slot_log.specs.Decisions.{next_decided};
ghost use Rattle.slot_log.specs.Proposals.{next_proposal};
ghost use Rattle.node.specs.Deeds.{outcome_of, ComesToNothing};
ghost use Rattle.node.specs.declared.deed.Deed.TheVariants as deeds;
ghost use Rattle.network.specs.Networks.{node_of};
ghost use Rattle.hall.specs.Recorded.{done, IsOwnDeed};
ghost use Rattle.agreement.specs.Events.{event_of};
ghost use Rattle.hall.specs.Shows.{Follows};
ghost use Rattle.hall.specs.Explained.{IsBegun};
ghost use Rattle.hall.specs.Refusals.{event_refusal, Refuses};
ghost use Rattle.hall.specs.Acting.{Acts, came_to};
ghost use Rattle.hall.specs.Halls.{with_nodes, has_done};

use super::Hall;
use crate::error::HallError;
use crate::laws::laws_below;
use node::{Deed, Outcome};
use object::Object;

impl<O: Object> Hall<O> {
    /// A node does something by itself, and what comes of it is recorded: the entrance of the five calls below, which say
    /// the same of a deed each. A request is handed in by `submit`.
    pub fn act(&mut self, node: u8, deed: Deed<O::Op>) -> Result<Outcome, HallError>
        requires { IsOwnDeed deed }
        ensures outcome { IfOk result (λ outcome.
            outcome ≡ outcome_of (node_of self.old.nodes.network node) deed) }
        ensures acts { Acts O.rules node deed self.old self.new (came_to result) }
    {
        let outcome = self.do_deed(node, deed)?;
        Ok(outcome)
    }

    /// A node sends a scout out, where its leader isn't active and has none.
    pub fn wake(&mut self, node: u8) -> Result<(), HallError>
        ensures acts { Acts O.rules node deeds.Wake self.old self.new (came_to result) }
    {
        self.act(node, Deed::Wake)?;
        Ok(())
    }

    /// A node says again what it waits for.
    pub fn nudge(&mut self, node: u8) -> Result<(), HallError>
        ensures acts { Acts O.rules node deeds.Nudge self.old self.new (came_to result) }
    {
        self.act(node, Deed::Nudge)?;
        Ok(())
    }

    /// A node proposes its first request; false where there is none, or no slot is open to it.
    pub fn propose(&mut self, node: u8) -> Result<bool, HallError>
        ensures does { IfOk result (λ does.
            does ≡ is_some (next_proposal (node_of self.old.nodes.network node).replica)) }
        ensures acts { Acts O.rules node deeds.Propose self.old self.new (came_to result) }
    {
        let outcome = self.act(node, Deed::Propose)?;
        Ok(has_done(&outcome))
    }

    /// A node performs the next decided command, and the answers that it gives are recorded; false where none is known.
    pub fn perform(&mut self, node: u8) -> Result<bool, HallError>
        ensures does { IfOk result (λ does.
            does ≡ is_some (next_decided (node_of self.old.nodes.network node).replica)) }
        ensures acts { Acts O.rules node deeds.Perform self.old self.new (came_to result) }
    {
        let outcome = self.act(node, Deed::Perform)?;
        Ok(has_done(&outcome))
    }

    /// A node stops and begins anew; of what it knew its acceptor and the count of its boots are left.
    pub fn restart(&mut self, node: u8) -> Result<(), HallError>
        ensures acts { Acts O.rules node deeds.Restart self.old self.new (came_to result) }
    {
        self.act(node, Deed::Restart)?;
        Ok(())
    }

    // The same, clause by clause.
    fn do_deed(&mut self, node: u8, deed: Deed<O::Op>) -> Result<Outcome, HallError>
        requires { IsOwnDeed deed }
        ensures outcome { IfOk result (λ outcome.
            outcome ≡ outcome_of (node_of self.old.nodes.network node) deed) }
        ensures ok { OnOk result (self.new
            ≡ with_nodes self.old (done O.rules self.old.nodes node deed)) }
        ensures event { OnOk result
            (Follows O.rules self.old.nodes (event_of node deed) self.new.nodes) }
        ensures begun { IsBegun self.old.nodes.past self.new.nodes.past }
        ensures book { self.new.book ≡ self.old.book }
        ensures refused { Refuses (event_refusal self.old node) result self.old self.new }
        ensures idle { event_refusal self.old node ≡ None →
            ComesToNothing O.rules (node_of self.old.nodes.network node) deed → IsOk result }
    {
        laws_below::<O>();
        if let Some(refused) = self.event_refusal(node) {
            return Err(refused);
        }
        let outcome = self.nodes.act(node, deed)?;
        Ok(outcome)
    }
}

// Something came of it.
fn has_done(outcome: &Outcome) -> bool
    ensures { result ≡ has_done outcome.now }
{
    !matches!(outcome, Outcome::Idle)
}
