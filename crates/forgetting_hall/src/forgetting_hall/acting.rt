ghost use Rattle.std.specs.Prelude.{◌≡◌, ◌++◌, true, None, IsOk, IfOk, OnOk};
ghost use Rattle.object.specs.Results.{Becomes};
ghost use Rattle.ballot.specs.Members.{is_member};
ghost use Rattle.node.specs.Deeds.{IsAble, ComesToNothing};
ghost use Rattle.node.specs.Holding.{outcome_held};
ghost use Rattle.lean_network.specs.LeanNetworks.{lean_node_of, lean_turn_of, acted_lean};
ghost use Rattle.agreement.specs.Events.{event_of};
ghost use Rattle.hall.specs.Refusals.{Refuses};
ghost use Rattle.forgetting_hall.specs.Effects.{placed_by};
ghost use Rattle.forgetting_hall.specs.Gathered.{gathered};
ghost use Rattle.forgetting_hall.specs.Rests.{IsGoingOn, fresh_answers, outcome_rest, done_rest};
ghost use Rattle.forgetting_hall.specs.Halls.{rest_of_hall, FollowsIn};
ghost use Rattle.forgetting_hall.specs.Refusing.{refusal_of_event};

use super::ForgettingHall;
use super::gathering::{make_room, put};
use super::noting::note;
use crate::halls::halls_rest;
use agreement::every_world;
use hall::HallError;
use lean_network::LeanNetwork;
use node::{Deed, Outcome};
use object::{Answer, Object};
use std::alloc::AllocError;

impl<O: Object> ForgettingHall<O> {
    /// A node does something by itself: it wakes, nudges, proposes or performs. What it answers is told to the clients, where
    /// nobody was told before. It may not begin anew, since it would need what the others forgot; a request is handed in
    /// by `submit`.
    pub fn act(&mut self, node: u8, deed: Deed<O::Op>) -> Result<Outcome, HallError>
        requires { IsGoingOn deed }
        ensures outcome { IfOk result (λ outcome.
            outcome ≡ outcome_rest (rest_of_hall O.rules self.old) node deed) }
        ensures ok { OnOk result (rest_of_hall O.rules self.new
            ≡ done_rest O.rules (rest_of_hall O.rules self.old) node deed) }
        ensures event { OnOk result (FollowsIn O.rules self.old (event_of node deed) self.new) }
        ensures gathering { OnOk result (self.new.gathering
            ≡ gathered (placed_by (rest_of_hall O.rules self.old) node deed) self.old.gathering) }
        ensures refused { Refuses (refusal_of_event self.old node) result self.old self.new }
        ensures idle { refusal_of_event self.old node ≡ None →
            ComesToNothing O.rules (lean_node_of O.rules self.old.network node).state deed →
            IsOk result }
    {
        every_world::<O>();
        halls_rest::<O>();
        if let Some(refused) = self.refusal_of_event(node) {
            return Err(refused);
        }
        let placed = self.copy_placed(node, &deed)?;
        make_room(&mut self.gathered, &placed)?;
        let mut given = Vec::new(self.alloc);
        let outcome = act_afresh(&mut self.network, self.reach, node, deed, &mut given)?;
        let fresh = fresh_of(&outcome, self.reach, given);
        // who can't be noted for want of memory is left out
        let _ = note(&mut self.answered, fresh.as_slice());
        self.clients.hear(fresh);
        self.clients.place(outcome.key_placed(self.reach));
        self.reach = outcome.reach_after(self.reach);
        self.taken += 1;
        put(&mut self.gathered, placed);
        Ok(outcome)
    }
}

// A node does this, and appends what it answers. Of a slot that some node has performed before it answers nobody.
fn act_afresh<O: Object>(
    network: &mut LeanNetwork<O>,
    reach: u64,
    node: u8,
    deed: Deed<O::Op>,
    given: &mut Vec<Answer<O::Reply>>,
) -> Result<Outcome, AllocError>
    requires member { is_member network.old.members node ≡ true }
    requires able { IsAble (lean_node_of O.rules network.old node).state deed }
    ensures ok { Becomes result network.old network.new (acted_lean O.rules network.old node deed) }
    ensures fresh { IfOk result (λ outcome. fresh_answers reach outcome given.new.items
        ≡ fresh_answers reach outcome (given.old.items
        ++ (lean_turn_of O.rules network.old node deed).answers)) }
    ensures outcome { IfOk result (λ outcome. outcome
        ≡ outcome_held (lean_node_of O.rules network.old node) deed) }
    ensures idle { ComesToNothing O.rules (lean_node_of O.rules network.old node).state deed → IsOk result }
{
    match deed {
        Deed::Perform if network.node(node).slots().slot_out() <= reach => network.obey(node),
        other => network.act(node, other, given),
    }
}

// Those of the answers that nobody was given before, where the slots up to the reach were performed.
fn fresh_of<R: Drop>(outcome: &Outcome, reach: u64, given: Vec<Answer<R>>) -> Vec<Answer<R>>
    ensures { result.items ≡ fresh_answers reach outcome.now given.items }
{
    match outcome {
        Outcome::Performed(performed) if performed.slot.number() > reach => given,
        _ => Vec::new(*given.allocator()),
    }
}
