ghost use Rattle.std.specs.Prelude.{◌≡◌, ◌<◌, ◌++◌, [], true, None, IsSome, IsOk, IfOk, OnOk, if◌then◌else◌, length, vec_len, vec_capacity};
ghost use Rattle.std.specs.Option.{option_copied, option_to_list};
ghost use Rattle.ballot.specs.Members.{is_member};
ghost use Rattle.slot_log.specs.Decisions.{next_decided};
ghost use Rattle.node.specs.Deeds.{ComesToNothing};
ghost use Rattle.node.specs.Holding.{outcome_held};
ghost use Rattle.node.specs.Outcomes.{key_placed};
ghost use Rattle.node.specs.declared.deed.Deed.TheVariants.{Perform};
ghost use Rattle.lean_network.specs.LeanNetworks.{lean_node_of};
ghost use Rattle.forgetting_hall.specs.Effects.{command_placed, placed_by, is_perform};
ghost use Rattle.forgetting_hall.specs.Halls.{rest_of_hall};

use super::ForgettingHall;
use node::{Deed, LeanNode};
use object::{Command, Object, Value};
use std::alloc::AllocError;
use std::mem::replace;

impl<O: Object> ForgettingHall<O> {
    /// From now on it gathers the commands that take effect.
    pub fn gather(&mut self)
        ensures { self.new
            ≡ record self.old { gathering = record self.old.gathering { is_on = true } } }
    {
        self.gathers = true;
    }

    /// The commands that took effect since this was asked last, in the one order, as far as the hall gathers them. It
    /// takes no memory.
    pub fn take_placed(&mut self) -> Vec<Command<O::Op>>
        ensures placed { result.items ≡ self.old.gathering.commands }
        ensures left { self.new
            ≡ record self.old { gathering = record self.old.gathering { commands = [] } } }
    {
        replace(&mut self.gathered, Vec::new(self.alloc))
    }

    /// How many commands took effect since it was asked for them last, as far as the hall gathers them.
    pub fn gathered_count(&self) -> usize
        ensures { result ≡ length self.now.gathering.commands }
    {
        self.gathered.len()
    }

    // A copy of the command that takes effect as the node does this, where the hall gathers them.
    pub(super) fn copy_placed(
        &self,
        node: u8,
        deed: &Deed<O::Op>,
    ) -> Result<Option<Command<O::Op>>, AllocError>
        requires { is_member self.now.network.members node ≡ true }
        ensures copy { IfOk result (λ copy. copy ≡ (if self.now.gathering.is_on
            then placed_by (rest_of_hall O.rules self.now) node deed.now else None)) }
        ensures idle { ComesToNothing O.rules (lean_node_of O.rules self.now.network node).state deed.now →
            IsOk result }
    {
        if !self.gathers || !is_perform(deed) {
            return Ok(None);
        }
        match next_placed(self.network.node(node), self.reach) {
            None => Ok(None),
            Some(command) => Ok(Some(command.copy()?)),
        }
    }
}

// The node performs.
fn is_perform<Op>(deed: &Deed<Op>) -> bool
    ensures { result ≡ is_perform deed.now }
{
    matches!(deed, Deed::Perform)
}

// The command that takes effect as the node performs, where the slots up to the reach were performed before.
fn next_placed<O: Object>(node: &LeanNode<O>, reach: u64) -> Option<&Command<O::Op>>
    ensures { option_copied result
        ≡ command_placed (key_placed reach (outcome_held node.now Perform)) (next_decided node.now.state.replica) }
{
    let command = node.slots().next_decided()?;
    if node.slots().slot_out() > reach && node.lets_through(command.key()) {
        Some(command)
    } else {
        None
    }
}

// Makes room for the command, where there is one.
pub(super) fn make_room<C>(gathered: &mut Vec<C>, placed: &Option<C>) -> Result<(), AllocError>
    ensures kept { gathered.new.items ≡ gathered.old.items }
    ensures room { OnOk result (IsSome placed.now → vec_len gathered.new < vec_capacity gathered.new) }
    ensures idle { placed.now ≡ None → IsOk result }
{
    if placed.is_some() {
        gathered.reserve(1)?;
    }
    Ok(())
}

// Puts the command to the others, where there is one.
pub(super) fn put<C: Drop>(gathered: &mut Vec<C>, placed: Option<C>)
    requires { IsSome placed → vec_len gathered.old < vec_capacity gathered.old }
    ensures { gathered.new.items ≡ gathered.old.items ++ option_to_list placed }
{
    if let Some(command) = placed {
        gathered.push_reserved(command);
    }
}
