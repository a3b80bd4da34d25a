ghost use Rattle.std.specs.Prelude.{◌≡◌, ◌+◌, true, None, Some, OnOk, OnErr};
ghost use Rattle.object.specs.declared.command.Command.{Command};
ghost use Rattle.ballot.specs.Members.{is_member};
ghost use Rattle.node.specs.declared.deed.Deed.TheVariants.{Request};
ghost use Rattle.agreement.specs.declared.event.Event.TheVariants.{Submit};
ghost use Rattle.hall.specs.Halls.{tick_of};
ghost use Rattle.hall.specs.Refusals.{RefusesOrIdles};
ghost use Rattle.forgetting_hall.specs.Rests.{acted_rest};
ghost use Rattle.forgetting_hall.specs.Halls.{rest_of_hall, FollowsIn};
ghost use Rattle.forgetting_hall.specs.Handing.{asked_lean, next_of, last_of, second_of};
ghost use Rattle.forgetting_hall.specs.Refusing.{refusal_of_submit, refusal_of_resubmit, refusal_of_tick};
ghost use Rattle.forgetting_hall.specs.Calls.{TakesIn};

use super::ForgettingHall;
use crate::halls::halls_rest;
use agreement::every_world;
use hall::HallError;
use lean_network::LeanNetwork;
use node::Deed;
use object::{Act, Command, Key, Object, Value};
use std::alloc::{AllocError, Global};

impl<O: Object> ForgettingHall<O> {
    /// A session's next command is handed in, at a node. A session hands in one after the other: it waits for the answer, but
    /// may end before that.
    pub fn submit(&mut self, session: u32, act: Act<O::Op>, node: u8) -> Result<(), HallError>
        ensures ok { TakesIn O.rules node (next_of self.old session act)
            (refusal_of_submit self.old session act node) result self.old self.new }
    {
        every_world::<O>();
        halls_rest::<O>();
        if let Some(refused) = self.refusal_of_submit(session, &act, node) {
            return Err(refused);
        }
        let number = self.last_number(session) + 1;
        let command = Command::new(Key { session, number }, act).unwrap();
        ask(self.alloc, &mut self.network, node, command.copy()?)?;
        self.clients.hand_in(command);
        self.taken += 1;
        Ok(())
    }

    /// A session's last command is handed in again, at a node; where it has none, nothing is done,
    /// which takes no memory.
    pub fn resubmit(&mut self, session: u32, node: u8) -> Result<(), HallError>
        ensures ok { OnOk result ((c : Command O.Op) → last_of self.old session ≡ Some c →
            rest_of_hall O.rules self.new
            ≡ acted_rest O.rules (rest_of_hall O.rules self.old) node (Request c)) }
        ensures event { OnOk result ((c : Command O.Op) → last_of self.old session ≡ Some c →
            FollowsIn O.rules self.old (Submit node c) self.new) }
        ensures gathering { self.new.gathering ≡ self.old.gathering }
        ensures refused { RefusesOrIdles (refusal_of_resubmit self.old session node)
            (last_of self.old session ≡ None) result self.old self.new }
    {
        every_world::<O>();
        halls_rest::<O>();
        if let Some(refused) = self.refusal_of_resubmit(session, node) {
            return Err(refused);
        }
        let Some(last) = self.last(session) else {
            return Ok(());
        };
        let command = last.copy()?;
        ask(self.alloc, &mut self.network, node, command)?;
        self.taken += 1;
        Ok(())
    }

    /// The clock shows the next second, at a node.
    pub fn tick(&mut self, node: u8) -> Result<(), HallError>
        ensures ok { TakesIn O.rules node (tick_of (second_of self.old + 1))
            (refusal_of_tick self.old node) result self.old self.new }
    {
        every_world::<O>();
        halls_rest::<O>();
        if let Some(refused) = self.refusal_of_tick(node) {
            return Err(refused);
        }
        let number = self.last_number(0) + 1;
        let command = Command::new(Key { session: 0, number }, Act::Tick).unwrap();
        ask(self.alloc, &mut self.network, node, command.copy()?)?;
        self.clients.hand_in(command);
        self.taken += 1;
        Ok(())
    }
}

// A node is asked for a command. One that its object would not obey is none.
pub(super) fn ask<O: Object>(
    alloc: Global,
    network: &mut LeanNetwork<O>,
    node: u8,
    command: Command<O::Op>,
) -> Result<(), AllocError>
    requires { is_member network.old.members node ≡ true }
    ensures ok { OnOk result (network.new ≡ asked_lean O.rules network.old node command) }
    ensures err { OnErr result (network.new ≡ network.old) }
{
    if !network.node(node).lets_through(command.key()) {
        return Ok(());
    }
    let mut answers = Vec::new(alloc);
    network.act(node, Deed::Request(command), &mut answers)?;
    Ok(())
}
