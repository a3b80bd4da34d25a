ghost use Rattle.std.specs.Prelude.{◌≡◌, ◌<◌, true, false, None, Some, IfErr, OnOk, OnErr, max};
ghost use Rattle.object.specs.declared.command.Command.{Command};
ghost use Rattle.ballot.specs.Members.{is_member};
ghost use Rattle.agreement.specs.Runs.{most_events};
ghost use Rattle.agreement.specs.declared.event.Event.TheVariants.{Submit};
ghost use Rattle.hall.specs.declared.error.HallError.TheVariants.{OutOfMemory};
ghost use Rattle.hall.specs.declared.ticket.NotedAct.{NotedAct};
ghost use Rattle.hall.specs.Recorded.{asked};
ghost use Rattle.hall.specs.Shows.{Follows};
ghost use Rattle.hall.specs.Explained.{IsBegun};
ghost use Rattle.hall.specs.Books.{IsNextKey};
ghost use Rattle.hall.specs.Tickets.{next_key, next_command, last_command, last_noted, with_act, is_tick};
ghost use Rattle.hall.specs.Halls.{after_submit, after_tick, with_nodes, tick_of};
ghost use Rattle.hall.specs.Refusals.{submit_refusal, resubmit_refusal, tick_refusal, Refuses, RefusesOrIdles};

use super::Hall;
use crate::error::HallError;
use crate::laws::laws_below;
use crate::ticket::Ticket;
use object::{Act, Command, Key, Object, Value};

impl<O: Object> Hall<O> {
    /// The ticket's session hands in its next command, at a node. A session hands in one after the other: it waits for
    /// the answer, but may end before that.
    pub fn submit(
        &mut self,
        ticket: &mut Ticket<O>,
        act: Act<O::Op>,
        node: u8,
    ) -> Result<(), HallError>
        ensures ok { OnOk result (self.new
            ≡ after_submit O.rules self.old node (next_command ticket.old act)) }
        ensures event { OnOk result (Follows O.rules self.old.nodes
            (Submit node (next_command ticket.old act)) self.new.nodes) }
        ensures next { OnOk result (IsNextKey self.old.book (next_key ticket.old)) }
        ensures ticket { OnOk result (ticket.new ≡ with_act ticket.old act) }
        ensures begun { IsBegun self.old.nodes.past self.new.nodes.past }
        ensures kept { OnErr result (ticket.new ≡ ticket.old) }
        ensures refused { Refuses (submit_refusal O.Op.eq self.old ticket.old act node) result
            self.old self.new }
    {
        if let Some(refused) = self.submit_refusal(ticket, &act, node) {
            return Err(refused);
        }
        let key = ticket.next_key();
        ticket.push(act.copy()?)?;
        let submitted = self.submit_next(key, act, node);
        if submitted.is_err() {
            ticket.pop();
        }
        submitted
    }

    /// The ticket's last command is handed in again, at a node; where it has none, nothing is done.
    pub fn resubmit(&mut self, ticket: &Ticket<O>, node: u8) -> Result<(), HallError>
        ensures ok { OnOk result ((noted : NotedAct O.Op O.Reply) →
            last_noted ticket.now ≡ Some noted → self.new
            ≡ with_nodes self.old (asked O.rules self.old.nodes node
            (last_command ticket.now noted.act))) }
        ensures event { OnOk result ((noted : NotedAct O.Op O.Reply) →
            last_noted ticket.now ≡ Some noted → Follows O.rules self.old.nodes
            (Submit node (last_command ticket.now noted.act)) self.new.nodes) }
        ensures past { self.new.nodes.past ≡ self.old.nodes.past }
        ensures book { self.new.book ≡ self.old.book }
        ensures refused { RefusesOrIdles (resubmit_refusal O.Op.eq self.old ticket.now node)
            (last_noted ticket.now ≡ None) result self.old self.new }
    {
        laws_below::<O>();
        if let Some(refused) = self.resubmit_refusal(ticket, node) {
            return Err(refused);
        }
        let _ = &self.book;
        let Some(last) = ticket.last() else {
            return Ok(());
        };
        let command = Command::new(ticket.last_key(), last.act.copy()?).unwrap();
        self.nodes.ask(node, command)?;
        Ok(())
    }

    /// The clock shows a second, 1 to 2^40, at a node.
    pub fn tick(&mut self, second: u64, node: u8) -> Result<(), HallError>
        ensures ok { OnOk result (self.new ≡ after_tick O.rules self.old node second) }
        ensures event { OnOk result (Follows O.rules self.old.nodes
            (Submit node (tick_of second)) self.new.nodes) }
        ensures begun { IsBegun self.old.nodes.past self.new.nodes.past }
        ensures book { self.new.book ≡ self.old.book }
        ensures refused { Refuses (tick_refusal self.old second node) result self.old self.new }
    {
        laws_below::<O>();
        if let Some(refused) = self.tick_refusal(second, node) {
            return Err(refused);
        }
        let key = Key {
            session: 0,
            number: second,
        };
        let command = Command::new(key, Act::Tick).unwrap();
        self.nodes.ask(node, command)?;
        self.second = self.second.max(second);
        Ok(())
    }

    // The next command of a session that was opened is handed in.
    fn submit_next(&mut self, key: Key, act: Act<O::Op>, node: u8) -> Result<(), HallError>
        requires member { is_member self.old.nodes.network.members node ≡ true }
        requires room { self.old.nodes.taken < most_events }
        requires next { IsNextKey self.old.book key }
        requires own { is_tick act ≡ false }
        ensures ok { OnOk result (self.new
            ≡ after_submit O.rules self.old node (record { key = key; act = act })) }
        ensures event { OnOk result (Follows O.rules self.old.nodes
            (Submit node (record { key = key; act = act })) self.new.nodes) }
        ensures begun { IsBegun self.old.nodes.past self.new.nodes.past }
        ensures err { OnErr result (self.new ≡ self.old) }
        ensures memory { IfErr result (λ r. r ≡ OutOfMemory) }
    {
        laws_below::<O>();
        let _ = &self.book;
        let command = Command::new(key, act).unwrap();
        self.nodes.ask(node, command)?;
        self.book[key.session as usize - 1] = key.number;
        Ok(())
    }
}
