ghost use Rattle.std.specs.Prelude.{◌≡◌, ◌<◌, Some, length, sum, OnOk, OnErr};
ghost use Rattle.hall.specs.declared.ticket.NotedAct.{NotedAct};
ghost use Rattle.hall.specs.Halls.{after_tick, with_nodes};
ghost use Rattle.hall.specs.Recorded.{asked};
ghost use Rattle.hall.specs.Tickets.{last_command, last_noted};
ghost use Rattle.counted_hall.specs.Counting.{CountNothing, CountsAll, CountsNone, HandsInOne, HaveAllParts, OpensOne};

use hall::{Hall, HallError, Ticket};
use object::{Act, Object};
use std::alloc::Global;
use std::sync::ledger::{Blank, Book, Ledger, Share};
use turns::{Mishap, Watch, befall};

/// A hall, and beside it how many sessions were opened there and how many commands these handed in. The counts are the
/// totals of two ledgers, in which each thread has its share.
#[derive(Drop)]
pub struct CountedHall<O: Object, S: Ledger, C: Ledger> {
    hall: Hall<O>,
    sessions: Book<S>,
    commands: Book<C>,
    /// A place for each session that was opened, so that there is room to mark them in the end.
    marks: Vec<bool>,
    ghost marked: { length marks.items ≡ length hall.book },
    ghost opened: { length hall.book ≡ sessions.total },
    ghost handed_in: { sum hall.book ≡ commands.total },
}

impl<O: Object, S: Ledger, C: Ledger> CountedHall<O, S, C> {
    /// A hall in which no session was opened yet, with the shares of all of both counts.
    pub fn new(
        alloc: Global,
        hall: Hall<O>,
        sessions: Blank,
        commands: Blank,
    ) -> (CountedHall<O, S, C>, Share<S>, Share<C>)
        requires none { CountsNone S.Ledger C.Ledger hall.book sessions commands }
        ensures all { HaveAllParts S.Ledger C.Ledger result.1 result.2 }
        ensures nothing { CountNothing result.1 result.2 }
    {
        let (sessions, all_sessions) = sessions.open::<S>();
        let (commands, all_commands) = commands.open::<C>();
        (
            CountedHall {
                hall,
                sessions,
                commands,
                marks: Vec::new(alloc),
            },
            all_sessions,
            all_commands,
        )
    }

    /// The hall, with a mark for each session that was opened, and what all shares together say of it.
    pub fn into_hall(
        self,
        all_sessions: &mut Share<S>,
        all_commands: &mut Share<C>,
    ) -> (Hall<O>, Vec<bool>)
        requires all { HaveAllParts S.Ledger C.Ledger all_sessions.old all_commands.old }
        ensures counted { CountsAll result.0.book result.1 all_sessions.old all_sessions.new
            all_commands.old all_commands.new }
    {
        let CountedHall {
            hall,
            mut sessions,
            mut commands,
            marks,
        } = self;
        sessions.audit(all_sessions);
        commands.audit(all_commands);
        (hall, marks)
    }

    /// Opens a session, which counts in this share.
    pub fn open_session(&mut self, mine: &mut Share<S>) -> Result<Ticket<O>, HallError>
        requires { 0 < mine.old.parts }
        ensures opened { OpensOne mine.old mine.new result }
    {
        let CountedHall {
            hall,
            sessions,
            marks,
            ..
        } = self;
        marks.reserve(1)?;
        let ticket = hall.open_session()?;
        marks.push_reserved(false);
        sessions.add(mine, 1);
        Ok(ticket)
    }

    /// Hands in the next command of a session, which counts in this share.
    pub fn submit(
        &mut self,
        mine: &mut Share<C>,
        ticket: &mut Ticket<O>,
        act: Act<O::Op>,
        node: u8,
    ) -> Result<(), HallError>
        requires { 0 < mine.old.parts }
        ensures handed_in { HandsInOne act ticket.old ticket.new mine.old mine.new result }
    {
        let CountedHall { hall, commands, .. } = self;
        hall.submit(ticket, act, node)?;
        commands.add(mine, 1);
        Ok(())
    }

    /// Hands the last command of a session in again.
    pub fn resubmit(&mut self, ticket: &Ticket<O>, node: u8) -> Result<(), HallError>
        ensures ok { OnOk result ((noted : NotedAct O.Op O.Reply) →
            last_noted ticket.now ≡ Some noted → self.new.hall ≡ with_nodes self.old.hall
            (asked O.rules self.old.hall.nodes node (last_command ticket.now noted.act))) }
        ensures err { OnErr result (self.new.hall ≡ self.old.hall) }
    {
        let CountedHall { hall, .. } = self;
        hall.resubmit(ticket, node)
    }

    /// One turn of a node, after a mishap.
    pub fn take_turn(
        &mut self,
        watch: &mut Watch,
        mishap: Mishap,
        round: u64,
    ) -> Result<(), HallError> {
        let CountedHall { hall, .. } = self;
        // one that the hall refuses is left out
        let _ = befall(hall, watch.node(), mishap);
        watch.take_turn(hall, round)
    }

    /// Hands in a second of the clock.
    pub fn tick(&mut self, second: u64, node: u8) -> Result<(), HallError>
        ensures ok { OnOk result (self.new.hall ≡ after_tick O.rules self.old.hall node second) }
        ensures err { OnErr result (self.new.hall ≡ self.old.hall) }
    {
        let CountedHall { hall, .. } = self;
        hall.tick(second, node)
    }

    /// The hall, to look at it.
    pub fn hall(&self) -> &Hall<O>
        ensures { result.now ≡ self.now.hall }
    {
        &self.hall
    }
}
