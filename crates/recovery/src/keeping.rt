ghost use Rattle.std.specs.Prelude.{◌≡◌, ◌≢◌, ◌⊎◌, ◌++◌, [], true, false, length, Err, IfOk, IfErr, OnOk, IsTrue};
ghost use Rattle.hall.specs.Halls.{has_unplaced};
ghost use Rattle.recorder.specs.Records.{commands_from};
ghost use Rattle.recovery.specs.Clocks.{last_second_in};
ghost use Rattle.recovery.specs.Opened.{EndsAll};
ghost use Rattle.recovery.specs.UsedAgain.{uses_again};
ghost use Rattle.recovery.specs.declared.fault.RecoverFault.TheVariants.{OutOfMemory, UsedAgain};

use crate::clock::last_second_in;
use crate::fault::RecoverFault;
use crate::open_sessions::{end_all, note_all};
use crate::recovery::are_same;
use crate::steps::{FIRST_NODE, settle_all};
use crate::used_again::uses_again;
use ballot::Members;
use hall::{Hall, Ticket};
use object::{Act, Command, Object, Value, copies_of};
use std::alloc::Global;
use std::collections::BTreeSet;
use std::marker::Model;

/// A hall that keeps all, and obeys the commands of a log. It is seen as the members that were asked for.
#[derive(Drop)]
pub struct KeepingRecovery<O: Object> {
    hall: Hall<O>,
    // Those of the sessions so far, from session 1 on.
    tickets: Vec<Ticket<O>>,
    members: Members,
    alloc: Global,
}

impl<O: Object> Model for KeepingRecovery<O> {
    ghost use Rattle.std.specs.Prelude.{List, ℕ};

    ghost Value = { List ℕ };

    ghost view = { λ r. r.members };
}

/// A hall that keeps all and has obeyed a log, the tickets of its sessions, and the commands by which it ended each
/// session that the log leaves open. They took effect behind the log's.
#[derive(Drop)]
pub struct RecoveredKeeping<O: Object> {
    pub hall: Hall<O>,
    pub tickets: Vec<Ticket<O>>,
    pub closes: Vec<Command<O::Op>>,
}

impl<O: Object> KeepingRecovery<O> {
    /// A hall of these members that has obeyed nothing. All commands of the log are looked through: where a session goes on
    /// behind its end the log is refused, since this hall is busy there.
    pub fn begin(
        alloc: Global,
        members: Members,
        commands: &[Command<O::Op>],
    ) -> Result<KeepingRecovery<O>, RecoverFault>
        ensures members { IfOk result (λ r. r ≡ members) }
        ensures again { uses_again [] commands.now ≡ true →
            (result ≡ Err UsedAgain) ⊎ (result ≡ Err OutOfMemory) }
        ensures only { result ≡ Err UsedAgain → uses_again [] commands.now ≡ true }
    {
        if uses_again(alloc, commands)? {
            return Err(RecoverFault::UsedAgain);
        }
        Ok(KeepingRecovery {
            hall: begun_keeping(alloc, members)?,
            tickets: Vec::new(alloc),
            members,
            alloc,
        })
    }

    /// Obeys the log's next command.
    pub fn obey(&mut self, command: &Command<O::Op>) -> Result<(), RecoverFault>
        ensures { OnOk result (self.new ≡ self.old) }
    {
        self.hand_in(command)?;
        settle_all(&mut self.hall)
    }

    /// Ends each session that is open. What took effect has to be these commands, which are all of the log, and then
    /// the ends. Nothing waits then to take effect, each session has a ticket, and the clock stands where the log's
    /// does.
    pub fn finish(self, commands: &[Command<O::Op>]) -> Result<RecoveredKeeping<O>, RecoverFault>
        ensures members { IfOk result (λ r. r.hall.nodes.network.members ≡ self) }
        ensures placed { IfOk result (λ r.
            commands_from 0 r.hall.nodes.past ≡ commands.now ++ r.closes.items) }
        ensures closes { IfOk result (λ r. EndsAll commands.now r.closes.items) }
        ensures settled { IfOk result (λ r. has_unplaced r.hall ≡ false) }
        ensures second { IfOk result (λ r. r.hall.second ≡ last_second_in commands.now) }
        ensures tickets { IfOk result (λ r. length r.tickets.items ≡ length r.hall.book) }
    {
        let mut live = BTreeSet::new(self.alloc);
        note_all(&mut live, commands)?;
        let KeepingRecovery {
            mut hall,
            mut tickets,
            members,
            alloc,
        } = self;
        for session in &live {
            submit(&mut hall, &mut tickets, *session, Act::Close)?;
            settle_all(&mut hall)?;
        }
        let closes = placed_behind(alloc, &hall, commands)?;
        if !end_all(live, &closes) || !are_those(&hall.members(), &members) {
            return Err(RecoverFault::NoOrder);
        }
        if hall.has_unplaced() || tickets.len() != hall.book().len() {
            return Err(RecoverFault::NoOrder);
        }
        if hall.last_second() != last_second_in(commands) {
            return Err(RecoverFault::NoOrder);
        }
        Ok(RecoveredKeeping {
            hall,
            tickets,
            closes,
        })
    }

    // Hands in a command, once its session is there.
    fn hand_in(&mut self, command: &Command<O::Op>) -> Result<(), RecoverFault>
        ensures { OnOk result (self.new ≡ self.old) }
    {
        let key = command.key();
        if key.session == 0 {
            self.hall.tick(key.number, FIRST_NODE)?;
            return Ok(());
        }
        while self.tickets.len() < key.session as usize {
            self.tickets.reserve(1)?;
            let ticket = self.hall.open_session()?;
            self.tickets.push_reserved(ticket);
        }
        let act = command.act().copy()?;
        submit(&mut self.hall, &mut self.tickets, key.session, act)
    }
}

// A hall in which nothing happened but that its first node asked to lead.
fn begun_keeping<O: Object>(alloc: Global, members: Members) -> Result<Hall<O>, RecoverFault>
    ensures { IfErr result (λ fault. fault ≢ UsedAgain) }
{
    let mut hall = Hall::new(alloc, members)?;
    hall.wake(FIRST_NODE)?;
    settle_all(&mut hall)?;
    Ok(hall)
}

// A session that is there hands in its next command.
fn submit<O: Object>(
    hall: &mut Hall<O>,
    tickets: &mut Vec<Ticket<O>>,
    session: u32,
    act: Act<O::Op>,
) -> Result<(), RecoverFault> {
    let Some(ticket) = tickets.get_mut((session as usize).saturating_sub(1)) else {
        return Err(RecoverFault::NoOrder);
    };
    hall.submit(ticket, act, FIRST_NODE)?;
    Ok(())
}

// Whether these are the same members.
fn are_those(some: &Members, others: &Members) -> bool
    ensures { IsTrue result → some.now ≡ others.now }
{
    some.weights() == others.weights()
}

// What took effect behind these commands, which have to come first.
fn placed_behind<O: Object>(
    alloc: Global,
    hall: &Hall<O>,
    commands: &[Command<O::Op>],
) -> Result<Vec<Command<O::Op>>, RecoverFault>
    ensures { IfOk result (λ behind.
        commands_from 0 hall.now.nodes.past ≡ commands.now ++ behind.items) }
{
    let placed = hall.placed_from(0)?;
    let count = commands.len();
    if count > placed.len() || !are_same(&placed[..count], commands) {
        return Err(RecoverFault::NoOrder);
    }
    Ok(copies_of(alloc, &placed[count..])?)
}
