ghost use Rattle.std.specs.Prelude.{◌≡◌, ◌≤◌, ◌<◌, ◌++◌, ℕ, List, [], length, take, IfOk, OnOk, IsTrue};
ghost use Rattle.object.specs.declared.command.Command.{Command};
ghost use Rattle.forgetting_hall.specs.Handing.{second_of};
ghost use Rattle.forgetting_hall.specs.Telling.{HasTold, TellsOn};
ghost use Rattle.recovery.specs.Clocks.{last_second_in};
ghost use Rattle.recovery.specs.Obeyed.{HasReplayed};
ghost use Rattle.recovery.specs.Opened.{EndsAll};
ghost use Rattle.recovery.specs.Sessions.{AreSessionsOf, KeepsNoneOf};

use crate::clock::last_second_in;
use crate::fault::RecoverFault;
use crate::open_sessions::{end_all, note_all};
use crate::sessions::sessions_of;
use crate::steps;
use ballot::Members;
use forgetting_hall::{ForgettingHall, tells_in_order};
use object::{Command, Object, Value};
use std::alloc::Global;
use std::collections::BTreeSet;
use std::marker::Model;

/// So many commands are handed in before the nodes take their turns.
const AT_ONCE: usize = 64;

/// A hall that obeys the commands of a log. Its sessions stay there until all are obeyed, since one may go on behind its
/// end.
#[derive(Drop)]
pub struct Recovery<O: Object> {
    hall: ForgettingHall<O>,
    // Those that are open after what was obeyed.
    live: BTreeSet<u32>,
    // The greatest second that was obeyed, 0 where there is none.
    second: u64,
    // All that the log has, in rising order; so many were opened.
    sessions: Vec<u32>,
    opened: usize,
    alloc: Global,
}

impl<O: Object> Model for Recovery<O> {
    ghost use Rattle.std.specs.Coded.{codes};
    ghost use Rattle.object.specs.OnceOnly.{latest_code};
    ghost use Rattle.ballot.specs.Slots.{slots_code};
    ghost use Rattle.recovery.specs.Obeyed.{RecoveryState};

    ghost Value = { RecoveryState O.Op O O.Reply };

    ghost coded = { Prim.hlevel (codes, slots_code, latest_code, O.code, O.Op.code, O.Reply.code) };

    ghost view = { λ r. record {
      hall = r.hall;
      live = r.live;
      second = r.second;
      sessions = r.sessions.items;
    } };
}

/// A hall that has obeyed a log, and the commands by which it ended each session that the log leaves open. They took
/// effect behind the log's.
#[derive(Drop)]
pub struct Recovered<O: Object> {
    pub hall: ForgettingHall<O>,
    pub closes: Vec<Command<O::Op>>,
}

impl<O: Object> Recovery<O> {
    /// A hall of these members that has obeyed nothing. All commands of the log are looked through for their sessions.
    pub fn begin(
        alloc: Global,
        members: Members,
        commands: &[Command<O::Op>],
    ) -> Result<Recovery<O>, RecoverFault>
        ensures obeyed { IfOk result (λ r. HasReplayed O.rules members r []) }
        ensures sessions { IfOk result (λ r. AreSessionsOf r.sessions commands.now) }
    {
        Ok(Recovery {
            hall: begun(alloc, members)?,
            live: BTreeSet::new(alloc),
            second: 0,
            sessions: sessions_of(alloc, commands)?,
            opened: 0,
            alloc,
        })
    }

    /// Obeys some first ones of these commands, which come next in the log, and tells how many: none where there are
    /// none, and 64 at most.
    pub fn obey_some(&mut self, commands: &[Command<O::Op>]) -> Result<usize, RecoverFault>
        ensures obeyed { IfOk result (λ count. (members : List ℕ) (before : List (Command O.Op))
            → HasReplayed O.rules members self.old before
            → HasReplayed O.rules members self.new (before ++ take count commands.now)) }
        ensures few { IfOk result (λ count. count ≤ length commands.now) }
        ensures at_once { IfOk result (λ count. count ≤ 64) }
        ensures some { IfOk result (λ count. 0 < length commands.now → 0 < count) }
        ensures sessions { OnOk result (self.new.sessions ≡ self.old.sessions) }
    {
        let count = commands.len().min(AT_ONCE);
        self.obey(&commands[..count])?;
        Ok(count)
    }

    /// Ends each session that is open. Nothing waits then to take effect, the clock stands where the log's does, and
    /// nothing is kept of the log's sessions.
    pub fn finish(self) -> Result<Recovered<O>, RecoverFault>
        ensures told { IfOk result (λ r. (members : List ℕ) (before : List (Command O.Op))
            → HasReplayed O.rules members self before
            → HasTold O.rules members r.hall (before ++ r.closes.items)) }
        ensures closes { IfOk result (λ r. (members : List ℕ) (before : List (Command O.Op))
            → HasReplayed O.rules members self before → EndsAll before r.closes.items) }
        ensures counted { IfOk result (λ r. (members : List ℕ) (before : List (Command O.Op))
            → HasReplayed O.rules members self before
            → r.hall.summary.placed ≡ length (before ++ r.closes.items)) }
        ensures settled { IfOk result (λ r. (members : List ℕ) (before : List (Command O.Op))
            → HasReplayed O.rules members self before → r.hall.summary.submitted ≡ r.hall.summary.placed) }
        ensures second { IfOk result (λ r. (members : List ℕ) (before : List (Command O.Op))
            → HasReplayed O.rules members self before → second_of r.hall ≡ last_second_in before) }
        ensures let_go { IfOk result (λ r. KeepsNoneOf r.hall self.sessions) }
        ensures gathered { IfOk result (λ r. r.hall.gathering.commands ≡ []) }
    {
        tells_in_order::<O>();
        let Recovery {
            mut hall,
            live,
            second,
            sessions,
            ..
        } = self;
        for session in &live {
            steps::close(&mut hall, *session)?;
        }
        let closes = placed(&mut hall)?;
        if !end_all(live, &closes) {
            return Err(RecoverFault::NoOrder);
        }
        steps::forget(&mut hall, &sessions);
        if !has_settled(&hall) || hall.last_second() != second {
            return Err(RecoverFault::NoOrder);
        }
        if !keeps_none_of(&hall, &sessions) {
            return Err(RecoverFault::NoOrder);
        }
        Ok(Recovered { hall, closes })
    }

    // Obeys these commands. What takes effect has to be just these.
    fn obey(&mut self, commands: &[Command<O::Op>]) -> Result<(), RecoverFault>
        ensures obeyed { OnOk result ((members : List ℕ) (before : List (Command O.Op))
            → HasReplayed O.rules members self.old before
            → HasReplayed O.rules members self.new (before ++ commands.now)) }
        ensures sessions { OnOk result (self.new.sessions ≡ self.old.sessions) }
    {
        for command in commands {
            self.hand_in(command)?;
        }
        let placed = placed(&mut self.hall)?;
        if !are_same(&placed, commands) {
            return Err(RecoverFault::NoOrder);
        }
        note_all(&mut self.live, commands)?;
        self.second = self.second.max(last_second_in(commands));
        steps::forget_slots(&mut self.hall);
        Ok(())
    }

    // Hands in a command, once all sessions of the log are there whose number is no greater.
    fn hand_in(&mut self, command: &Command<O::Op>) -> Result<(), RecoverFault>
        ensures hall { TellsOn O.rules self.old.hall self.new.hall }
        ensures live { self.new.live ≡ self.old.live }
        ensures second { self.new.second ≡ self.old.second }
        ensures sessions { self.new.sessions ≡ self.old.sessions }
    {
        let session = command.key().session;
        while self.opened < self.sessions.len() && self.sessions[self.opened] <= session {
            steps::open_as(&mut self.hall, self.sessions[self.opened])?;
            self.opened += 1;
        }
        steps::hand_in(&mut self.hall, command)
    }
}

// A hall in which nothing happened but that its first node asked to lead. It gathers what takes effect.
fn begun<O: Object>(alloc: Global, members: Members) -> Result<ForgettingHall<O>, RecoverFault>
    ensures { IfOk result (λ hall. HasTold O.rules members hall []) }
{
    tells_in_order::<O>();
    let mut hall = ForgettingHall::new(alloc, members)?;
    hall.gather();
    steps::wake(&mut hall)?;
    steps::settle_all(&mut hall)?;
    Ok(hall)
}

// What takes effect as the nodes take their turns, until none has anything to do.
fn placed<O: Object>(hall: &mut ForgettingHall<O>) -> Result<Vec<Command<O::Op>>, RecoverFault>
    ensures told { IfOk result (λ placed. (members : List ℕ) (before : List (Command O.Op))
        → HasTold O.rules members hall.old before
        → HasTold O.rules members hall.new (before ++ placed.items)) }
    ensures none { OnOk result (hall.new.gathering.commands ≡ []) }
{
    tells_in_order::<O>();
    steps::settle_all(hall)?;
    Ok(hall.take_placed())
}

// Whether all that was handed in took effect.
fn has_settled<O: Object>(hall: &ForgettingHall<O>) -> bool
    ensures { IsTrue result → (members : List ℕ) (told : List (Command O.Op)) → HasTold O.rules members hall.now told
        → hall.now.summary.submitted ≡ hall.now.summary.placed }
{
    hall.submitted_count() == hall.placed_count()
}

// Whether the hall keeps nothing of any of these sessions.
fn keeps_none_of<O: Object>(hall: &ForgettingHall<O>, sessions: &[u32]) -> bool
    ensures { IsTrue result → KeepsNoneOf hall.now sessions.now }
{
    for session in sessions {
        if hall.client(*session).is_some() {
            return false;
        }
    }
    true
}

/// Whether the values are the same, one by one.
pub(crate) fn are_same<V: Value>(some: &[V], others: &[V]) -> bool
    ensures { IsTrue result → some.now ≡ others.now }
{
    some == others
}
