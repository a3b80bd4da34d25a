ghost use Rattle.std.specs.Prelude.{◌≡◌, ◌↔◌, ◌++◌, ◌⊎◌, ◌<◌, ◌≤◌, ◌+◌, ◌-◌, ◌^◌, min, ℕ, List, [], length, true, drop, IsErrOf, IfErr, OnOk, OnErr, IsTrue};
ghost use Rattle.std.specs.Io.KnownBytes.{Keeps};
ghost use Rattle.object.specs.declared.command.Command.{Command};
ghost use Rattle.bean_words.specs.declared.op.Op.{Op};
ghost use Rattle.log_file.specs.Logs.{BeginsLog, HoldsLog};
ghost use Rattle.journal.specs.Waiting.{HoldsAll, LosesNothing};

use crate::fault::JournalFault;
use crate::kept::Kept;
use bean_words::Op;
use log_file::{Durable, LogWriter};
use object::Command;
use std::alloc::Global;
use std::marker::Model;

/// A log, and the commands that come next in it.
///
/// Whoever waits for a command takes what took effect, puts it here, and has it written or kept; who comes later finds that
/// it is. One write, or one sync, does for all whose commands took effect meanwhile.
#[derive(Drop)]
pub struct Journal<W> {
    log: LogWriter<W>,
    waiting: Vec<Command<Op>>,
    // So many of them were noted.
    noted: usize,
    due: u64,
    written: u64,
    synced: u64,
    alloc: Global,
}

impl<W> Model for Journal<W> {
    ghost use Rattle.std.specs.Prelude.{drop};
    ghost use Rattle.journal.specs.Waiting.{JournalState};

    ghost Value = { JournalState W };

    ghost view = { λ j. record {
      log = j.log;
      waiting = drop j.noted j.waiting.items;
      due = j.due;
      written = j.written;
      synced = j.synced;
    } };
}

impl<W: Durable> Journal<W> {
    /// A journal of which so many commands are kept.
    pub fn new(alloc: Global, log: LogWriter<W>, kept: u64) -> Journal<W>
        ensures { result
            ≡ record { log = log; waiting = []; due = kept; written = kept; synced = kept } }
    {
        Journal {
            log,
            waiting: Vec::new(alloc),
            noted: 0,
            due: kept,
            written: kept,
            synced: kept,
            alloc,
        }
    }

    /// How many of all commands are written. A power cut may still lose those that aren't synced.
    pub fn written(&self) -> Kept
        ensures { result ≡ self.now.written }
    {
        Kept::of(self.written)
    }

    /// How many of all commands are synced.
    pub fn synced(&self) -> Kept
        ensures { result ≡ self.now.synced }
    {
        Kept::of(self.synced)
    }

    /// Whether no command waits.
    pub fn is_idle(&self) -> bool
        ensures { IsTrue result ↔ self.now.waiting ≡ [] }
    {
        self.noted >= self.waiting.len()
    }

    /// These commands come next. The journal counts them by itself, up to 2^64 - 1.
    pub fn put(&mut self, commands: Vec<Command<Op>>)
        requires idle { self.old.waiting ≡ [] }
        ensures put { self.new ≡ record self.old {
          waiting = commands.items;
          due = min (self.old.due + length commands.items) (2 ^ 64 - 1);
        } }
        ensures log { (members : List ℕ) (before : List (Command Op)) → HoldsAll W.contents self.old members before
            → HoldsAll W.contents self.new members (before ++ commands.items) }
    {
        self.due = self.due.saturating_add(commands.len() as u64);
        self.waiting = commands;
        self.noted = 0;
    }

    /// Writes all that waits. Where memory is refused it may be tried again. A command that is too long goes on waiting,
    /// and all behind it; after a failed write or sync nothing is written any more.
    pub fn write(&mut self) -> Result<(), JournalFault>
        ensures written { OnOk result ((self.new.waiting ≡ []) × (self.new.written ≡ self.old.due)) }
        ensures log { OnOk result ((members : List ℕ) (commands : List (Command Op))
            → HoldsAll W.contents self.old members commands
            → HoldsLog (W.contents self.new.log.writer) [] self.new.log.chain members commands
            × (self.new.written ≤ length commands)) }
        ensures later { IsErrOf result JournalFault.OutOfMemory ⊎ IsErrOf result JournalFault.TooLong
            → LosesNothing W.contents self.old self.new }
        ensures unwritten { OnErr result (self.new.written ≡ self.old.written) }
        ensures synced { self.new.synced ≡ self.old.synced }
        ensures due { self.new.due ≡ self.old.due }
    {
        self.note_all()?;
        self.log.write()?;
        self.waiting = Vec::new(self.alloc);
        self.noted = 0;
        self.written = self.due;
        Ok(())
    }

    /// Writes all that waits, and returns once it is synced. Where memory is refused it may be tried again, as `write`.
    pub fn keep(&mut self) -> Result<(), JournalFault>
        ensures written { OnOk result ((self.new.waiting ≡ []) × (self.new.written ≡ self.old.due)) }
        ensures synced { OnOk result (self.new.synced ≡ self.old.due) }
        ensures log { OnOk result ((members : List ℕ) (commands : List (Command Op))
            → HoldsAll W.contents self.old members commands
            → HoldsLog (W.contents self.new.log.writer) [] self.new.log.chain members commands
            × (self.new.synced ≤ length commands)) }
        ensures kept { OnOk result (Keeps (W.contents self.new.log.writer) (W.kept self.new.log.writer)) }
        ensures later { IsErrOf result JournalFault.OutOfMemory ⊎ IsErrOf result JournalFault.TooLong
            → LosesNothing W.contents self.old self.new }
        ensures unkept { OnErr result (self.new.synced ≡ self.old.synced) }
        ensures due { self.new.due ≡ self.old.due }
    {
        self.write()?;
        self.log.sync()?;
        self.synced = self.written;
        Ok(())
    }

    // Puts what waits into the log's batch.
    fn note_all(&mut self) -> Result<(), JournalFault>
        ensures noted { OnOk result (self.new.waiting ≡ []) }
        ensures log { LosesNothing W.contents self.old self.new }
        ensures due { self.new.due ≡ self.old.due }
        ensures written { self.new.written ≡ self.old.written }
        ensures synced { self.new.synced ≡ self.old.synced }
    {
        while self.noted < self.waiting.len() {
            self.log.note(&self.waiting[self.noted])?;
            self.noted += 1;
        }
        Ok(())
    }
}
