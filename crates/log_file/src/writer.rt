ghost use Rattle.std.specs.Prelude.{◌≡◌, ◌<◌, ◌⊎◌, ◌↔◌, ◌++◌, ◌∷◌, ℕ, List, [], true, false, length, Some, IfSome, IsOk, IsErrOf, IfOk, IfErr, OnOk, OnErr};
ghost use Rattle.std.specs.Io.KnownBytes.{Keeps};
ghost use Rattle.object.specs.Results.{Becomes};
ghost use Rattle.object.specs.declared.command.Command.{Command};
ghost use Rattle.bean_words.specs.declared.op.Op.{Op};
ghost use Rattle.command_log.specs.declared.version.LogVersion.TheVariants.{Two};
ghost use Rattle.command_log.specs.Lines.{IsLogged, HasClientBody};
ghost use Rattle.command_log.specs.Text.{chain_behind, first_chain, head_line, line_of_command};
ghost use Rattle.log_file.specs.Bytes.{WritesBatch, grown};
ghost use Rattle.log_file.specs.Faults.{IsKeepFault, IsNoteFault, IsOfSyncing, IsOfWriting};
ghost use Rattle.log_file.specs.Logs.{BeginsLog, HoldsLog};

use crate::bytes::{sync_all, write_all};
use crate::durable::Durable;
use crate::faults::{KeepFault, NoteFault};
use ballot::Members;
use bean_words::Op;
use command_log::{Chain, write_command, write_head};
use object::Command;
use std::alloc::{AllocError, Global};
use std::marker::Model;

/// A log that is written, a batch of lines at a time.
///
/// A command is noted first, which puts its line into the batch, and is kept with the batch. Once a write or a sync has
/// failed, nothing is noted or written any more: nobody knows then what stands behind what was kept.
#[derive(Drop)]
pub struct LogWriter<W> {
    writer: W,
    // How many bytes the writer should hold.
    len: u64,
    batch: Vec<u8>,
    // How the next line is chained.
    chain: Chain,
    has_failed: bool,
}

impl<W> Model for LogWriter<W> {
    ghost use Rattle.log_file.specs.States.{LogState};

    ghost Value = { LogState W };

    ghost view = { λ log. record {
      writer = log.writer;
      len = log.len;
      batch = log.batch.items;
      chain = log.chain;
      has_failed = log.has_failed;
    } };
}

impl<W: Durable> LogWriter<W> {
    /// A new log, whose head is in the batch. The writer holds nothing as yet.
    pub fn begin(alloc: Global, writer: W, members: Members) -> Result<LogWriter<W>, AllocError>
    where
        W: Drop,
        ensures begun { IfOk result (λ log. log ≡ record {
          writer = writer;
          len = 0;
          batch = head_line Two members;
          chain = first_chain Two members;
          has_failed = false;
        }) }
        ensures log { IfOk result (λ log. W.contents writer ≡ Some []
            → HoldsLog (W.contents log.writer) log.batch log.chain members []) }
    {
        // It does nothing when it runs: the proof reads there what members are.
        let _ = members.weights();
        let mut batch = Vec::new(alloc);
        let chain = write_head(members, &mut batch)?;
        Ok(LogWriter {
            writer,
            len: 0,
            batch,
            chain,
            has_failed: false,
        })
    }

    /// A log that goes on behind what the writer holds, which are so many bytes, and where the next line is chained so.
    pub fn resume(alloc: Global, writer: W, len: u64, chain: Chain) -> LogWriter<W>
        ensures { result ≡ record {
          writer = writer;
          len = len;
          batch = [];
          chain = chain;
          has_failed = false;
        } }
    {
        LogWriter {
            writer,
            len,
            batch: Vec::new(alloc),
            chain,
            has_failed: false,
        }
    }

    /// Puts the command's line into the batch.
    pub fn note(&mut self, command: &Command<Op>) -> Result<(), NoteFault>
        ensures ok { Becomes result self.old self.new (record self.old {
          batch = self.old.batch ++ line_of_command self.old.chain command.now;
          chain = chain_behind self.old.chain command.now;
        }) }
        ensures logged { OnOk result (IsLogged command.now) }
        ensures fault { IfErr result (IsNoteFault self.old.has_failed command.now) }
        ensures fits { HasClientBody command.now.act → IsErrOf result NoteFault.TooLong → ⊥ }
        ensures refused { self.old.has_failed ≡ true → IsErrOf result NoteFault.HasFailed }
        ensures log { OnOk result ((members : List ℕ) (commands : List (Command Op))
            → HoldsLog (W.contents self.old.writer) self.old.batch self.old.chain members commands
            → HoldsLog (W.contents self.new.writer) self.new.batch self.new.chain members
            (commands ++ command.now ∷ [])) }
    {
        if self.has_failed {
            return Err(NoteFault::HasFailed);
        }
        self.chain = write_command(self.chain, command, &mut self.batch)?;
        Ok(())
    }

    /// Writes the batch. After a failure some first bytes of it may have been written.
    pub fn write(&mut self) -> Result<(), KeepFault>
        ensures ok { OnOk result (self.new ≡ record self.old {
          writer = self.new.writer;
          len = grown self.old.len self.old.batch;
          batch = [];
        }) }
        ensures err { OnErr result (self.new
            ≡ record self.old { writer = self.new.writer; has_failed = true }) }
        ensures written { WritesBatch (W.contents self.old.writer) (W.contents self.new.writer)
            self.old.batch result }
        ensures fault { IfErr result (IsOfWriting (W.contents self.old.writer) (W.contents self.new.writer)
            self.old.batch) }
        ensures idle { (self.old.batch ≡ []) ⊎ (self.old.has_failed ≡ true) → self.new.writer ≡ self.old.writer }
        ensures succeeds { self.old.batch ≡ [] → self.old.has_failed ≡ false → IsOk result }
        ensures refused { IsErrOf result KeepFault.HasFailed ↔ (self.old.has_failed ≡ true) }
        ensures log { OnOk result ((members : List ℕ) (commands : List (Command Op))
            → HoldsLog (W.contents self.old.writer) self.old.batch self.old.chain members commands
            → HoldsLog (W.contents self.new.writer) [] self.new.chain members commands) }
        ensures torn { OnErr result ((members : List ℕ) (commands : List (Command Op))
            → HoldsLog (W.contents self.old.writer) self.old.batch self.old.chain members commands
            → BeginsLog (W.contents self.new.writer) members commands) }
    {
        let len = self.len;
        if self.has_failed {
            return Err(KeepFault::HasFailed);
        }
        if self.batch.is_empty() {
            return Ok(());
        }
        let result = write_all(&mut self.writer, &self.batch).map_err(KeepFault::WriteFailed);
        match result {
            Ok(()) => {
                self.len = len.saturating_add(self.batch.len() as u64);
                self.batch.clear();
            }
            Err(_) => self.has_failed = true,
        }
        result
    }

    /// Returns once all that was written is kept. The writer holds so many bytes then as the log has.
    pub fn sync(&mut self) -> Result<(), KeepFault>
        ensures ok { OnOk result (self.new ≡ record self.old { writer = self.new.writer }) }
        ensures err { OnErr result (self.new
            ≡ record self.old { writer = self.new.writer; has_failed = true }) }
        ensures bytes { Keeps (W.contents self.old.writer) (W.contents self.new.writer) }
        ensures kept { OnOk result (Keeps (W.contents self.new.writer) (W.kept self.new.writer)) }
        ensures held { OnOk result (IfSome (W.contents self.new.writer) (λ held. length held ≡ self.old.len)) }
        ensures fault { IfErr result (IsOfSyncing (W.contents self.new.writer) self.old.len) }
        ensures idle { self.old.has_failed ≡ true → self.new.writer ≡ self.old.writer }
        ensures refused { IsErrOf result KeepFault.HasFailed ↔ (self.old.has_failed ≡ true) }
        ensures log { (batch members : List ℕ) (commands : List (Command Op))
            → HoldsLog (W.contents self.old.writer) batch self.old.chain members commands
            → HoldsLog (W.contents self.new.writer) batch self.new.chain members commands }
    {
        if self.has_failed {
            return Err(KeepFault::HasFailed);
        }
        let result = sync_all(&mut self.writer, self.len);
        if result.is_err() {
            self.has_failed = true;
        }
        result
    }

    /// Writes the batch, and returns once it is kept. After a failure some first bytes of it may have been written.
    pub fn keep(&mut self) -> Result<(), KeepFault>
        ensures ok { OnOk result (self.new ≡ record self.old {
          writer = self.new.writer;
          len = grown self.old.len self.old.batch;
          batch = [];
        }) }
        ensures err { OnErr result (self.new ≡ record self.old {
          writer = self.new.writer;
          len = self.new.len;
          batch = self.new.batch;
          has_failed = true;
        }) }
        ensures written { WritesBatch (W.contents self.old.writer) (W.contents self.new.writer)
            self.old.batch result }
        ensures kept { OnOk result (0 < length self.old.batch
            → Keeps (W.contents self.new.writer) (W.kept self.new.writer)) }
        ensures fault { IfErr result (IsKeepFault (W.contents self.old.writer) (W.contents self.new.writer)
            self.old.batch) }
        ensures idle { (self.old.batch ≡ []) ⊎ (self.old.has_failed ≡ true) → self.new.writer ≡ self.old.writer }
        ensures succeeds { self.old.batch ≡ [] → self.old.has_failed ≡ false → IsOk result }
        ensures refused { IsErrOf result KeepFault.HasFailed ↔ (self.old.has_failed ≡ true) }
        ensures log { OnOk result ((members : List ℕ) (commands : List (Command Op))
            → HoldsLog (W.contents self.old.writer) self.old.batch self.old.chain members commands
            → HoldsLog (W.contents self.new.writer) [] self.new.chain members commands) }
        ensures torn { OnErr result ((members : List ℕ) (commands : List (Command Op))
            → HoldsLog (W.contents self.old.writer) self.old.batch self.old.chain members commands
            → BeginsLog (W.contents self.new.writer) members commands) }
    {
        // It does nothing when it runs: the proof reads there that it is a count.
        let _len = self.len;
        if self.batch.is_empty() && !self.has_failed {
            return Ok(());
        }
        self.write()?;
        self.sync()
    }

    /// Whether there is something to keep.
    pub fn has_batch(&self) -> bool
        ensures { result ≡ true ↔ 0 < length self.now.batch }
    {
        !self.batch.is_empty()
    }

    /// Whether a write or a sync has failed.
    pub fn has_failed(&self) -> bool
        ensures { result ≡ self.now.has_failed }
    {
        self.has_failed
    }

    /// What the log is written to.
    pub fn writer(&self) -> &W
        ensures { result.now ≡ self.now.writer }
    {
        &self.writer
    }
}
