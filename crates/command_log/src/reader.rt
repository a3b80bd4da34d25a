ghost use Rattle.std.specs.Prelude.{◌≡◌, ◌-◌, ◌++◌, ℕ, suc, [], List, length, take, IfOk, IfErr, OnOk};
ghost use Rattle.object.specs.declared.command.Command.{Command};
ghost use Rattle.bean_words.specs.declared.op.Op.{Op};
ghost use Rattle.chronicle_text.specs.Lines.{NoFeed};
ghost use Rattle.command_log.specs.Faults.{IsLogFault};
ghost use Rattle.command_log.specs.Lines.{IsLogLine};
ghost use Rattle.command_log.specs.Progress.{HasRead, ReadsOn};
ghost use Rattle.command_log.specs.Reading.{IsWholeLog};

use crate::faults::LogFault;
use crate::head::begins_head;
use crate::line::MAX_LINE;
use crate::stage::Stage;
use crate::whole::Whole;
use bean_words::Op;
use bstr::ByteSlice;
use object::Command;
use std::alloc::{AllocError, Global};

/// Reads a log that comes in pieces. It keeps a line until its end, or as much of it as shows that it is too long.
#[derive(Drop)]
pub struct LogReader {
    line: Vec<u8>,
    // Whether what stands there of the first line is a beginning of a head.
    begun: bool,
    stage: Stage,
}

impl LogReader {
    /// A reader that has read nothing.
    pub fn new(alloc: Global) -> LogReader
        ensures { HasRead result [] [] }
    {
        LogReader {
            line: Vec::new(alloc),
            begun: true,
            stage: Stage::Head,
        }
    }

    /// Reads on, and puts the commands of the log at the end of the list, as far as no wrong line stands before them.
    /// Where memory runs out, the reading is over.
    pub fn feed(
        self,
        piece: &[u8],
        commands: &mut Vec<Command<Op>>,
    ) -> Result<LogReader, AllocError>
        ensures { IfOk result
            (λ reader. ReadsOn self commands.old.items piece.now reader commands.new.items) }
    {
        let mut reader = self;
        let mut rest = piece;
        while let Some(end) = rest.find_byte(b'\n') {
            let (line, more) = rest.split_at(end + 1);
            reader = reader.end_line(line, commands)?;
            rest = more;
        }
        reader.begin_line(rest)
    }

    /// The log that stands whole at the beginning of what was read. What stands behind it has no right line of any version,
    /// and may be cut off.
    pub fn finish(self) -> Result<Whole, LogFault>
        ensures whole { IfOk result (λ whole. (text : List ℕ) (commands : List (Command Op))
            → HasRead self text commands → IsWholeLog text whole commands) }
        ensures fault { IfErr result (λ fault. (text : List ℕ) (commands : List (Command Op))
            → HasRead self text commands → IsLogFault text fault) }
    {
        let LogReader { begun, stage, .. } = self;
        match stage {
            Stage::Head if begun => Err(LogFault::Unbegun),
            Stage::Head => Err(LogFault::BadHead),
            Stage::BadHead => Err(LogFault::BadHead),
            Stage::Right(whole) | Stage::Wrong(whole) => Ok(whole),
            Stage::Damaged(line) => Err(LogFault::Damaged(line)),
        }
    }

    // Reads on to the end of a line.
    fn end_line(self, end: &[u8], commands: &mut Vec<Command<Op>>) -> Result<LogReader, AllocError>
        requires { IsLogLine end.now }
        ensures { IfOk result
            (λ reader. ReadsOn self commands.old.items end.now reader commands.new.items) }
    {
        let LogReader {
            mut line,
            stage,
            ..
        } = self;
        keep(&mut line, end)?;
        let stage = stage.after_line(*line.allocator(), &line, commands)?;
        line.clear();
        Ok(LogReader {
            line,
            begun: true,
            stage,
        })
    }

    // Reads on within a line.
    fn begin_line(self, part: &[u8]) -> Result<LogReader, AllocError>
        requires { NoFeed part.now }
        ensures { IfOk result (λ reader. (commands : List (Command Op))
            → ReadsOn self commands part.now reader commands) }
    {
        let LogReader {
            mut line,
            stage,
            ..
        } = self;
        keep(&mut line, part)?;
        let begun = match stage {
            Stage::Head => begins_head(*line.allocator(), &line)?,
            _ => true,
        };
        Ok(LogReader { line, begun, stage })
    }
}

// Puts at the end of what is kept of a line what is to be kept of this part.
fn keep(line: &mut Vec<u8>, part: &[u8]) -> Result<(), AllocError>
    ensures { OnOk result
        (line.new.items ≡ line.old.items ++ take (suc MAX_LINE - length line.old.items) part.now) }
{
    let room = (MAX_LINE + 1).saturating_sub(line.len());
    line.extend_from_slice(&part[..room.min(part.len())])
}
