ghost use Rattle.std.specs.Prelude.{◌≡◌, ℕ, List, length, IfOk};
ghost use Rattle.command_log.specs.Progress.{HasRead};
ghost use Rattle.inspection.specs.Verdicts.{IsLogVerdict};

use crate::verdict::Verdict;
use bean_words::Op;
use command_log::{LogFault, LogReader};
use object::Command;
use std::alloc::{AllocError, Global};

/// What is found of the text as a log.
pub(crate) fn inspect_log(alloc: Global, text: &[u8]) -> Result<Verdict, AllocError>
    ensures { IfOk result (IsLogVerdict text.now) }
{
    let mut commands = Vec::new(alloc);
    let reader = LogReader::new(alloc).feed(text, &mut commands)?;
    Ok(verdict_of(reader, &commands, text))
}

// What is found of the text, which was read to its end.
fn verdict_of(reader: LogReader, commands: &[Command<Op>], text: &[u8]) -> Verdict
    ensures { HasRead reader text.now commands.now → IsLogVerdict text.now result }
{
    let size = text.len() as u64;
    match reader.finish() {
        Ok(whole) => Verdict::Log {
            commands: commands.len() as u64,
            // The log is a beginning of the text.
            behind: size.saturating_sub(whole.bytes),
        },
        Err(LogFault::Unbegun) => Verdict::Log {
            commands: 0,
            behind: size,
        },
        Err(LogFault::BadHead) => Verdict::LogDamaged(1),
        Err(LogFault::Damaged(line)) => Verdict::LogDamaged(line),
    }
}
