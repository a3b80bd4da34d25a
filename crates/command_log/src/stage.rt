ghost use Rattle.std.specs.Prelude.{List, IfOk, None};
ghost use Rattle.object.specs.declared.command.Command.{Command};
ghost use Rattle.bean_words.specs.declared.op.Op.{Op};
ghost use Rattle.command_log.specs.Lines.{HoldsCommand};
ghost use Rattle.command_log.specs.Progress.{StepsOn};

use crate::chain::Chain;
use crate::head::read_head;
use crate::line::{LogLine, is_right, read_line};
use crate::whole::Whole;
use bean_words::Op;
use object::Command;
use std::alloc::{AllocError, Global};

/// What a reader knows after whole lines.
#[derive(Clone, Copy)]
pub enum Stage {
    /// There was none.
    Head,
    /// The first isn't a head.
    BadHead,
    /// All of them are a log.
    Right(Whole),
    /// Behind this log stand wrong ones alone.
    Wrong(Whole),
    /// This line doesn't go on with the log before it, and there or behind stands a right one.
    Damaged(u64),
}

impl Stage {
    /// The stage after a line more. It is enough to be shown so much of the line that it is seen to be too long.
    pub(crate) fn after_line(
        self,
        alloc: Global,
        line: &[u8],
        commands: &mut Vec<Command<Op>>,
    ) -> Result<Stage, AllocError>
        ensures { IfOk result
            (λ stage. StepsOn self commands.old.items line.now stage commands.new.items) }
    {
        match self {
            Stage::Head => after_nothing(alloc, line),
            Stage::Right(whole) => after_right(alloc, whole, line, commands),
            Stage::Wrong(whole) => after_wrong(alloc, whole, line),
            Stage::BadHead | Stage::Damaged(_) => Ok(self),
        }
    }
}

// The first line is a head.
fn after_nothing(alloc: Global, line: &[u8]) -> Result<Stage, AllocError>
    ensures { IfOk result (λ stage. (commands : List (Command Op))
        → StepsOn Stage.Head commands line.now stage commands) }
{
    let Some(head) = read_head(alloc, line)? else {
        return Ok(Stage::BadHead);
    };
    let chain = Chain::behind_head(alloc, head.version, line)?;
    Ok(Stage::Right(Whole::of_head(head, chain, line.len())))
}

// The line of a command that is chained to the log goes on with it.
fn after_right(
    alloc: Global,
    whole: Whole,
    line: &[u8],
    commands: &mut Vec<Command<Op>>,
) -> Result<Stage, AllocError>
    ensures { IfOk result (λ stage. StepsOn (Stage.Right whole) commands.old.items line.now stage
        commands.new.items) }
{
    let Some(read) = read_line(alloc, whole.version, line)? else {
        return after_wrong(alloc, whole, line);
    };
    if !read.follows(whole.chain) {
        return Ok(Stage::Damaged(whole.lines.saturating_add(1)));
    }
    let LogLine { command, next, .. } = read;
    commands.push(command)?;
    Ok(Stage::Right(whole.with_line(next, line.len())))
}

// A line that doesn't go on with the log may not be right, nor may one behind it, of whatever version.
fn after_wrong(alloc: Global, whole: Whole, line: &[u8]) -> Result<Stage, AllocError>
    ensures first { IfOk result (λ stage. (commands : List (Command Op))
        → HoldsCommand whole.version line.now None
        → StepsOn (Stage.Right whole) commands line.now stage commands) }
    ensures later { IfOk result (λ stage. (commands : List (Command Op))
        → StepsOn (Stage.Wrong whole) commands line.now stage commands) }
{
    if !is_right(alloc, line)? {
        return Ok(Stage::Wrong(whole));
    }
    Ok(Stage::Damaged(whole.lines.saturating_add(1)))
}
