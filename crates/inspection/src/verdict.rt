ghost use Rattle.std.specs.Prelude.{◌≡◌, string_bytes, IfOk};
ghost use Rattle.inspection.specs.Verdicts.{fault_name, is_legal, legal_line, verdict_line, wrong_line};
ghost use Rattle.inspection.specs.Verdicts.{log_line, torn_log_line, whole_log_line};

use chronicle::What;
use std::alloc::{AllocError, Global};

/// What is found of a dump or a log. Lines are counted from 1.
#[derive(Clone, Copy, Debug, PartialEq, Eq)]
pub enum Verdict {
    /// Nothing is wrong; and so many commands were submitted, answered, and took effect.
    Legal {
        submitted: usize,
        answered: usize,
        ordered: usize,
    },
    /// This is the first line that no dump has there.
    BadLine(u64),
    /// This is wrong with the line.
    At(u64, What),
    /// It is a log of so many commands, with so many bytes behind it that are none.
    Log {
        commands: u64,
        behind: u64,
    },
    /// This is the first line that doesn't go on with a log. It is no head, or a right one stands there or behind it.
    LogDamaged(u64),
}

impl Verdict {
    /// Whether nothing is wrong.
    pub fn is_legal(&self) -> bool
        ensures { result ≡ is_legal self.now }
    {
        match self {
            Verdict::Legal { .. } => true,
            Verdict::BadLine(_) => false,
            Verdict::At(..) => false,
            Verdict::Log { .. } => true,
            Verdict::LogDamaged(_) => false,
        }
    }

    /// The line by which it is told.
    pub fn line(&self, alloc: Global) -> Result<String, AllocError>
        ensures { IfOk result (λ line. string_bytes line ≡ verdict_line self.now) }
    {
        match *self {
            Verdict::Legal {
                submitted,
                answered,
                ordered,
            } => legal_line(alloc, submitted, answered, ordered),
            Verdict::BadLine(line) => wrong_line(alloc, line, "bad line"),
            Verdict::At(line, what) => wrong_line(alloc, line, fault_name(what)),
            Verdict::Log { commands, behind } => log_line(alloc, commands, behind),
            Verdict::LogDamaged(line) => wrong_line(alloc, line, "log damaged"),
        }
    }
}

// The line where nothing is wrong.
fn legal_line(
    alloc: Global,
    submitted: usize,
    answered: usize,
    ordered: usize,
) -> Result<String, AllocError>
    ensures { IfOk result (λ line. string_bytes line ≡ legal_line submitted answered ordered) }
{
    format!(in alloc; "legal: {submitted} submitted, {answered} answered, {ordered} ordered\n")
}

// The line where it is a log.
fn log_line(alloc: Global, commands: u64, behind: u64) -> Result<String, AllocError>
    ensures { IfOk result (λ line. string_bytes line ≡ log_line commands behind) }
{
    if behind == 0 {
        whole_log_line(alloc, commands)
    } else {
        torn_log_line(alloc, commands, behind)
    }
}

// The line where nothing stands behind the log.
fn whole_log_line(alloc: Global, commands: u64) -> Result<String, AllocError>
    ensures { IfOk result (λ line. string_bytes line ≡ whole_log_line commands) }
{
    format!(in alloc; "log: {commands} commands\n")
}

// The line where something does.
fn torn_log_line(alloc: Global, commands: u64, behind: u64) -> Result<String, AllocError>
    ensures { IfOk result (λ line. string_bytes line ≡ torn_log_line commands behind) }
{
    format!(in alloc; "log: {commands} commands, and {behind} bytes behind them\n")
}

// The line where this is wrong with a line of the text.
fn wrong_line(alloc: Global, line: u64, name: &str) -> Result<String, AllocError>
    ensures { IfOk result (λ told. string_bytes told ≡ wrong_line line name.now) }
{
    format!(in alloc; "line {line}: {name}\n")
}

// What is wrong with a line is called so.
fn fault_name(what: What) -> &'static str
    ensures { result.now ≡ fault_name what }
{
    match what {
        What::NotSubmitted => "not submitted",
        What::NotKept => "not kept",
        What::SubmittedTwice => "submitted twice",
        What::PlacedTooEarly => "placed too early",
        What::NotTheQueuesAnswer => "not the queue's answer",
    }
}
