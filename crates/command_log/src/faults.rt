ghost use Rattle.std.specs.Prelude.{◌≡◌};

use std::alloc::AllocError;
use thiserror::Error;

/// Why a command isn't written.
#[derive(Clone, Copy, Debug, PartialEq, Eq, Error)]
pub enum WriteFault {
    #[error("out of memory")]
    OutOfMemory,
    /// Its words have more bytes than those of a log's line may have.
    #[error("the command is too long for a log")]
    TooLong,
}

impl From<AllocError> for WriteFault {
    ghost use Rattle.command_log.specs.declared.faults.WriteFault.{WriteFault};
    ghost use Rattle.command_log.specs.declared.faults.WriteFault.TheVariants.{OutOfMemory};

    ghost from_gives = { λ _ fault. fault ≡ OutOfMemory };

    fn from(_: AllocError) -> WriteFault {
        WriteFault::OutOfMemory
    }
}

/// Why a text is no log.
#[derive(Clone, Copy, Debug, PartialEq, Eq, Error)]
pub enum LogFault {
    /// It ends before its head does.
    #[error("no whole head")]
    Unbegun,
    /// It doesn't begin with a head, nor with the beginning of one.
    #[error("line 1: not the head of a log")]
    BadHead,
    /// The first line, counted from 1, that doesn't go on with the log before it. There or behind stands a right line, of
    /// whatever version.
    #[error("line {0}: it doesn't follow the line before it, or is wrong, and a right line follows")]
    Damaged(u64),
}
