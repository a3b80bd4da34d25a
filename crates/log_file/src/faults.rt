ghost use Rattle.std.specs.Prelude.{◌≡◌};

use command_log::{LogFault, WriteFault};
use std::alloc::AllocError;
use std::io;
use thiserror::Error;

/// Why a command isn't noted.
#[derive(Clone, Copy, Debug, PartialEq, Eq, Error)]
pub enum NoteFault {
    #[error("out of memory")]
    OutOfMemory,
    /// Its line has more bytes than a log's line may have.
    #[error("the command is too long for a log")]
    TooLong,
    /// A write or a sync failed before.
    #[error("the log has failed")]
    HasFailed,
}

impl From<WriteFault> for NoteFault {
    ghost use Rattle.log_file.specs.Faults.{note_fault_of};

    ghost from_gives = { λ fault noted. noted ≡ note_fault_of fault };

    fn from(fault: WriteFault) -> NoteFault {
        match fault {
            WriteFault::OutOfMemory => NoteFault::OutOfMemory,
            WriteFault::TooLong => NoteFault::TooLong,
        }
    }
}

/// Why a batch isn't kept.
#[derive(Clone, Copy, Debug, Drop, Error)]
pub enum KeepFault {
    #[error("write failed: {0}")]
    WriteFailed(io::Error),
    #[error("sync failed: {0}")]
    SyncFailed(io::Error),
    /// All was written, but what it was written to has more bytes or fewer than the log.
    #[error("the log was changed by another")]
    Changed,
    /// A write or a sync failed before, and nothing was tried.
    #[error("the log has failed")]
    HasFailed,
}

/// Why no log is read.
#[derive(Clone, Copy, Debug, Drop, Error)]
pub enum ReadFault {
    #[error("out of memory")]
    OutOfMemory,
    #[error("read failed: {0}")]
    ReadFailed(io::Error),
    /// It has 2^64 bytes or more.
    #[error("too many bytes")]
    TooLong,
    /// All of it was read.
    #[error("{0}")]
    NoLog(LogFault),
}

impl From<AllocError> for ReadFault {
    ghost use Rattle.log_file.specs.declared.faults.ReadFault.{ReadFault};
    ghost use Rattle.log_file.specs.declared.faults.ReadFault.TheVariants.{OutOfMemory};

    ghost from_gives = { λ _ fault. fault ≡ OutOfMemory };

    fn from(_: AllocError) -> ReadFault {
        ReadFault::OutOfMemory
    }
}

/// Why a file isn't opened as a log.
#[derive(Clone, Copy, Debug, Drop, Error)]
pub enum OpenFault {
    #[error("out of memory")]
    OutOfMemory,
    /// Another server has the log.
    #[error("another server has the log")]
    Locked,
    /// It is a folder, a pipe or a device.
    #[error("not a regular file")]
    NotAFile,
    #[error("the file failed: {0}")]
    FileFailed(io::Error),
    /// The file is left as it is.
    #[error("{0}")]
    Unread(ReadFault),
    /// The head of a new log isn't kept.
    #[error("{0}")]
    Unkept(KeepFault),
}

impl From<AllocError> for OpenFault {
    ghost use Rattle.log_file.specs.declared.faults.OpenFault.TheVariants.{OutOfMemory};

    ghost from_gives = { λ _ fault. fault ≡ OutOfMemory };

    fn from(_: AllocError) -> OpenFault {
        OpenFault::OutOfMemory
    }
}
