ghost use Rattle.std.specs.Prelude.{◌≡◌};
ghost use Rattle.std_io.specs.IoError.{error_kind};
ghost use Rattle.beanpax.specs.declared.faults.ProgramFault.TheVariants.{OutOfMemory};
ghost use Rattle.beanpax.specs.Faults.{IsOfFile, IsOfLog, IsOfOpening, IsOfUnread};
ghost use Rattle.beanpax.specs.Faults.{number_of_fault, of_journal, of_keeping, of_log, of_server, of_session};

use crate::start_fault::StartFault;
use command_log::LogFault;
use journal::JournalFault;
use log_file::{KeepFault, OpenFault, ReadFault};
use loops::ServeFault;
use recovery::RecoverFault;
use session::SessionFault;
use std::alloc::AllocError;
use std::io;
use std::io::ErrorKind;
use thiserror::Error;

/// Why the program didn't do what was asked.
#[derive(Clone, Copy, Debug, PartialEq, Eq, Error)]
pub enum ProgramFault {
    #[error("out of memory")]
    OutOfMemory,
    /// The tickets of a server's sessions aren't those of its hall.
    #[error("bad number")]
    BadNumber,
    #[error("read failed")]
    ReadFailed,
    #[error("write failed")]
    WriteFailed,
    #[error("service stopped")]
    ServiceStopped,
    /// The port is taken, or no client more could be accepted.
    #[error("cannot listen")]
    ListenFailed,
    /// The dump could not be written to its file, the file to be inspected not be read, or a log not be opened or synced.
    #[error("file failed")]
    FileFailed,
    #[error("cannot start a thread")]
    ThreadFailed,
    /// This line of the log is wrong, counted from 1: it is no head, or a right one stands behind it.
    #[error("log damaged: line {0}")]
    LogDamaged(u64),
}

impl From<SessionFault> for ProgramFault {
    ghost from_gives = { λ f p. p ≡ of_session f };

    fn from(fault: SessionFault) -> ProgramFault {
        match fault {
            SessionFault::OutOfMemory => ProgramFault::OutOfMemory,
            SessionFault::ReadFailed => ProgramFault::ReadFailed,
            SessionFault::WriteFailed => ProgramFault::WriteFailed,
            SessionFault::ServiceStopped => ProgramFault::ServiceStopped,
        }
    }
}

impl From<ServeFault> for ProgramFault {
    ghost from_gives = { λ f p. p ≡ of_server f };

    fn from(fault: ServeFault) -> ProgramFault {
        match fault {
            ServeFault::OutOfMemory => ProgramFault::OutOfMemory,
            ServeFault::BadNumber => ProgramFault::BadNumber,
            ServeFault::ListenFailed(_) => ProgramFault::ListenFailed,
            ServeFault::ThreadFailed => ProgramFault::ThreadFailed,
            // none of a server without a log
            ServeFault::LogFailed(_) => ProgramFault::ListenFailed,
        }
    }
}

impl From<AllocError> for ProgramFault {
    ghost from_gives = { λ _ p. p ≡ OutOfMemory };

    fn from(_: AllocError) -> ProgramFault {
        ProgramFault::OutOfMemory
    }
}

impl From<OpenFault> for ProgramFault {
    ghost from_gives = { λ f p. IsOfOpening f p };

    fn from(fault: OpenFault) -> ProgramFault {
        match fault {
            OpenFault::OutOfMemory => ProgramFault::OutOfMemory,
            OpenFault::Locked | OpenFault::NotAFile => ProgramFault::FileFailed,
            OpenFault::FileFailed(error) => file_fault(&error),
            OpenFault::Unread(unread) => fault_of_reading(unread),
            OpenFault::Unkept(unkept) => fault_of_keeping(unkept),
        }
    }
}

impl From<JournalFault> for ProgramFault {
    ghost from_gives = { λ f p. p ≡ of_journal f };

    fn from(fault: JournalFault) -> ProgramFault {
        match fault {
            JournalFault::OutOfMemory => ProgramFault::OutOfMemory,
            JournalFault::TooLong => ProgramFault::FileFailed,
            JournalFault::Unkept(fault) => fault_of_keeping(fault),
        }
    }
}

impl From<StartFault> for ProgramFault {
    ghost from_gives = { λ _ p. IsOfLog p };

    fn from(fault: StartFault) -> ProgramFault {
        match fault {
            StartFault::Unopened(fault) => ProgramFault::from(fault),
            StartFault::Unobeyed(RecoverFault::OutOfMemory) => ProgramFault::OutOfMemory,
            StartFault::Unobeyed(RecoverFault::NoOrder) => ProgramFault::LogDamaged(1),
            StartFault::Unobeyed(RecoverFault::UsedAgain) => ProgramFault::FileFailed,
            StartFault::Unkept(fault) => ProgramFault::from(fault),
        }
    }
}

// Why a log isn't read.
fn fault_of_reading(fault: ReadFault) -> ProgramFault
    ensures { IsOfUnread fault result }
{
    match fault {
        ReadFault::OutOfMemory => ProgramFault::OutOfMemory,
        ReadFault::ReadFailed(error) => file_fault(&error),
        ReadFault::TooLong => ProgramFault::FileFailed,
        ReadFault::NoLog(found) => fault_of_log(found),
    }
}

// What is wrong with a text that is no log.
fn fault_of_log(fault: LogFault) -> ProgramFault
    ensures { result ≡ of_log fault }
{
    match fault {
        LogFault::Unbegun | LogFault::BadHead => ProgramFault::LogDamaged(1),
        LogFault::Damaged(line) => ProgramFault::LogDamaged(line),
    }
}

// Why what was written isn't kept.
fn fault_of_keeping(fault: KeepFault) -> ProgramFault
    ensures { result ≡ of_keeping fault }
{
    match fault {
        KeepFault::WriteFailed(_) => ProgramFault::WriteFailed,
        KeepFault::SyncFailed(_) | KeepFault::Changed | KeepFault::HasFailed => {
            ProgramFault::FileFailed
        }
    }
}

/// Why a file could not be read or written: for want of memory, or not.
pub(crate) fn file_fault(error: &io::Error) -> ProgramFault
    ensures { IsOfFile (error_kind error.now) result }
{
    match error.kind() {
        ErrorKind::OutOfMemory => ProgramFault::OutOfMemory,
        _ => ProgramFault::FileFailed,
    }
}

/// The number by which a fault is told.
pub fn fault_number(fault: ProgramFault) -> u8
    ensures { result ≡ number_of_fault fault }
{
    match fault {
        ProgramFault::OutOfMemory => 1,
        ProgramFault::BadNumber => 6,
        ProgramFault::ReadFailed => 7,
        ProgramFault::WriteFailed => 8,
        ProgramFault::ServiceStopped => 9,
        ProgramFault::ListenFailed => 12,
        ProgramFault::FileFailed => 13,
        ProgramFault::ThreadFailed => 14,
        ProgramFault::LogDamaged(_) => 15,
    }
}
