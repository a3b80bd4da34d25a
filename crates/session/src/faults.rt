ghost use Rattle.std.specs.Prelude.{◌≡◌};

use std::alloc::AllocError;
use thiserror::Error;

/// How a client's session ended.
#[derive(Clone, Copy, Debug, PartialEq, Eq)]
pub enum End {
    /// The client asked to quit.
    Quit,
    /// The input ended.
    Eof,
}

/// Why a session broke off.
#[derive(Clone, Copy, Debug, PartialEq, Eq, Error)]
pub enum SessionFault {
    #[error("out of memory")]
    OutOfMemory,
    #[error("read failed")]
    ReadFailed,
    #[error("write failed")]
    WriteFailed,
    #[error("service stopped")]
    ServiceStopped,
}

impl From<AllocError> for SessionFault {
    ghost use Rattle.session.specs.declared.faults.SessionFault.{SessionFault};
    ghost use Rattle.session.specs.declared.faults.SessionFault.TheVariants.{OutOfMemory};

    ghost from_gives = { λ _ fault. fault ≡ OutOfMemory };

    fn from(_: AllocError) -> SessionFault {
        SessionFault::OutOfMemory
    }
}

/// Why a service has no reply.
#[derive(Clone, Copy, Debug, PartialEq, Eq, Error)]
pub enum ServiceFault {
    /// Memory was refused, and nothing was asked.
    #[error("refused")]
    Refused,
    /// No reply will come any more.
    #[error("stopped")]
    Stopped,
}
