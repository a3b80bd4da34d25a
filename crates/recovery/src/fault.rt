use hall::HallError;
use std::alloc::{AllocError, AllocFailed};
use thiserror::Error;

/// Why no hall comes of a log.
#[derive(Clone, Copy, Debug, PartialEq, Eq, Error)]
pub enum RecoverFault {
    #[error("out of memory")]
    OutOfMemory,
    /// No hall obeys these commands in this order: no server wrote them.
    #[error("the commands are no order")]
    NoOrder,
    /// A session goes on behind its end, which a hall that keeps all can't obey.
    #[error("a server that uses session numbers again wrote the log; start without --dump")]
    UsedAgain,
}

impl From<AllocError> for RecoverFault {
    ghost use Rattle.std.specs.Prelude.{◌≡◌};
    ghost use Rattle.recovery.specs.declared.fault.RecoverFault.{RecoverFault};
    ghost use Rattle.recovery.specs.declared.fault.RecoverFault.TheVariants.{OutOfMemory};

    ghost from_gives = { λ _ fault. fault ≡ OutOfMemory };

    fn from(_: AllocError) -> RecoverFault {
        RecoverFault::OutOfMemory
    }
}

impl From<HallError> for RecoverFault {
    ghost use Rattle.std.specs.Prelude.{◌≢◌};
    ghost use Rattle.hall.specs.declared.error.HallError.{HallError};
    ghost use Rattle.recovery.specs.declared.fault.RecoverFault.{RecoverFault};
    ghost use Rattle.recovery.specs.declared.fault.RecoverFault.TheVariants.{UsedAgain};

    ghost from_gives = { λ _ fault. fault ≢ UsedAgain };

    fn from(error: HallError) -> RecoverFault {
        match error {
            HallError::OutOfMemory => RecoverFault::OutOfMemory,
            HallError::NoSuchNode | HallError::BadNumber | HallError::Busy | HallError::Full => {
                RecoverFault::NoOrder
            }
        }
    }
}

impl From<AllocFailed<u32>> for RecoverFault {
    fn from(_: AllocFailed<u32>) -> RecoverFault {
        RecoverFault::OutOfMemory
    }
}
