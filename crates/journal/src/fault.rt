ghost use Rattle.std.specs.Prelude.{◌≡◌};
ghost use Rattle.journal.specs.Waiting.{fault_of_note};

use log_file::{KeepFault, NoteFault};
use thiserror::Error;

/// Why a journal's commands aren't kept.
#[derive(Clone, Copy, Debug, Drop, Error)]
pub enum JournalFault {
    /// Nothing is lost: they wait as before.
    #[error("out of memory")]
    OutOfMemory,
    /// One has a line that no log may have. Nothing is lost: it waits as before, and so do those behind it.
    #[error("a command is too long for a log")]
    TooLong,
    /// A write or a sync failed, now or before.
    #[error("{0}")]
    Unkept(KeepFault),
}

impl From<NoteFault> for JournalFault {
    ghost from_gives = { λ note fault. fault ≡ fault_of_note note };

    fn from(fault: NoteFault) -> JournalFault {
        match fault {
            NoteFault::OutOfMemory => JournalFault::OutOfMemory,
            NoteFault::TooLong => JournalFault::TooLong,
            NoteFault::HasFailed => JournalFault::Unkept(KeepFault::HasFailed),
        }
    }
}

impl From<KeepFault> for JournalFault {
    ghost use Rattle.journal.specs.declared.fault.JournalFault.TheVariants.{Unkept};

    ghost from_gives = { λ keep fault. fault ≡ Unkept keep };

    fn from(fault: KeepFault) -> JournalFault {
        JournalFault::Unkept(fault)
    }
}
