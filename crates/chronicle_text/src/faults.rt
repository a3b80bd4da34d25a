ghost use Rattle.std.specs.Prelude.{◌≡◌};

use std::alloc::AllocError;
use thiserror::Error;

/// Why a text isn't read.
#[derive(Clone, Copy, Debug, PartialEq, Eq, Error)]
pub enum ReadFault {
    #[error("out of memory")]
    OutOfMemory,
    /// The first line outside the form, counted from 1. Where the text ends early, it is the line
    /// after the last.
    #[error("line {0}: bad line")]
    BadLine(u64),
}

impl From<AllocError> for ReadFault {
    ghost use Rattle.chronicle_text.specs.declared.faults.ReadFault.{ReadFault};
    ghost use Rattle.chronicle_text.specs.declared.faults.ReadFault.TheVariants.{OutOfMemory};

    ghost from_gives = { λ _ fault. fault ≡ OutOfMemory };

    fn from(_: AllocError) -> ReadFault {
        ReadFault::OutOfMemory
    }
}
