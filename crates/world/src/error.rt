use std::alloc::AllocError;
use thiserror::Error;

/// Why a world refused an event.
#[derive(Clone, Copy, Debug, PartialEq, Eq, Error)]
pub enum WorldError {
    #[error("out of memory")]
    OutOfMemory,
    /// No letter has that number.
    #[error("no such letter")]
    NoSuchLetter,
    /// The node isn't a member.
    #[error("no such node")]
    NoSuchNode,
    /// The key was submitted with another act.
    #[error("bad number")]
    BadNumber,
    /// 2^48 events were taken; of `rescue`, more than 2^32.
    #[error("full")]
    Full,
}

impl From<AllocError> for WorldError {
    ghost use Rattle.std.specs.Prelude.{◌≡◌};
    ghost use Rattle.world.specs.declared.error.WorldError.{WorldError};
    ghost use Rattle.world.specs.declared.error.WorldError.TheVariants.{OutOfMemory};

    ghost from_gives = { λ _ error. error ≡ OutOfMemory };

    fn from(_: AllocError) -> WorldError {
        WorldError::OutOfMemory
    }
}
