use std::alloc::AllocError;
use thiserror::Error;

/// Why a leader refused.
#[derive(Clone, Copy, Debug, PartialEq, Eq, Error)]
pub enum LeaderError {
    #[error("out of memory")]
    OutOfMemory,
    /// The leader is preempted by a ballot of the last round.
    #[error("no ballot left")]
    NoBallotLeft,
}

impl From<AllocError> for LeaderError {
    ghost use Rattle.std.specs.Prelude.{◌≡◌};
    ghost use Rattle.leader.specs.declared.error.LeaderError.{LeaderError};
    ghost use Rattle.leader.specs.declared.error.LeaderError.TheVariants.{OutOfMemory};

    ghost from_gives = { λ _ error. error ≡ OutOfMemory };

    fn from(_: AllocError) -> LeaderError {
        LeaderError::OutOfMemory
    }
}
