use std::alloc::AllocError;
use thiserror::Error;

/// Why a hall refused a call. Of several reasons the first in this order is told: no such node, bad number, busy, full,
/// out of memory.
#[derive(Clone, Copy, Debug, PartialEq, Eq, Error)]
pub enum HallError {
    #[error("out of memory")]
    OutOfMemory,
    /// The node isn't a member.
    #[error("no such node")]
    NoSuchNode,
    /// A second outside 1 to 2^40, a ticket that asks for one, or a ticket whose session or last command isn't the hall's.
    #[error("bad number")]
    BadNumber,
    /// 2^48 events were taken, or 2^32 - 1 sessions opened.
    #[error("full")]
    Full,
    /// The session's last command has no answer yet, or ended it.
    #[error("busy")]
    Busy,
}

impl From<AllocError> for HallError {
    ghost use Rattle.std.specs.Prelude.{◌≡◌};
    ghost use Rattle.hall.specs.declared.error.HallError.{HallError};
    ghost use Rattle.hall.specs.declared.error.HallError.TheVariants.{OutOfMemory};

    ghost from_gives = { λ _ error. error ≡ OutOfMemory };

    fn from(_: AllocError) -> HallError {
        HallError::OutOfMemory
    }
}
