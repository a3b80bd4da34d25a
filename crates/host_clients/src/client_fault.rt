use std::alloc::AllocError;
use thiserror::Error;

/// Why a call for a client was refused.
#[derive(Clone, Copy, Debug, PartialEq, Eq, Error)]
pub enum ClientFault {
    #[error("out of memory")]
    OutOfMemory,
    /// No session has ended that could be used again, and no number is left in the block that was reserved.
    #[error("session numbers used up")]
    SessionsUsedUp,
    /// No such session is open here, or was open in an earlier process.
    #[error("no such session")]
    NoSession,
    /// The act isn't one of a client's session, or the session has had all numbers below 2^62.
    #[error("not a command of this session")]
    NoCommand,
}

impl From<AllocError> for ClientFault {
    ghost use Rattle.std.specs.Prelude.{◌≡◌};
    ghost use Rattle.host_clients.specs.declared.client_fault.ClientFault.{ClientFault};
    ghost use Rattle.host_clients.specs.declared.client_fault.ClientFault.TheVariants.{OutOfMemory};

    ghost from_gives = { λ _ error. error ≡ OutOfMemory };

    fn from(_: AllocError) -> ClientFault {
        ClientFault::OutOfMemory
    }
}
