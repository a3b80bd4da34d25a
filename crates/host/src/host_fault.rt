use std::alloc::AllocError;
use thiserror::Error;

/// Why a host refused a call.
#[derive(Clone, Copy, Debug, PartialEq, Eq, Error)]
pub enum HostFault {
    #[error("out of memory")]
    OutOfMemory,
    /// It has had 2^45 events, or would have more.
    #[error("events exhausted")]
    EventsExhausted,
    /// It has begun anew 2^62 times.
    #[error("boots exhausted")]
    BootsExhausted,
    /// What its acceptor accepted in the snapshot's slot and later ones isn't all there.
    #[error("the snapshot is older than what is stored")]
    SnapshotTooOld,
}

impl From<AllocError> for HostFault {
    ghost use Rattle.std.specs.Prelude.{◌≡◌};
    ghost use Rattle.host.specs.declared.host_fault.HostFault.{HostFault};
    ghost use Rattle.host.specs.declared.host_fault.HostFault.TheVariants.{OutOfMemory};

    ghost from_gives = { λ _ error. error ≡ OutOfMemory };

    fn from(_: AllocError) -> HostFault {
        HostFault::OutOfMemory
    }
}
