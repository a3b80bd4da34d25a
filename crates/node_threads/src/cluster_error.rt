use thiserror::Error;

/// Why a cluster didn't end well. Of several reasons bad number is told before any other, and else the first that was met.
#[derive(Clone, Copy, Debug, PartialEq, Eq, Error)]
pub enum ClusterError {
    /// Memory was refused before the first client was taken.
    #[error("out of memory")]
    OutOfMemory,
    /// The tickets of the workers aren't those of the hall's sessions, one each.
    #[error("bad number")]
    BadNumber,
    /// No client more could be accepted.
    #[error("cannot listen")]
    ListenFailed,
    #[error("cannot start a thread")]
    ThreadFailed,
}
