use thiserror::Error;

/// Why a decision was not learnt.
#[derive(Clone, Copy, Debug, PartialEq, Eq, Error)]
pub enum LearnError {
    #[error("out of memory")]
    OutOfMemory,
    /// Another command is known to be decided in that slot.
    #[error("clash")]
    Clash,
}
