use journal::JournalFault;
use std::alloc::AllocError;
use std::io;

/// What went wrong with a server.
#[derive(Clone, Copy, Debug, Drop)]
pub enum ServeFault {
    /// Memory was refused before a client was let in.
    OutOfMemory,
    /// A socket, or what waits for sockets, was refused.
    ListenFailed(io::Error),
    /// A thread was refused.
    ThreadFailed,
    /// A session's ticket doesn't agree with the hall, or the log's count of commands doesn't.
    BadNumber,
    /// The log keeps nothing more.
    LogFailed(JournalFault),
}

impl From<AllocError> for ServeFault {
    fn from(_: AllocError) -> ServeFault {
        ServeFault::OutOfMemory
    }
}

impl From<io::Error> for ServeFault {
    fn from(error: io::Error) -> ServeFault {
        ServeFault::ListenFailed(error)
    }
}
