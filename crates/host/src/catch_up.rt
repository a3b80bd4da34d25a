/// What came of a snapshot that was handed to a host.
#[derive(Clone, Copy, Debug, PartialEq, Eq)]
pub enum CatchUp {
    /// The host goes on at the snapshot's slot.
    Done,
    /// The host had come further itself.
    Behind,
    /// What was put aside asks for a vote in an earlier slot: it has to be voted first.
    Awaited,
    /// The snapshot's object has obeyed a command that the host proposed: the host has to begin anew.
    Proposed,
}
