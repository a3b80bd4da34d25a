/// Who makes a step: a node by its number, the clock, or a worker by its number, from 1.
#[derive(Clone, Copy, Debug, PartialEq, Eq)]
pub enum Actor {
    Node(u8),
    Clock,
    Worker(u32),
}

/// Where it stands: before a turn of a node or the clock, after a piece was read, before an operation is asked, or after
/// it was answered.
#[derive(Clone, Copy, Debug, PartialEq, Eq)]
pub enum Point {
    Turn,
    Piece,
    Asked,
    Answered,
}

/// Is told where each thread stands, while the hall's lock is free. A test may hold a thread there.
pub trait Gate {
    /// The thread stands there, and goes on when this returns.
    fn at(&self, who: Actor, point: Point);
}
