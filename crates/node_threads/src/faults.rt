use counted_hall::Mishap;

/// Says what befalls the nodes of a cluster. It is asked once before each turn of a node, while the hall's lock is free.
pub trait Faults {
    /// What befalls the node before this turn. A node's turns count from 1, and stay at 2^64 - 1.
    fn choose(&self, node: u8, turn: u64) -> Mishap;
}

/// Nothing befalls any node.
pub(crate) struct NoFaults;

impl Faults for NoFaults {
    fn choose(&self, _node: u8, _turn: u64) -> Mishap {
        Mishap::None
    }
}
