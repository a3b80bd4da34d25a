/// Where a command of a client is asked for.
#[derive(Clone, Copy, Debug, PartialEq, Eq)]
pub enum Destination {
    /// At the client's own host: its node leads, or nobody does as far as is known there.
    Here,
    /// At the host of this node, which leads as far as is known.
    There(u8),
}
