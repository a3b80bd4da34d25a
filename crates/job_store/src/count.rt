/// How many places there are.
#[derive(Clone, Copy)]
pub struct Count {
    pub all: u64,
    /// Those with a number below 1024.
    pub low: u64,
}

impl Count {
    /// That of no places.
    pub const NONE: Count = Count { all: 0, low: 0 };
}
