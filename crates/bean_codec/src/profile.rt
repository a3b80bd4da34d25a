/// Which lines a reader knows.
#[derive(Clone, Copy, Debug, PartialEq, Eq)]
pub enum Profile {
    /// All lines but those that `Extended` has beside.
    Plain,
    /// `stats`, `stats-job`, `stats-tube` and `reserve-job`, too.
    Extended,
}
