/// Where the seconds of a clock come from.
pub trait Seconds {
    /// Waits for the next second; none at its end. Seconds rise, from 1 to 2^40.
    fn next(&mut self) -> Option<u64>;
}
