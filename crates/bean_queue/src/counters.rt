ghost use Rattle.std.specs.Prelude.{◌≤◌, ◌^◌};

use crate::counts::Counts;

/// No id and no rank is as great as this.
pub(crate) const LIMIT: u64 = 1 << 63;

/// The second that it is, the next numbers to give, and what is counted.
#[derive(Clone, Copy)]
pub(crate) struct Counters {
    pub now: u64,
    pub next_id: u64,
    pub next_rank: u64,
    pub counts: Counts,
    ghost now_in_range: { now ≤ 2 ^ 40 },
    ghost id_in_range: { next_id ≤ 2 ^ 63 },
    ghost rank_in_range: { next_rank ≤ 2 ^ 63 },
}
