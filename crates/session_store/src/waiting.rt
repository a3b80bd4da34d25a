ghost use Rattle.std.specs.Prelude.{◌≡◌, Some, option_map};
ghost use Rattle.session_store.specs.Sessions.{wait_rank};
ghost use Rattle.job_store.specs.Least.{first_of};

use crate::session::SessionState;

/// Of a session that there may be and one more, the one of the lesser rank.
pub fn first<'a>(
    best: Option<(u32, &'a SessionState)>,
    other: (u32, &'a SessionState),
) -> Option<(u32, &'a SessionState)>
    ensures { option_map (λ e. (e.0, e.1.now)) result
        ≡ first_of wait_rank (option_map (λ e. (e.0, e.1.now)) best.entry)
        (Some (other.entry.0, other.entry.1.now)) }
{
    match best {
        Some(best) => {
            let (rank, other_rank) = (best.1.rank(), other.1.rank());
            if other_rank < rank || other_rank == rank && other.0 < best.0 {
                Some(other)
            } else {
                Some(best)
            }
        }
        None => Some(other),
    }
}
