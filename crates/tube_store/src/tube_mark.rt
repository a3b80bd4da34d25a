ghost use Rattle.std.specs.Prelude.{◌≡◌};

use crate::tube_counts::TubeCounts;
use crate::value_change::ValueChange;

/// What is done with a tube.
#[derive(Clone, Copy, Debug)]
pub enum TubeMark {
    /// A job is put into it.
    Put,
    /// One of its jobs is deleted.
    Deleted,
    /// It is paused for so many seconds.
    Paused { seconds: u32 },
}

/// A tube that has no counts has those of none.
impl ValueChange<TubeCounts> for TubeMark {
    ghost use Rattle.std.specs.Prelude.{unwrap_or};
    ghost use Rattle.tube_store.specs.TubeCounts.{no_counts, after_tube_mark};

    ghost after = { λ mark before. after_tube_mark mark (unwrap_or before no_counts) };

    fn after(self, before: Option<TubeCounts>) -> TubeCounts
        ensures { result ≡ after_tube_mark self (unwrap_or before no_counts) }
    {
        match before {
            Some(counts) => counts.marked(self),
            None => TubeCounts::none().marked(self),
        }
    }
}
