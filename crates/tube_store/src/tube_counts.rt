ghost use Rattle.std.specs.Prelude.{◌≡◌, true};

use crate::tube_mark::TubeMark;
use object::Value;
use std::alloc::AllocError;

/// What was done with a tube. Each count stays at the greatest number of its type.
#[derive(Clone, Copy, Debug, PartialEq, Eq)]
pub struct TubeCounts {
    /// How many jobs were put into it.
    pub puts: u64,
    /// How many of its jobs were deleted.
    pub deletes: u64,
    /// How often it was paused.
    pub pauses: u64,
    /// For how many seconds it was paused last.
    pub pause: u32,
}

impl TubeCounts {
    ghost use Rattle.tube_store.specs.TubeCounts.{no_counts, after_tube_mark};

    /// Those of a tube with which nothing was done.
    pub fn none() -> TubeCounts
        ensures { result ≡ no_counts }
    {
        TubeCounts {
            puts: 0,
            deletes: 0,
            pauses: 0,
            pause: 0,
        }
    }

    /// The counts, with this mark.
    pub fn marked(self, mark: TubeMark) -> TubeCounts
        ensures { result ≡ after_tube_mark mark self }
    {
        match mark {
            TubeMark::Put => TubeCounts {
                puts: self.puts.saturating_add(1),
                ..self
            },
            TubeMark::Deleted => TubeCounts {
                deletes: self.deletes.saturating_add(1),
                ..self
            },
            TubeMark::Paused { seconds } => TubeCounts {
                pauses: self.pauses.saturating_add(1),
                pause: seconds,
                ..self
            },
        }
    }
}

impl Value for TubeCounts {
    ghost use Rattle.std.proofs.Common.{rules};
    ghost use Rattle.std.proofs.lemmas.Grind.{common_steps};

    ghost exact = { Prim.grind (rules, common_steps) };

    fn copy(&self) -> Result<Self, AllocError> {
        Ok(*self)
    }
}
