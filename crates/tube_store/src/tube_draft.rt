ghost use Rattle.std.specs.Prelude.{◌≡◌, []};
ghost use Rattle.session_store.specs.Drafts.{DraftsState, IsKept, KeepsDraft, TakesDraftBack};
ghost use Rattle.tube_store.specs.TubeCounts.{counts_at, marked_tube, without_tube};

use crate::name_draft::NameDraft;
use crate::tube_counts::TubeCounts;
use crate::tube_mark::TubeMark;
use bean_words::Name;
use std::alloc::{AllocError, Global};
use std::marker::Model;

/// What was done with each tube. Marks can be taken back until they are kept, and that takes no memory.
#[derive(Drop)]
pub struct TubeDraft {
    counts: NameDraft<TubeCounts>,
}

impl Model for TubeDraft {
    ghost use Rattle.std.specs.Prelude.{ℕ, List};
    ghost use Rattle.session_store.specs.Drafts.{Draft};
    ghost use Rattle.tube_store.specs.declared.tube_counts.TubeCounts.{TubeCounts};

    ghost Value = { Draft (List (List ℕ × TubeCounts)) };

    ghost view = { λ d. d.counts };
}

impl TubeDraft {
    /// Nothing was done with any tube.
    pub fn new(alloc: Global) -> TubeDraft
        ensures { IsKept result [] }
    {
        TubeDraft {
            counts: NameDraft::new(alloc),
        }
    }

    /// What was done with a tube. It takes no memory.
    pub fn counts(&self, tube: &Name) -> TubeCounts
        ensures { result ≡ counts_at tube.now self.now.now }
    {
        match self.counts.get(tube) {
            Some(counts) => counts,
            None => TubeCounts::none(),
        }
    }

    /// Counts what is done with a tube. For one that has counts it takes memory for a step alone, whose room is kept.
    pub fn mark(&mut self, tube: &Name, mark: TubeMark) -> Result<(), AllocError>
        ensures { DraftsState self.old self.new (marked_tube mark tube.now self.old.now) result }
    {
        self.counts.change(tube, mark)
    }

    /// Keeps all marks, and takes out the counts of a tube. That can't be taken back, and takes no memory.
    pub fn forget_for_good(&mut self, tube: &Name)
        ensures { IsKept self.new (without_tube tube.now self.old.now) }
    {
        self.counts.forget_for_good(tube);
    }

    /// Keeps all marks.
    pub fn keep(&mut self)
        ensures { KeepsDraft self.old self.new }
    {
        self.counts.keep();
    }

    /// Takes back all marks since they were kept last.
    pub fn take_back(&mut self)
        ensures { TakesDraftBack self.old self.new }
    {
        self.counts.take_back();
    }
}
