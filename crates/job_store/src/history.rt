ghost use Rattle.std.specs.Prelude.{◌≡◌, true};

use crate::mark::Mark;
use object::Value;
use std::alloc::AllocError;

/// What has happened to a job. Each count stays at the greatest number of its type.
#[derive(Clone, Copy, Debug, PartialEq, Eq)]
pub struct History {
    /// The second in which it was put.
    pub put_at: u64,
    /// The delay in seconds that it was given last, by its put or by a release.
    pub delay: u32,
    /// How often a session got it.
    pub reserves: u32,
    /// How often its time to run was over.
    pub timeouts: u32,
    pub releases: u32,
    pub buries: u32,
    pub kicks: u32,
}

impl History {
    ghost use Rattle.job_store.specs.Histories.{new_history, after_mark};

    /// That of a job that is put in this second, with this delay in seconds.
    pub fn new(second: u64, delay: u32) -> History
        ensures { result ≡ new_history second delay }
    {
        History {
            put_at: second,
            delay,
            reserves: 0,
            timeouts: 0,
            releases: 0,
            buries: 0,
            kicks: 0,
        }
    }

    /// The history, with this mark.
    pub fn marked(self, mark: Mark) -> History
        ensures { result ≡ after_mark mark self }
    {
        match mark {
            Mark::Nothing => self,
            Mark::Reserved => History {
                reserves: self.reserves.saturating_add(1),
                ..self
            },
            Mark::TimedOut => History {
                timeouts: self.timeouts.saturating_add(1),
                ..self
            },
            Mark::Released { delay } => History {
                delay,
                releases: self.releases.saturating_add(1),
                ..self
            },
            Mark::Buried => History {
                buries: self.buries.saturating_add(1),
                ..self
            },
            Mark::Kicked => History {
                kicks: self.kicks.saturating_add(1),
                ..self
            },
        }
    }
}

impl Value for History {
    ghost use Rattle.std.proofs.Common.{rules};
    ghost use Rattle.std.proofs.lemmas.Grind.{common_steps};

    ghost exact = { Prim.grind (rules, common_steps) };

    fn copy(&self) -> Result<Self, AllocError> {
        Ok(*self)
    }
}
