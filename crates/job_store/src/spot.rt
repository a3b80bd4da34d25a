ghost use Rattle.std.specs.Prelude.{◌≡◌, IfOk};
ghost use Rattle.job_store.specs.Spots.{spot_of};

use crate::job::Job;
use crate::state::State;
use bean_words::Name;
use object::Value;
use std::alloc::AllocError;

/// What tells on which shelves a job stands, and where: a job without its body, which nothing asks for there.
#[derive(Drop)]
pub struct Spot {
    pub tube: Name,
    pub pri: u32,
    pub state: State,
}

impl Spot {
    /// That of a job.
    pub fn of(job: &Job) -> Result<Spot, AllocError>
        ensures { IfOk result (λ spot. spot ≡ spot_of job.now) }
    {
        Ok(Spot {
            tube: job.tube.copy()?,
            pri: job.pri,
            state: job.state,
        })
    }

    /// The same spot once more.
    pub fn copy(&self) -> Result<Spot, AllocError>
        ensures { IfOk result (λ spot. spot ≡ self.now) }
    {
        Ok(Spot {
            tube: self.tube.copy()?,
            pri: self.pri,
            state: self.state,
        })
    }
}
