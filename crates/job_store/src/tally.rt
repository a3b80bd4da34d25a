ghost use Rattle.std.specs.Prelude.{◌≡◌, ◌∷◌, [], ℕ};

use crate::job::Job;
use crate::state::State;
use crate::stored_job::StoredJob;
use bean_words::Name;
use std::collections::BTreeMap;

/// A ready job is urgent where its priority is below this.
pub const URGENT_BELOW: u64 = 1024;

/// How many jobs are in each state.
#[derive(Clone, Copy, Debug, PartialEq, Eq)]
pub struct Tally {
    /// Ready jobs of a priority below 1024.
    pub urgent: u64,
    pub ready: u64,
    pub reserved: u64,
    pub delayed: u64,
    pub buried: u64,
}

impl Tally {
    ghost use Rattle.job_store.specs.Tallies.{tally_in, tally_all, together, HasRoom};

    /// That of no jobs.
    const NONE: Tally = Tally {
        urgent: 0,
        ready: 0,
        reserved: 0,
        delayed: 0,
        buried: 0,
    };

    /// That of the jobs of a tube. It goes over all jobs.
    pub fn in_tube(jobs: &BTreeMap<u64, StoredJob>, tube: &Name) -> Tally
        ensures { result ≡ tally_in tube.now jobs.now.entries }
    {
        let mut tally = Tally::NONE;
        for (_, stored) in jobs {
            let job = stored.as_job();
            if *tube == job.tube {
                tally.add(job);
            }
        }
        tally
    }

    /// That of all jobs. It goes over them.
    pub fn of_all(jobs: &BTreeMap<u64, StoredJob>) -> Tally
        ensures { result ≡ tally_all jobs.now.entries }
    {
        let mut tally = Tally::NONE;
        for (_, stored) in jobs {
            tally.add(stored.as_job());
        }
        tally
    }

    /// Counts one job more.
    fn add(&mut self, job: &Job)
        requires { HasRoom self.old }
        ensures { (id : ℕ) → self.new ≡ together self.old (tally_all ((id, job.now) ∷ [])) }
    {
        match job.state {
            State::Ready => {
                self.ready += 1;
                if u64::from(job.pri) < URGENT_BELOW {
                    self.urgent += 1;
                }
            }
            State::Reserved { .. } => self.reserved += 1,
            State::Delayed { .. } => self.delayed += 1,
            State::Buried { .. } => self.buried += 1,
        }
    }
}
