ghost use Rattle.std.specs.Prelude.{◌≡◌, ◌⊎◌, ℕ, List, true, OnOk};
ghost use Rattle.object.specs.Lists.{In};
ghost use Rattle.job_store.specs.LookUps.{has_jobs};

use crate::look_up::LookUp;
use bean_words::{Name, add_name};
use indexmap::IndexSet;
use job_store::{Job, JobMap, LoggedJobs, Mark, State, StoredJob, Tally};
use std::alloc::{AllocError, Global};
use std::collections::{BTreeMap, BTreeSet};
use std::marker::Model;

/// A map of jobs that goes over all of them to find one. Outside of this crate it has no name but in `PlainQueue`.
#[derive(Drop)]
pub struct ScanJobs {
    jobs: LoggedJobs,
}

/// Whether one of these jobs is in the tube.
fn has_jobs(jobs: &BTreeMap<u64, StoredJob>, tube: &Name) -> bool
    ensures { result ≡ has_jobs tube.now jobs.now.entries }
{
    for (_, stored) in jobs {
        if *tube == stored.as_job().tube {
            return true;
        }
    }
    false
}

/// Puts the tubes of these jobs among the names.
fn add_tubes(names: &mut BTreeSet<Name>, jobs: &BTreeMap<u64, StoredJob>) -> Result<(), AllocError>
    ensures kept { (tube : List ℕ) → In tube names.old.keys → In tube names.new.keys }
    ensures only { (tube : List ℕ) → In tube names.new.keys
        → In tube names.old.keys ⊎ (has_jobs tube jobs.now.entries ≡ true) }
    ensures all { OnOk result ((tube : List ℕ) → has_jobs tube jobs.now.entries ≡ true
        → In tube names.new.keys) }
{
    for (_, stored) in jobs {
        add_name(names, &stored.as_job().tube)?;
    }
    Ok(())
}

impl Model for ScanJobs {
    ghost use Rattle.job_store.specs.Undone.{MapState};

    ghost Value = { MapState };

    ghost view = { λ m. m.jobs };
}

impl JobMap for ScanJobs {
    ghost entries = { λ m. m.jobs };

    ghost before = { λ m. m.before };

    fn new(alloc: Global) -> Self {
        ScanJobs {
            jobs: LoggedJobs::new(alloc),
        }
    }

    fn copy(&self) -> Result<Self, AllocError> {
        Ok(ScanJobs {
            jobs: self.jobs.copy()?,
        })
    }

    fn begin(&mut self) {
        self.jobs.begin();
    }

    fn commit(&mut self) {
        self.jobs.commit();
    }

    fn roll_back(&mut self) {
        self.jobs.roll_back();
    }

    fn by_id(&self) -> &BTreeMap<u64, StoredJob> {
        self.jobs.by_id()
    }

    fn get(&self, id: u64) -> Option<&Job> {
        self.jobs.get(id)
    }

    fn insert(&mut self, id: u64, job: Job) -> Result<(), AllocError> {
        self.jobs.insert(id, job)
    }

    fn set_state(&mut self, id: u64, state: State, mark: Mark) -> Result<(), AllocError> {
        self.jobs.set_state(id, state, mark)
    }

    fn set(&mut self, id: u64, pri: u32, state: State, mark: Mark) -> Result<(), AllocError> {
        self.jobs.set(id, pri, state, mark)
    }

    fn remove(&mut self, id: u64) -> Option<Job> {
        self.jobs.remove(id)
    }

    fn best_ready(
        &self,
        tubes: &IndexSet<Name>,
        paused: &BTreeMap<Name, u64>,
    ) -> Option<(u64, &Job)> {
        LookUp::ReadyIn { tubes, paused }.least(self.jobs.by_id())
    }

    fn first_ready(&self, tube: &Name) -> Option<(u64, &Job)> {
        LookUp::Ready(tube).least(self.jobs.by_id())
    }

    fn first_delayed(&self, tube: &Name) -> Option<(u64, &Job)> {
        LookUp::Delayed(tube).least(self.jobs.by_id())
    }

    fn first_buried(&self, tube: &Name) -> Option<(u64, &Job)> {
        LookUp::Buried(tube).least(self.jobs.by_id())
    }

    fn due(&self, second: u64) -> Option<(u64, &Job)> {
        LookUp::Due(second).least(self.jobs.by_id())
    }

    fn due_after(&self, second: u64, place: (u64, u64)) -> Option<(u64, &Job)> {
        LookUp::DueAfter(second, place).least(self.jobs.by_id())
    }

    fn first_held(&self, session: u32) -> Option<(u64, &Job)> {
        LookUp::Held(session).least(self.jobs.by_id())
    }

    fn has_jobs(&self, tube: &Name) -> bool {
        has_jobs(self.jobs.by_id(), tube)
    }

    fn tally_in(&self, tube: &Name) -> Tally {
        Tally::in_tube(self.jobs.by_id(), tube)
    }

    fn tally_all(&self) -> Tally {
        Tally::of_all(self.jobs.by_id())
    }

    fn add_tubes(&self, names: &mut BTreeSet<Name>) -> Result<(), AllocError> {
        add_tubes(names, self.jobs.by_id())
    }
}
