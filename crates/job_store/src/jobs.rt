ghost use Rattle.std.specs.Prelude.{◌≡◌, ◌↔◌, ℕ, List, [], ◌∷◌, true, None, IfSome, IsNone, OnOk, option_map};
ghost use Rattle.std.specs.Map.{keys_of};
ghost use Rattle.object.specs.Lists.{In};
ghost use Rattle.job_store.specs.Least.{NonePasses, first_of};
ghost use Rattle.bean_words.specs.NameSets.{AddsOnly};
ghost use Rattle.job_store.specs.Shelves.{FindsFirst};
ghost use Rattle.job_store.specs.LookUps.{pri_of_job, due_of_job, ready_in, reserved_in, has_jobs, AreReadyPlaces};

use crate::change::Change;
use crate::job::Job;
use crate::job_map::JobMap;
use crate::label::Label;
use crate::logged_jobs::LoggedJobs;
use crate::mark::Mark;
use crate::moves::{follow, go_back, move_to, move_to_state, store, sweep};
use crate::rack::Rack;
use crate::shelf_number::ShelfNumber;
use crate::shelves::Shelves;
use crate::spot::Spot;
use crate::state::State;
use crate::stored_job::StoredJob;
use crate::tallies::{tally_all, tally_in};
use crate::tally::Tally;
use bean_words::{Name, add_name};
use indexmap::IndexSet;
use std::alloc::{AllocError, Global};
use std::collections::{BTreeMap, BTreeSet};
use std::marker::Model;

/// A map of jobs by id, beside which it keeps what it looks for in order.
#[derive(Drop)]
pub struct Jobs {
    alloc: Global,
    jobs: LoggedJobs,
    /// In a trial places are only added, so that to take its changes back takes no memory.
    shelves: Shelves,
}

impl Model for Jobs {
    ghost use Rattle.job_store.specs.Undone.{MapState};
    ghost use Rattle.job_store.specs.Shelves.{ShelvesMatch};

    ghost Value = { MapState };

    ghost view = { λ m. m.jobs };

    ghost invariant = { λ m. ShelvesMatch m.shelves m.jobs };
}

/// Of two jobs that there may be, that of the least (priority, id).
pub fn more_urgent<'a>(
    one: Option<(u64, &'a Job)>,
    other: Option<(u64, &'a Job)>,
) -> Option<(u64, &'a Job)>
    ensures { option_map (λ e. (e.0, e.1.now)) result
        ≡ first_of pri_of_job (option_map (λ e. (e.0, e.1.now)) one.entry)
        (option_map (λ e. (e.0, e.1.now)) other.entry) }
{
    let Some((id, job)) = one else {
        return other;
    };
    match other {
        Some((other_id, other_job))
            if other_job.pri < job.pri || other_job.pri == job.pri && other_id < id => { other }
        _ => one,
    }
}

/// Puts a tube among the names, if it has jobs.
fn add_filled(names: &mut BTreeSet<Name>, tube: &Name, jobs: &Jobs) -> Result<(), AllocError>
    ensures added { AddsOnly (λ t. has_jobs t jobs.now.jobs ≡ true) names.old.keys names.new.keys }
    ensures there { OnOk result (has_jobs tube.now jobs.now.jobs ≡ true
        → In tube.now names.new.keys) }
{
    if !jobs.has_jobs(tube) {
        return Ok(());
    }
    add_name(names, tube)
}

/// Puts those of the tubes of a rack that have jobs among the names.
fn add_shelved<N: ShelfNumber>(
    names: &mut BTreeSet<Name>,
    rack: &Rack<Name, N>,
    jobs: &Jobs,
) -> Result<(), AllocError>
    ensures added { AddsOnly (λ t. has_jobs t jobs.now.jobs ≡ true) names.old.keys names.new.keys }
    ensures all { OnOk result ((tube : List ℕ) → has_jobs tube jobs.now.jobs ≡ true
        → In tube (keys_of rack.now.shelves.entries) → In tube names.new.keys) }
{
    for (tube, _) in &rack.shelves {
        add_filled(names, tube, jobs)?;
    }
    Ok(())
}

impl Jobs {
    /// The tube's reserved job of the least (due, id).
    fn first_reserved(&self, tube: &Name) -> Option<(u64, &Job)>
        ensures { FindsFirst (reserved_in tube.now) due_of_job self.now.jobs result }
    {
        self.shelves
            .reserved
            .first(tube, Label::Reserved(tube), self.jobs.by_id())
    }

    /// The ready jobs of a tube by (priority, id), if there are any. It can't be asked in a trial.
    pub fn ready(&self, tube: &Name) -> Option<&BTreeSet<(u32, u64)>>
        requires { self.now.before ≡ None }
        ensures some { IfSome result (λ places. AreReadyPlaces places.now.keys tube.now self.now.jobs) }
        ensures none { IsNone result ↔ NonePasses (ready_in (tube.now ∷ [])) self.now.jobs }
    {
        self.shelves.ready.places(tube)
    }
}

impl JobMap for Jobs {
    ghost entries = { λ m. m.jobs };

    ghost before = { λ m. m.before };

    fn new(alloc: Global) -> Self {
        Jobs {
            alloc,
            jobs: LoggedJobs::new(alloc),
            shelves: Shelves::new(alloc),
        }
    }

    fn copy(&self) -> Result<Self, AllocError> {
        let jobs = self.jobs.copy()?;
        let shelves = Shelves::of(self.alloc, jobs.by_id())?;
        Ok(Jobs {
            alloc: self.alloc,
            jobs,
            shelves,
        })
    }

    fn begin(&mut self) {
        sweep(&mut self.shelves, &self.jobs);
        self.jobs.begin();
    }

    fn commit(&mut self) {
        sweep(&mut self.shelves, &self.jobs);
        self.jobs.commit();
    }

    fn roll_back(&mut self) {
        self.jobs.roll_back();
        go_back(&mut self.shelves, &self.jobs);
    }

    fn by_id(&self) -> &BTreeMap<u64, StoredJob> {
        self.jobs.by_id()
    }

    fn get(&self, id: u64) -> Option<&Job> {
        self.jobs.get(id)
    }

    fn insert(&mut self, id: u64, job: Job) -> Result<(), AllocError> {
        let done = store(&mut self.shelves, &mut self.jobs, id, job);
        follow(&mut self.shelves, &self.jobs);
        done
    }

    fn set_state(&mut self, id: u64, state: State, mark: Mark) -> Result<(), AllocError> {
        let done = move_to_state(&mut self.shelves, &mut self.jobs, id, state, mark);
        follow(&mut self.shelves, &self.jobs);
        done
    }

    fn set(&mut self, id: u64, pri: u32, state: State, mark: Mark) -> Result<(), AllocError> {
        let change = Change {
            id,
            pri,
            state,
            mark,
        };
        let done = move_to(&mut self.shelves, &mut self.jobs, &change);
        follow(&mut self.shelves, &self.jobs);
        done
    }

    fn remove(&mut self, id: u64) -> Option<Job> {
        self.commit();
        let job = self.jobs.remove(id)?;
        let Job {
            tube,
            pri,
            ttr,
            body,
            state,
            history,
        } = job;
        let spot = Spot { tube, pri, state };
        self.shelves.clear_everywhere(id, &spot);
        let tube = spot.tube;
        Some(Job {
            tube,
            pri,
            ttr,
            body,
            state,
            history,
        })
    }

    fn best_ready(
        &self,
        tubes: &IndexSet<Name>,
        paused: &BTreeMap<Name, u64>,
    ) -> Option<(u64, &Job)> {
        // Gives the proof that the ids rise.
        let _ = &self.jobs;
        let mut best = None;
        for tube in tubes.iter() {
            if !paused.contains_key(tube) {
                best = more_urgent(best, self.first_ready(tube));
            }
        }
        best
    }

    fn first_ready(&self, tube: &Name) -> Option<(u64, &Job)> {
        self.shelves
            .ready
            .first(tube, Label::Ready(tube), self.jobs.by_id())
    }

    fn first_delayed(&self, tube: &Name) -> Option<(u64, &Job)> {
        self.shelves
            .delayed
            .first(tube, Label::Delayed(tube), self.jobs.by_id())
    }

    fn first_buried(&self, tube: &Name) -> Option<(u64, &Job)> {
        self.shelves
            .buried
            .first(tube, Label::Buried(tube), self.jobs.by_id())
    }

    fn due(&self, second: u64) -> Option<(u64, &Job)> {
        match self
            .shelves
            .scheduled
            .first(Label::Scheduled, self.jobs.by_id())
        {
            Some((id, job)) if job.state.is_due(second) => Some((id, job)),
            _ => None,
        }
    }

    fn due_after(&self, second: u64, place: (u64, u64)) -> Option<(u64, &Job)> {
        match self
            .shelves
            .scheduled
            .first_after(Label::Scheduled, self.jobs.by_id(), place)
        {
            Some((id, job)) if job.state.is_due(second) => Some((id, job)),
            _ => None,
        }
    }

    fn first_held(&self, session: u32) -> Option<(u64, &Job)> {
        self.shelves
            .held
            .first(&session, Label::Held(session), self.jobs.by_id())
    }

    fn has_jobs(&self, tube: &Name) -> bool {
        if self.first_ready(tube).is_some() {
            return true;
        }
        if self.first_delayed(tube).is_some() {
            return true;
        }
        if self.first_buried(tube).is_some() {
            return true;
        }
        self.first_reserved(tube).is_some()
    }

    fn tally_in(&self, tube: &Name) -> Tally {
        tally_in(&self.shelves, self.jobs.by_id(), tube)
    }

    fn tally_all(&self) -> Tally {
        tally_all(&self.shelves, self.jobs.by_id())
    }

    fn add_tubes(&self, names: &mut BTreeSet<Name>) -> Result<(), AllocError> {
        add_shelved(names, &self.shelves.ready, self)?;
        add_shelved(names, &self.shelves.delayed, self)?;
        add_shelved(names, &self.shelves.buried, self)?;
        add_shelved(names, &self.shelves.reserved, self)
    }
}
