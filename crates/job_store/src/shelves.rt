ghost use Rattle.std.specs.Prelude.{◌≡◌, ◌^◌, ◌++◌, ◌∷◌, [], ℕ, List, OnOk, IfOk, Some, true, false};
ghost use Rattle.object.specs.Lists.{In};
ghost use Rattle.job_store.specs.declared.job.Job.{Job};
ghost use Rattle.job_store.specs.declared.label.Label.{Label};
ghost use Rattle.job_store.specs.declared.spot.Spot.{Spot};
ghost use Rattle.job_store.specs.Entries.{Rising, value_at};
ghost use Rattle.job_store.specs.ShelfStates.{bare, IsFrom, IsFound};
ghost use Rattle.job_store.specs.Spots.{spot_of, changed_spot, at_spot};
ghost use Rattle.job_store.specs.Shelves.{shelf, places, lists, belongs, BelongsAt, IsAhead, AreAhead, IsAlone, LacksJob, LacksPlace, AreInReach, HoldJobs, AreSwept, CanGoBack, IsGone, BeginNoLater, HasPut, HasTaken, HasGoneBack, HasSettled, HasCome, IsListed, ListsMore, PutsInDoubt, HasCaughtUp};

use crate::job::Job;
use crate::label::Label;
use crate::rack::Rack;
use crate::shelf::Shelf;
use crate::spot::Spot;
use crate::state::State;
use crate::stored_job::StoredJob;
use bean_words::Name;
use object::Value;
use std::alloc::{AllocError, Global};
use std::collections::BTreeMap;
use std::mem::swap;

/// The shelves that jobs stand on, in the orders in which they are looked for.
///
/// A change of a job only adds places, and lists the job as it comes and as it went. Then look-ups begin after the
/// places that it has left, as far as they are the first ones. `sweep` takes out the places of those that went, and
/// `go_back` of those that came.
#[derive(Drop)]
pub struct Shelves {
    pub ready: Rack<Name, u32>,
    pub delayed: Rack<Name, u64>,
    pub buried: Rack<Name, u64>,
    pub held: Rack<u32, u64>,
    pub scheduled: Shelf<u64>,
    pub reserved: Rack<Name, u64>,
    /// Where the changes of a trial are taken back, the places of these jobs go.
    pub came: Vec<(u64, Spot)>,
    /// Where the changes of a trial stay, the places of these jobs go.
    pub went: Vec<(u64, Spot)>,
}

impl Shelves {
    /// Shelves where nothing stands.
    pub fn new(alloc: Global) -> Shelves
        ensures shelves { (label : Label) → shelf result label ≡ bare }
        ensures listed { lists result ≡ ([], []) }
    {
        Shelves {
            ready: Rack::new(alloc),
            delayed: Rack::new(alloc),
            buried: Rack::new(alloc),
            held: Rack::new(alloc),
            scheduled: Shelf::new(alloc),
            reserved: Rack::new(alloc),
            came: Vec::new(alloc),
            went: Vec::new(alloc),
        }
    }

    /// Shelves where these jobs stand, and nothing else.
    pub fn of(alloc: Global, jobs: &BTreeMap<u64, StoredJob>) -> Result<Shelves, AllocError>
        requires { Rising 0 (2 ^ 64) jobs.now.entries }
        ensures { IfOk result (λ s. AreSwept s jobs.now.entries) }
    {
        let mut shelves = Shelves::new(alloc);
        for (id, stored) in jobs {
            let spot = Spot::of(stored.as_job())?;
            shelves.put_everywhere(*id, &spot)?;
        }
        Ok(shelves)
    }

    /// Puts a job onto the shelf with this label, if it belongs there.
    fn put_on(&mut self, label: Label, id: u64, spot: &Spot) -> Result<(), AllocError>
        ensures ok { OnOk result ((p : ℕ × ℕ) → BelongsAt label.entry p (id, at_spot spot.now)
            → IsFound (shelf self.new label.entry) p) }
        ensures put { HasPut self.old self.new (id, at_spot spot.now) }
    {
        if !label.fits(&spot.tube, spot.state) {
            return Ok(());
        }
        let number = label.number(spot.pri, spot.state);
        match label {
            Label::Ready(tube) => self.ready.put(tube, spot.pri, id),
            Label::Delayed(tube) => self.delayed.put(tube, number, id),
            Label::Buried(tube) => self.buried.put(tube, number, id),
            Label::Held(session) => self.held.put(&session, number, id),
            Label::Scheduled => self.scheduled.put(number, id),
            Label::Reserved(tube) => self.reserved.put(tube, number, id),
        }
    }

    /// Lets look-ups of the shelf with this label begin at the place of a job, if they begin after it.
    fn reach_on(&mut self, label: Label, id: u64, spot: &Spot)
        ensures back { HasGoneBack self.old self.new }
        ensures reached { (p : ℕ × ℕ) → BelongsAt label.entry p (id, at_spot spot.now)
            → IsFrom (shelf self.new label.entry).from p }
    {
        if !label.fits(&spot.tube, spot.state) {
            return;
        }
        let number = label.number(spot.pri, spot.state);
        match label {
            Label::Ready(tube) => self.ready.reach(tube, spot.pri, id),
            Label::Delayed(tube) => self.delayed.reach(tube, number, id),
            Label::Buried(tube) => self.buried.reach(tube, number, id),
            Label::Held(session) => self.held.reach(&session, number, id),
            Label::Scheduled => self.scheduled.reach(number, id),
            Label::Reserved(tube) => self.reserved.reach(tube, number, id),
        }
    }

    /// Whether look-ups of the shelf with this label begin after the place of a job.
    fn is_behind(&self, label: Label, id: u64, spot: &Spot) -> bool
        ensures { result ≡ true → (p : ℕ × ℕ) → BelongsAt label.entry p (id, at_spot spot.now)
            → IsFrom (shelf self.now label.entry).from p → ⊥ }
    {
        let number = label.number(spot.pri, spot.state);
        match label {
            Label::Ready(tube) => self.ready.is_behind(tube, spot.pri, id),
            Label::Delayed(tube) => self.delayed.is_behind(tube, number, id),
            Label::Buried(tube) => self.buried.is_behind(tube, number, id),
            Label::Held(session) => self.held.is_behind(&session, number, id),
            Label::Scheduled => self.scheduled.is_behind(number, id),
            Label::Reserved(tube) => self.reserved.is_behind(tube, number, id),
        }
    }

    /// Whether the map has a job that belongs on the shelf with this label at the place of a job. Where look-ups begin
    /// after it there is none, and the map isn't looked at.
    fn is_taken(&self, label: Label, jobs: &BTreeMap<u64, StoredJob>, id: u64, spot: &Spot) -> bool
        requires { AreInReach self.now jobs.now.entries }
        ensures yes { result ≡ true → (p : ℕ × ℕ) → BelongsAt label.entry p (id, at_spot spot.now)
            → ((e : ℕ × Job) × BelongsAt label.entry p e × In e jobs.now.entries) }
        ensures no { result ≡ false
            → IsAlone label.entry jobs.now.entries (id, at_spot spot.now) }
    {
        if self.is_behind(label, id, spot) {
            return false;
        }
        let number = label.number(spot.pri, spot.state);
        label.job_at(jobs, number, id).is_some()
    }

    /// Takes a job from the shelf with this label, where it belongs.
    fn take_off(&mut self, label: Label, id: u64, spot: &Spot)
        requires { belongs label (id, at_spot spot.now) ≡ true }
        ensures taken { (jobs : List (ℕ × Job)) → AreAhead self.old jobs
            → IsAlone label.entry jobs (id, at_spot spot.now) → HasTaken self.old self.new jobs }
        ensures gone { LacksPlace self.new (id, at_spot spot.now) label.entry }
    {
        let number = label.number(spot.pri, spot.state);
        match label {
            Label::Ready(tube) => self.ready.take(tube, spot.pri, id),
            Label::Delayed(tube) => self.delayed.take(tube, number, id),
            Label::Buried(tube) => self.buried.take(tube, number, id),
            Label::Held(session) => self.held.take(&session, number, id),
            Label::Scheduled => self.scheduled.take(number, id),
            Label::Reserved(tube) => self.reserved.take(tube, number, id),
        }
    }

    /// Takes a job from the shelf with this label, unless the map has a job that belongs there.
    fn take_from(&mut self, label: Label, jobs: &BTreeMap<u64, StoredJob>, id: u64, spot: &Spot)
        requires { AreInReach self.old jobs.now.entries }
        ensures taken { HasTaken self.old self.new jobs.now.entries }
        ensures gone { IsGone self.new jobs.now.entries (id, at_spot spot.now) label.entry }
    {
        if !label.fits(&spot.tube, spot.state) {
            return;
        }
        if self.is_taken(label, jobs, id, spot) {
            return;
        }
        self.take_off(label, id, spot);
    }

    /// Takes a job from the shelf with this label, where the map has no job of its id.
    fn clear_from(&mut self, label: Label, id: u64, spot: &Spot)
        ensures taken { (jobs : List (ℕ × Job)) → AreAhead self.old jobs → LacksJob id jobs
            → HasTaken self.old self.new jobs }
        ensures gone { LacksPlace self.new (id, at_spot spot.now) label.entry }
    {
        if label.fits(&spot.tube, spot.state) {
            self.take_off(label, id, spot);
        }
    }

    /// Puts a job onto the shelves where it belongs.
    fn put_everywhere(&mut self, id: u64, spot: &Spot) -> Result<(), AllocError>
        ensures come { OnOk result (HasCome self.new (id, at_spot spot.now)) }
        ensures put { HasPut self.old self.new (id, at_spot spot.now) }
    {
        self.put_on(Label::Ready(&spot.tube), id, spot)?;
        self.put_on(Label::Delayed(&spot.tube), id, spot)?;
        self.put_on(Label::Buried(&spot.tube), id, spot)?;
        self.put_on(Label::Held(spot.state.holder()), id, spot)?;
        self.put_on(Label::Scheduled, id, spot)?;
        self.put_on(Label::Reserved(&spot.tube), id, spot)?;
        Ok(())
    }

    /// Lets look-ups of each shelf where a job belongs begin at its place, if they begin after it.
    fn reach_everywhere(&mut self, id: u64, spot: &Spot)
        ensures back { HasGoneBack self.old self.new }
        ensures ahead { IsAhead self.new (id, at_spot spot.now) }
    {
        self.reach_on(Label::Ready(&spot.tube), id, spot);
        self.reach_on(Label::Delayed(&spot.tube), id, spot);
        self.reach_on(Label::Buried(&spot.tube), id, spot);
        self.reach_on(Label::Held(spot.state.holder()), id, spot);
        self.reach_on(Label::Scheduled, id, spot);
        self.reach_on(Label::Reserved(&spot.tube), id, spot);
    }

    /// Takes a job from its shelves, but for places where the map has a job that belongs there.
    fn take_everywhere(&mut self, jobs: &BTreeMap<u64, StoredJob>, id: u64, spot: &Spot)
        requires { AreInReach self.old jobs.now.entries }
        ensures taken { HasTaken self.old self.new jobs.now.entries }
        ensures gone { (label : Label)
            → IsGone self.new jobs.now.entries (id, at_spot spot.now) label }
    {
        self.take_from(Label::Ready(&spot.tube), jobs, id, spot);
        self.take_from(Label::Delayed(&spot.tube), jobs, id, spot);
        self.take_from(Label::Buried(&spot.tube), jobs, id, spot);
        self.take_from(Label::Held(spot.state.holder()), jobs, id, spot);
        self.take_from(Label::Scheduled, jobs, id, spot);
        self.take_from(Label::Reserved(&spot.tube), jobs, id, spot);
    }

    /// Takes a job from its shelves, where the map has no job of its id. The map isn't looked at.
    pub fn clear_everywhere(&mut self, id: u64, spot: &Spot)
        ensures taken { (jobs : List (ℕ × Job)) → AreAhead self.old jobs → LacksJob id jobs
            → HasTaken self.old self.new jobs }
        ensures gone { (label : Label) → LacksPlace self.new (id, at_spot spot.now) label }
    {
        self.clear_from(Label::Ready(&spot.tube), id, spot);
        self.clear_from(Label::Delayed(&spot.tube), id, spot);
        self.clear_from(Label::Buried(&spot.tube), id, spot);
        self.clear_from(Label::Held(spot.state.holder()), id, spot);
        self.clear_from(Label::Scheduled, id, spot);
        self.clear_from(Label::Reserved(&spot.tube), id, spot);
    }

    /// Lists a job as one that went.
    fn leave(&mut self, id: u64, job: &Job) -> Result<(), AllocError>
        ensures more { ListsMore self.old self.new }
        ensures ok { OnOk result (self.new.went.items
            ≡ self.old.went.items ++ (id, spot_of job.now) ∷ []) }
    {
        self.went.push((id, Spot::of(job)?))?;
        Ok(())
    }

    /// Lists the job that the map has at an id, if there is one, as one that went.
    pub fn leave_at(&mut self, jobs: &BTreeMap<u64, StoredJob>, id: u64) -> Result<(), AllocError>
        ensures more { ListsMore self.old self.new }
        ensures ok { OnOk result ((job : Job) → value_at id jobs.now.entries ≡ Some job
            → IsListed self.new.went.items (id, job)) }
    {
        if let Some(stored) = jobs.get(&id) {
            self.leave(id, stored.as_job())?;
        }
        Ok(())
    }

    /// Lists a job both as one that came and as one that went.
    fn list(&mut self, id: u64, spot: &Spot) -> Result<(), AllocError>
        ensures more { ListsMore self.old self.new }
        ensures came { OnOk result (self.new.came.items ≡ self.old.came.items ++ (id, spot.now) ∷ []) }
        ensures went { OnOk result (self.new.went.items ≡ self.old.went.items ++ (id, spot.now) ∷ []) }
    {
        self.came.push((id, spot.copy()?))?;
        self.went.push((id, spot.copy()?))?;
        Ok(())
    }

    /// Puts a job onto the shelves where it belongs, and lists it as one that came. Until `keep_last` says that it stays
    /// it is listed as one that went, too.
    pub fn put(&mut self, id: u64, spot: Spot) -> Result<(), AllocError>
        ensures put { PutsInDoubt self.old self.new (id, at_spot spot) result }
        ensures went { OnOk result (self.new.went.items ≡ self.old.went.items ++ (id, spot) ∷ []) }
    {
        self.list(id, &spot)?;
        self.put_everywhere(id, &spot)?;
        Ok(())
    }

    /// Puts a job, as it is after a change, onto the shelves where it belongs, and lists it as it was as one that went.
    pub fn put_changed(
        &mut self,
        id: u64,
        job: &Job,
        pri: u32,
        state: State,
    ) -> Result<(), AllocError>
        ensures put { PutsInDoubt self.old self.new
            (id, at_spot (changed_spot pri state job.now)) result }
        ensures went { OnOk result (self.new.went.items
            ≡ (self.old.went.items ++ (id, spot_of job.now) ∷ [])
            ++ (id, changed_spot pri state job.now) ∷ []) }
    {
        let tube = job.tube.copy()?;
        self.leave(id, job)?;
        self.put(id, Spot { tube, pri, state })?;
        Ok(())
    }

    /// The job that was put last stays: it isn't listed as one that went any more.
    pub fn keep_last(&mut self)
        ensures shelves { (label : Label) → shelf self.new label ≡ shelf self.old label }
        ensures came { self.new.came.items ≡ self.old.came.items }
        ensures went { (items : List (ℕ × Spot)) (last : ℕ × Spot)
            → self.old.went.items ≡ items ++ last ∷ [] → self.new.went.items ≡ items }
    {
        self.went.pop();
    }

    /// Lets look-ups begin after the places that were left, on the shelves where the job stood that went last.
    fn settle(&mut self, jobs: &BTreeMap<u64, StoredJob>)
        requires { Rising 0 (2 ^ 64) jobs.now.entries }
        ensures { HasSettled self.old self.new jobs.now.entries }
    {
        let Some((id, spot)) = self.went.last() else {
            return;
        };
        let id = *id;
        let tube = &spot.tube;
        match spot.state {
            State::Ready => self
                .ready
                .settle(tube, Label::Ready(tube), jobs, spot.pri, id),
            State::Buried { rank } => self
                .buried
                .settle(tube, Label::Buried(tube), jobs, rank, id),
            State::Delayed { due } => {
                self.delayed
                    .settle(tube, Label::Delayed(tube), jobs, due, id);
                self.scheduled.settle(Label::Scheduled, jobs, due, id);
            }
            State::Reserved { session, due } => {
                self.held
                    .settle(&session, Label::Held(session), jobs, due, id);
                self.scheduled.settle(Label::Scheduled, jobs, due, id);
                self.reserved
                    .settle(tube, Label::Reserved(tube), jobs, due, id);
            }
        }
    }

    /// Lets look-ups find the jobs that went, and lists them no more.
    fn reach_all(&mut self)
        ensures places { (label : Label) → places self.new label ≡ places self.old label }
        ensures ahead { BeginNoLater self.old self.new }
        ensures reached { (e : ℕ × Job) → IsListed self.old.went.items e → IsAhead self.new e }
        ensures came { self.new.came.items ≡ self.old.came.items }
        ensures went { self.new.went.items ≡ [] }
    {
        while let Some((id, spot)) = self.went.pop() {
            self.reach_everywhere(id, &spot);
        }
    }

    /// Takes out the places of the jobs that went, but for those where the map has a job, and lists none.
    pub fn sweep(&mut self, jobs: &BTreeMap<u64, StoredJob>)
        requires { HoldJobs self.old jobs.now.entries self.old.went.items }
        ensures { AreSwept self.new jobs.now.entries }
    {
        self.came.clear();
        while let Some((id, spot)) = self.went.pop() {
            self.take_everywhere(jobs, id, &spot);
        }
    }

    /// After the changes of a trial were taken back: look-ups find the jobs that went, the places go of those that came,
    /// but for those where the map has a job, and none is listed.
    pub fn go_back(&mut self, jobs: &BTreeMap<u64, StoredJob>)
        requires rising { Rising 0 (2 ^ 64) jobs.now.entries }
        requires back { CanGoBack self.old jobs.now.entries }
        ensures { AreSwept self.new jobs.now.entries }
    {
        self.reach_all();
        swap(&mut self.came, &mut self.went);
        self.sweep(jobs);
    }

    /// After a change of a job: in a trial look-ups begin after the places that it has left, and else those go.
    pub fn follow(&mut self, jobs: &BTreeMap<u64, StoredJob>, is_trial: bool)
        requires { HoldJobs self.old jobs.now.entries self.old.went.items }
        ensures { HasCaughtUp is_trial self.old self.new jobs.now.entries }
    {
        if is_trial {
            self.settle(jobs);
        } else {
            self.sweep(jobs);
        }
    }
}
