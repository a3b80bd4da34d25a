ghost use Rattle.std.specs.Prelude.{◌≡◌, ◌^◌, ℕ, List, IfSome, IfNone};
ghost use Rattle.object.specs.Lists.{In};
ghost use Rattle.job_store.specs.declared.job.Job.{Job};
ghost use Rattle.job_store.specs.Entries.{Rising};
ghost use Rattle.job_store.specs.Shelves.{belongs, number, belongs_at, BelongsAt};

use crate::job::Job;
use crate::state::State;
use crate::stored_job::StoredJob;
use bean_words::Name;
use std::collections::BTreeMap;

/// Which jobs stand on a shelf.
#[derive(Clone, Copy)]
pub enum Label<'a> {
    /// Those that are ready in this tube, by priority.
    Ready(&'a Name),
    /// Those that are delayed in this tube, by the second in which they are due.
    Delayed(&'a Name),
    /// Those that are buried in this tube, by rank.
    Buried(&'a Name),
    /// Those that this session has, by the second in which they are due.
    Held(u32),
    /// All that are delayed or reserved, by the second in which they are due.
    Scheduled,
    /// Those that sessions have in this tube, by the second in which they are due.
    Reserved(&'a Name),
}

impl<'a> Label<'a> {
    /// Whether a job of this tube and in this state stands on the shelf.
    pub fn fits(&self, tube: &Name, state: State) -> bool
        ensures { (id : ℕ) (job : Job) → job.tube ≡ tube.now → job.state ≡ state
            → result ≡ belongs self.now (id, job) }
    {
        match self {
            Label::Ready(own) => state.is_ready() && *own == tube,
            Label::Delayed(own) => state.is_delayed() && *own == tube,
            Label::Buried(own) => state.is_buried() && *own == tube,
            Label::Held(session) => state.is_held_by(*session),
            Label::Scheduled => state.is_scheduled(),
            Label::Reserved(own) => state.is_reserved() && *own == tube,
        }
    }

    /// The number by which the shelf is ordered, of a job of this priority and in this state.
    pub fn number(&self, pri: u32, state: State) -> u64
        ensures { (job : Job) → job.pri ≡ pri → job.state ≡ state
            → result ≡ number self.now job }
    {
        match self {
            Label::Ready(_) => u64::from(pri),
            Label::Buried(_) => state.rank(),
            Label::Delayed(_) | Label::Held(_) | Label::Scheduled | Label::Reserved(_) => {
                state.due()
            }
        }
    }

    /// Whether the job, under whatever id, belongs on the shelf at a place with this number.
    pub fn fits_at(&self, job: &Job, number: u64) -> bool
        ensures { (id : ℕ) → result ≡ belongs_at self.now (number, id) (id, job.now) }
    {
        self.fits(&job.tube, job.state) && self.number(job.pri, job.state) == number
    }

    /// The job that belongs at this place of the shelf, as the map has it.
    pub fn job_at<'b>(
        &self,
        jobs: &'b BTreeMap<u64, StoredJob>,
        number: u64,
        id: u64,
    ) -> Option<&'b Job>
        requires { Rising 0 (2 ^ 64) jobs.now.entries }
        ensures found { IfSome result (λ job. In (id, job.now) jobs.now.entries
            × BelongsAt self.now (number, id) (id, job.now)) }
        ensures none { IfNone result ((e : ℕ × Job) → In e jobs.now.entries
            → BelongsAt self.now (number, id) e → ⊥) }
    {
        match jobs.get(&id) {
            Some(stored) if self.fits_at(stored.as_job(), number) => Some(stored.as_job()),
            _ => None,
        }
    }
}
