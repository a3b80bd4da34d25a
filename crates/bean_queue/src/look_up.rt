ghost use Rattle.std.specs.Prelude.{◌≡◌};
ghost use Rattle.std.specs.Map.{keys_of};
ghost use Rattle.job_store.specs.LookUps.{is_among, not_paused};

use bean_words::Name;
use indexmap::IndexSet;
use job_store::{Job, StoredJob};
use std::collections::BTreeMap;

/// What is looked for among the jobs.
#[derive(Clone, Copy)]
pub enum LookUp<'a> {
    /// Ready, in one of these tubes that isn't paused.
    ReadyIn {
        tubes: &'a IndexSet<Name>,
        paused: &'a BTreeMap<Name, u64>,
    },
    /// Ready, in this tube.
    Ready(&'a Name),
    /// Delayed, in this tube.
    Delayed(&'a Name),
    /// Buried, in this tube.
    Buried(&'a Name),
    /// Delayed or reserved, and due at this second.
    Due(u64),
    /// Delayed or reserved, due at this second, and after this place by (due, id).
    DueAfter(u64, (u64, u64)),
    /// Reserved by this session.
    Held(u32),
}

/// Whether a tube is one of these, and isn't paused.
fn is_open(tubes: &IndexSet<Name>, paused: &BTreeMap<Name, u64>, tube: &Name) -> bool
    ensures { result
        ≡ is_among tube.now (not_paused (keys_of paused.now.entries) tubes.now.keys) }
{
    if paused.contains_key(tube) {
        return false;
    }
    tubes.contains(tube)
}

impl<'a> LookUp<'a> {
    ghost use Rattle.std.specs.Prelude.{option_map, Some, IfSome, IfNone};
    ghost use Rattle.job_store.specs.Least.{least, comes_before, first_of, IsLeast, NonePasses};
    ghost use Rattle.bean_queue.specs.Searches.{passes, look_up_number};

    /// Whether the job under this id is one that is looked for.
    fn passes(&self, id: u64, job: &Job) -> bool
        ensures { result ≡ passes self.now (id, job.now) }
    {
        match self {
            LookUp::ReadyIn { tubes, paused } => {
                job.state.is_ready() && is_open(tubes, paused, &job.tube)
            }
            LookUp::Ready(tube) => job.state.is_ready() && job.tube == **tube,
            LookUp::Delayed(tube) => job.state.is_delayed() && **tube == job.tube,
            LookUp::Buried(tube) => job.state.is_buried() && **tube == job.tube,
            LookUp::Due(second) => job.state.is_due(*second),
            LookUp::DueAfter(second, place) => {
                job.state.is_due(*second) && *place < (job.state.due(), id)
            }
            LookUp::Held(session) => job.state.is_held_by(*session),
        }
    }

    /// The number of which the least is looked for.
    fn number(&self, job: &Job) -> u64
        ensures { result ≡ look_up_number self.now job.now }
    {
        match self {
            LookUp::ReadyIn { .. } | LookUp::Ready(_) => u64::from(job.pri),
            LookUp::Delayed(_) | LookUp::Due(_) | LookUp::DueAfter(_, _) | LookUp::Held(_) => {
                job.state.due()
            }
            LookUp::Buried(_) => job.state.rank(),
        }
    }

    /// Whether the pair of number and id of the first of two entries is the smaller.
    fn comes_before(&self, a: (u64, &Job), b: (u64, &Job)) -> bool
        ensures { result ≡ comes_before (look_up_number self.now) (a.entry.0, a.entry.1.now)
            (b.entry.0, b.entry.1.now) }
    {
        let (number, other) = (self.number(a.1), self.number(b.1));
        number < other || number == other && a.0 < b.0
    }

    /// Of the least entry so far and one more, the one that comes first.
    fn first_of<'b>(&self, least: Option<(u64, &'b Job)>, other: (u64, &'b Job)) -> (u64, &'b Job)
        ensures { Some (result.0, result.1.now)
            ≡ first_of (look_up_number self.now) (option_map (λ e. (e.0, e.1.now)) least.entry)
            (Some (other.entry.0, other.entry.1.now)) }
    {
        match least {
            Some(least) if !self.comes_before(other, least) => least,
            _ => other,
        }
    }

    /// The entry with the least pair of number and id among those that are looked for.
    pub fn least<'b>(&self, jobs: &'b BTreeMap<u64, StoredJob>) -> Option<(u64, &'b Job)>
        ensures job { option_map (λ e. (e.0, e.1.now)) result
            ≡ least (passes self.now) (look_up_number self.now) jobs.now.entries }
        ensures found { IfSome result
            (λ e. IsLeast (passes self.now) (look_up_number self.now) jobs.now.entries (e.0, e.1.now)) }
        ensures none { IfNone result (NonePasses (passes self.now) jobs.now.entries) }
    {
        let mut least = None;
        for (id, stored) in jobs {
            let job = stored.as_job();
            if self.passes(*id, job) {
                least = Some(self.first_of(least, (*id, job)));
            }
        }
        least
    }
}
