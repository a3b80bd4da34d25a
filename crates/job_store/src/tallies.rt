ghost use Rattle.std.specs.Prelude.{◌≡◌};
ghost use Rattle.job_store.specs.Shelves.{HoldJobs};
ghost use Rattle.job_store.specs.Tallies.{tally_in, tally_all};

use crate::shelves::Shelves;
use crate::stored_job::StoredJob;
use crate::tally::Tally;
use bean_words::Name;
use std::collections::BTreeMap;

/// How many jobs of a tube are in each state. It goes over the jobs only where some are listed as ones that went: else
/// on each shelf there are just those that belong there.
pub fn tally_in(shelves: &Shelves, jobs: &BTreeMap<u64, StoredJob>, tube: &Name) -> Tally
    requires { HoldJobs shelves.now jobs.now.entries shelves.now.went.items }
    ensures { result ≡ tally_in tube.now jobs.now.entries }
{
    if !shelves.went.is_empty() {
        return Tally::in_tube(jobs, tube);
    }
    let ready = shelves.ready.count(tube);
    Tally {
        urgent: ready.low,
        ready: ready.all,
        reserved: shelves.reserved.count(tube).all,
        delayed: shelves.delayed.count(tube).all,
        buried: shelves.buried.count(tube).all,
    }
}

/// How many of all jobs are in each state. It goes over the jobs only where some are listed as ones that went, and else
/// over the tubes.
pub fn tally_all(shelves: &Shelves, jobs: &BTreeMap<u64, StoredJob>) -> Tally
    requires { HoldJobs shelves.now jobs.now.entries shelves.now.went.items }
    ensures { result ≡ tally_all jobs.now.entries }
{
    if !shelves.went.is_empty() {
        return Tally::of_all(jobs);
    }
    // Gives the proof that there are less than 2^63 jobs.
    let _ = jobs.len();
    let ready = shelves.ready.count_all();
    Tally {
        urgent: ready.low,
        ready: ready.all,
        reserved: shelves.reserved.count_all().all,
        delayed: shelves.delayed.count_all().all,
        buried: shelves.buried.count_all().all,
    }
}
