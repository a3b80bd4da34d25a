ghost use Rattle.std.specs.Prelude.{◌≡◌, ◌<◌, ℕ, IsSome, IfOk, OnOk, OnErr, IfSome, IfNone, option_map, option_copied};
ghost use Rattle.std.specs.Map.{keys_of};
ghost use Rattle.std.specs.BTreeSet.{IsLowerBound, IsEmpty, btree_set_len};
ghost use Rattle.job_store.specs.Least.{least};
ghost use Rattle.job_store.specs.LookUps.{pri_of_job};
ghost use Rattle.session_store.specs.Fronts.{AreFronts};
ghost use Rattle.bean_queue.specs.Woken.{has_taker};
ghost use Rattle.bean_queue.specs.Offers.{offer_cmp, is_takable, takable_at, next_beside, IsOffered, HasOffers, CoverTakable, OffersToo, OffersInstead, Withdraws};

use crate::waiting::has_taker;
use bean_words::Name;
use job_store::{Job, JobMap};
use pause_store::PauseDraft;
use session_store::{Fronts, SessionDraft};
use std::alloc::{AllocError, Global};
use std::collections::BTreeSet;

/// What tubes offer to the sessions that wait, while one job is given after another: each the first of its ready jobs,
/// by priority and id. Nobody begins to wait meanwhile, so a tube that has no taker any more isn't looked at again.
#[derive(Drop)]
pub struct Offers {
    places: BTreeSet<(u32, u64)>,
}

/// The job at an id, if its tube has a taker.
fn takable_at<'a, M: JobMap>(
    jobs: &'a M,
    sessions: &SessionDraft,
    pauses: &PauseDraft,
    fronts: &mut Fronts,
    id: u64,
) -> Option<&'a Job>
    requires { AreFronts fronts.old sessions.now.now }
    ensures job { option_copied result
        ≡ takable_at (has_taker (keys_of pauses.now.now.pauses) sessions.now.now) id
        (M.entries jobs.now) }
    ensures fronts { AreFronts fronts.new sessions.now.now }
{
    let job = jobs.get(id)?;
    if has_taker(sessions, pauses, &job.tube, fronts) {
        Some(job)
    } else {
        None
    }
}

impl Offers {
    /// No offers. They take no memory.
    fn new(alloc: Global) -> Offers
        ensures { (p : ℕ × ℕ) → IsOffered result p → ⊥ }
    {
        Offers {
            places: BTreeSet::new(alloc),
        }
    }

    /// Offers a job too, if there is one.
    fn add(&mut self, offer: Option<(u64, &Job)>) -> Result<(), AllocError>
        ensures ok { OnOk result
            (OffersToo self.old self.new (option_map (λ e. (e.0, e.1.now)) offer.entry)) }
        ensures err { OnErr result (IsSome offer.entry) }
    {
        if let Some((id, job)) = offer {
            self.places.insert((job.pri, id))?;
        }
        Ok(())
    }

    /// Offers no job at this place any more.
    fn withdraw(&mut self, place: (u32, u64))
        ensures withdrawn { Withdraws self.old self.new place }
        ensures fewer { IsOffered self.old place
            → btree_set_len self.new.places < btree_set_len self.old.places }
    {
        self.places.remove(&place);
    }

    /// The place of the most urgent offer.
    fn first(&self) -> Option<(u32, u64)>
        ensures offered { IfSome result (IsOffered self.now) }
        ensures least { IfSome result (IsLowerBound offer_cmp self.now.places) }
        ensures none { IfNone result (IsEmpty self.now.places) }
    {
        let place = self.places.first()?;
        Some(*place)
    }

    /// The most urgent of the ready jobs whose tubes have a taker. It stays on offer. Those of tubes that have none,
    /// which are found on the way, do not.
    pub fn next<'a, M: JobMap>(
        &mut self,
        jobs: &'a M,
        sessions: &SessionDraft,
        pauses: &PauseDraft,
        fronts: &mut Fronts,
    ) -> Option<(u64, &'a Job)>
        requires offers { HasOffers self.old
            (has_taker (keys_of pauses.now.now.pauses) sessions.now.now) (M.entries jobs.now) }
        requires fronts { AreFronts fronts.old sessions.now.now }
        ensures next { option_map (λ e. (e.0, e.1.now)) result
            ≡ least (is_takable (has_taker (keys_of pauses.now.now.pauses) sessions.now.now))
            pri_of_job (M.entries jobs.now) }
        ensures offers { HasOffers self.new
            (has_taker (keys_of pauses.now.now.pauses) sessions.now.now) (M.entries jobs.now) }
        ensures fronts { AreFronts fronts.new sessions.now.now }
    {
        // Gives the proof that the ids rise.
        let _ = jobs.by_id();
        'offers: while let Some(place) = self.first() {
            if let Some(job) = takable_at(jobs, sessions, pauses, fronts, place.1) {
                return Some((place.1, job));
            }
            self.withdraw(place);
        }
        None
    }

    /// Offers the next ready job of its tube, if there is one, in place of the job at this place.
    pub fn replace<M: JobMap>(&mut self, jobs: &M, place: (u32, u64)) -> Result<(), AllocError>
        ensures { OnOk result
            (OffersInstead self.old self.new place (next_beside place.1 (M.entries jobs.now))) }
    {
        self.withdraw(place);
        let Some(job) = jobs.get(place.1) else {
            return Ok(());
        };
        self.add(jobs.first_ready(&job.tube))
    }
}

/// What these tubes offer, among which are all that have a taker. It takes no memory where there is nothing to give.
pub fn offers_of<M: JobMap>(
    alloc: Global,
    jobs: &M,
    sessions: &SessionDraft,
    pauses: &PauseDraft,
    tubes: &[Name],
    fronts: &mut Fronts,
) -> Result<Offers, AllocError>
    requires all { CoverTakable tubes.now
        (has_taker (keys_of pauses.now.now.pauses) sessions.now.now) (M.entries jobs.now) }
    requires fronts { AreFronts fronts.old sessions.now.now }
    ensures offers { IfOk result (λ offers. HasOffers offers
        (has_taker (keys_of pauses.now.now.pauses) sessions.now.now) (M.entries jobs.now)) }
    ensures err { OnErr result
        (IsSome (least (is_takable (has_taker (keys_of pauses.now.now.pauses) sessions.now.now))
        pri_of_job (M.entries jobs.now))) }
    ensures fronts { AreFronts fronts.new sessions.now.now }
{
    let mut offers = Offers::new(alloc);
    for tube in tubes {
        if has_taker(sessions, pauses, tube, fronts) {
            offers.add(jobs.first_ready(tube))?;
        }
    }
    Ok(offers)
}
