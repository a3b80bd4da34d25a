ghost use Rattle.std.specs.Prelude.{◌≡◌, ◌^◌, ℕ, true, IfOk, OnOk, OnErr, IfSome, option_map};
ghost use Rattle.job_store.specs.Entries.{Rising, value_at};
ghost use Rattle.session_store.specs.Sessions.{first_waiting, is_waiting, wait_rank, with_wait_ended};
ghost use Rattle.bean_queue.specs.Queue.{holds_by};
ghost use Rattle.bean_queue.specs.Holders.{waits_at};
ghost use Rattle.bean_queue.specs.HolderLines.{holder_at, HasAllHolders, HaveJoined, IsInLine, IsSomeWaiter};

use crate::deadlines::holds_by;
use job_store::JobMap;
use session_store::SessionState;
use std::alloc::{AllocError, Global};
use std::collections::{BTreeMap, BTreeSet};

/// A line of sessions that wait and have a job that is due soon, by the ranks of their waits: whom a tick tells, one
/// after the other.
#[derive(Drop)]
pub struct HolderLine {
    places: BTreeSet<(u64, u32)>,
}

/// The session at a place, if it waits there and has a job that is due by this second.
fn holder_at<'a, M: JobMap>(
    jobs: &M,
    sessions: &'a BTreeMap<u32, SessionState>,
    second: u64,
    place: (u64, u32),
) -> Option<(u32, &'a SessionState)>
    ensures { option_map (λ e. (e.0, e.1.now)) result
        ≡ holder_at second (M.entries jobs.now) sessions.now.entries place }
{
    let session = sessions.get(&place.1)?;
    let wait = session.wait?;
    if wait.rank == place.0 && holds_by(jobs, place.1, second) {
        Some((place.1, session))
    } else {
        None
    }
}

impl HolderLine {
    /// A line in which nobody stands.
    fn new(alloc: Global) -> HolderLine {
        HolderLine {
            places: BTreeSet::new(alloc),
        }
    }

    /// Puts the session of this number in, if it waits.
    fn join(
        &mut self,
        sessions: &BTreeMap<u32, SessionState>,
        number: u32,
    ) -> Result<(), AllocError>
        ensures grown { (p : ℕ × ℕ) → IsInLine self.old p → IsInLine self.new p }
        ensures stands { OnOk result (IfSome (value_at number sessions.now.entries)
            (λ c. is_waiting c ≡ true → IsInLine self.new (wait_rank c, number))) }
        ensures same { OnErr result ((p : ℕ × ℕ) → IsInLine self.new p → IsInLine self.old p) }
        ensures err { OnErr result (waits_at sessions.now.entries number ≡ true) }
    {
        let Some(session) = sessions.get(&number) else {
            return Ok(());
        };
        let Some(wait) = session.wait else {
            return Ok(());
        };
        self.places.insert((wait.rank, number))?;
        Ok(())
    }

    /// A line of those of these sessions that wait. It takes no memory where none does.
    pub fn of(
        alloc: Global,
        sessions: &BTreeMap<u32, SessionState>,
        numbers: &[u32],
    ) -> Result<HolderLine, AllocError>
        requires { Rising 0 (2 ^ 32) sessions.now.entries }
        ensures joined { IfOk result (λ line. HaveJoined line numbers.now sessions.now.entries) }
        ensures err { OnErr result (IsSomeWaiter numbers.now sessions.now.entries) }
    {
        let mut line = HolderLine::new(alloc);
        for number in numbers {
            line.join(sessions, *number)?;
        }
        Ok(line)
    }

    /// Takes the first session out that waits and has a job due by this second, with all before it.
    pub fn next<'a, M: JobMap>(
        &mut self,
        jobs: &M,
        sessions: &'a BTreeMap<u32, SessionState>,
        second: u64,
    ) -> Option<(u32, &'a SessionState)>
        requires rising { Rising 0 (2 ^ 32) sessions.now.entries }
        requires all { HasAllHolders self.old second (M.entries jobs.now) sessions.now.entries }
        ensures first { option_map (λ e. (e.0, e.1.now)) result
            ≡ first_waiting (λ e. holds_by e.0 second (M.entries jobs.now)) sessions.now.entries }
        ensures left { IfSome result (λ e. HasAllHolders self.new second (M.entries jobs.now)
            (with_wait_ended e.0 sessions.now.entries)) }
    {
        'places: while let Some(place) = self.places.pop_first() {
            if let Some(found) = holder_at(jobs, sessions, second, place) {
                return Some(found);
            }
        }
        None
    }
}
