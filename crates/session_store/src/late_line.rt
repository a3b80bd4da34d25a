ghost use Rattle.std.specs.Prelude.{◌≡◌, OnOk, IfSome, option_map};
ghost use Rattle.session_store.specs.Sessions.{first_waiting, with_wait_ended};
ghost use Rattle.session_store.specs.Lines.{HasAll, IsIn, AllStand, rank_place, stander_at};
ghost use Rattle.session_store.specs.LateLines.{StandsIfLate, HasLate, is_late};

use crate::place::{LinePlace, rank_place};
use crate::session::{SessionState, Wait};
use std::alloc::{AllocError, Global};
use std::collections::{BTreeMap, BTreeSet};

/// A line of sessions whose waits are over, by the ranks of these: whom a tick tells, one after the other. It may also
/// have places at which nobody stands any more.
#[derive(Drop)]
pub struct LateLine {
    places: BTreeSet<LinePlace>,
}

/// The session at a place, if it stands there and its wait is over at this second.
fn late_at<'a>(
    sessions: &'a BTreeMap<u32, SessionState>,
    second: u64,
    place: LinePlace,
) -> Option<(u32, &'a SessionState)>
    ensures { option_map (λ e. (e.0, e.1.now)) result
        ≡ stander_at (is_late second) sessions.now.entries place }
{
    let session = sessions.get(&place.session)?;
    if session.has_timed_out(second) && session.rank() == place.order {
        Some((place.session, session))
    } else {
        None
    }
}

impl LateLine {
    /// A line in which nobody stands.
    pub(crate) fn new(alloc: Global) -> LateLine {
        LateLine {
            places: BTreeSet::new(alloc),
        }
    }

    /// Puts a session in where it stands with this wait.
    pub(crate) fn join(&mut self, number: u32, wait: Option<Wait>) -> Result<(), AllocError>
        ensures grown { HasAll self.old.places self.new.places }
        ensures stands { OnOk result (IfSome (rank_place number wait) (IsIn self.new.places)) }
    {
        if let Some(place) = rank_place(number, wait) {
            self.places.insert(place)?;
        }
        Ok(())
    }

    /// Takes the first session out whose wait is over at this second, with all before it.
    pub(crate) fn next<'a>(
        &mut self,
        sessions: &'a BTreeMap<u32, SessionState>,
        second: u64,
    ) -> Option<(u32, &'a SessionState)>
        requires { AllStand (StandsIfLate second self.old) sessions.now.entries }
        ensures first { option_map (λ e. (e.0, e.1.now)) result
            ≡ first_waiting (is_late second) sessions.now.entries }
        ensures left { IfSome result (λ e.
            HasLate second self.new (with_wait_ended e.0 sessions.now.entries)) }
    {
        while let Some(place) = self.places.pop_first() {
            if let Some(found) = late_at(sessions, second, place) {
                return Some(found);
            }
        }
        None
    }
}
