ghost use Rattle.std.specs.Prelude.{◌≡◌, IfOk, OnOk, OnErr, IfSome, IsSome, option_map};
ghost use Rattle.session_store.specs.Sessions.{first_waiting, session_of};
ghost use Rattle.session_store.specs.Lines.{AllStand, StillStand, HasAll, IsIn, StandsByTimeOut, over_at, time_out_place};
ghost use Rattle.session_store.specs.LateLines.{HasLate, is_late};

use crate::late_line::LateLine;
use crate::place::{LinePlace, time_out_place};
use crate::session::{SessionState, Wait};
use std::alloc::{AllocError, Global};
use std::collections::{BTreeMap, BTreeSet};

/// The line of the sessions whose waits end, by the second in which they do. It may also have places at which nobody
/// stands any more.
#[derive(Drop)]
pub(crate) struct TimeOuts {
    line: BTreeSet<LinePlace>,
}

/// The session at a place, if its wait is over at this second.
fn over_at<'a>(
    sessions: &'a BTreeMap<u32, SessionState>,
    second: u64,
    place: LinePlace,
) -> Option<(u32, &'a SessionState)>
    ensures { option_map (λ e. (e.0, e.1.now)) result
        ≡ over_at second sessions.now.entries place }
{
    let session = sessions.get(&place.session)?;
    if session.has_timed_out(second) {
        Some((place.session, session))
    } else {
        None
    }
}

/// The wait of a session, if it is there and waits.
pub(crate) fn wait_of(sessions: &BTreeMap<u32, SessionState>, number: u32) -> Option<Wait>
    ensures { result ≡ (session_of number sessions.now.entries).wait }
{
    match sessions.get(&number) {
        Some(session) => session.wait,
        None => None,
    }
}

impl TimeOuts {
    /// A line in which nobody stands.
    pub fn new(alloc: Global) -> TimeOuts {
        TimeOuts {
            line: BTreeSet::new(alloc),
        }
    }

    /// Puts a session in where it is to stand with this wait.
    pub fn join(&mut self, number: u32, wait: Option<Wait>) -> Result<(), AllocError>
        ensures grown { HasAll self.old.line self.new.line }
        ensures stands { OnOk result (IfSome (time_out_place number wait) (IsIn self.new.line)) }
    {
        if let Some(place) = time_out_place(number, wait) {
            self.line.insert(place)?;
        }
        Ok(())
    }

    /// Takes a session out where it stood with this wait, unless it still stands there.
    pub fn leave(&mut self, sessions: &BTreeMap<u32, SessionState>, number: u32, wait: Option<Wait>)
        ensures { StillStand (StandsByTimeOut self.old) (StandsByTimeOut self.new) sessions.now.entries }
    {
        let standing = wait_of(sessions, number);
        if let Some(place) = time_out_place(number, wait)
            && time_out_place(number, standing) != Some(place)
        {
            self.line.remove(&place);
        }
    }

    /// A line of the sessions whose waits are over at this second. It takes no memory where there is none.
    pub fn late(
        &self,
        alloc: Global,
        sessions: &BTreeMap<u32, SessionState>,
        second: u64,
    ) -> Result<LateLine, AllocError>
        requires { AllStand (StandsByTimeOut self.now) sessions.now.entries }
        ensures ok { IfOk result (λ late. HasLate second late sessions.now.entries) }
        ensures err { OnErr result (IsSome (first_waiting (is_late second) sessions.now.entries)) }
    {
        let last = LinePlace {
            order: second,
            session: u32::MAX,
        };
        let mut late = LateLine::new(alloc);
        for place in self.line.range(..=last) {
            if let Some((number, session)) = over_at(sessions, second, *place) {
                late.join(number, session.wait)?;
            }
        }
        Ok(late)
    }
}
