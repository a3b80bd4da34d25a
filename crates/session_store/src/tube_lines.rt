ghost use Rattle.std.specs.Prelude.{◌≡◌, ℕ, List, [], IsTrue, true, OnOk, IfSome, option_map, filter_map, slice_get};
ghost use Rattle.std.specs.BTreeSet.{IsOrdered};
ghost use Rattle.job_store.specs.LookUps.{is_among};
ghost use Rattle.session_store.specs.Sessions.{first_waiting};
ghost use Rattle.session_store.specs.declared.place.LinePlace.{LinePlace};
ghost use Rattle.session_store.specs.Lines.{AllStand, StillStand, HasAll, IsIn, StandsByTubes, tube_line, line_cmp, rank_place, line_from, waiter_at};
ghost use Rattle.session_store.specs.Fronts.{AreFronts};

use crate::fronts::Fronts;
use crate::place::{LinePlace, rank_place};
use crate::session::{SessionState, Wait};
use bean_words::Name;
use object::Value;
use std::alloc::{AllocError, Global};
use std::collections::{BTreeMap, BTreeSet};

/// For each tube the line of the sessions that wait for a job of it, by their ranks. A line may also have places at
/// which nobody stands any more.
#[derive(Drop)]
pub(crate) struct TubeLines {
    alloc: Global,
    lines: BTreeMap<Name, BTreeSet<LinePlace>>,
}

/// The session at a place, if it waits there for a job of the tube.
fn waiter_at<'a>(
    sessions: &'a BTreeMap<u32, SessionState>,
    tube: &Name,
    place: LinePlace,
) -> Option<(u32, &'a SessionState)>
    ensures { option_map (λ e. (e.0, e.1.now)) result
        ≡ waiter_at tube.now sessions.now.entries place }
{
    let session = sessions.get(&place.session)?;
    if session.waits_for(tube) && session.rank() == place.order {
        Some((place.session, session))
    } else {
        None
    }
}

/// The first session in a line that stands there, from a place on.
fn first_standing<'a>(
    line: &BTreeSet<LinePlace>,
    front: LinePlace,
    sessions: &'a BTreeMap<u32, SessionState>,
    tube: &Name,
) -> Option<(u32, &'a SessionState)>
    ensures first { option_map (λ e. (e.0, e.1.now)) result
        ≡ slice_get (filter_map (waiter_at tube.now sessions.now.entries)
        (line_from front line.now)) 0 }
    ensures ordered { IsOrdered line_cmp line.now }
{
    for place in line.range(front..) {
        if let Some(found) = waiter_at(sessions, tube, *place) {
            return Some(found);
        }
    }
    None
}

impl TubeLines {
    /// No lines.
    pub fn new(alloc: Global) -> TubeLines {
        TubeLines {
            alloc,
            lines: BTreeMap::new(alloc),
        }
    }

    /// Puts a place into the line of a tube.
    fn put(&mut self, tube: &Name, place: LinePlace) -> Result<(), AllocError>
        ensures grown { (t : List ℕ) → HasAll (tube_line t self.old) (tube_line t self.new) }
        ensures put { OnOk result (IsIn (tube_line tube.now self.new) place) }
    {
        if let Some(line) = self.lines.get_mut(tube) {
            line.insert(place)?;
            return Ok(());
        }
        let mut line = BTreeSet::new(self.alloc);
        line.insert(place)?;
        self.lines.insert(tube.copy()?, line)?;
        Ok(())
    }

    /// Takes a place out of the line of a tube, and tells whether that leaves none.
    fn take_place(&mut self, tube: &Name, place: LinePlace) -> bool
        ensures stays { (t : List ℕ) (p : LinePlace) → (t ≡ tube.now → place ≡ p → ⊥)
            → IsIn (tube_line t self.old) p → IsIn (tube_line t self.new) p }
        ensures none { IsTrue result → (tube_line tube.now self.new).keys ≡ [] }
    {
        match self.lines.get_mut(tube) {
            Some(line) => {
                line.remove(&place);
                line.is_empty()
            }
            None => false,
        }
    }

    /// Takes a place out of the line of a tube, and the line where that leaves none.
    fn take_out(&mut self, tube: &Name, place: LinePlace)
        ensures { (t : List ℕ) (p : LinePlace) → (t ≡ tube.now → place ≡ p → ⊥)
            → IsIn (tube_line t self.old) p → IsIn (tube_line t self.new) p }
    {
        if self.take_place(tube, place) {
            self.lines.remove(tube);
        }
    }

    /// Puts a session into the line of a tube, where it is to stand with this wait.
    pub fn join_tube(
        &mut self,
        tube: &Name,
        number: u32,
        wait: Option<Wait>,
    ) -> Result<(), AllocError>
        ensures grown { (t : List ℕ) → HasAll (tube_line t self.old) (tube_line t self.new) }
        ensures stands { OnOk result
            (IfSome (rank_place number wait) (IsIn (tube_line tube.now self.new))) }
    {
        match rank_place(number, wait) {
            Some(place) => self.put(tube, place),
            None => Ok(()),
        }
    }

    /// Puts a session into the lines of the tubes that it watches, where it is to stand with this wait.
    pub fn join(
        &mut self,
        watched: &[Name],
        number: u32,
        wait: Option<Wait>,
    ) -> Result<(), AllocError>
        ensures grown { (t : List ℕ) → HasAll (tube_line t self.old) (tube_line t self.new) }
        ensures stands { OnOk result
            ((t : List ℕ) → is_among t watched.now ≡ true
            → IfSome (rank_place number wait) (IsIn (tube_line t self.new))) }
    {
        if wait.is_none() {
            return Ok(());
        }
        for tube in watched {
            self.join_tube(tube, number, wait)?;
        }
        Ok(())
    }

    /// Takes a session out of the line of a tube, where it stood with this wait, unless it still stands there.
    pub fn leave_tube(
        &mut self,
        sessions: &BTreeMap<u32, SessionState>,
        tube: &Name,
        number: u32,
        wait: Option<Wait>,
    )
        ensures { StillStand (StandsByTubes self.old) (StandsByTubes self.new) sessions.now.entries }
    {
        if let Some(place) = rank_place(number, wait)
            && waiter_at(sessions, tube, place).is_none()
        {
            self.take_out(tube, place);
        }
    }

    /// Takes a session out of the lines of these tubes, where it stood with this wait, unless it still stands there.
    pub fn leave(
        &mut self,
        sessions: &BTreeMap<u32, SessionState>,
        watched: &[Name],
        number: u32,
        wait: Option<Wait>,
    )
        ensures { StillStand (StandsByTubes self.old) (StandsByTubes self.new) sessions.now.entries }
    {
        if wait.is_none() {
            return;
        }
        for tube in watched {
            self.leave_tube(sessions, tube, number, wait);
        }
    }

    /// The waiting session of the least rank that watches the tube. It is looked for from the tube's front on, which
    /// moves up to it.
    pub fn next<'a>(
        &self,
        sessions: &'a BTreeMap<u32, SessionState>,
        tube: &Name,
        fronts: &mut Fronts,
    ) -> Option<(u32, &'a SessionState)>
        requires stand { AllStand (StandsByTubes self.now) sessions.now.entries }
        requires fronts { AreFronts fronts.old sessions.now.entries }
        ensures first { option_map (λ e. (e.0, e.1.now)) result
            ≡ first_waiting (λ e. is_among tube.now e.1.watched) sessions.now.entries }
        ensures fronts { AreFronts fronts.new sessions.now.entries }
    {
        let Some(line) = self.lines.get(tube) else {
            return None;
        };
        let Some((number, session)) = first_standing(line, fronts.front(tube), sessions, tube)
        else {
            return None;
        };
        let place = LinePlace {
            order: session.rank(),
            session: number,
        };
        // Mostly it is the first of all, and there is nothing to note.
        if line.first() != Some(&place) {
            fronts.note(tube, place);
        }
        Some((number, session))
    }
}
