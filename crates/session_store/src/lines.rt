ghost use Rattle.std.specs.Prelude.{◌≡◌, true, IfOk, OnOk, OnErr, IfSome, IsSome, option_map};
ghost use Rattle.bean_words.specs.NameSets.{AddsAll};
ghost use Rattle.job_store.specs.LookUps.{is_among};
ghost use Rattle.session_store.specs.Sessions.{first_waiting, with_wait};
ghost use Rattle.session_store.specs.Lines.{AllStand, StillStand, HasGrown, IsIn, StandsByTimeOut, StandsByTubes, StandsIn, tube_line, rank_place};
ghost use Rattle.session_store.specs.Rolls.{IsOn, is_named};
ghost use Rattle.session_store.specs.LateLines.{HasLate, is_late};
ghost use Rattle.session_store.specs.Fronts.{AreFronts};

use crate::fronts::Fronts;
use crate::late_line::LateLine;
use crate::rolls::Rolls;
use crate::session::{SessionState, Wait};
use crate::time_outs::TimeOuts;
use crate::tube_lines::TubeLines;
use bean_words::Name;
use std::alloc::{AllocError, Global};
use std::collections::{BTreeMap, BTreeSet};

/// The lines in which waiting sessions stand, and who uses or watches each tube.
#[derive(Drop)]
pub(crate) struct Lines {
    time_outs: TimeOuts,
    tubes: TubeLines,
    rolls: Rolls,
}

impl Lines {
    /// Lines in which nobody stands.
    pub fn new(alloc: Global) -> Lines {
        Lines {
            time_outs: TimeOuts::new(alloc),
            tubes: TubeLines::new(alloc),
            rolls: Rolls::new(alloc),
        }
    }

    /// Puts a session in where it is to stand with this wait.
    pub fn join(
        &mut self,
        number: u32,
        session: &SessionState,
        wait: Option<Wait>,
    ) -> Result<(), AllocError>
        ensures grown { HasGrown self.old self.new }
        ensures stands { OnOk result
            (StandsByTimeOut self.new.time_outs (number, with_wait wait session.now)
            × StandsByTubes self.new.tubes (number, with_wait wait session.now)) }
    {
        self.time_outs.join(number, wait)?;
        self.tubes.join(session.watched.as_slice(), number, wait)?;
        Ok(())
    }

    /// Takes a session out where it stood with this wait while it watched these tubes, unless it still stands there.
    pub fn leave(
        &mut self,
        sessions: &BTreeMap<u32, SessionState>,
        watched: &[Name],
        number: u32,
        wait: Option<Wait>,
    )
        ensures { StillStand (StandsIn self.old) (StandsIn self.new) sessions.now.entries }
    {
        self.time_outs.leave(sessions, number, wait);
        self.tubes.leave(sessions, watched, number, wait);
    }

    /// Puts a session into the line of a tube, where it is to stand with this wait.
    pub fn join_tube(
        &mut self,
        tube: &Name,
        number: u32,
        wait: Option<Wait>,
    ) -> Result<(), AllocError>
        ensures grown { HasGrown self.old self.new }
        ensures stands { OnOk result
            (IfSome (rank_place number wait) (IsIn (tube_line tube.now self.new.tubes))) }
    {
        self.tubes.join_tube(tube, number, wait)
    }

    /// Takes a session out of the line of a tube, where it stood with this wait, unless it still stands there.
    pub fn leave_tube(
        &mut self,
        sessions: &BTreeMap<u32, SessionState>,
        tube: &Name,
        number: u32,
        wait: Option<Wait>,
    )
        ensures { StillStand (StandsIn self.old) (StandsIn self.new) sessions.now.entries }
    {
        self.tubes.leave_tube(sessions, tube, number, wait);
    }

    /// Puts a session on the roll of a tube.
    pub fn enrol(&mut self, tube: &Name, number: u32) -> Result<(), AllocError>
        ensures grown { HasGrown self.old self.new }
        ensures on { OnOk result (IsOn tube.now self.new.rolls number) }
    {
        self.rolls.enrol(tube, number)
    }

    /// Takes a session from the roll of a tube, unless it still uses or watches that.
    pub fn strike(&mut self, sessions: &BTreeMap<u32, SessionState>, tube: &Name, number: u32)
        ensures { StillStand (StandsIn self.old) (StandsIn self.new) sessions.now.entries }
    {
        self.rolls.strike(sessions, tube, number);
    }

    /// Takes a session from the rolls of these tubes, unless it still uses or watches them.
    pub fn strike_all(
        &mut self,
        sessions: &BTreeMap<u32, SessionState>,
        tubes: &[Name],
        number: u32,
    )
        ensures { StillStand (StandsIn self.old) (StandsIn self.new) sessions.now.entries }
    {
        for tube in tubes {
            self.strike(sessions, tube, number);
        }
    }

    /// Whether a session uses or watches the tube.
    pub fn has_named(&self, sessions: &BTreeMap<u32, SessionState>, tube: &Name) -> bool
        requires { AllStand (StandsIn self.now) sessions.now.entries }
        ensures { result ≡ is_named tube.now sessions.now.entries }
    {
        self.rolls.has_named(sessions, tube)
    }

    /// Puts the tubes that sessions use or watch among the names.
    pub fn add_tubes(
        &self,
        sessions: &BTreeMap<u32, SessionState>,
        names: &mut BTreeSet<Name>,
    ) -> Result<(), AllocError>
        requires { AllStand (StandsIn self.now) sessions.now.entries }
        ensures { AddsAll (λ tube. is_named tube sessions.now.entries ≡ true) names.old.keys
            names.new.keys result }
    {
        self.rolls.add_tubes(sessions, names)
    }

    /// The waiting session of the least rank that watches the tube. It is looked for from the tube's front on, which
    /// moves up to it.
    pub fn next_watcher<'a>(
        &self,
        sessions: &'a BTreeMap<u32, SessionState>,
        tube: &Name,
        fronts: &mut Fronts,
    ) -> Option<(u32, &'a SessionState)>
        requires stand { AllStand (StandsIn self.now) sessions.now.entries }
        requires fronts { AreFronts fronts.old sessions.now.entries }
        ensures first { option_map (λ e. (e.0, e.1.now)) result
            ≡ first_waiting (λ e. is_among tube.now e.1.watched) sessions.now.entries }
        ensures fronts { AreFronts fronts.new sessions.now.entries }
    {
        self.tubes.next(sessions, tube, fronts)
    }

    /// A line of the sessions whose waits are over at this second. It takes no memory where there is none.
    pub fn late(
        &self,
        alloc: Global,
        sessions: &BTreeMap<u32, SessionState>,
        second: u64,
    ) -> Result<LateLine, AllocError>
        requires { AllStand (StandsIn self.now) sessions.now.entries }
        ensures ok { IfOk result (λ late. HasLate second late sessions.now.entries) }
        ensures err { OnErr result (IsSome (first_waiting (is_late second) sessions.now.entries)) }
    {
        self.time_outs.late(alloc, sessions, second)
    }
}
