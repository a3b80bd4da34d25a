ghost use Rattle.std.specs.Prelude.{◌≡◌, ◌^◌, ◌⊎◌, ℕ, List, [], true, None, IsSome, IfSome, IfOk, OnOk, OnErr, length, option_map};
ghost use Rattle.object.specs.Lists.{In};
ghost use Rattle.job_store.specs.Entries.{Rising, value_at, with_value, altered, without};
ghost use Rattle.job_store.specs.LookUps.{is_among};
ghost use Rattle.session_store.specs.Drafts.{DraftsState, IsKept, KeepsDraft, TakesDraftBack};
ghost use Rattle.session_store.specs.Sessions.{new_session, session_of, known, with_wait, with_wait_ended, with_role, first_waiting};
ghost use Rattle.session_store.specs.Lines.{AllStand, StandsIn};
ghost use Rattle.session_store.specs.LateLines.{HasLate, is_late};
ghost use Rattle.session_store.specs.Fronts.{AreFronts};
ghost use Rattle.session_store.specs.declared.session.SessionState.{SessionState};
ghost use Rattle.session_store.specs.Rolls.{is_named};
ghost use Rattle.session_store.specs.WatchLists.{joined, left_out};

use crate::fronts::Fronts;
use crate::late_line::LateLine;
use crate::lines::Lines;
use crate::session::{Role, SessionState, Wait};
use crate::session_change::{ignore, set_role, set_used, set_wait, watch};
use crate::session_step::{SessionStep, leave_steps, take_steps_back};
use crate::time_outs::wait_of;
use bean_words::Name;
use std::alloc::{AllocError, Global};
use std::collections::{BTreeMap, BTreeSet};
use std::marker::Model;

/// Sessions by number, whose changes can be taken back until they are kept. That takes no memory.
#[derive(Drop)]
pub struct SessionDraft {
    alloc: Global,
    sessions: BTreeMap<u32, SessionState>,
    /// A session that waits, now or before the steps, has its places here, and is on the rolls of the tubes that it
    /// uses or watches. Others may have some until changes are kept or taken back.
    lines: Lines,
    steps: Vec<SessionStep>,
}

impl Model for SessionDraft {
    ghost use Rattle.std.specs.Prelude.{ℕ, List};
    ghost use Rattle.session_store.specs.declared.session.SessionState.{SessionState};
    ghost use Rattle.session_store.specs.Drafts.{Draft, sessions_before, AreInLines};

    ghost Value = { Draft (List (ℕ × SessionState)) };

    ghost view = { λ d. record { now = d.sessions.entries; before = sessions_before d.steps.items d.sessions.entries } };

    ghost invariant = { λ d. AreInLines d.lines d.steps.items d.sessions.entries };
}

/// Takes out a session, and out of the lines where it stood.
fn forget(
    lines: &mut Lines,
    sessions: &mut BTreeMap<u32, SessionState>,
    session: u32,
) -> Option<SessionState>
    requires { Rising 0 (2 ^ 32) sessions.old.entries }
    ensures gone { result ≡ value_at session sessions.old.entries }
    ensures sessions { sessions.new.entries ≡ without session sessions.old.entries }
    ensures complete { AllStand (StandsIn lines.old) sessions.old.entries
        → AllStand (StandsIn lines.new) sessions.new.entries }
{
    let gone = sessions.remove(&session)?;
    lines.leave(sessions, gone.watched.as_slice(), session, gone.wait);
    lines.strike(sessions, &gone.used, session);
    lines.strike_all(sessions, gone.watched.as_slice(), session);
    Some(gone)
}

impl SessionDraft {
    /// No sessions.
    pub fn new(alloc: Global) -> Self
        ensures { IsKept result [] }
    {
        SessionDraft {
            alloc,
            sessions: BTreeMap::new(alloc),
            lines: Lines::new(alloc),
            steps: Vec::new(alloc),
        }
    }

    /// The sessions.
    pub fn map(&self) -> &BTreeMap<u32, SessionState>
        ensures sessions { result.now.entries ≡ self.now.now }
        ensures rising { Rising 0 (2 ^ 32) self.now.now }
    {
        &self.sessions
    }

    /// The fronts of all tubes, where their lines begin. They take no memory.
    pub fn fronts(&self) -> Fronts
        ensures { (sessions : List (ℕ × SessionState)) → AreFronts result sessions }
    {
        Fronts::new(self.alloc)
    }

    /// The waiting session of the least rank that watches the tube. It is looked for from the tube's front on, which
    /// moves up to it.
    pub fn next_watcher(&self, tube: &Name, fronts: &mut Fronts) -> Option<(u32, &SessionState)>
        requires { AreFronts fronts.old self.now.now }
        ensures first { option_map (λ e. (e.0, e.1.now)) result
            ≡ first_waiting (λ e. is_among tube.now e.1.watched) self.now.now }
        ensures fronts { AreFronts fronts.new self.now.now }
    {
        self.lines.next_watcher(&self.sessions, tube, fronts)
    }

    /// A line of the sessions whose waits are over at this second. It takes no memory where there is none.
    pub fn late(&self, second: u64) -> Result<LateLine, AllocError>
        ensures ok { IfOk result (λ late. HasLate second late self.now.now) }
        ensures err { OnErr result (IsSome (first_waiting (is_late second) self.now.now)) }
    {
        self.lines.late(self.alloc, &self.sessions, second)
    }

    /// Takes the first session whose wait is over at this second out of a line of these: the waiting one of the least rank.
    /// The line is then one of those that are left when that wait has ended.
    pub fn next_late(&self, late: &mut LateLine, second: u64) -> Option<(u32, &SessionState)>
        requires { HasLate second late.old self.now.now }
        ensures first { option_map (λ e. (e.0, e.1.now)) result
            ≡ first_waiting (is_late second) self.now.now }
        ensures left { IfSome result (λ e.
            HasLate second late.new (with_wait_ended e.0 self.now.now)) }
    {
        late.next(&self.sessions, second)
    }

    /// Whether a session uses or watches the tube.
    pub fn has_named(&self, tube: &Name) -> bool
        ensures { result ≡ is_named tube.now self.now.now }
    {
        self.lines.has_named(&self.sessions, tube)
    }

    /// Puts the tubes that sessions use or watch among the names.
    pub fn add_tubes(&self, names: &mut BTreeSet<Name>) -> Result<(), AllocError>
        ensures kept { (tube : List ℕ) → In tube names.old.keys → In tube names.new.keys }
        ensures only { (tube : List ℕ) → In tube names.new.keys
            → In tube names.old.keys ⊎ (is_named tube self.now.now ≡ true) }
        ensures all { OnOk result ((tube : List ℕ) → is_named tube self.now.now ≡ true
            → In tube names.new.keys) }
    {
        self.lines.add_tubes(&self.sessions, names)
    }

    /// Makes a session that is not there.
    pub fn make(&mut self, session: u32) -> Result<(), AllocError>
        requires { value_at session self.old.now ≡ None }
        ensures { DraftsState self.old self.new
            (with_value session new_session self.old.now) result }
    {
        let made = SessionState::new(self.alloc)?;
        self.steps.reserve(1)?;
        self.lines.enrol(&made.used, session)?;
        self.sessions.insert(session, made)?;
        self.steps.push(SessionStep::Made(session))?;
        Ok(())
    }

    /// Makes a session, or ends its wait, and tells its role. One that is there and doesn't wait is looked up once.
    pub fn know(&mut self, session: u32) -> Result<Role, AllocError>
        ensures drafts { DraftsState self.old self.new (known session self.old.now) result }
        ensures role { IfOk result (λ role. role ≡ (session_of session self.new.now).role) }
    {
        let Some(found) = self.sessions.get(&session) else {
            self.make(session)?;
            return Ok(Role::none());
        };
        let role = found.role;
        if found.wait.is_some() {
            self.set_wait(session, None)?;
        }
        Ok(role)
    }

    /// Lets a session wait, or wait no longer, if it is there. Where it doesn't wait, that it waits no longer costs
    /// nothing for the tubes that it watches.
    pub fn set_wait(&mut self, session: u32, wait: Option<Wait>) -> Result<(), AllocError>
        ensures { DraftsState self.old self.new
            (altered session (with_wait wait) self.old.now) result }
    {
        let Some(found) = self.sessions.get(&session) else {
            return Ok(());
        };
        let before = found.wait;
        if before.is_none() && wait.is_none() {
            return Ok(());
        }
        self.steps.push(SessionStep::Waited {
            session,
            before,
            after: wait,
        })?;
        self.lines.join(session, found, wait)?;
        set_wait(&mut self.sessions, session, wait);
        Ok(())
    }

    /// Gives a session a role, if it is there. Where it has that role already, nothing is done.
    pub fn set_role(&mut self, session: u32, role: Role) -> Result<(), AllocError>
        ensures { DraftsState self.old self.new
            (altered session (with_role role) self.old.now) result }
    {
        let Some(found) = self.sessions.get(&session) else {
            return Ok(());
        };
        let before = found.role;
        if before == role {
            return Ok(());
        }
        self.steps.push(SessionStep::Played { session, before })?;
        set_role(&mut self.sessions, session, role);
        Ok(())
    }

    /// Keeps all changes.
    pub fn keep(&mut self)
        ensures { KeepsDraft self.old self.new }
    {
        leave_steps(&mut self.lines, &self.sessions, self.steps.as_slice());
        self.steps.clear();
    }

    /// Keeps all changes, and lets a session use a tube, if it is there. That can't be taken back.
    pub fn use_tube_for_good(&mut self, session: u32, name: Name) -> Result<(), AllocError>
        ensures kept { OnOk result (IsKept self.new
            (altered session (λ c. record c { used = name }) self.old.now)) }
        ensures err { OnErr result (self.new ≡ self.old) }
    {
        self.lines.enrol(&name, session)?;
        let left = set_used(&mut self.sessions, session, name);
        leave_steps(&mut self.lines, &self.sessions, self.steps.as_slice());
        self.steps.clear();
        if let Some(tube) = left {
            self.lines.strike(&self.sessions, &tube, session);
        }
        Ok(())
    }

    /// Keeps all changes, and lets a session that is there watch one tube more. That can't be taken back. It tells how
    /// many it watches then.
    pub fn watch_for_good(&mut self, session: u32, name: Name) -> Result<usize, AllocError>
        requires { IsSome (value_at session self.old.now) }
        ensures count { IfOk result (λ count. count
            ≡ length (joined name (session_of session self.old.now).watched)) }
        ensures kept { OnOk result (IsKept self.new
            (altered session (λ c. record c { watched = joined name c.watched }) self.old.now)) }
        ensures err { OnErr result (self.new ≡ self.old) }
    {
        // Where memory is refused after this, the place is left over in the line and on the roll, and passed over.
        let wait = wait_of(&self.sessions, session);
        self.lines.join_tube(&name, session, wait)?;
        self.lines.enrol(&name, session)?;
        let count = watch(&mut self.sessions, session, name)?;
        leave_steps(&mut self.lines, &self.sessions, self.steps.as_slice());
        self.steps.clear();
        Ok(count)
    }

    /// Keeps all changes, and lets a session that is there watch a tube no more. That can't be taken back. It tells how
    /// many it watches then.
    pub fn ignore_for_good(&mut self, session: u32, name: &Name) -> usize
        requires { IsSome (value_at session self.old.now) }
        ensures count { result ≡ length
            (left_out name.now (session_of session self.old.now).watched) }
        ensures kept { IsKept self.new (altered session
            (λ c. record c { watched = left_out name.now c.watched }) self.old.now) }
    {
        leave_steps(&mut self.lines, &self.sessions, self.steps.as_slice());
        self.steps.clear();
        let count = ignore(&mut self.sessions, session, name);
        let wait = wait_of(&self.sessions, session);
        self.lines.leave_tube(&self.sessions, name, session, wait);
        self.lines.strike(&self.sessions, name, session);
        count
    }

    /// Keeps all changes, and takes out a session, if it is there. That can't be taken back.
    pub fn remove_for_good(&mut self, session: u32) -> Option<SessionState>
        ensures gone { result ≡ value_at session self.old.now }
        ensures kept { IsKept self.new (without session self.old.now) }
    {
        leave_steps(&mut self.lines, &self.sessions, self.steps.as_slice());
        self.steps.clear();
        forget(&mut self.lines, &mut self.sessions, session)
    }

    /// Takes back all changes since they were kept last.
    pub fn take_back(&mut self)
        ensures { TakesDraftBack self.old self.new }
    {
        take_steps_back(&mut self.sessions, self.steps.as_slice());
        leave_steps(&mut self.lines, &self.sessions, self.steps.as_slice());
        self.steps.clear();
    }
}
