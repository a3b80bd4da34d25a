ghost use Rattle.std.specs.Prelude.{◌≡◌, ◌^◌};
ghost use Rattle.job_store.specs.Entries.{Rising};
ghost use Rattle.session_store.specs.Lines.{StillStand, StandsIn};
ghost use Rattle.session_store.specs.Drafts.{session_step_back, sessions_before};

use crate::lines::Lines;
use crate::session::{Role, SessionState, Wait};
use crate::session_change::{set_role, set_wait};
use bean_words::Name;
use std::collections::BTreeMap;

/// How a change of the sessions is taken back.
#[derive(Clone, Copy, Debug, PartialEq, Eq)]
pub(crate) enum SessionStep {
    /// The session waits as it did before, and no longer as it did after.
    Waited {
        session: u32,
        before: Option<Wait>,
        after: Option<Wait>,
    },
    /// The session has the role that it had before.
    Played {
        session: u32,
        before: Role,
    },
    /// The session goes.
    Made(u32),
}

/// Takes one step back.
fn take_step_back(sessions: &mut BTreeMap<u32, SessionState>, step: SessionStep)
    requires { Rising 0 (2 ^ 32) sessions.old.entries }
    ensures { sessions.new.entries ≡ session_step_back step sessions.old.entries }
{
    match step {
        SessionStep::Waited {
            session,
            before,
            ..
        } => set_wait(sessions, session, before),
        SessionStep::Played { session, before } => set_role(sessions, session, before),
        SessionStep::Made(session) => {
            sessions.remove(&session);
        }
    }
}

/// Takes all these steps back, the last one first.
pub(crate) fn take_steps_back(sessions: &mut BTreeMap<u32, SessionState>, steps: &[SessionStep])
    requires { Rising 0 (2 ^ 32) sessions.old.entries }
    ensures rising { Rising 0 (2 ^ 32) sessions.new.entries }
    ensures sessions { sessions.new.entries ≡ sessions_before steps.now sessions.old.entries }
{
    let mut left = steps.len();
    while left > 0 {
        left -= 1;
        take_step_back(sessions, steps[left]);
    }
}

/// Takes a session out of the lines where it stood with this wait, unless it still stands there. One that is not there
/// was made, and watched `default` alone.
fn leave_lines(
    lines: &mut Lines,
    sessions: &BTreeMap<u32, SessionState>,
    session: u32,
    wait: Option<Wait>,
)
    ensures { StillStand (StandsIn lines.old) (StandsIn lines.new) sessions.now.entries }
{
    match sessions.get(&session) {
        Some(found) => lines.leave(sessions, found.watched.as_slice(), session, wait),
        None => lines.leave(sessions, &[Name::default_tube()], session, wait),
    }
}

/// Takes a session out of the lines where it stood before and after a step, and off the roll that it came on, unless it
/// still stands there. No line depends on a role.
fn leave_step(lines: &mut Lines, sessions: &BTreeMap<u32, SessionState>, step: SessionStep)
    ensures { StillStand (StandsIn lines.old) (StandsIn lines.new) sessions.now.entries }
{
    match step {
        SessionStep::Waited {
            session,
            before,
            after,
        } => {
            leave_lines(lines, sessions, session, before);
            leave_lines(lines, sessions, session, after);
        }
        SessionStep::Played { .. } => {}
        SessionStep::Made(session) => lines.strike(sessions, &Name::default_tube(), session),
    }
}

/// Takes sessions out of the lines where they stood before and after these steps, unless they still stand there.
pub(crate) fn leave_steps(
    lines: &mut Lines,
    sessions: &BTreeMap<u32, SessionState>,
    steps: &[SessionStep],
)
    ensures { StillStand (StandsIn lines.old) (StandsIn lines.new) sessions.now.entries }
{
    for step in steps {
        leave_step(lines, sessions, *step);
    }
}
