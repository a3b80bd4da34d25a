ghost use Rattle.std.specs.Prelude.{◌≡◌, ◌^◌, IsSome, IfOk, OnOk};
ghost use Rattle.job_store.specs.Entries.{Rising, value_at, altered};
ghost use Rattle.session_store.specs.Drafts.{DraftsState, IsKept, KeepsDraft, TakesDraftBack};
ghost use Rattle.session_store.specs.Sessions.{session_of, known};
ghost use Rattle.bean_queue.specs.Queue.{fresh, with_sessions};
ghost use Rattle.bean_queue.specs.Effects.{with_ask_noted, called};

mod held;
mod kick;
mod lists;
mod pause;
mod peek;
mod perform;
mod put;
mod reserve;
mod serve;
mod settle;
mod stats;
pub mod staying;
mod time;
mod tubes;
mod woken;

use crate::counters::Counters;
use crate::counts::Counts;
use crate::job_draft::JobDraft;
use crate::role::role_after;
use bean_words::Op;
use job_store::JobMap;
use pause_store::PauseDraft;
use session_store::{Role, SessionDraft, SessionState};
use std::alloc::{AllocError, Global};
use std::marker::Model;
use tube_store::TubeDraft;

/// The logic of the queue, over any map of jobs. What was changed since it was kept last can be taken back, which
/// takes no memory.
#[derive(Drop)]
pub(crate) struct Logic<M: JobMap> {
    counters: Counters,
    kept: Counters,
    pauses: PauseDraft,
    tubes: TubeDraft,
    jobs: JobDraft<M>,
    sessions: SessionDraft,
}

impl<M: JobMap> Model for Logic<M> {
    ghost use Rattle.session_store.specs.Drafts.{Draft};
    ghost use Rattle.bean_queue.specs.Queue.{QueueState, AgreesOnTime, state_of};

    ghost Value = { Draft QueueState };

    ghost view = { λ l. record {
      now = state_of l.counters l.jobs.now l.sessions.now l.pauses.now.pauses l.tubes.now;
      before = state_of l.kept l.jobs.before l.sessions.before l.pauses.before.pauses l.tubes.before;
    } };

    ghost invariant = { λ l. AgreesOnTime l.counters l.kept l.pauses };
}

impl<M: JobMap> Logic<M> {
    /// A new queue.
    pub fn new(alloc: Global) -> Self
        ensures { IsKept result fresh }
    {
        let counters = Counters {
            now: 0,
            next_id: 1,
            next_rank: 1,
            counts: Counts::new(),
        };
        Logic {
            counters,
            kept: counters,
            pauses: PauseDraft::new(alloc),
            tubes: TubeDraft::new(alloc),
            jobs: JobDraft::new(alloc),
            sessions: SessionDraft::new(alloc),
        }
    }

    /// Keeps all changes.
    pub fn keep(&mut self)
        ensures { KeepsDraft self.old self.new }
    {
        self.kept = self.counters;
        self.pauses.keep();
        self.tubes.keep();
        self.jobs.keep();
        self.sessions.keep();
    }

    /// Takes back all changes since they were kept last.
    pub fn take_back(&mut self)
        ensures { TakesDraftBack self.old self.new }
    {
        self.counters = self.kept;
        self.pauses.take_back();
        self.tubes.take_back();
        self.jobs.take_back();
        self.sessions.take_back();
    }

    /// Makes a session, or ends its wait, and tells its role.
    fn make_known(&mut self, session: u32) -> Result<Role, AllocError>
        ensures drafts { DraftsState self.old self.new
            (with_sessions self.old.now (known session self.old.now.sessions)) result }
        ensures role { IfOk result (λ role. role ≡ (session_of session self.new.now.sessions).role) }
    {
        self.sessions.know(session)
    }

    /// Notes what a session that is there, with this role, has asked for.
    fn note_role(&mut self, session: u32, before: Role, op: &Op) -> Result<(), AllocError>
        requires there { IsSome (value_at session self.old.now.sessions) }
        requires role { before ≡ (session_of session self.old.now.sessions).role }
        ensures now { OnOk result (self.new.now
            ≡ with_sessions self.old.now (altered session (with_ask_noted op.now) self.old.now.sessions)) }
        ensures before { self.new.before ≡ self.old.before }
    {
        self.numbers_rise();
        let role = role_after(op, before);
        if role == before {
            return Ok(());
        }
        self.sessions.set_role(session, role)
    }

    /// Makes a session, or ends its wait, and counts what it asks for.
    pub fn call(&mut self, session: u32, op: &Op) -> Result<(), AllocError>
        ensures now { OnOk result (self.new.now ≡ called op.now session self.old.now) }
        ensures before { self.new.before ≡ self.old.before }
    {
        let role = self.make_known(session)?;
        self.note_role(session, role, op)?;
        self.counters.counts.note(op);
        Ok(())
    }

    /// Gives the proof that the numbers of the sessions rise.
    fn numbers_rise(&self)
        ensures { Rising 0 (2 ^ 32) self.now.now.sessions }
    {
        let _ = self.sessions.map();
    }

    /// A session that is there.
    fn session(&self, number: u32) -> &SessionState
        requires { IsSome (value_at number self.now.now.sessions) }
        ensures { result.now ≡ session_of number self.now.now.sessions }
    {
        &self.sessions.map()[&number]
    }
}
