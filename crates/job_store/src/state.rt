ghost use Rattle.std.specs.Prelude.{◌≡◌, true};

use object::Value;
use std::alloc::AllocError;

/// Where a job is in its life. Seconds and ranks are the queue's own.
#[derive(Clone, Copy, Debug, PartialEq, Eq)]
pub enum State {
    /// Anyone who watches its tube may reserve it.
    Ready,
    /// It becomes ready in the second that is due.
    Delayed { due: u64 },
    /// A session works on it, and has it until the second that is due.
    Reserved { session: u32, due: u64 },
    /// It is put aside until it is kicked. Of a tube's jobs that of the least rank is kicked first.
    Buried { rank: u64 },
}

impl State {
    ghost use Rattle.job_store.specs.States.{is_ready, is_delayed, is_buried, is_reserved, is_held, is_scheduled, is_due, holder_of, due_of, rank_of};

    /// Whether anyone who watches its tube may reserve the job.
    pub fn is_ready(&self) -> bool
        ensures { result ≡ is_ready self.now }
    {
        matches!(self, State::Ready)
    }

    /// Whether the job waits for a second to come.
    pub fn is_delayed(&self) -> bool
        ensures { result ≡ is_delayed self.now }
    {
        matches!(self, State::Delayed { .. })
    }

    /// Whether the job is put aside.
    pub fn is_buried(&self) -> bool
        ensures { result ≡ is_buried self.now }
    {
        matches!(self, State::Buried { .. })
    }

    /// Whether some session has the job.
    pub fn is_reserved(&self) -> bool
        ensures { result ≡ is_reserved self.now }
    {
        matches!(self, State::Reserved { .. })
    }

    /// Whether the session has the job.
    pub fn is_held_by(&self, session: u32) -> bool
        ensures { result ≡ is_held session self.now }
    {
        matches!(self, State::Reserved { session: holder, .. } if session == *holder)
    }

    /// Whether the job is delayed or reserved, and so due in some second.
    pub fn is_scheduled(&self) -> bool
        ensures { result ≡ is_scheduled self.now }
    {
        matches!(self, State::Delayed { .. } | State::Reserved { .. })
    }

    /// Whether the job's delay, or its time to run, is over at this second.
    pub fn is_due(&self, second: u64) -> bool
        ensures { result ≡ is_due second self.now }
    {
        match self {
            State::Delayed { due } | State::Reserved { due, .. } => *due <= second,
            State::Ready | State::Buried { .. } => false,
        }
    }

    /// The session that has a reserved job, and 0 for others.
    pub fn holder(&self) -> u32
        ensures { result ≡ holder_of self.now }
    {
        match self {
            State::Reserved { session, .. } => *session,
            State::Ready | State::Delayed { .. } | State::Buried { .. } => 0,
        }
    }

    /// The second in which a delayed or reserved job is due, and 0 for others.
    pub fn due(&self) -> u64
        ensures { result ≡ due_of self.now }
    {
        match self {
            State::Delayed { due } | State::Reserved { due, .. } => *due,
            State::Ready | State::Buried { .. } => 0,
        }
    }

    /// The rank of a buried job, and 0 for others.
    pub fn rank(&self) -> u64
        ensures { result ≡ rank_of self.now }
    {
        match self {
            State::Buried { rank } => *rank,
            State::Ready | State::Delayed { .. } | State::Reserved { .. } => 0,
        }
    }
}

impl Value for State {
    ghost use Rattle.std.proofs.Common.{rules};
    ghost use Rattle.std.proofs.lemmas.Grind.{common_steps};

    ghost exact = { Prim.grind (rules, common_steps) };

    fn copy(&self) -> Result<Self, AllocError> {
        Ok(*self)
    }
}
