ghost use Rattle.std.specs.Prelude.{◌≡◌, ◌^◌};
ghost use Rattle.job_store.specs.Entries.{Rising};
ghost use Rattle.bean_queue.specs.Groups.{is_of_group, count_in};

use bean_words::Name;
use session_store::SessionState;
use std::collections::BTreeMap;

/// Sessions that are counted.
#[derive(Clone, Copy)]
pub(crate) enum Group<'a> {
    /// Those that use the tube.
    Using(&'a Name),
    /// Those that watch it.
    Watching(&'a Name),
    /// Those that watch it, and wait.
    WaitingFor(&'a Name),
    /// Those that wait.
    Waiting,
    /// Those that have put a job.
    Producers,
    /// Those that have asked for one.
    Workers,
}

impl<'a> Group<'a> {
    /// Whether the session is one of them.
    fn has(&self, session: &SessionState) -> bool
        ensures { result ≡ is_of_group self.now session.now }
    {
        match self {
            Group::Using(tube) => **tube == session.used,
            Group::Watching(tube) => session.watched.contains(tube),
            Group::WaitingFor(tube) => session.wait.is_some() && session.watched.contains(tube),
            Group::Waiting => session.wait.is_some(),
            Group::Producers => session.role.has_put,
            Group::Workers => session.role.has_reserved,
        }
    }

    /// How many of these sessions there are.
    pub fn count(&self, sessions: &BTreeMap<u32, SessionState>) -> u64
        requires { Rising 0 (2 ^ 32) sessions.now.entries }
        ensures { result ≡ count_in self.now sessions.now.entries }
    {
        let mut count: u64 = 0;
        for (_, session) in sessions {
            if self.has(session) {
                count += 1;
            }
        }
        count
    }
}
