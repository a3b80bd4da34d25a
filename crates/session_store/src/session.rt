ghost use Rattle.std.specs.Prelude.{◌≡◌, ◌&&◌, IfOk};
ghost use Rattle.job_store.specs.LookUps.{is_among};
ghost use Rattle.session_store.specs.Rolls.{has_tube};
ghost use Rattle.session_store.specs.Sessions.{no_role, new_session, is_waiting, wait_number, wait_rank, has_timed_out};

use crate::watch_list::WatchList;
use bean_words::Name;
use std::alloc::{AllocError, Global};

/// What a session waits for: the answer to its reserve.
#[derive(Clone, Copy, Debug, PartialEq, Eq)]
pub struct Wait {
    /// The number of the command that reserved.
    pub number: u64,
    /// Of the sessions that wait for a job that of the least rank gets it.
    pub rank: u64,
    /// The second in which it waits no longer.
    pub time_out: Option<u64>,
}

/// What a session is to the queue: a producer, a worker, both or neither.
#[derive(Clone, Copy, Debug, PartialEq, Eq)]
pub struct Role {
    /// Whether it has put a job.
    pub has_put: bool,
    /// Whether it has asked for a job.
    pub has_reserved: bool,
}

impl Role {
    /// That of a session that has neither put nor reserved.
    pub(crate) fn none() -> Role
        ensures { result ≡ no_role }
    {
        Role {
            has_put: false,
            has_reserved: false,
        }
    }
}

/// What the queue knows of a client's session.
#[derive(Drop)]
pub struct SessionState {
    /// The tube that its jobs are put into.
    pub used: Name,
    /// The tubes that it reserves jobs from.
    pub watched: WatchList,
    pub wait: Option<Wait>,
    pub role: Role,
}

impl SessionState {
    /// A session that uses `default`, and watches it alone. It has neither put nor reserved.
    pub(crate) fn new(alloc: Global) -> Result<SessionState, AllocError>
        ensures { IfOk result (λ session. session ≡ new_session) }
    {
        Ok(SessionState {
            used: Name::default_tube(),
            watched: WatchList::only(alloc, Name::default_tube())?,
            wait: None,
            role: Role::none(),
        })
    }

    /// The rank of its wait, and 0 where it does not wait.
    pub(crate) fn rank(&self) -> u64
        ensures { result ≡ wait_rank self.now }
    {
        match self.wait {
            Some(wait) => wait.rank,
            None => 0,
        }
    }

    /// Whether it waits, and at this second does so no longer.
    pub(crate) fn has_timed_out(&self, second: u64) -> bool
        ensures { result ≡ has_timed_out second self.now.wait }
    {
        match self.wait {
            Some(
                Wait {
                    time_out: Some(time_out),
                    ..
                },
            ) => time_out <= second,
            _ => false,
        }
    }

    /// Whether it waits, for a job of this tube among others.
    pub(crate) fn waits_for(&self, tube: &Name) -> bool
        ensures { result ≡ (is_waiting self.now && is_among tube.now self.now.watched) }
    {
        self.wait.is_some() && self.watched.contains(tube)
    }

    /// Whether it uses the tube, or watches it.
    pub(crate) fn has_tube(&self, tube: &Name) -> bool
        ensures { result ≡ has_tube tube.now self.now }
    {
        *tube == self.used || self.watched.contains(tube)
    }

    /// The number of the command that waits, and 0 where none does.
    pub fn wait_number(&self) -> u64
        ensures { result ≡ wait_number self.now.wait }
    {
        match self.wait {
            Some(wait) => wait.number,
            None => 0,
        }
    }
}
