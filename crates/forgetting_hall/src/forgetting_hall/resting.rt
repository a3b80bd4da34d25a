ghost use Rattle.std.specs.Prelude.{◌≡◌, ◌≤◌, ◌<◌, ◌+◌, ◌^◌, IfOk, IfErr};
ghost use Rattle.hall.specs.declared.error.HallError.{HallError};
ghost use Rattle.hall.specs.declared.error.HallError.TheVariants.{OutOfMemory, Full};
ghost use Rattle.hall.specs.Halls.{most_sessions};
ghost use Rattle.forgetting_hall.specs.Rests.{forgotten_rest, opened_rest, let_go_rest};
ghost use Rattle.forgetting_hall.specs.Halls.{rest_of_hall, ShowsStill, IsLeastOut};
ghost use Rattle.forgetting_hall.specs.Calls.{IsNoEvent};

use super::ForgettingHall;
use crate::halls::halls_rest;
use hall::HallError;
use object::Object;

/// A hall opens so many sessions.
const MOST_SESSIONS: u32 = 4_294_967_295;

impl<O: Object> ForgettingHall<O> {
    /// Forgets the slots that every node has performed: the base becomes the least slot that some node hasn't performed yet.
    /// It takes no memory, and where nothing can be forgotten it does nothing.
    pub fn forget(&mut self)
        ensures base { IsLeastOut O.rules self.old self.new.base }
        ensures forgotten { rest_of_hall O.rules self.new
            ≡ forgotten_rest (rest_of_hall O.rules self.old) self.new.base }
        ensures still { ShowsStill O.rules self.old self.new }
        ensures gathering { self.new.gathering ≡ self.old.gathering }
    {
        halls_rest::<O>();
        let base = self.least_out();
        if base == self.base {
            return;
        }
        self.network.forget(base);
        self.base = base;
    }

    /// The number of a new session. Sessions are numbered from 1.
    pub fn open_session(&mut self) -> Result<u32, HallError>
        ensures session { IfOk result (λ session. session ≡ self.old.opened + 1) }
        ensures ok { IsNoEvent O.rules (opened_rest (rest_of_hall O.rules self.old)) result
            self.old self.new }
        ensures full { most_sessions ≤ self.old.opened → result ≡ Err Full }
        ensures memory { self.old.opened < most_sessions → IfErr result (λ r. r ≡ OutOfMemory) }
    {
        halls_rest::<O>();
        if self.opened >= MOST_SESSIONS {
            return Err(HallError::Full);
        }
        let session = self.opened + 1;
        self.clients.open(session)?;
        self.opened = session;
        Ok(session)
    }

    /// Keeps nothing of a session any more. It takes no memory.
    pub fn let_go(&mut self, session: u32)
        requires { 0 < session }
        ensures let_go { rest_of_hall O.rules self.new
            ≡ let_go_rest (rest_of_hall O.rules self.old) session }
        ensures still { ShowsStill O.rules self.old self.new }
        ensures gathering { self.new.gathering ≡ self.old.gathering }
    {
        halls_rest::<O>();
        self.clients.let_go(session);
    }

    /// How many slots could be forgotten now: those from the base on that every node has performed.
    pub fn lag(&self) -> u64
        ensures { IsLeastOut O.rules self.now (self.now.base + result) }
    {
        self.least_out() - self.base
    }

    // The least slot that some node hasn't performed yet.
    fn least_out(&self) -> u64
        ensures { IsLeastOut O.rules self.now result }
    {
        let count = self.network.members().count();
        let mut least = self.network.node(1).slots().slot_out();
        for before in 1..count {
            least = least.min(self.network.node(before + 1).slots().slot_out());
        }
        least
    }
}
