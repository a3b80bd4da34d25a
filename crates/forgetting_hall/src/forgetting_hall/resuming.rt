ghost use Rattle.std.specs.Prelude.{◌≡◌, ◌<◌, ◌≤◌, IfErr};
ghost use Rattle.hall.specs.declared.error.HallError.TheVariants.{OutOfMemory, BadNumber};
ghost use Rattle.forgetting_hall.specs.Rests.{opened_as};
ghost use Rattle.forgetting_hall.specs.Halls.{rest_of_hall};
ghost use Rattle.forgetting_hall.specs.Calls.{TakesIn, IsNoEvent};
ghost use Rattle.forgetting_hall.specs.Refusing.{refusal_of_keyed};

use super::ForgettingHall;
use super::submitting::ask;
use crate::halls::halls_rest;
use agreement::every_world;
use hall::HallError;
use object::{Command, Object, Value};

/// What a start from a log hands in: sessions and commands with the numbers that they had.
impl<O: Object> ForgettingHall<O> {
    /// A session of this number is there, which is greater than that of each session before.
    pub fn open_as(&mut self, session: u32) -> Result<(), HallError>
        ensures ok { IsNoEvent O.rules (opened_as (rest_of_hall O.rules self.old) session) result
            self.old self.new }
        ensures refused { session ≤ self.old.opened → result ≡ Err BadNumber }
        ensures memory { self.old.opened < session → IfErr result (λ r. r ≡ OutOfMemory) }
    {
        halls_rest::<O>();
        if session <= self.opened {
            return Err(HallError::BadNumber);
        }
        self.clients.open(session)?;
        self.opened = session;
        Ok(())
    }

    /// A command is handed in with its key, at a node: one of a session that is there, or a second of the clock, whose
    /// number is greater than the last one's.
    pub fn hand_in(&mut self, command: Command<O::Op>, node: u8) -> Result<(), HallError>
        ensures ok { TakesIn O.rules node command (refusal_of_keyed self.old command.key node)
            result self.old self.new }
    {
        every_world::<O>();
        halls_rest::<O>();
        if let Some(refused) = self.refusal_of_keyed(command.key(), node) {
            return Err(refused);
        }
        ask(self.alloc, &mut self.network, node, command.copy()?)?;
        self.clients.hand_in(command);
        self.taken += 1;
        Ok(())
    }
}
