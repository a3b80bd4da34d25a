ghost use Rattle.std.specs.Prelude.{◌≡◌, ◌↔◌, ◌<◌, ◌≤◌, ◌+◌, true, OnOk};
ghost use Rattle.world.specs.WaySteps.{ButForMemory, HasRoom};
ghost use Rattle.world.specs.WaysOut.{IsAtRest, IsSmall, HasTalked, work};

use crate::error::WorldError;
use crate::way::Way;
use agreement::Event;
use ballot::ballot_laws;
use object::Object;

impl<O: Object> Way<O> {
    // Goes on until the leader of node 1 is active and waits for nothing.
    pub(crate) fn come_to_rest(&mut self) -> Result<(), WorldError>
        requires { HasRoom self.old.trial 0 }
        ensures at_rest { OnOk result (IsAtRest self.new.trial.cluster) }
        ensures spent { OnOk result (self.new.trial.taken + work self.new.trial.cluster
            ≤ self.old.trial.taken + work self.old.trial.cluster) }
        ensures talked { ButForMemory result (HasTalked O.rules self.old.trial
            self.old.events.items self.new.trial self.new.events.items) }
    {
        while !self.is_at_rest() {
            self.turn()?;
        }
        Ok(())
    }

    // The leader of node 1 wakes, and asks for whatever it waits for.
    fn turn(&mut self) -> Result<(), WorldError>
        requires left { IsAtRest self.old.trial.cluster → ⊥ }
        requires room { HasRoom self.old.trial 0 }
        ensures small { OnOk result (IsSmall self.new.trial.cluster) }
        ensures spent { OnOk result (self.new.trial.taken + work self.new.trial.cluster
            ≤ self.old.trial.taken + work self.old.trial.cluster) }
        ensures later { OnOk result (self.old.trial.taken < self.new.trial.taken) }
        ensures talked { ButForMemory result (HasTalked O.rules self.old.trial
            self.old.events.items self.new.trial self.new.events.items) }
    {
        ballot_laws();
        self.trial.show_reachable();
        self.take(Event::Wake(1))?;
        self.ask_all()
    }

    // Whether it is active and waits for nothing.
    fn is_at_rest(&self) -> bool
        ensures { (result ≡ true) ↔ IsAtRest self.now.trial.cluster }
    {
        ballot_laws();
        self.trial.show_reachable();
        self.trial.is_active() && self.trial.awaited_count() == 0
    }
}
