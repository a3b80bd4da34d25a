ghost use Rattle.std.specs.Prelude.{◌≡◌, ◌<◌, ◌≤◌, ◌+◌, ◌*◌, OnOk};
ghost use Rattle.agreement.specs.Runs.{most_events};
ghost use Rattle.world.specs.WaySteps.{ButForMemory};
ghost use Rattle.world.specs.WaysOut.{IsQuestion, HasAsked, HasScout, questions, IsOver, HasTalked, Goes, is_talk};

use crate::error::WorldError;
use crate::way::Way;
use agreement::Event;
use ballot::ballot_laws;
use object::Object;

impl<O: Object> Way<O> {
    // Has a letter that asks for a promise or a vote delivered, and then the answer to it.
    pub(crate) fn ask(&mut self, place: usize) -> Result<(), WorldError>
        requires question { IsQuestion self.old.trial place }
        requires room { self.old.trial.taken + 1 < most_events }
        ensures asked { OnOk result (HasAsked O.rules self.old.trial place self.new.trial) }
        ensures goes { ButForMemory result (Goes O.rules is_talk self.old.trial
            self.old.events.items self.new.trial self.new.events.items) }
    {
        ballot_laws();
        self.trial.show_reachable();
        let reply = self.trial.letters().len();
        self.take(Event::Deliver(place))?;
        self.take(Event::Deliver(reply))
    }

    // Has node 1 say again what its leader waits for, and each question answered.
    pub(crate) fn ask_all(&mut self) -> Result<(), WorldError>
        requires posted { HasScout self.old.trial.cluster }
        requires room { self.old.trial.taken + 1 + 2 * questions self.old.trial.cluster
            ≤ most_events }
        ensures over { OnOk result (IsOver self.old.trial self.new.trial) }
        ensures talked { ButForMemory result (HasTalked O.rules self.old.trial
            self.old.events.items self.new.trial self.new.events.items) }
        ensures spent { OnOk result (self.new.trial.taken ≡ self.old.trial.taken + 1
            + 2 * questions self.old.trial.cluster) }
    {
        ballot_laws();
        self.trial.show_reachable();
        let questions = usize::from(self.trial.count()) * self.trial.awaited_count();
        let first = self.trial.letters().len();
        self.take(Event::Nudge(1))?;
        for place in first..first + questions {
            self.trial.show_reachable();
            self.ask(place)?;
        }
        self.trial.show_reachable();
        Ok(())
    }
}
