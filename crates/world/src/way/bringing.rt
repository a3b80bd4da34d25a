ghost use Rattle.std.specs.Prelude.{◌≡◌, ◌↔◌, ◌≤◌, ◌^◌, true, IfOk, OnOk};
ghost use Rattle.object.specs.Lists.{In};
ghost use Rattle.object.specs.Legal.{WasSubmitted};
ghost use Rattle.slot_log.specs.Histories.{history};
ghost use Rattle.world.specs.Rescues.{keeps_nodes};
ghost use Rattle.world.specs.WaySteps.{ButForMemory};
ghost use Rattle.world.specs.WaysOut.{first_book, Goes, HasMore, ArePlaces, AreAllRead};

use crate::error::WorldError;
use crate::letter_places::LetterPlaces;
use crate::way::Way;
use agreement::Event;
use ballot::ballot_laws;
use object::{Command, Object, Value};
use std::alloc::AllocError;

impl<O: Object> Way<O> {
    // Has replica 1 perform a command that was submitted.
    pub(crate) fn bring(&mut self, command: &Command<O::Op>) -> Result<(), WorldError>
        requires was { WasSubmitted command.now self.old.trial.happenings.submitted }
        requires few { self.old.trial.taken ≤ 2 ^ 32 }
        ensures performed { OnOk result (In command.now
            (history (first_book self.new.trial.cluster))) }
        ensures submitted { OnOk result (self.new.trial.happenings.submitted
            ≡ self.old.trial.happenings.submitted) }
        ensures goes { ButForMemory result (Goes O.rules keeps_nodes self.old.trial
            self.old.events.items self.new.trial self.new.events.items) }
    {
        ballot_laws();
        self.trial.show_reachable();
        let request = command.copy()?;
        self.take(Event::Submit(1, request))?;
        self.trial.show_reachable();
        self.come_to_rest()?;
        let mut places = LetterPlaces::new(self.trial.allocator());
        while self.has_more(&mut places)? {
            self.trial.show_reachable();
            self.advance(&places)?;
        }
        self.trial.show_reachable();
        Ok(())
    }

    // Whether something is left for replica 1 to perform, or to propose. All letters are read then.
    fn has_more(&self, places: &mut LetterPlaces) -> Result<bool, AllocError>
        requires { ArePlaces self.now.trial.cluster.letters places.old.read places.old }
        ensures more { IfOk result (λ more. (more ≡ true)
            ↔ HasMore self.now.trial.cluster (first_book self.now.trial.cluster).slot_out) }
        ensures read { OnOk result (AreAllRead self.now.trial.cluster.letters places.new) }
    {
        self.trial.show_reachable();
        places.read_on(self.trial.letters())?;
        if self.trial.has_requests() {
            return Ok(true);
        }
        let slot = self.trial.slot_out();
        Ok(places.proposal_for(self.trial.letters(), slot).is_some())
    }
}
