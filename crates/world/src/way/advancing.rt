ghost use Rattle.std.specs.Prelude.{OnOk};
ghost use Rattle.object.specs.Objects.{is_one};
ghost use Rattle.world.specs.Telling.{IsProposedAt};
ghost use Rattle.world.specs.WaySteps.{ButForMemory, IsDueAt, IsUndecided, IsUnproposed, HasProposal};
ghost use Rattle.world.specs.WaysOut.{first_book, HasLearnt, HasDecided, HasAdvanced, AreAllRead, IsPassage, IsWholePassage};

use crate::error::WorldError;
use crate::letter_places::LetterPlaces;
use crate::way::Way;
use agreement::Event;
use ballot::{Slot, ballot_laws};
use object::Object;

impl<O: Object> Way<O> {
    // Has replica 1 perform one slot more.
    pub(crate) fn advance(&mut self, places: &LetterPlaces) -> Result<(), WorldError>
        requires read { AreAllRead self.old.trial.cluster.letters places.now }
        requires due { IsDueAt self.old.trial (first_book self.old.trial.cluster).slot_out 20 }
        ensures advanced { OnOk result (HasAdvanced (is_one O.rules) self.old.trial.cluster
            (first_book self.new.trial.cluster)) }
        ensures passage { ButForMemory result (IsWholePassage O.rules
            (first_book self.old.trial.cluster).slot_out 20 self.old.trial self.old.events.items
            self.new.trial self.new.events.items) }
    {
        ballot_laws();
        self.trial.show_reachable();
        let slot = self.trial.slot_out();
        self.learn(places, slot)?;
        self.trial.show_reachable();
        self.take(Event::Perform(1))
    }

    // Has replica 1 know what is decided in the slot that it performs next.
    fn learn(&mut self, places: &LetterPlaces, slot: Slot) -> Result<(), WorldError>
        requires read { AreAllRead self.old.trial.cluster.letters places.now }
        requires due { IsDueAt self.old.trial slot 19 }
        ensures decided { OnOk result (HasDecided self.old.trial.cluster slot
            (first_book self.new.trial.cluster)) }
        ensures passage { ButForMemory result (IsWholePassage O.rules slot 19 self.old.trial
            self.old.events.items self.new.trial self.new.events.items) }
    {
        if self.trial.knows(slot) {
            return Ok(());
        }
        self.decide(places, slot)
    }

    // Has that slot decided, and replica 1 told of it.
    fn decide(&mut self, places: &LetterPlaces, slot: Slot) -> Result<(), WorldError>
        requires read { AreAllRead self.old.trial.cluster.letters places.now }
        requires undecided { IsUndecided self.old.trial slot 19 }
        ensures learnt { OnOk result (HasLearnt self.old.trial.cluster slot
            (first_book self.new.trial.cluster)) }
        ensures passage { ButForMemory result (IsWholePassage O.rules slot 19 self.old.trial
            self.old.events.items self.new.trial self.new.events.items) }
    {
        ballot_laws();
        self.lead(places, slot)?;
        self.trial.show_reachable();
        match places.decision_for(self.trial.letters(), slot) {
            Some(place) => self.take(Event::Deliver(place)),
            None => unreachable!(),
        }
    }

    // Has the leader of node 1 get a proposal for that slot decided.
    fn lead(&mut self, places: &LetterPlaces, slot: Slot) -> Result<(), WorldError>
        requires read { AreAllRead self.old.trial.cluster.letters places.now }
        requires undecided { IsUndecided self.old.trial slot 18 }
        ensures proposal { OnOk result (HasProposal self.old.trial.cluster slot
            self.new.trial.cluster) }
        ensures passage { ButForMemory result (IsWholePassage O.rules slot 18 self.old.trial
            self.old.events.items self.new.trial self.new.events.items) }
    {
        ballot_laws();
        self.trial.show_reachable();
        if self.trial.has_proposal(slot) {
            return Ok(());
        }
        self.propose(places, slot)?;
        self.trial.show_reachable();
        self.come_to_rest()
    }

    // Has the leader of node 1 take a proposal for the slot that replica 1 performs next.
    fn propose(&mut self, places: &LetterPlaces, slot: Slot) -> Result<(), WorldError>
        requires read { AreAllRead self.old.trial.cluster.letters places.now }
        requires unproposed { IsUnproposed self.old.trial slot 18 }
        ensures proposal { OnOk result (HasProposal self.old.trial.cluster slot
            self.new.trial.cluster) }
        ensures passage { ButForMemory result (IsPassage O.rules slot 18 self.old.trial
            self.old.events.items self.new.trial self.new.events.items) }
    {
        ballot_laws();
        self.trial.show_reachable();
        match places.proposal_for(self.trial.letters(), slot) {
            Some(place) => self.take(Event::Deliver(place)),
            None => self.propose_first(slot),
        }
    }

    // The same, where no letter proposes anything for the slot: replica 1 proposes its first request there.
    fn propose_first(&mut self, slot: Slot) -> Result<(), WorldError>
        requires unproposed { IsUnproposed self.old.trial slot 18 }
        requires new { IsProposedAt self.old.trial.cluster slot → ⊥ }
        ensures proposal { OnOk result (HasProposal self.old.trial.cluster slot
            self.new.trial.cluster) }
        ensures passage { ButForMemory result (IsPassage O.rules slot 18 self.old.trial
            self.old.events.items self.new.trial self.new.events.items) }
    {
        ballot_laws();
        self.trial.show_reachable();
        let place = self.trial.letters().len();
        self.take(Event::Propose(1))?;
        self.take(Event::Deliver(place))
    }
}
