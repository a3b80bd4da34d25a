ghost use Rattle.std.specs.Prelude.{◌≡◌, length};
ghost use Rattle.world.specs.Refusals.{refusal, keeps_acts};
ghost use Rattle.agreement.specs.Events.{is_at_member, is_sent};

use super::World;
use crate::error::WorldError;
use crate::submissions::has_other_act;
use agreement::{Event, MOST_EVENTS};
use object::Object;

impl<O: Object> World<O> {
    // Why the event is refused, want of memory aside.
    #[tactic(auto, unfolding(crate::specs::Refusals::refusal))]
    pub(super) fn refusal(&self, event: &Event<O::Op>) -> Option<WorldError>
        ensures { result ≡ refusal O.Op.eq self.now event.now }
    {
        if !self.is_at_member(event) {
            return Some(WorldError::NoSuchNode);
        }
        if !self.is_sent(event) {
            return Some(WorldError::NoSuchLetter);
        }
        if !self.keeps_acts(event) {
            return Some(WorldError::BadNumber);
        }
        if self.taken >= MOST_EVENTS {
            return Some(WorldError::Full);
        }
        None
    }

    // Whether the node that the event is at is a member.
    fn is_at_member(&self, event: &Event<O::Op>) -> bool
        ensures { result ≡ is_at_member self.now.cluster.members event.now }
    {
        match event {
            Event::Submit(id, _)
            | Event::Wake(id)
            | Event::Nudge(id)
            | Event::Propose(id)
            | Event::Perform(id)
            | Event::Restart(id) => self.members.has(*id),
            Event::Deliver(_) => true,
        }
    }

    // Whether the letter that the event names was sent.
    fn is_sent(&self, event: &Event<O::Op>) -> bool
        ensures { result ≡ is_sent (length self.now.cluster.letters) event.now }
    {
        match event {
            Event::Deliver(index) => *index < self.letters.len(),
            _ => true,
        }
    }

    // Whether the key that the event submits was not submitted with another act.
    fn keeps_acts(&self, event: &Event<O::Op>) -> bool
        ensures { result ≡ keeps_acts O.Op.eq self.now.happenings.submitted event.now }
    {
        match event {
            Event::Submit(_, command) => !has_other_act(self.submitted.as_slice(), command),
            _ => true,
        }
    }
}
