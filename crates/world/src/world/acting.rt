ghost use Rattle.std.specs.Prelude.{◌≡◌, ◌<◌, true, length, IsOk, OnOk, OnErr};
ghost use Rattle.ballot.specs.Members.{is_member};
ghost use Rattle.node.specs.Deeds.{ComesToNothing};
ghost use Rattle.agreement.specs.declared.event.Event.TheVariants as events;
ghost use Rattle.agreement.specs.Nodes.{node};
ghost use Rattle.agreement.specs.Events.{event_of};
ghost use Rattle.world.specs.Quiet.{BringsNothing};
ghost use Rattle.agreement.specs.Steps.{Step, AsksForItsOwn};
ghost use Rattle.agreement.specs.Runs.{most_events};
ghost use Rattle.world.specs.Kept.{key_past};

use super::World;
use crate::submissions::{make_room_if, push_in_room, submission_by};
use ballot::{Letter, LetterBody, Slot, ballot_laws};
use node::{Deed, Outcome};
use object::{Key, Object};
use std::alloc::AllocError;
use std::mem;

impl<O: Object> World<O> {
    // A node does something by itself, and what comes of it is noted.
    pub(super) fn act(&mut self, id: u8, deed: Deed<O::Op>) -> Result<(), AllocError>
        requires member { is_member self.old.cluster.members id ≡ true }
        requires own { AsksForItsOwn deed self.old.happenings.submitted }
        requires room { self.old.taken < most_events }
        ensures ok { OnOk result (Step O.rules self.old (event_of id deed) self.new) }
        ensures idle { ComesToNothing O.rules (node self.old.cluster id) deed → IsOk result }
        ensures err { OnErr result (self.new ≡ self.old) }
    {
        ballot_laws();
        let added = submission_by(&deed, self.submitted.as_slice(), self.answers.len())?;
        let place = usize::from(id - 1);
        let performs = self.nodes[place].performs(&deed);
        make_room_if(&mut self.submitted, added.is_some())?;
        make_room_if(&mut self.performed, performs)?;
        let node = &mut self.nodes[place].node;
        let came = node.act(deed, &mut self.letters, &mut self.answers)?;
        push_in_room(&mut self.submitted, added);
        push_in_room(&mut self.performed, key_past(self.reach, &came));
        self.reach = came.reach_after(self.reach);
        self.taken += 1;
        Ok(())
    }

    // A letter reaches its receiver. It is lent while the receiver sends what comes after it.
    pub(super) fn deliver(&mut self, index: usize) -> Result<(), AllocError>
        requires sent { index < length self.old.cluster.letters }
        requires room { self.old.taken < most_events }
        ensures ok { OnOk result (Step O.rules self.old (events.Deliver index) self.new) }
        ensures idle { BringsNothing O.rules self.old.cluster (events.Deliver index) → IsOk result }
        ensures err { OnErr result (self.new ≡ self.old) }
    {
        ballot_laws();
        let letter = mem::replace(&mut self.letters[index], stand_in());
        let watched = &mut self.nodes[usize::from(letter.to - 1)];
        let received = watched.receive(letter.from, &letter.body, &mut self.letters);
        self.letters[index] = letter;
        received?;
        self.taken += 1;
        Ok(())
    }
}

// A letter that stands where another one is lent.
fn stand_in<C>() -> Letter<C> {
    let slot = Slot::new(1).unwrap();
    Letter {
        from: 0,
        to: 0,
        body: LetterBody::Ask(slot),
    }
}

// The key that is noted after what came of a deed, or none: that of a slot past the reach.
fn key_past(reach: u64, came: &Outcome) -> Option<Key>
    ensures { result ≡ key_past reach came.now }
{
    match came {
        Outcome::Performed(performed) if performed.slot.number() > reach => Some(performed.key),
        _ => None,
    }
}
