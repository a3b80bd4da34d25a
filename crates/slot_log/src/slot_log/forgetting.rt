ghost use Rattle.std.specs.Prelude.{◌≡◌, ◌+◌, ◌^◌, ◌<◌, ◌≤◌, ℕ, IsSome};
ghost use Rattle.std.specs.FinMap.{get};
ghost use Rattle.ballot.specs.Rests.{kept_from};
ghost use Rattle.object.specs.KeyMaps.{at_key};
ghost use Rattle.object.specs.declared.command.Key.{Key};
ghost use Rattle.slot_log.specs.Places.{AreFound, stands_at, place_from};
ghost use Rattle.slot_log.specs.Rests.{rest_of_book};

use super::{LAST_SLOT, SlotLog, WINDOW};
use crate::places::{Place, Places};
use ballot::{Slot, SlotMap, SlotRow};
use object::{Keyed, Value};
use std::collections::VecDeque;

impl<C: Value + Keyed> SlotLog<C> {
    /// Forgets what is known of the slots below the base, all of which were performed. It takes no memory. Where a
    /// decision is known below the base, it goes over all slots from the first known one to the last.
    pub fn forget(&mut self, base: u64)
        requires { base ≤ self.old.slot_out }
        ensures { self.new ≡ rest_of_book base self.old }
    {
        let start = self.decisions.start();
        if start < base {
            let end = self.decisions.end().max(self.slot_out + WINDOW);
            settle(
                &self.requests,
                self.front_rank,
                &self.proposals,
                &self.decisions,
                base,
                end.min(LAST_SLOT + 1),
                &mut self.places,
            );
            leave(&self.decisions, start, base, &mut self.places);
            self.decisions.forget(base);
            self.places
                .keep_others(&self.requests, &self.proposals, &self.decisions);
        }
        self.slot_in = self.slot_in.max(base);
    }
}

// Each command that stands in the requests, or in a slot from `base` on, has its place there from then on. All slots
// are before `end`.
fn settle<C: Value + Keyed>(
    requests: &VecDeque<C>,
    front_rank: usize,
    proposals: &SlotMap<C>,
    decisions: &SlotRow<C>,
    base: u64,
    end: u64,
    places: &mut Places<C>,
)
    requires found { AreFound C.eq C.key_of (at_key places.old.by_key)
        (stands_at requests.now.items front_rank proposals.now decisions.now) places.old.others.items }
    requires slots { (0 < base) × (end ≤ 2 ^ 62 + 1) }
    requires rank { front_rank ≤ 2 ^ 62 }
    requires proposals { (s : ℕ) → IsSome (get proposals.now s) → (base ≤ s) × (s < end) }
    requires decisions { (s : ℕ) → IsSome (get decisions.now s) → s < end }
    ensures { AreFound C.eq C.key_of (at_key places.new.by_key)
        (stands_at requests.now.items front_rank proposals.now (kept_from base decisions.now)) places.new.others.items }
{
    for index in 0..requests.len() {
        places.relocate(&requests[index], Place::Requested(front_rank + index));
    }
    for number in base..end {
        let slot = Slot::new(number).unwrap();
        if let Some(command) = proposals.get(slot) {
            places.relocate(command, Place::Proposed(slot));
        }
    }
    for number in base..end {
        let slot = Slot::new(number).unwrap();
        if let Some(command) = decisions.get(slot) {
            places.relocate(command, Place::Decided(slot));
        }
    }
}

// Takes away the places that are decisions' of the slots from `start` on and below the base. The last go first, which
// moves the least.
fn leave<C: Value + Keyed>(decisions: &SlotRow<C>, start: u64, base: u64, places: &mut Places<C>)
    requires { (0 < start) × (base ≤ 2 ^ 62 + 1) }
    ensures places { (q : Key) → place_from base (at_key places.new.by_key q)
        ≡ place_from base (at_key places.old.by_key q) }
    ensures others { places.new.others.items ≡ places.old.others.items }
{
    for number in (start..base).rev() {
        let slot = Slot::new(number).unwrap();
        if let Some(command) = decisions.get(slot) {
            places.forget(command.key(), base);
        }
    }
}
