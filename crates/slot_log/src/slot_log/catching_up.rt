ghost use Rattle.std.specs.Prelude.{◌≡◌, ◌+◌, ◌<◌, ◌≤◌, ℕ, max, IsSome};
ghost use Rattle.std.specs.FinMap.{get};
ghost use Rattle.slot_log.specs.Books.{new_book, window};
ghost use Rattle.slot_log.specs.CatchingUp.{skipped, book_from};
ghost use Rattle.slot_log.specs.Proposals.{IsInWindow};

use super::{SlotLog, WINDOW};
use crate::places::{Place, Places};
use ballot::{Slot, SlotMap, SlotRow};
use object::{Keyed, Value};
use std::alloc::Global;
use std::collections::VecDeque;

impl<C: Value + Keyed> SlotLog<C> {
    /// A log with nothing in it, which goes on at the slot. It takes no memory.
    pub fn at(alloc: Global, slot: Slot) -> SlotLog<C>
        ensures { result ≡ record new_book { slot_in = slot; slot_out = slot } }
    {
        SlotLog {
            slot_in: slot.number(),
            slot_out: slot.number(),
            requests: VecDeque::new(alloc),
            proposals: SlotMap::new(alloc),
            decisions: SlotRow::new(alloc),
            front_rank: 0,
            places: Places::new(alloc),
            alloc,
        }
    }

    /// The log goes on at a higher slot, without the decisions before it. What it has proposed for the
    /// slots before it goes back to the requests, in rising slot. It takes no memory. It goes over no more
    /// slots than the window has, and then over those that `forget` goes over.
    pub fn catch_up(&mut self, slot: Slot)
        requires { self.old.slot_out ≤ slot }
        ensures { self.new ≡ book_from slot self.old }
    {
        self.propose_from(slot);
        let end = slot.number().min(self.window_end());
        for _ in self.slot_out()..end {
            self.skip();
        }
        self.go_on_at(slot);
        self.forget(slot.number());
    }

    // Nothing is proposed for slots before this one from then on.
    fn propose_from(&mut self, slot: Slot)
        ensures { self.new ≡ record self.old { slot_in = max self.old.slot_in slot } }
    {
        self.slot_in = self.slot_in.max(slot.number());
    }

    // The number behind the window's slots. All proposals are in the window.
    fn window_end(&self) -> u64
        ensures end { result ≡ self.now.slot_out + window }
        ensures near { (s : ℕ) → IsSome (get self.now.proposals s) → IsInWindow self.now.slot_out s }
    {
        self.slot_out + WINDOW
    }

    // The log goes on behind `slot_out`, and performs nothing there.
    fn skip(&mut self)
        requires { self.old.slot_out < self.old.slot_in }
        ensures { self.new ≡ skipped self.old }
    {
        let slot = Slot::new(self.slot_out).unwrap();
        let rank = self.front_rank + self.requests.len();
        self.slot_out += 1;
        let Some(proposal) = self.proposals.remove(slot) else {
            return;
        };
        self.places.relocate(&proposal, Place::Requested(rank));
        self.requests.push_back(proposal).unwrap();
    }

    // The log goes on at the slot, and has no proposals before it.
    fn go_on_at(&mut self, slot: Slot)
        requires low { self.old.slot_out ≤ slot }
        requires high { slot ≤ self.old.slot_in }
        requires proposals { (s : ℕ) → IsSome (get self.old.proposals s) → slot ≤ s }
        ensures { self.new ≡ record self.old { slot_out = slot } }
    {
        self.slot_out = slot.number();
    }
}
