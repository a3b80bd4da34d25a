ghost use Rattle.std.specs.Prelude.{◌≡◌, ℕ};
ghost use Rattle.host.specs.Forgetting.{no_later_than, lowest_asked, base_within, forgets_upto};

use super::Host;
use crate::envelope::Envelope;
use ballot::LetterBody;
use object::Object;
use std::collections::VecDeque;

impl<O: Object> Host<O> {
    /// Forgets the slots below the base, but none that its replica hasn't performed, and none from the first on of which
    /// something speaks that was put aside. It takes no memory.
    pub fn forget(&mut self, base: u64)
        ensures { self.new ≡ forgets_upto base self.old }
    {
        let base = self.base_within(base);
        if self.base < base {
            self.node.forget(base);
            self.base = base;
        }
    }

    // The base, as far as it may forget.
    fn base_within(&self, base: u64) -> u64
        ensures { result ≡ base_within base self.now }
    {
        lowest_asked(base.min(self.node.slots().slot_out()), &self.aside)
    }
}

// The slot, or the least one in which any of these asks for an acceptance, where that is lower.
pub(super) fn lowest_asked<C>(slot: u64, aside: &VecDeque<Envelope<C>>) -> u64
    ensures { result ≡ lowest_asked slot aside.now.items }
{
    let mut lowest = slot;
    for envelope in aside {
        lowest = no_later_than(lowest, &envelope.letter().body);
    }
    lowest
}

// The slot, or the one in which an acceptance is asked for, where that is lower.
fn no_later_than<C>(slot: u64, body: &LetterBody<C>) -> u64
    ensures { result ≡ no_later_than slot body.now }
{
    match body {
        LetterBody::P2a(pvalue) => slot.min(pvalue.slot.number()),
        _ => slot,
    }
}
