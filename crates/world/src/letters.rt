ghost use Rattle.std.specs.Prelude.{◌≡◌, ◌≤◌, ℕ, IfSome, IfNone};
ghost use Rattle.world.specs.WaysOut.{Decides, is_decision};

use ballot::{Letter, LetterBody, Slot};
use object::Value;

/// A letter that tells node 1 what is decided in the slot, of those from the place on.
pub(crate) fn find_decision<C: Value>(
    letters: &[Letter<C>],
    start: usize,
    slot: Slot,
) -> Option<usize>
    ensures some { IfSome result (λ place. Decides letters.now place slot) }
    ensures none { IfNone result ((place : ℕ) → start ≤ place → Decides letters.now place slot → ⊥) }
{
    for place in start..letters.len() {
        if decides(&letters[place], slot) {
            return Some(place);
        }
    }
    None
}

// Whether it tells node 1 what is decided in the slot.
fn decides<C: Value>(letter: &Letter<C>, slot: Slot) -> bool
    ensures { result ≡ is_decision slot letter.now }
{
    match &letter.body {
        LetterBody::Decision(own, _) => letter.to == 1 && *own == slot,
        _ => false,
    }
}
