ghost use Rattle.std.specs.Prelude.{◌≡◌};
ghost use Rattle.std.specs.FinMap.{values};
ghost use Rattle.std.specs.List.{list_any};
ghost use Rattle.slot_log.specs.Books.{SlotBook};
ghost use Rattle.slot_log.specs.Requests.{is_known};

use ballot::{Slot, SlotMap, SlotRow};
use object::Value;
use std::collections::VecDeque;

/// Whether a book with these requests, proposals and decisions knows the command. It looks through them all.
pub(crate) fn stands_in<C: Value>(
    requests: &VecDeque<C>,
    proposals: &SlotMap<C>,
    decisions: &SlotRow<C>,
    command: &C,
) -> bool
    ensures { (book : SlotBook C) → book.requests ≡ requests.now.items
        → book.proposals ≡ proposals.now → book.decisions ≡ decisions.now
        → result ≡ is_known C.eq book command.now }
{
    requests.contains(command) || is_proposed(proposals, command) || is_decided(decisions, command)
}

// Whether the command is proposed in a slot.
fn is_proposed<C: Value>(proposals: &SlotMap<C>, command: &C) -> bool
    ensures { result ≡ list_any (λ d. C.eq d command.now) (values proposals.now) }
{
    let mut proposed = proposals.entries().values();
    proposed.any(|other| other == command)
}

// Whether the command is decided in a slot.
fn is_decided<C: Value>(decisions: &SlotRow<C>, command: &C) -> bool
    ensures { result ≡ list_any (λ d. C.eq d command.now) (values decisions.now) }
{
    for number in decisions.start()..decisions.end() {
        let slot = Slot::new(number).unwrap();
        if let Some(decided) = decisions.get(slot) {
            if decided == command {
                return true;
            }
        }
    }
    false
}
