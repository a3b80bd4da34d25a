use ballot::Slot;
use object::{Effect, Key};

/// What became of the command of a slot.
#[derive(Clone, Copy, Debug, PartialEq, Eq)]
pub struct Performed {
    pub slot: Slot,
    pub key: Key,
    pub effect: Effect,
}
