ghost use Rattle.std.specs.Prelude.{ℕ, ◌+◌, ◌^◌, ◌<◌, ◌≤◌, IsSome};
ghost use Rattle.std.specs.FinMap as slots;

use super::SlotRow;

impl<X> SlotRow<X> {
    /// A number below which no slot has a value.
    pub fn start(&self) -> u64
        ensures least { (s : ℕ) → IsSome (slots.get self.now s) → result ≤ s }
        ensures above { 0 < result }
    {
        match self.beside.entries().first_key_value() {
            Some((slot, _)) => self.first.min(slot.number()),
            None => self.first,
        }
    }

    /// A number from which on no slot has a value.
    pub fn end(&self) -> u64
        ensures past { (s : ℕ) → IsSome (slots.get self.now s) → s < result }
        ensures within { result ≤ 2 ^ 62 + 1 }
    {
        let end = self.first + self.row.len() as u64;
        match self.beside.entries().last_key_value() {
            Some((slot, _)) => end.max(slot.number() + 1),
            None => end,
        }
    }
}
