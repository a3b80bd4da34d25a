ghost use Rattle.std.specs.Prelude.{◌≡◌, ◌<◌, ◌≤◌, ◌^◌, SomeIff};

use std::marker::Model;

/// A place in the order of commands, 1 to 2^62.
#[derive(Clone, Copy, Debug, PartialEq, Eq, PartialOrd, Ord)]
pub struct Slot {
    number: u64,
}

impl Model for Slot {
    ghost use Rattle.std.specs.Prelude.{ℕ, ◌<◌, ◌≤◌, ◌^◌};

    ghost Value = { ℕ };

    ghost view = { λ s. s.number };

    ghost invariant = { λ s. (0 < s.number) × (s.number ≤ 2 ^ 62) };

    ghost inverse = { λ n. record { number = n } };
}

impl Slot {
    /// The slot of this number, where it is 1 to 2^62.
    pub fn new(number: u64) -> Option<Slot>
        ensures { SomeIff result ((0 < number) × (number ≤ 2 ^ 62)) number }
    {
        if number >= 1 && number <= 1 << 62 {
            Some(Slot { number })
        } else {
            None
        }
    }

    /// Its number.
    pub fn number(&self) -> u64
        ensures number { result ≡ self.now }
        ensures above { 0 < result }
        ensures within { result ≤ 2 ^ 62 }
    {
        self.number
    }
}
