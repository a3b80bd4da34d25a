//! How long is waited until something is tried again: exponential backoff, up to a second.
#![tactic(auto)]

ghost use Rattle.std.specs.Prelude.{◌≡◌, ◌≤◌, ◌*◌, min};
ghost use Rattle.std.specs.Duration.{as_nanos};

use std::marker::Model;
use std::time::Duration;

/// No pause is longer, in milliseconds.
pub const LONGEST_PAUSE: u64 = 1000;

/// How long is waited at first, and the next time, in milliseconds.
#[derive(Clone, Copy, Debug, PartialEq, Eq)]
pub struct Backoff {
    first: u64,
    next: u64,
}

impl Model for Backoff {
    ghost use Rattle.backoff.specs.Pauses.{ArePauses, Pauses};

    ghost Value = { Pauses };

    ghost view = { λ b. record { first = b.first; next = b.next } };

    ghost invariant = { λ b. ArePauses (record { first = b.first; next = b.next }) };

    ghost inverse = { λ b. record { first = b.first; next = b.next } };
}

impl Backoff {
    /// So many milliseconds are waited at first, a second at most.
    pub fn new(first: u64) -> Backoff
        ensures { let pause = min first LONGEST_PAUSE in
            result ≡ record { first = pause; next = pause } }
    {
        let pause = first.min(LONGEST_PAUSE);
        Backoff {
            first: pause,
            next: pause,
        }
    }

    /// How long is waited now. The next time it is twice as long, a second at most.
    pub fn next_pause(&mut self) -> Duration
        ensures pause { as_nanos result ≡ self.old.next * 1_000_000 }
        ensures least { self.old.first * 1_000_000 ≤ as_nanos result }
        ensures most { as_nanos result ≤ LONGEST_PAUSE * 1_000_000 }
        ensures longer { self.new.next ≡ min (self.old.next * 2) LONGEST_PAUSE }
        ensures first { self.new.first ≡ self.old.first }
    {
        let pause = self.next;
        self.next = pause.saturating_mul(2).min(LONGEST_PAUSE);
        Duration::from_millis(pause)
    }

    /// It is waited as long as at first, the next time.
    pub fn reset(&mut self)
        ensures { self.new ≡ record self.old { next = self.old.first } }
    {
        self.next = self.first;
    }
}
