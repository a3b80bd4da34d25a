ghost use Rattle.std.specs.Prelude.{◌≡◌};

use std::marker::Model;

/// That so many of all commands of a log are kept. But for none, only a journal makes one.
#[derive(Clone, Copy, Debug, PartialEq, Eq)]
pub struct Kept {
    upto: u64,
}

impl Model for Kept {
    ghost use Rattle.std.specs.Prelude.{ℕ};

    ghost Value = { ℕ };

    ghost view = { λ kept. kept.upto };

    ghost inverse = { λ n. record { upto = n } };
}

impl Kept {
    /// No command is: what rests on none needs no log.
    pub fn none() -> Kept
        ensures { result ≡ 0 }
    {
        Kept { upto: 0 }
    }

    /// How many are.
    pub fn upto(self) -> u64
        ensures { result ≡ self }
    {
        self.upto
    }

    // Of so many commands, as the journal counts them.
    pub(crate) fn of(upto: u64) -> Kept
        ensures { result ≡ upto }
    {
        Kept { upto }
    }
}
