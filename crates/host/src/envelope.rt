ghost use Rattle.std.specs.Prelude.{◌≡◌};

use ballot::Letter;
use std::marker::Model;

/// A letter on its way between hosts, under the base that its sender had as it sent it.
#[derive(Drop)]
pub struct Envelope<C> {
    label: u64,
    letter: Letter<C>,
}

impl<C> Model for Envelope<C> {
    ghost use Rattle.cluster.specs.Envelopes as envelopes;

    ghost Value = { envelopes.Envelope C };

    ghost view = { λ e. record { label = e.label; letter = e.letter } };
}

impl<C> Envelope<C> {
    /// The letter under this label.
    pub fn new(label: u64, letter: Letter<C>) -> Envelope<C>
        ensures { result ≡ record { label = label; letter = letter } }
    {
        Envelope { label, letter }
    }

    /// The base that its sender had.
    pub fn label(&self) -> u64
        ensures { result ≡ self.now.label }
    {
        self.label
    }

    /// The letter.
    pub fn letter(&self) -> &Letter<C>
        ensures { result.now ≡ self.now.letter }
    {
        &self.letter
    }
}
