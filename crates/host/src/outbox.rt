ghost use Rattle.std.specs.Prelude.{◌≡◌, IfOk, []};
ghost use Rattle.cluster.specs.Clusters.{labelled};

use crate::envelope::Envelope;
use ballot::Letter;
use std::alloc::{AllocError, Global};
use std::marker::Model;

/// What a host sends while it keeps one base. Its letters leave in envelopes with that base, whatever the host forgets
/// meanwhile.
#[derive(Drop)]
pub struct Outbox<C> {
    base: u64,
    pub(crate) letters: Vec<Letter<C>>,
}

impl<C> Model for Outbox<C> {
    ghost use Rattle.host.specs.Outboxes.{Outgoing};

    ghost Value = { Outgoing C };

    ghost view = { λ o. record { base = o.base; letters = o.letters.items } };
}

impl<C> Outbox<C> {
    /// Nothing is sent under this base yet.
    pub(crate) fn new(alloc: Global, base: u64) -> Outbox<C>
        ensures { result ≡ record { base = base; letters = [] } }
    {
        Outbox {
            base,
            letters: Vec::new(alloc),
        }
    }

    /// The base under which its letters leave.
    pub fn base(&self) -> u64
        ensures { result ≡ self.now.base }
    {
        self.base
    }

    /// The letters in their envelopes. Where memory is refused, they are lost.
    pub fn into_envelopes(self) -> Result<Vec<Envelope<C>>, AllocError>
    where
        C: Drop,
        ensures { IfOk result (λ envelopes. envelopes.items ≡ labelled self.base self.letters) }
    {
        let mut envelopes = Vec::new(*self.letters.allocator());
        for letter in self.letters {
            envelopes.push(Envelope::new(self.base, letter))?;
        }
        Ok(envelopes)
    }
}
