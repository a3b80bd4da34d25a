ghost use Rattle.std.specs.Prelude.{◌≡◌, OnOk, OnErr, IsOk};
ghost use Rattle.object.specs.declared.command.Command.{Command};
ghost use Rattle.ballot.specs.declared.letter.LetterBody.TheVariants.{P2a};
ghost use Rattle.ballot.specs.declared.pvalue.Pvalue.{Pvalue};
ghost use Rattle.cluster.specs.Storing.{new_stored, stored_after};
ghost use Rattle.host.specs.Storing.{IsAsGood, stored_from};

use acceptor::Acceptor;
use ballot::{LetterBody, ballot_laws};
use object::{Command, Value};
use std::alloc::{AllocError, Global};
use std::marker::Model;

/// What outlives a host's process: its last boot, and what its acceptor promised, and accepted in the slots from a base
/// on. It is made anew by hearing the records of a journal, one after the other.
#[derive(Drop)]
pub struct Stored<Op: Value> {
    base: u64,
    acceptor: Acceptor<Command<Op>>,
    boot: u64,
}

impl<Op: Value> Model for Stored<Op> {
    ghost use Rattle.cluster.specs.Storing as storing;

    ghost Value = { storing.Stored Op };

    ghost view = { λ s. record { base = s.base; acceptor = s.acceptor; boot = s.boot } };
}

impl<Op: Value> Stored<Op> {
    /// Of a host to which nothing happened yet.
    pub fn new(alloc: Global) -> Stored<Op>
        ensures { result ≡ new_stored }
    {
        Stored {
            base: 0,
            acceptor: Acceptor::new(alloc),
            boot: 0,
        }
    }

    /// The first slot of which it has what was accepted.
    pub fn base(&self) -> u64
        ensures { result ≡ self.now.base }
    {
        self.base
    }

    /// The last boot.
    pub fn boot(&self) -> u64
        ensures { result ≡ self.now.boot }
    {
        self.boot
    }

    /// What was promised and accepted.
    pub fn acceptor(&self) -> &Acceptor<Command<Op>>
        ensures { result.now ≡ self.now.acceptor }
    {
        &self.acceptor
    }

    /// A record more: what the host received. Of a slot it keeps what was accepted under the highest ballot. What asks
    /// for no acceptance takes no memory.
    pub fn hear(&mut self, body: &LetterBody<Command<Op>>) -> Result<(), AllocError>
        ensures ok { OnOk result (IsAsGood (stored_after self.old body.now) self.new) }
        ensures idle { ((p : Pvalue (Command Op)) → body.now ≡ P2a p → ⊥) → IsOk result }
        ensures err { OnErr result (self.new ≡ self.old) }
    {
        ballot_laws();
        match body {
            LetterBody::P1a(ballot) => {
                self.acceptor.promise(*ballot);
            }
            LetterBody::P2a(pvalue) => {
                self.acceptor.on_p2a(pvalue.copy()?)?;
            }
            _ => {}
        }
        Ok(())
    }

    /// A record more: the host began anew, with this boot.
    pub fn begin(&mut self, boot: u64)
        ensures { self.new ≡ record self.old { boot = boot } }
    {
        self.boot = boot;
    }

    /// Forgets the slots below the base, where that is higher than its own.
    pub fn forget(&mut self, base: u64)
        ensures { self.new ≡ stored_from base self.old }
    {
        self.acceptor.forget(base);
        self.base = self.base.max(base);
    }

    // Its acceptor.
    pub(crate) fn into_acceptor(self) -> Acceptor<Command<Op>>
        ensures { result ≡ self.acceptor }
    {
        self.acceptor
    }
}
