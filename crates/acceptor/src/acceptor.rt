ghost use Rattle.std.specs.Prelude.{◌≡◌, false, IfOk, OnOk, OnErr};
ghost use Rattle.std.specs.Option.{option_copied};
ghost use Rattle.object.specs.Results.{Becomes};
ghost use Rattle.ballot.specs.Ballots.{higher, is_promise};
ghost use Rattle.acceptor.specs.Reports.{IsReport};
ghost use Rattle.acceptor.specs.Places.{is_higher};
ghost use Rattle.acceptor.specs.Acceptors.{new_acceptor, after_p1a, after_p2a, Keeps};
ghost use Rattle.acceptor.specs.Rests.{rest_of_acceptor};

use crate::accepted::Accepted;
use ballot::{Ballot, Pvalue, SlotRow};
use object::Value;
use std::alloc::{AllocError, Global};
use std::marker::Model;

/// An acceptor. Of each slot it keeps what it accepted under the highest ballot.
#[derive(Drop)]
pub struct Acceptor<C: Value> {
    promised: Option<Ballot>,
    accepted: SlotRow<Accepted<C>>,
    alloc: Global,
}

impl<C: Value> Model for Acceptor<C> {
    ghost use Rattle.std.specs.Prelude.{map};
    ghost use Rattle.std.specs.FinMap.{entries};
    ghost use Rattle.acceptor.specs.Acceptors.{Acceptances};
    ghost use Rattle.acceptor.specs.Places.{pvalue_of};

    ghost Value = { Acceptances C };

    ghost view = { λ a. record { promised = a.promised; accepted = map pvalue_of (entries a.accepted) } };
}

impl<C: Value> Acceptor<C> {
    /// An acceptor that has promised and accepted nothing.
    pub fn new(alloc: Global) -> Self
        ensures { result ≡ new_acceptor }
    {
        Acceptor {
            promised: None,
            accepted: SlotRow::new(alloc),
            alloc,
        }
    }

    /// The same acceptor once more.
    pub fn copy(&self) -> Result<Acceptor<C>, AllocError>
        ensures { IfOk result (λ copy. copy ≡ self.now) }
    {
        Ok(Acceptor {
            promised: self.promised,
            accepted: self.accepted.copy()?,
            alloc: self.alloc,
        })
    }

    /// Hears a P1a: promises the ballot where it is higher, and answers with a P1b, which has the ballot
    /// that is promised now and a report of what was accepted.
    pub fn on_p1a(&mut self, ballot: Ballot) -> Result<(Ballot, Vec<Pvalue<C>>), AllocError>
        ensures state { Becomes result self.old self.new (after_p1a self.old ballot) }
        ensures promised { IfOk result (λ answer. answer.0 ≡ higher self.old.promised ballot) }
        ensures report { IfOk result (λ answer. IsReport self.old.accepted answer.1.items) }
    {
        let report = self.report()?;
        Ok((self.promise(ballot), report))
    }

    /// Promises the ballot where it is higher, without a report, and says which one is promised now.
    pub fn promise(&mut self, ballot: Ballot) -> Ballot
        ensures state { self.new ≡ after_p1a self.old ballot }
        ensures promised { result ≡ higher self.old.promised ballot }
    {
        let promised = match self.promised {
            None => ballot,
            Some(old) => { if old < ballot { ballot } else { old } }
        };
        self.promised = Some(promised);
        promised
    }

    /// Hears a P2a: accepts the pvalue where its ballot is the promised one, and answers with the ballot of
    /// a P2b, the promised one, which no P2a changes.
    pub fn on_p2a(&mut self, pvalue: Pvalue<C>) -> Result<Option<Ballot>, AllocError>
        ensures state { OnOk result (Keeps (after_p2a self.old pvalue) self.new) }
        ensures refused { OnOk result (is_promise self.old.promised pvalue.ballot ≡ false →
            self.new ≡ self.old) }
        ensures promised { IfOk result (λ promised. promised ≡ self.old.promised) }
        ensures err { OnErr result (self.new ≡ self.old) }
    {
        if self.promised != Some(pvalue.ballot) {
            return Ok(self.promised);
        }
        if is_higher(self.accepted.get(pvalue.slot), pvalue.ballot) {
            return Ok(self.promised);
        }
        let accepted = Accepted {
            ballot: pvalue.ballot,
            value: pvalue.value,
        };
        self.accepted.insert(pvalue.slot, accepted)?;
        Ok(self.promised)
    }

    /// The ballot that it promised, if any.
    pub fn promised(&self) -> Option<Ballot>
        ensures { result ≡ self.now.promised }
    {
        self.promised
    }

    /// Whether this ballot is the promised one, so that a pvalue of it would be accepted.
    pub fn has_promised(&self, ballot: Ballot) -> bool
        ensures { result ≡ is_promise self.now.promised ballot }
    {
        self.promised == Some(ballot)
    }

    /// Forgets what it accepted in the slots below the base; the promise stays. It takes no memory.
    pub fn forget(&mut self, base: u64)
        ensures { self.new ≡ rest_of_acceptor base self.old }
    {
        self.accepted.forget(base);
    }

    // What was accepted in each slot, in rising slot.
    fn report(&self) -> Result<Vec<Pvalue<C>>, AllocError>
        ensures { IfOk result (λ report. report.items ≡ self.now.accepted) }
    {
        let mut report = Vec::new(self.alloc);
        let kept = self.accepted.to_map()?;
        let entries = kept.entries();
        for (slot, accepted) in entries {
            report.push(Pvalue {
                ballot: accepted.ballot,
                slot: *slot,
                value: accepted.value.copy()?,
            })?;
        }
        Ok(report)
    }
}

// What is kept is of a higher ballot than this.
fn is_higher<C>(kept: Option<&Accepted<C>>, ballot: Ballot) -> bool
    ensures { result ≡ is_higher (option_copied kept.entry) ballot }
{
    match kept {
        None => false,
        Some(kept) => ballot < kept.ballot,
    }
}
