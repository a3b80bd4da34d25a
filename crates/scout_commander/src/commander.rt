ghost use Rattle.std.specs.Prelude.{◌≡◌, ◌↔◌, ℕ, true, Some, IfOk};
ghost use Rattle.ballot.specs.Ballots.{Numbers};
ghost use Rattle.scout_commander.specs.Scouts.{IsPreempting};
ghost use Rattle.scout_commander.specs.Commanders.{new_commander, on_p2b as voting, IsDeciding};

use ballot::{Ballot, MemberSet, Members, Pvalue};
use object::Value;
use std::alloc::AllocError;
use std::marker::Model;

/// What a P2b tells a commander.
#[derive(Clone, Copy, Debug, PartialEq, Eq)]
pub enum Voted {
    /// There is no majority yet.
    Wait,
    /// A majority has accepted the pvalue.
    Decided,
    /// A member has promised this greater ballot.
    Preempted(Ballot),
}

/// Counts who accepted a pvalue.
#[derive(Drop)]
pub struct Commander<C> {
    members: Members,
    pvalue: Pvalue<C>,
    heard: MemberSet,
}

impl<C> Model for Commander<C> {
    ghost use Rattle.scout_commander.specs.Commanders.{Commanding};

    ghost Value = { Commanding C };

    ghost view = { λ c. record { members = c.members; pvalue = c.pvalue; heard = c.heard } };
}

impl<C> Commander<C> {
    /// A commander that has heard nobody.
    pub fn new(members: Members, pvalue: Pvalue<C>) -> Commander<C>
        ensures { result ≡ new_commander members pvalue }
    {
        Commander {
            members,
            pvalue,
            heard: MemberSet::nobody(),
        }
    }

    /// The pvalue.
    pub fn pvalue(&self) -> &Pvalue<C>
        ensures { result.now ≡ self.now.pvalue }
    {
        &self.pvalue
    }

    /// Whether such a P2b would decide, as `on_p2b` says then. It is not heard.
    pub fn would_decide(&self, from: u8, ballot: Option<Ballot>) -> bool
        ensures { (result ≡ true) ↔ IsDeciding self.now from ballot }
    {
        if ballot != Some(self.pvalue.ballot) || !self.members.has(from) {
            return false;
        }
        let mut heard = self.heard;
        heard.add(from);
        self.members.is_majority(&heard)
    }

    /// Hears a P2b that answers this commander's P2a: who sent it, and the ballot that it promised. It takes
    /// no memory.
    pub fn on_p2b(&mut self, from: u8, ballot: Option<Ballot>) -> Voted
        ensures state { self.new ≡ (voting self.old from ballot).commander }
        ensures says { result ≡ (voting self.old from ballot).says }

        ensures decided { (result ≡ Voted.Decided) ↔ IsDeciding self.old from ballot }
        ensures preempted { (b : Numbers) → (result ≡ Voted.Preempted b)
            ↔ ((ballot ≡ Some b) × IsPreempting self.old.members self.old.pvalue.ballot from b) }
    {
        let Some(ballot) = ballot else {
            return Voted::Wait;
        };
        if !self.members.has(from) {
            return Voted::Wait;
        }
        if ballot != self.pvalue.ballot {
            return if self.pvalue.ballot < ballot {
                Voted::Preempted(ballot)
            } else {
                Voted::Wait
            };
        }
        self.heard.add(from);
        if self.members.is_majority(&self.heard) {
            Voted::Decided
        } else {
            Voted::Wait
        }
    }
}

impl<C: Value> Commander<C> {
    /// The same commander once more.
    pub fn copy(&self) -> Result<Commander<C>, AllocError>
        ensures { IfOk result (λ commander. commander ≡ self.now) }
    {
        Ok(Commander {
            members: self.members,
            pvalue: self.pvalue.copy()?,
            heard: self.heard,
        })
    }
}
