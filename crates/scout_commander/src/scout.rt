ghost use Rattle.std.specs.Prelude.{◌≡◌, ◌↔◌, true, IsOk, IfOk, OnOk, OnErr};
ghost use Rattle.object.specs.Results.{Becomes};
ghost use Rattle.scout_commander.specs.Reports.{HasNews};
ghost use Rattle.scout_commander.specs.Rests.{rest_of_scout};
ghost use Rattle.scout_commander.specs.Scouts.{new_scout, on_p1b as hearing, fresh_of, TakesFresh, IsPromising, IsAdopting, IsPreempting};

use crate::gathered::Gathered;
use ballot::{Ballot, MemberSet, Members, Pvalue};
use object::Value;
use std::alloc::{AllocError, Global};
use std::marker::Model;

/// What a P1b tells a scout.
#[derive(Clone, Copy, Debug, PartialEq, Eq)]
pub enum Heard {
    /// There is no majority yet.
    Wait,
    /// A majority has promised the scout's ballot.
    Adopted,
    /// A member has promised this greater ballot.
    Preempted(Ballot),
}

/// Gathers the promises of acceptors for a ballot, and what they report.
#[derive(Drop)]
pub struct Scout<C> {
    members: Members,
    ballot: Ballot,
    heard: MemberSet,
    gathered: Gathered<C>,
}

impl<C> Model for Scout<C> {
    ghost use Rattle.scout_commander.specs.Reports.{HasNews};
    ghost use Rattle.scout_commander.specs.Scouts.{Scouting};

    ghost Value = { Scouting C };

    ghost view = { λ s. record { members = s.members; ballot = s.ballot; heard = s.heard; gathered = s.gathered } };
}

impl<C: Value> Scout<C> {
    /// A scout that has heard nobody.
    pub fn new(alloc: Global, members: Members, ballot: Ballot) -> Scout<C>
        ensures { result ≡ new_scout members ballot }
    {
        Scout {
            members,
            ballot,
            heard: MemberSet::nobody(),
            gathered: Gathered::new(alloc),
        }
    }

    /// Whether such a P1b would adopt, as `on_p1b` says then. It is not heard.
    pub fn would_adopt(&self, from: u8, ballot: Ballot) -> bool
        ensures { (result ≡ true) ↔ IsAdopting self.now from ballot }
    {
        if ballot != self.ballot || !self.members.has(from) {
            return false;
        }
        let mut heard = self.heard;
        heard.add(from);
        self.members.is_majority(&heard)
    }

    /// Hears a P1b: who sent it, the ballot that it promised, and its report, of which what is new is copied. It takes
    /// memory for that alone, and for want of memory does nothing.
    pub fn on_p1b(
        &mut self,
        from: u8,
        ballot: Ballot,
        report: &[Pvalue<C>],
    ) -> Result<Heard, AllocError>
        ensures fresh { OnOk result
            (TakesFresh self.old from ballot report.now (fresh_of self.old self.new)) }
        ensures state { Becomes result self.old self.new
            (hearing self.old from ballot (fresh_of self.old self.new)).scout }
        ensures says { IfOk result
            (λ heard. heard ≡ (hearing self.old from ballot (fresh_of self.old self.new)).says) }

        ensures adopted { IfOk result (λ heard. (heard
            ≡ Heard.Adopted) ↔ IsAdopting self.old from ballot) }
        ensures preempted { IfOk result (λ heard. (heard
            ≡ Heard.Preempted ballot) ↔ IsPreempting self.old.members self.old.ballot from ballot) }
        ensures idle { ¬ IsPromising self.old from ballot → IsOk result }
        ensures known { OnErr result (HasNews self.old.gathered report.now) }
    {
        if !self.members.has(from) {
            return Ok(Heard::Wait);
        }
        if ballot != self.ballot {
            return Ok(if self.ballot < ballot {
                Heard::Preempted(ballot)
            } else {
                Heard::Wait
            });
        }
        self.gathered.gather(report)?;
        self.heard.add(from);
        Ok(if self.members.is_majority(&self.heard) {
            Heard::Adopted
        } else {
            Heard::Wait
        })
    }

    /// Forgets what was gathered of the slots below the base; whom it heard stays heard. It takes no memory.
    pub fn forget(&mut self, base: u64)
        ensures { self.new ≡ rest_of_scout base self.old }
    {
        self.gathered.forget(base);
    }

    /// What was gathered so far, in the order in which it was heard.
    pub fn gathered_so_far(&self) -> &[Pvalue<C>]
        ensures { result.now ≡ self.now.gathered }
    {
        self.gathered.as_slice()
    }

    /// All that was gathered, in the order in which it was heard.
    pub fn gathered(self) -> Vec<Pvalue<C>>
        ensures { result.items ≡ self.gathered }
    {
        self.gathered.into_vec()
    }

    /// The same scout once more.
    pub fn copy(&self) -> Result<Scout<C>, AllocError>
        ensures { IfOk result (λ scout. scout ≡ self.now) }
    {
        Ok(Scout {
            members: self.members,
            ballot: self.ballot,
            heard: self.heard,
            gathered: self.gathered.copy()?,
        })
    }
}
