ghost use Rattle.std.specs.Prelude.{◌≡◌, ◌↔◌, true, List, Some, None, IsOk, IsSome, OnOk, OnErr};
ghost use Rattle.ballot.specs.Members.{is_member};
ghost use Rattle.ballot.specs.declared.letter.Letter.{Letter};
ghost use Rattle.scout_commander.specs.Scouts.{Scouting, IsAdopting};
ghost use Rattle.leader.specs.Leaders.{LeavesNoBallot};
ghost use Rattle.leader.specs.Promises.{HearsP1b};

use super::Leader;
use crate::error::LeaderError;
use crate::greatest::with_greatest;
use ballot::{Ballot, Letter, Pvalue};
use object::Value;
use std::alloc::AllocError;

impl<C: Value> Leader<C> {
    /// Hears a P1b: who sent it, the ballot that it promised, and its report. Where no scout stands nothing is done,
    /// which takes no memory. It fails with `NoBallotLeft` where a ballot of the last round preempts it.
    pub fn on_p1b(
        &mut self,
        from: u8,
        ballot: Ballot,
        report: &[Pvalue<C>],
        out: &mut Vec<Letter<C>>,
    ) -> Result<(), LeaderError>
        ensures hears { OnOk result
            (HearsP1b self.old from ballot report.now self.new out.old.items out.new.items) }
        ensures no_ballot { (result ≡ Err LeaderError.NoBallotLeft) ↔ (IsSome self.old.scout
            × LeavesNoBallot self.old from ballot) }
        ensures idle { self.old.scout ≡ None → IsOk result }
        ensures err { OnErr result ((self.new ≡ self.old) × (out.new.items ≡ out.old.items)) }
    {
        if self.scout.is_none() {
            return Ok(());
        }
        if !self.members.has(from) {
            return Ok(());
        }
        if ballot != self.ballot {
            return self.preempted(ballot);
        }
        self.gather(from, report, out)?;
        Ok(())
    }

    // A member promised the leader's ballot. Where that adopts the leader, the proposals are made of what was gathered
    // and reported as it lies there; else the scout gathers the report.
    fn gather(
        &mut self,
        from: u8,
        report: &[Pvalue<C>],
        out: &mut Vec<Letter<C>>,
    ) -> Result<(), AllocError>
        requires { is_member self.old.members from ≡ true }
        ensures hears { OnOk result
            (HearsP1b self.old from self.old.ballot report.now self.new out.old.items out.new.items) }
        ensures err { OnErr result ((self.new ≡ self.old) × (out.new.items ≡ out.old.items)) }
    {
        let Some(scout) = &self.scout else {
            return Ok(());
        };
        if !scout.would_adopt(from, self.ballot) {
            return self.add_promise(from, report);
        }
        let gathered = scout.gathered_so_far();
        let proposals = with_greatest(self.alloc, &self.proposals, gathered, report)?;
        self.lead(proposals, out)
    }

    // The scout hears a member's promise of the leader's ballot, which does not adopt the leader.
    fn add_promise(&mut self, from: u8, report: &[Pvalue<C>]) -> Result<(), AllocError>
        requires member { is_member self.old.members from ≡ true }
        requires waits { (s : Scouting C) → self.old.scout ≡ Some s
            → ¬ IsAdopting s from self.old.ballot }
        ensures hears { OnOk result ((sent : List (Letter C))
            → HearsP1b self.old from self.old.ballot report.now self.new sent sent) }
        ensures err { OnErr result (self.new ≡ self.old) }
    {
        let Some(scout) = &mut self.scout else {
            return Ok(());
        };
        scout.on_p1b(from, self.ballot, report)?;
        Ok(())
    }
}
