ghost use Rattle.std.specs.Prelude.{◌≡◌, ◌↔◌, IsOk, IsSome, Some};
ghost use Rattle.std.specs.FinMap as slots;
ghost use Rattle.object.specs.Results.{Becomes, AddsAtEnd};
ghost use Rattle.ballot.specs.Ballots.{Numbers};
ghost use Rattle.leader.specs.Leaders.{letters_of, LeavesNoBallot};
ghost use Rattle.leader.specs.Votes.{on_p2b as voting};

use super::Leader;
use crate::commanding::{hear_p2b, send_decision};
use crate::error::LeaderError;
use ballot::{Ballot, Letter, Slot};
use object::Value;
use std::alloc::AllocError;

impl<C: Value> Leader<C> {
    /// Hears a P2b: who sent it, the ballot that it promised, the slot, and the ballot of the P2a that it answers. It fails
    /// with `NoBallotLeft` where a ballot of the last round preempts it.
    pub fn on_p2b(
        &mut self,
        from: u8,
        ballot: Option<Ballot>,
        slot: Slot,
        asked: Ballot,
        out: &mut Vec<Letter<C>>,
    ) -> Result<(), LeaderError>
        ensures state { Becomes result self.old self.new
            (voting self.old from ballot slot asked).state }
        ensures out { AddsAtEnd result out.old out.new
            (letters_of self.old (voting self.old from ballot slot asked).says) }
        ensures no_ballot { (result
            ≡ Err LeaderError.NoBallotLeft) ↔ (IsSome (slots.get self.old.commanders slot)
            × ((b : Numbers) × (ballot ≡ Some b) × LeavesNoBallot self.old from b)) }
        ensures idle { slots.get self.old.commanders slot ≡ None → IsOk result }
    {
        let Some(ballot) = ballot else {
            return Ok(());
        };
        if !self.members.has(from) {
            return Ok(());
        }
        if !self.commanders.contains(slot) {
            return Ok(());
        }
        if ballot != self.ballot {
            return self.preempted(ballot);
        }
        if asked == self.ballot {
            self.count_vote(from, slot, out)?;
        }
        Ok(())
    }

    // A member accepted the slot's pvalue.
    fn count_vote(
        &mut self,
        from: u8,
        slot: Slot,
        out: &mut Vec<Letter<C>>,
    ) -> Result<(), AllocError>
        ensures state { Becomes result self.old self.new
            (voting self.old from (Some self.old.ballot) slot self.old.ballot).state }
        ensures out { AddsAtEnd result out.old out.new
            (letters_of self.old
            (voting self.old from (Some self.old.ballot) slot self.old.ballot).says) }
    {
        let Some(commander) = self.commanders.get(slot) else {
            return Ok(());
        };
        if !commander.would_decide(from, Some(self.ballot)) {
            hear_p2b(&mut self.commanders, slot, from, Some(self.ballot));
            return Ok(());
        }
        let command = &commander.pvalue().value;
        send_decision(self.members, self.node, slot, command, out)?;
        self.commanders.remove(slot);
        Ok(())
    }
}
