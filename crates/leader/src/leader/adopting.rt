ghost use Rattle.std.specs.Prelude.{◌≡◌, IfOk, OnOk, IsSome};
ghost use Rattle.object.specs.Results.{Becomes, AddsAtEnd, WritesAtEnd};
ghost use Rattle.leader.specs.Leaders.{letters_of};
ghost use Rattle.leader.specs.Adoptions.{TakesGreatest, adopted, commanders_for, asks_acceptors};

use super::Leader;
use crate::commanding::start_commander;
use crate::greatest::with_greatest;
use ballot::{Letter, Pvalue, SlotMap, SlotRow};
use object::Value;
use scout_commander::Commander;
use std::alloc::AllocError;

impl<C: Value> Leader<C> {
    /// Leads from now on: what was gathered goes before what the leader would propose, and all members are asked to
    /// accept each proposal.
    pub fn adopted(
        &mut self,
        gathered: Vec<Pvalue<C>>,
        out: &mut Vec<Letter<C>>,
    ) -> Result<(), AllocError>
        requires { IsSome self.old.scout }
        ensures taken { OnOk result
            (TakesGreatest self.old.proposals gathered.items self.new.proposals) }
        ensures state { Becomes result self.old self.new
            (adopted self.old self.new.proposals).state }
        ensures out { AddsAtEnd result out.old out.new
            (letters_of self.old (adopted self.old self.new.proposals).says) }
    {
        let report = Vec::new(self.alloc);
        let proposals = with_greatest(
            self.alloc,
            &self.proposals,
            gathered.as_slice(),
            report.as_slice(),
        )?;
        self.lead(proposals, out)
    }

    // Leads from now on with these proposals.
    pub(super) fn lead(
        &mut self,
        proposals: SlotMap<C>,
        out: &mut Vec<Letter<C>>,
    ) -> Result<(), AllocError>
        ensures state { Becomes result self.old self.new (adopted self.old proposals).state }
        ensures out { AddsAtEnd result out.old out.new
            (letters_of self.old (adopted self.old proposals).says) }
    {
        let commanders = self.start_commanders(&proposals, out)?;
        self.active = true;
        self.proposals = SlotRow::from_map(self.alloc, proposals);
        self.scout = None;
        self.commanders = commanders;
        Ok(())
    }

    // A commander for each of the proposals. For want of memory nothing is sent.
    fn start_commanders(
        &self,
        proposals: &SlotMap<C>,
        out: &mut Vec<Letter<C>>,
    ) -> Result<SlotMap<Commander<C>>, AllocError>
        ensures commanders { IfOk result (λ commanders. commanders
            ≡ commanders_for self.now proposals.now) }
        ensures out { AddsAtEnd result out.old out.new
            (letters_of self.now (asks_acceptors self.now proposals.now)) }
    {
        let len = out.len();
        let commanders = self.append_asks(proposals, out);
        if commanders.is_err() {
            out.truncate(len);
        }
        commanders
    }

    // The same, but for what was sent before memory ran out.
    fn append_asks(
        &self,
        proposals: &SlotMap<C>,
        out: &mut Vec<Letter<C>>,
    ) -> Result<SlotMap<Commander<C>>, AllocError>
        ensures commanders { IfOk result (λ commanders. commanders
            ≡ commanders_for self.now proposals.now) }
        ensures out { WritesAtEnd result out.old out.new
            (letters_of self.now (asks_acceptors self.now proposals.now)) }
    {
        let mut commanders = SlotMap::new(self.alloc);
        let entries = proposals.entries();
        for (slot, command) in entries {
            let pvalue = Pvalue {
                ballot: self.ballot,
                slot: *slot,
                value: command.copy()?,
            };
            start_commander(self.members, self.node, pvalue, &mut commanders, out)?;
        }
        Ok(commanders)
    }
}
