ghost use Rattle.std.specs.Prelude.{◌≡◌, IsOk, true, false};
ghost use Rattle.std.specs.FinMap as slots;
ghost use Rattle.object.specs.Results.{Becomes, AddsAtEnd};
ghost use Rattle.leader.specs.Leaders.{on_propose, commands, letters_of};

use super::Leader;
use crate::commanding::start_commander;
use ballot::{Letter, Pvalue, Slot};
use object::Value;
use std::alloc::AllocError;

impl<C: Value> Leader<C> {
    /// Hears a Propose. The command is kept where the slot has no proposal yet; an active leader then asks
    /// to accept it. Where the slot has one nothing is done, which takes no memory.
    pub fn propose(
        &mut self,
        slot: Slot,
        command: C,
        out: &mut Vec<Letter<C>>,
    ) -> Result<(), AllocError>
        ensures state { Becomes result self.old self.new (on_propose self.old slot command).state }
        ensures out { AddsAtEnd result out.old out.new
            (letters_of self.old (on_propose self.old slot command).says) }
        ensures idle { slots.contains_key self.old.proposals slot ≡ true → IsOk result }
    {
        if self.proposals.contains(slot) {
            return Ok(());
        }
        if self.active {
            return self.command(slot, command, out);
        }
        self.proposals.insert(slot, command)
    }

    // Keeps the proposal, with a commander for it.
    fn command(
        &mut self,
        slot: Slot,
        command: C,
        out: &mut Vec<Letter<C>>,
    ) -> Result<(), AllocError>
        requires { slots.contains_key self.old.proposals slot ≡ false }
        ensures state { Becomes result self.old self.new (commands self.old slot command).state }
        ensures out { AddsAtEnd result out.old out.new
            (letters_of self.old (commands self.old slot command).says) }
    {
        let pvalue = Pvalue {
            ballot: self.ballot,
            slot,
            value: command.copy()?,
        };
        self.proposals.insert(slot, command)?;
        let started = start_commander(self.members, self.node, pvalue, &mut self.commanders, out);
        if started.is_err() {
            self.proposals.remove(slot);
        }
        started
    }
}
