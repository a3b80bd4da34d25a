ghost use Rattle.std.specs.Prelude.{◌≡◌, ◌<◌, ◌≤◌, ◌-◌, ◌⊎◌, [], true, false, None, IsErrOf, IfOk, IfErr, OnOk, OnErr, slice_get};
ghost use Rattle.std.specs.Option.{option_copied};
ghost use Rattle.object.specs.ListLaws.{Each};
ghost use Rattle.host.specs.Counting.{most_host_events};
ghost use Rattle.host.specs.Hearing.{Votes, VotesOn};
ghost use Rattle.host.specs.Keeping.{kept_upto};
ghost use Rattle.host.specs.Receiving.{AwaitsVote};

use super::{Host, Letters};
use crate::envelope::Envelope;
use crate::host_fault::HostFault;
use crate::kept::Kept;
use crate::outbox::Outbox;
use object::{Command, Object};

impl<O: Object> Host<O> {
    /// Of the letters that ask for a vote, the one after so many, where it is aside.
    pub fn record(&self, before: u64) -> Option<&Envelope<Command<O::Op>>>
        ensures after { self.now.voted ≤ before →
            option_copied result ≡ slice_get self.now.aside (before - self.now.voted) }
        ensures received { before < self.now.voted → result ≡ None }
        ensures waits { Each (AwaitsVote self.now.number self.now.shown.base) self.now.aside }
    {
        let place = before.checked_sub(self.voted)?;
        self.aside.get(usize::try_from(place).ok()?)
    }

    /// Receives what was put aside, in order, as far as the records are kept, and appends the votes. Where one is
    /// refused, it stays aside, with the rest. What an account of another boot keeps says nothing here.
    pub fn vote(&mut self, kept: Kept, sent: &mut Outbox<Command<O::Op>>) -> Result<(), HostFault>
        requires { sent.old.base ≡ self.old.shown.base }
        ensures votes { VotesOn (kept_upto self.old.shown.holding.state.boot kept)
            self.old sent.old.letters self.new sent.new.letters }
        ensures all { OnOk result ((self.new.aside ≡ [])
            ⊎ (kept_upto self.old.shown.holding.state.boot kept ≤ self.new.voted)) }
        ensures exhausted { IsErrOf result HostFault.EventsExhausted →
            self.new.taken ≡ most_host_events }
        ensures faults { IfErr result (λ fault.
            (fault ≡ HostFault.OutOfMemory) ⊎ (fault ≡ HostFault.EventsExhausted)) }
        ensures base { sent.new.base ≡ sent.old.base }
        ensures keeps { self.new.shown.base ≡ self.old.shown.base }
    {
        let upto = kept.upto(self.node.boot());
        self.vote_on(upto, &mut sent.letters)
    }

    // Receives what was put aside, as far as so many records are kept.
    fn vote_on(&mut self, upto: u64, sent: &mut Letters<O>) -> Result<(), HostFault>
        ensures votes { VotesOn upto self.old sent.old.items self.new sent.new.items }
        ensures all { OnOk result ((self.new.aside ≡ []) ⊎ (upto ≤ self.new.voted)) }
        ensures faults { IfErr result (λ fault.
            (fault ≡ HostFault.OutOfMemory) ⊎ (fault ≡ HostFault.EventsExhausted)) }
        ensures exhausted { IsErrOf result HostFault.EventsExhausted →
            self.new.taken ≡ most_host_events }
        ensures keeps { self.new.shown.base ≡ self.old.shown.base }
    {
        for _ in self.voted..upto {
            if !self.vote_next(upto, sent)? {
                return Ok(());
            }
        }
        Ok(())
    }

    // Receives the first letter that was put aside, where its record is among so many, and appends the vote.
    fn vote_next(&mut self, upto: u64, sent: &mut Letters<O>) -> Result<bool, HostFault>
        ensures yes { IfOk result (λ voted. voted ≡ true →
            Votes upto self.old self.new sent.old.items sent.new.items) }
        ensures no { IfOk result (λ voted. voted ≡ false →
            ((self.old.aside ≡ []) ⊎ (upto ≤ self.old.voted))
            × (self.new ≡ self.old) × (sent.new.items ≡ sent.old.items)) }
        ensures faults { IfErr result (λ fault.
            (fault ≡ HostFault.OutOfMemory) ⊎ (fault ≡ HostFault.EventsExhausted)) }
        ensures exhausted { IsErrOf result HostFault.EventsExhausted →
            self.old.taken ≡ most_host_events }
        ensures keeps { self.new.shown.base ≡ self.old.shown.base }
        ensures err { OnErr result ((self.new ≡ self.old) × (sent.new.items ≡ sent.old.items)) }
    {
        if upto <= self.voted {
            return Ok(false);
        }
        let Some(envelope) = self.aside.front() else {
            return Ok(false);
        };
        let events = self.events.plus(1)?;
        let letter = envelope.letter();
        self.node.receive(letter.from, &letter.body, sent)?;
        self.events = events;
        self.aside.pop_front();
        self.voted += 1;
        Ok(true)
    }
}
