ghost use Rattle.std.specs.Prelude.{◌≡◌, ◌↔◌, ◌<◌, ◌≤◌, ◌^◌, ◌⊎◌, ◌&&◌, ◌==◌, nat_lt, true, false, [], None, Ok, Err, IfOk, IfErr, IfSome, IfNone, OnErr};
ghost use Rattle.std.specs.List.{list_any};
ghost use Rattle.object.specs.Happenings.{is_submitted};
ghost use Rattle.object.specs.Legal.{WasSubmitted};
ghost use Rattle.world.specs.declared.error.WorldError.TheVariants.{OutOfMemory, Full};
ghost use Rattle.world.specs.Rescues.{Rescues, IsInOrder, IsLast, HasGreater, HasNoWay};

use crate::error::WorldError;
use crate::way::Way;
use crate::world::World;
use agreement::Event;
use ballot::ballot_laws;
use object::{Command, Key, Object, Submission, Value};

/// Of a world that has taken more events than these no way out is sought.
const MOST_TAKEN: u64 = 1 << 32;

impl<O: Object> World<O> {
    /// Events, none of them a restart, after which the key stands in the order; no events where it does already. The answer is
    /// `None` where the key was never submitted, and where a greater number of its session was and the key doesn't stand in
    /// the order, and nowhere else. To tell either takes no memory. Where there is a way to look for, it is full after more
    /// than 2^32 events, and else it fails for want of memory alone.
    pub fn rescue(&self, key: Key) -> Result<Option<Vec<Event<O::Op>>>, WorldError>
        ensures some { IfOk result (λ found. IfSome found (λ events. Rescues O.rules O.Op.eq self.now key
            events.items)) }
        ensures empty { IfOk result (λ found. IfSome found (λ events. (events.items
            ≡ []) ↔ IsInOrder self.now.cluster key)) }
        ensures none { (result ≡ Ok None) ↔ HasNoWay self.now key }
        ensures in_order { IsInOrder self.now.cluster key → result ≡ Ok None → ⊥ }
        ensures last { IsLast key self.now.happenings.submitted → result ≡ Ok None → ⊥ }
        ensures err { IfErr result (λ r. IsLast key self.now.happenings.submitted
            × (IsInOrder self.now.cluster key → ⊥)
            × (((r ≡ Full) × (2 ^ 32 < self.now.taken)) ⊎ ((r ≡ OutOfMemory) × (self.now.taken ≤ 2 ^ 32)))) }
        ensures full { IsLast key self.now.happenings.submitted
            → (IsInOrder self.now.cluster key → ⊥) → 2 ^ 32 < self.now.taken → result ≡ Err Full }
    {
        ballot_laws();
        self.show_reachable();
        if self.has_in_order(key) {
            return Ok(Some(Vec::new(self.allocator())));
        }
        match last_command(self.submitted(), key) {
            None => Ok(None),
            Some(command) => self.bring_last(command),
        }
    }

    // The way that brings its session's last command, where not too many events were taken.
    fn bring_last(&self, command: &Command<O::Op>) -> Result<Option<Vec<Event<O::Op>>>, WorldError>
        requires was { WasSubmitted command.now self.now.happenings.submitted }
        requires last { IsLast command.now.key self.now.happenings.submitted }
        ensures some { IfOk result (λ found. IfSome found (λ events. Rescues O.rules O.Op.eq self.now
            command.now.key events.items)) }
        ensures found { IfOk result (λ found. IfNone found ⊥) }
        ensures err { IfErr result (λ r. ((r ≡ Full) × (2 ^ 32 < self.now.taken))
            ⊎ ((r ≡ OutOfMemory) × (self.now.taken ≤ 2 ^ 32))) }
        ensures full { 2 ^ 32 < self.now.taken → result ≡ Err Full }
    {
        ballot_laws();
        self.show_reachable();
        if self.taken() > MOST_TAKEN {
            return Err(WorldError::Full);
        }
        let mut way = Way::new(self)?;
        way.bring(command)?;
        way.trial.show_reachable();
        Ok(Some(way.events))
    }
}

// The command of this key, where it was submitted and no greater number of its session was.
fn last_command<Op: Value>(submitted: &[Submission<Op>], key: Key) -> Option<&Command<Op>>
    ensures was { IfSome result (λ command. WasSubmitted command.now submitted.now) }
    ensures own { IfSome result (λ command. command.now.key ≡ key) }
    ensures last { IfSome result (λ command. IsLast key submitted.now) }
    ensures none { IfNone result ((is_submitted key submitted.now
        ≡ false) ⊎ HasGreater key submitted.now) }
{
    if has_greater(submitted, key) {
        return None;
    }
    for submission in submitted {
        if submission.command.key() == key {
            return Some(&submission.command);
        }
    }
    None
}

// Whether a greater number of its session was submitted.
fn has_greater<Op: Value>(submitted: &[Submission<Op>], key: Key) -> bool
    ensures { result ≡ list_any (λ s. (s.command.key.session == key.session)
        && nat_lt key.number s.command.key.number) submitted.now }
{
    submitted
        .iter()
        .any(|submission| supersedes(submission.command.key(), key))
}

// Whether it is of the key's session, and of a greater number.
fn supersedes(own: Key, key: Key) -> bool
    ensures { result ≡ ((own.session == key.session) && nat_lt key.number own.number) }
{
    own.session == key.session && key.number < own.number
}
