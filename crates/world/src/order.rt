ghost use Rattle.std.specs.Prelude.{◌≡◌, ◌↔◌, ◌+◌, ◌≤◌, ◌^◌, ◌==◌, ◌&&◌, ◌||◌, ℕ, map, slice_index_or, true, false, not, nat_lt, nat_le, IfSome, IfNone, IfOk};
ghost use Rattle.object.specs.declared.command.Command.{Command};
ghost use Rattle.object.specs.Legal.{IsLegal};
ghost use Rattle.object.specs.Replays.{is_new, kept};
ghost use Rattle.ballot.specs.declared.pvalue.Pvalue.{Pvalue};
ghost use Rattle.agreement.specs.Nodes.{node};
ghost use Rattle.agreement.specs.Chosen.{IsChosen, IsChosenFrom, IsOrder};
ghost use Rattle.world.specs.Kept.{IsFirstAsLate};
ghost use Rattle.world.specs.Placed.{IsPlaced, first_as_late};
ghost use Rattle.world.specs.Rescues.{IsInOrder};
ghost use Rattle.world.specs.Voters.{is_voted, HasVoted, HasNoneVoted};
ghost use Rattle.agreement.specs.Voters.{voters_of};

use crate::world::World;
use ballot::{Ballot, MemberSet, Pvalue, Slot, ballot_laws};
use object::{Command, Key, Keyed, Object, Value};
use std::alloc::{AllocError, Global};

impl<O: Object> World<O> {
    // The nodes that accepted something under this ballot and slot.
    fn voters(&self, ballot: Ballot, slot: Slot) -> MemberSet
        ensures { (i : ℕ) → slice_index_or result i false
            ≡ slice_index_or (voters_of self.now.cluster ballot slot) i false }
    {
        ballot_laws();
        let nodes = &self.nodes;
        let mut voters = MemberSet::nobody();
        for before in 0..self.members.count() {
            if nodes[usize::from(before)].accepts(ballot, slot) {
                voters.add(before + 1);
            }
        }
        voters
    }

    // Whether a majority accepted something under this ballot and slot.
    fn is_voted(&self, ballot: Ballot, slot: Slot) -> bool
        ensures { result ≡ is_voted self.now.cluster ballot slot }
    {
        let voters = self.voters(ballot, slot);
        self.members.is_majority(&voters)
    }

    // The value of one of these pvalues, of this slot and with the votes of a majority.
    fn voted<'a>(
        &self,
        accepted: &'a [Pvalue<Command<O::Op>>],
        slot: u64,
    ) -> Option<&'a Command<O::Op>>
        ensures some { IfSome result (λ c. HasVoted self.now.cluster accepted.now slot c.now) }
        ensures none { IfNone result (HasNoneVoted self.now.cluster accepted.now slot) }
    {
        for pvalue in accepted {
            if pvalue.slot.number() == slot && self.is_voted(pvalue.ballot, pvalue.slot) {
                return Some(&pvalue.value);
            }
        }
        None
    }

    // The value of a pvalue that some node accepted, of this slot and with the votes of a majority.
    fn voted_anywhere(&self, slot: u64) -> Option<&Command<O::Op>>
        ensures some { IfSome result (λ c. (m : ℕ)
            × HasVoted self.now.cluster (node self.now.cluster m).acceptor.accepted slot c.now) }
        ensures none { IfNone result ((m : ℕ) →
            HasNoneVoted self.now.cluster (node self.now.cluster m).acceptor.accepted slot) }
    {
        let nodes = &self.nodes;
        for node in nodes {
            if let Some(command) = self.voted(node.accepted(), slot) {
                return Some(command);
            }
        }
        None
    }

    /// The one order: of the commands that are chosen in the slots 1, 2, .. up to the first slot with none chosen, those
    /// whose number is greater than every earlier one of their session. What was submitted and answered is legal for it,
    /// and what the object promises of all commands holds of it. It fails for want of memory alone.
    pub fn order(&self) -> Result<Vec<Command<O::Op>>, AllocError>
        ensures order { IfOk result (λ order. IsOrder self.now.cluster order.items) }
        ensures legal { IfOk result (λ order. IsLegal O.rules self.now.happenings order.items) }
        ensures promised { IfOk result (λ order. O.promise order.items) }
    {
        self.show_agreement();
        let chosen = self.all_chosen()?;
        let order = kept(self.alloc, chosen.as_slice())?;
        Ok(order)
    }

    /// Whether the key stands in the order, as far as it is performed: among those kept of the commands that are chosen in
    /// the slots from 1 to the reach, the greatest slot that any replica performed. It takes no memory.
    pub fn placed(&self, key: Key) -> bool
        ensures { (result ≡ true) ↔ IsPlaced self.now key }
    {
        ballot_laws();
        match first_as_late(&self.performed, key) {
            Some(own) => own == key,
            None => false,
        }
    }

    /// Whether the key stands in the order: it is looked for among what was performed, and then in the slots after the
    /// reach. It takes no memory.
    pub(crate) fn has_in_order(&self, key: Key) -> bool
        ensures { (result ≡ true) ↔ IsInOrder self.now.cluster key }
    {
        ballot_laws();
        self.show_reachable();
        if let Some(own) = first_as_late(&self.performed, key) {
            return own == key;
        }
        match self.first_chosen_as_late(self.reach + 1, key) {
            Some(own) => own == key,
            None => false,
        }
    }

    // The first that is of the key's session and has no lower number, of the keys whose commands are chosen in this slot
    // and those after it, up to the first slot with none chosen.
    fn first_chosen_as_late(&self, first: u64, key: Key) -> Option<Key>
        requires { first ≤ 2 ^ 62 + 1 }
        ensures { IsFirstAsLate self.now.cluster first key result }
    {
        ballot_laws();
        self.show_reachable();
        // no slot is greater than 2^62, so one of these has none chosen
        for slot in first..u64::MAX {
            let Some(command) = self.chosen(slot) else {
                return None;
            };
            if is_as_late(command.key(), key) {
                return Some(command.key());
            }
        }
        None
    }

    // The commands that are chosen in the slots from 1 on, up to the first slot with none chosen.
    fn all_chosen(&self) -> Result<Vec<Command<O::Op>>, AllocError>
        ensures { IfOk result (λ chosen. IsChosenFrom self.now.cluster 1 chosen.items) }
    {
        let mut chosen = Vec::new(self.alloc);
        // no slot is greater than 2^62, so one of these has none chosen
        for slot in 1..u64::MAX {
            match self.chosen(slot) {
                Some(command) => chosen.push(command.copy()?)?,
                None => return Ok(chosen),
            }
        }
        Ok(chosen)
    }

    // The command that is chosen in the slot of this number, where there is one.
    fn chosen(&self, slot: u64) -> Option<&Command<O::Op>>
        ensures some { IfSome result (λ c. IsChosen self.now.cluster slot c.now) }
        ensures none { IfNone result ((c : Command O.Op) → IsChosen self.now.cluster slot c →
            ⊥) }
        ensures within { IfSome result (λ c. slot ≤ 2 ^ 62) }
    {
        let _ = &self.alloc;
        ballot_laws();
        self.voted_anywhere(slot)
    }
}

// Those whose number is greater than every earlier one of their session.
fn kept<Op: Value>(alloc: Global, commands: &[Command<Op>]) -> Result<Vec<Command<Op>>, AllocError>
    ensures { IfOk result (λ order. order.items ≡ kept commands.now) }
{
    let mut order = Vec::new(alloc);
    for (index, command) in commands.iter().enumerate() {
        if is_new(command, &commands[..index]) {
            order.push(command.copy()?)?;
        }
    }
    Ok(order)
}

// Whether its number is greater than each of these of the same session.
fn is_new<Op: Value>(command: &Command<Op>, earlier: &[Command<Op>]) -> bool
    ensures { result ≡ is_new command.now earlier.now }
{
    earlier.iter().all(|other| is_passed(other, command))
}

// Whether the one command is of another session, or has a lower number.
fn is_passed<Op: Value>(other: &Command<Op>, command: &Command<Op>) -> bool
    ensures { result ≡
        (not (other.now.key.session == command.now.key.session) || nat_lt other.now.key.number
        command.now.key.number) }
{
    let (other, own) = (other.key(), command.key());
    other.session != own.session || other.number < own.number
}

// The first of the keys of these that is of the key's session and has no lower number.
fn first_as_late<T: Keyed>(items: &[T], key: Key) -> Option<Key>
    ensures { result ≡ first_as_late key (map T.key_of items.now) }
{
    for item in items {
        let own = item.key();
        if is_as_late(own, key) {
            return Some(own);
        }
    }
    None
}

// Whether it is of the key's session, and has no lower number.
fn is_as_late(own: Key, key: Key) -> bool
    ensures { result ≡ (own.session == key.session && nat_le key.number own.number) }
{
    own.session == key.session && own.number >= key.number
}
