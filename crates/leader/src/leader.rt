ghost use Rattle.std.specs.Prelude.{◌≡◌, ◌≤◌, ◌^◌, ◌↔◌, ◌⊎◌, true, length, IsOk, IsSome, IfErr};
ghost use Rattle.std.specs.FinMap as slots;
ghost use Rattle.object.specs.Results.{Becomes, AddsAtEnd, WritesAtEnd};
ghost use Rattle.ballot.specs.Members.{is_member};
ghost use Rattle.ballot.specs.Ballots.{is_below};
ghost use Rattle.leader.specs.Leaders.{new_leader, preempted, woken, scout_says, says_again, letters_of, IsLeader};

mod adopting;
mod copying;
mod forgetting;
mod promises;
mod proposing;
mod votes;

use crate::commanding::send_p2a;
use crate::error::LeaderError;
use ballot::{Ballot, Letter, LetterBody, Members, Slot, SlotMap, SlotRow, send_to_all};
use object::Value;
use scout_commander::{Commander, Scout};
use std::alloc::{AllocError, Global};
use std::marker::Model;

/// A leader with its scout and its commanders.
#[derive(Drop)]
pub struct Leader<C: Value> {
    members: Members,
    node: u8,
    boot: u64,
    ballot: Ballot,
    active: bool,
    proposals: SlotRow<C>,
    scout: Option<Scout<C>>,
    commanders: SlotMap<Commander<C>>,
    alloc: Global,
}

impl<C: Value> Model for Leader<C> {
    ghost use Rattle.ballot.specs.Slots.{slots_code};
    ghost use Rattle.std.specs.Coded.{codes};
    ghost use Rattle.leader.specs.Leaders.{Leading, IsLeaderOf};

    ghost Value = { Leading C };

    ghost coded = { Prim.hlevel (codes, slots_code, C.code) };

    ghost view = { λ l. record { members = l.members; ballot = l.ballot; active = l.active; proposals = l.proposals; scout = l.scout; commanders = l.commanders } };

    ghost invariant = { λ l. IsLeaderOf l.node l.boot (record { members = l.members; ballot = l.ballot; active = l.active; proposals = l.proposals; scout = l.scout; commanders = l.commanders }) };
}

impl<C: Value> Leader<C> {
    /// A leader of the first round, which has neither proposed nor asked for anything.
    pub fn new(alloc: Global, members: Members, node: u8, boot: u64) -> Leader<C>
        requires member { is_member members node ≡ true }
        requires within { boot ≤ 2 ^ 62 }
        ensures { result ≡ new_leader members node boot }
    {
        let ballot = Ballot::new(0, node, boot).unwrap();
        Leader {
            members,
            node,
            boot,
            ballot,
            active: false,
            proposals: SlotRow::new(alloc),
            scout: None,
            commanders: SlotMap::new(alloc),
            alloc,
        }
    }

    /// Its members.
    pub fn members(&self) -> Members
        ensures members { result ≡ self.now.members }
        ensures leader { IsLeader self.now }
    {
        self.members
    }

    /// The node whose leader it is.
    pub fn node(&self) -> u8
        ensures node { result ≡ self.now.ballot.node }
        ensures leader { IsLeader self.now }
    {
        self.node
    }

    /// Whether it leads: it is active.
    pub fn is_active(&self) -> bool
        ensures { result ≡ self.now.active }
    {
        self.active
    }

    /// How many things it waits for: the promises that its scout asks for, and the votes that each commander does.
    pub fn awaited_count(&self) -> usize
        ensures { result ≡ length (says_again self.now) }
    {
        usize::from(self.scout.is_some()) + self.commanders.len()
    }

    /// Whether a command is proposed for the slot.
    pub fn has_proposal(&self, slot: Slot) -> bool
        ensures has { result ≡ slots.contains_key self.now.proposals slot }
        ensures leader { IsLeader self.now }
    {
        self.proposals.contains(slot)
    }

    /// Gives up, where the ballot is above the leader's, for the ballot of the next round. It takes no memory, and fails with
    /// `NoBallotLeft` alone, where there is no next round.
    pub fn preempted(&mut self, ballot: Ballot) -> Result<(), LeaderError>
        ensures ok { Becomes result self.old self.new (preempted self.old ballot) }
        ensures error { IfErr result (λ error. error ≡ LeaderError.NoBallotLeft) }
        // A round is at most 2^62, so no other comes after that.
        ensures no_ballot { (result
            ≡ Err LeaderError.NoBallotLeft) ↔ ((is_below self.old.ballot ballot ≡ true)
            × (2 ^ 62 ≤ ballot.round)) }
    {
        if ballot <= self.ballot {
            return Ok(());
        }
        let Some(next) = ballot.next_after(self.node, self.boot) else {
            return Err(LeaderError::NoBallotLeft);
        };
        self.ballot = next;
        self.active = false;
        self.scout = None;
        self.commanders = SlotMap::new(self.alloc);
        Ok(())
    }

    /// Where the leader isn't active and has no scout, it sends one out. Else it does nothing, which takes no memory.
    pub fn wake(&mut self, out: &mut Vec<Letter<C>>) -> Result<(), AllocError>
        ensures state { Becomes result self.old self.new (woken self.old).state }
        ensures out { AddsAtEnd result out.old out.new (letters_of self.old (woken self.old).says) }
        ensures idle { (self.old.active ≡ true) ⊎ IsSome self.old.scout → IsOk result }
    {
        if self.active || self.scout.is_some() {
            return Ok(());
        }
        send_to_all(self.members, self.node, LetterBody::P1a(self.ballot), out)?;
        self.scout = Some(Scout::new(self.alloc, self.members, self.ballot));
        Ok(())
    }

    /// Says again what the scout and the commanders wait for.
    pub fn nudge(&self, out: &mut Vec<Letter<C>>) -> Result<(), AllocError>
        ensures ok { AddsAtEnd result out.old out.new (letters_of self.now (says_again self.now)) }
        ensures leader { IsLeader self.now }
    {
        let len = out.len();
        let said = self.append_again(out);
        if said.is_err() {
            out.truncate(len);
        }
        said
    }

    // The same, but for what was sent before memory ran out.
    fn append_again(&self, out: &mut Vec<Letter<C>>) -> Result<(), AllocError>
        ensures ok { WritesAtEnd result out.old out.new (letters_of self.now (says_again self.now)) }
        ensures leader { IsLeader self.now }
    {
        self.repeat_scout(out)?;
        let commanders = self.commanders.entries();
        for (_, commander) in commanders {
            send_p2a(self.members, self.node, commander.pvalue(), out)?;
        }
        Ok(())
    }

    // Says again what the scout waits for.
    fn repeat_scout(&self, out: &mut Vec<Letter<C>>) -> Result<(), AllocError>
        ensures ok { AddsAtEnd result out.old out.new
            (letters_of self.now (scout_says self.now.scout)) }
        ensures leader { IsLeader self.now }
    {
        if self.scout.is_none() {
            return Ok(());
        }
        send_to_all(self.members, self.node, LetterBody::P1a(self.ballot), out)
    }
}
