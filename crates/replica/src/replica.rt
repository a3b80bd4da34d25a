ghost use Rattle.std.specs.Prelude.{◌≡◌, ◌↔◌, ◌<◌, ◌≤◌, ◌^◌, true, None, Some, Ok, is_some, IsSome, map, IfOk, IfSome, IsOk, IsErrOf};
ghost use Rattle.std.specs.Option.{option_map};
ghost use Rattle.std.specs.FinMap.{empty, get, contains_key};
ghost use Rattle.ballot.specs.Members.{is_member};
ghost use Rattle.ballot.specs.Letters.{letter, all_to_all};
ghost use Rattle.object.specs.Commands.{same_commands};
ghost use Rattle.object.specs.Obeying.{obeyed};
ghost use Rattle.object.specs.OnceOnly.{is_later};
ghost use Rattle.object.specs.Results.{Becomes, AddsAtEnd, WritesAtEnd};
ghost use Rattle.object.specs.declared.once.Effect.{Effect};
ghost use Rattle.slot_log.specs.Books.{new_book};
ghost use Rattle.slot_log.specs.Requests.{is_known, requested};
ghost use Rattle.slot_log.specs.Proposals.{next_proposal, proposed_next};
ghost use Rattle.slot_log.specs.Decisions as deciding;
ghost use Rattle.slot_log.specs.Advances.{advanced};
ghost use Rattle.slot_log.specs.Histories.{history};
ghost use Rattle.slot_log.specs.Rests.{rest_of_book};
ghost use Rattle.slot_log.specs.CatchingUp.{book_from};
ghost use Rattle.replica.specs.CatchingUp.{has_proposed_in_vain};
ghost use Rattle.replica.specs.Replicas.{but_last, proposes_first, tells, nudges, proposes_again, asks_others, performed, performed_answers};

use crate::obeying::obeying;
use crate::performed::Performed;
use ballot::{Letter, LetterBody, Members, Slot, send_to_all};
use object::{Answer, Command, Effect, Key, Object, Once, Value};
use slot_log::{LearnError, SlotLog};
use std::alloc::{AllocError, Global};
use std::marker::Model;

/// A node's copy of the object, and what it knows of the order of commands.
#[derive(Drop)]
pub struct Replica<O: Object> {
    slots: SlotLog<Command<O::Op>>,
    object: Once<O>,
    alloc: Global,
}

impl<O: Object> Model for Replica<O> {
    ghost use Rattle.std.specs.Coded.{codes};
    ghost use Rattle.object.specs.OnceOnly.{latest_code};
    ghost use Rattle.ballot.specs.Slots.{slots_code};
    ghost use Rattle.replica.specs.Replicas.{Replicating};

    ghost Value = { Replicating O.Op O };

    ghost coded = { Prim.hlevel (codes, slots_code, latest_code, O.code, O.Op.code) };

    ghost view = { λ r. record { slots = r.slots; object = r.object } };
}

impl<O: Object> Replica<O> {
    /// Nothing is asked for, proposed or decided, and the object is new.
    pub fn new(alloc: Global) -> Result<Replica<O>, AllocError>
        ensures slots { IfOk result (λ r. r.slots ≡ new_book) }
        ensures object { IfOk result (λ r. r.object.object ≡ O.rules.fresh) }
        ensures latest { IfOk result (λ r. r.object.latest ≡ empty) }
    {
        Ok(Replica {
            slots: SlotLog::new(alloc),
            object: Once::new(alloc)?,
            alloc,
        })
    }

    /// A replica with these slots. A new object obeys again the commands of the slots before `slot_out`, and answers nobody.
    pub fn of(alloc: Global, slots: SlotLog<Command<O::Op>>) -> Result<Replica<O>, AllocError>
        ensures slots { IfOk result (λ r. r.slots ≡ slots) }
        ensures object { IfOk result (λ r. r.object ≡ obeyed O.rules (history slots)) }
    {
        let object = obeying(alloc, &slots)?;
        Ok(Replica {
            slots,
            object,
            alloc,
        })
    }

    /// A replica with nothing in its slots, which goes on at this one: the object has obeyed what was decided before.
    pub fn at(alloc: Global, slot: Slot, object: Once<O>) -> Replica<O>
        ensures slots { result.slots
            ≡ record new_book { slot_in = slot; slot_out = slot } }
        ensures object { result.object ≡ object }
    {
        Replica {
            slots: SlotLog::at(alloc, slot),
            object,
            alloc,
        }
    }

    /// The object, and what its filter knows.
    pub fn object(&self) -> &Once<O>
        ensures { result.now ≡ self.now.object }
    {
        &self.object
    }

    /// Its slots.
    pub fn slots(&self) -> &SlotLog<Command<O::Op>>
        ensures { result.now ≡ self.now.slots }
    {
        &self.slots
    }

    /// A command is asked for. It goes last in the requests, unless it is known.
    pub fn request(&mut self, command: Command<O::Op>) -> Result<(), AllocError>
        ensures state { Becomes result self.old self.new
            (record self.old { slots = requested (same_commands O.Op.eq) self.old.slots command }) }
        ensures known { is_known (same_commands O.Op.eq) self.old.slots command ≡ true →
            IsOk result }
    {
        self.slots.request(command)
    }

    /// A command is decided in a slot.
    pub fn learn(&mut self, slot: Slot, command: Command<O::Op>) -> Result<(), LearnError>
        ensures state { Becomes result self.old self.new
            (record self.old { slots = deciding.learnt self.old.slots slot command }) }
        ensures clash { IsErrOf result LearnError.Clash
            ↔ deciding.IsClash self.old.slots slot command }
        ensures again { get self.old.slots.decisions slot ≡ Some command → IsOk result }
    {
        self.slots.learn(slot, command)
    }

    /// Whether a decision of the slot is known.
    pub fn knows(&self, slot: Slot) -> bool
        ensures { result ≡ contains_key self.now.slots.decisions slot }
    {
        self.slots.knows(slot)
    }

    /// Whether its object would obey a command of this key.
    pub fn lets_through(&self, key: Key) -> bool
        ensures { result ≡ is_later key self.now.object.latest }
    {
        self.object.lets_through(key)
    }

    /// Forgets what is known of the slots below the base, all of which were performed. It takes no memory.
    pub fn forget(&mut self, base: u64)
        requires { base ≤ self.old.slots.slot_out }
        ensures { self.new ≡ record self.old { slots = rest_of_book base self.old.slots } }
    {
        self.slots.forget(base);
    }

    /// Whether the object has obeyed nothing of what it has proposed for slots before this one. It takes no memory.
    pub fn has_proposed_in_vain(&self, slot: Slot, object: &Once<O>) -> bool
        ensures { result ≡ has_proposed_in_vain slot object.now self.now.slots }
    {
        for (proposed, command) in self.slots.proposals() {
            if *proposed < slot && !object.lets_through(command.key()) {
                return false;
            }
        }
        true
    }

    /// It goes on at a higher slot, with this object, which has obeyed what was decided before. What it has proposed for
    /// the slots before it is asked for again. It takes no memory.
    pub fn catch_up(&mut self, slot: Slot, object: Once<O>)
        requires { self.old.slots.slot_out ≤ slot }
        ensures { self.new ≡ record { slots = book_from slot self.old.slots; object = object } }
    {
        self.slots.catch_up(slot);
        self.object = object;
    }

    /// The least slot with a proposal and without a known decision. It takes no memory.
    pub fn undecided(&self) -> Option<Slot>
        ensures { result ≡ deciding.undecided self.now.slots }
    {
        self.slots.undecided()
    }

    /// Whether a request waits and a slot is open to it. It takes no memory.
    pub fn can_propose(&self) -> bool
        ensures { result ≡ is_some (next_proposal self.now.slots) }
    {
        self.slots.next_proposal().is_some()
    }

    /// Whether the decision of `slot_out` is known. It takes no memory.
    pub fn can_perform(&self) -> bool
        ensures { result ≡ is_some (deciding.next_decided self.now.slots) }
    {
        self.slots.next_decided().is_some()
    }

    /// The decisions that answer an Ask: those known of the slot and the 63 that follow it, in rising slot.
    pub fn ask(&self, slot: Slot) -> Result<Vec<LetterBody<Command<O::Op>>>, AllocError>
        ensures { IfOk result (λ bodies. bodies.items ≡ tells self.now.slots slot) }
    {
        let decided = self.slots.decided_from(slot)?;
        decided
            .into_iter()
            .map(|(slot, command)| LetterBody::Decision(slot, command))
            .collect(self.alloc)
    }

    /// Proposes the first request in the least slot that is open to it, and asks all leaders for it. It answers false
    /// where it does nothing, which takes no memory.
    pub fn propose(
        &mut self,
        members: Members,
        node: u8,
        out: &mut Vec<Letter<Command<O::Op>>>,
    ) -> Result<bool, AllocError>
        ensures does { IfOk result (λ does. does ≡ is_some (next_proposal self.old.slots)) }
        ensures state { Becomes result self.old self.new
            (record self.old { slots = proposed_next self.old.slots }) }
        ensures out { AddsAtEnd result out.old out.new
            (all_to_all members node (proposes_first (next_proposal self.old.slots))) }
        ensures idle { next_proposal self.old.slots ≡ None → IsOk result }
    {
        let len = out.len();
        let proposed = self.append_proposal(members, node, out);
        if proposed.is_err() {
            out.truncate(len);
        }
        proposed
    }

    // The same, but for what was sent before memory ran out. The last letter takes the command that was proposed, and
    // the others copies.
    fn append_proposal(
        &mut self,
        members: Members,
        node: u8,
        out: &mut Vec<Letter<Command<O::Op>>>,
    ) -> Result<bool, AllocError>
        ensures does { IfOk result (λ does. does ≡ is_some (next_proposal self.old.slots)) }
        ensures state { Becomes result self.old self.new
            (record self.old { slots = proposed_next self.old.slots }) }
        ensures out { WritesAtEnd result out.old out.new
            (all_to_all members node (proposes_first (next_proposal self.old.slots))) }
        ensures idle { next_proposal self.old.slots ≡ None → IsOk result }
    {
        let Some(next) = self.slots.next_proposal() else {
            return Ok(false);
        };
        let (slot, command) = next;
        send_copies(members, node, slot, command, out)?;
        out.reserve(1)?;
        let (slot, command) = self.slots.propose_next()?.unwrap();
        out.push(Letter {
            from: node,
            to: members.count(),
            body: LetterBody::Propose(slot, command),
        })
        .unwrap();
        Ok(true)
    }

    /// Gives the command of `slot_out`, where it is known, to the object, and appends the answers. For want of memory
    /// nothing is changed, so that replicas don't part.
    pub fn perform(
        &mut self,
        out: &mut Vec<Answer<O::Reply>>,
    ) -> Result<Option<Performed>, AllocError>
        ensures slot { IfOk result (λ done. IfSome done (λ p. p.slot
            ≡ self.old.slots.slot_out)) }
        ensures key { IfOk result (λ done. option_map (λ p. p.key) done
            ≡ option_map (λ c. c.key) (deciding.next_decided self.old.slots)) }
        ensures effect { IfOk result (λ done. IfSome done (λ p. (p.effect
            ≡ Effect.Done) ↔ (is_later p.key self.old.object.latest ≡ true))) }
        ensures state { Becomes result self.old self.new
            (performed (same_commands O.Op.eq) O.rules.after self.old) }
        ensures out { AddsAtEnd result out.old out.new
            (performed_answers O.rules.answers self.old) }
        ensures idle { deciding.next_decided self.old.slots ≡ None → result ≡ Ok None }
    {
        let Some(command) = self.slots.next_decided() else {
            return Ok(None);
        };
        let key = command.key();
        let effect = self.object.apply(command, out)?;
        Ok(Some(self.leave_slot(key, effect)))
    }

    /// Gives the command of `slot_out`, where it is known, to the object, which answers nobody. For want of memory nothing
    /// is changed.
    pub fn obey(&mut self) -> Result<Option<Performed>, AllocError>
        ensures slot { IfOk result (λ done. IfSome done (λ p. p.slot
            ≡ self.old.slots.slot_out)) }
        ensures key { IfOk result (λ done. option_map (λ p. p.key) done
            ≡ option_map (λ c. c.key) (deciding.next_decided self.old.slots)) }
        ensures effect { IfOk result (λ done. IfSome done (λ p. (p.effect
            ≡ Effect.Done) ↔ (is_later p.key self.old.object.latest ≡ true))) }
        ensures state { Becomes result self.old self.new
            (performed (same_commands O.Op.eq) O.rules.after self.old) }
        ensures idle { deciding.next_decided self.old.slots ≡ None → result ≡ Ok None }
    {
        match self.slots.next_decided() {
            None => Ok(None),
            Some(command) => {
                let key = command.key();
                let effect = self.object.obey(command)?;
                Ok(Some(self.leave_slot(key, effect)))
            }
        }
    }

    // Its object has obeyed the decision of `slot_out`, and it goes on at the next slot.
    fn leave_slot(&mut self, key: Key, effect: Effect) -> Performed
        requires decided { IsSome (deciding.next_decided self.old.slots) }
        requires numbered { self.old.slots.slot_out ≤ 2 ^ 62 }
        ensures done { result
            ≡ record { slot = self.old.slots.slot_out; key = key; effect = effect } }
        ensures state { self.new ≡ record self.old {
          slots = advanced (same_commands O.Op.eq) self.old.slots;
        } }
    {
        let slot = Slot::new(self.slots.slot_out()).unwrap();
        self.slots.advance();
        Performed { slot, key, effect }
    }

    /// Asks all leaders again for what is proposed, and the other members for what is decided.
    pub fn nudge(
        &self,
        members: Members,
        node: u8,
        out: &mut Vec<Letter<Command<O::Op>>>,
    ) -> Result<(), AllocError>
        ensures ok { AddsAtEnd result out.old out.new (nudges members node self.now.slots) }
    {
        let len = out.len();
        let said = self.append_nudges(members, node, out);
        if said.is_err() {
            out.truncate(len);
        }
        said
    }

    // The same, but for what was sent before memory ran out.
    fn append_nudges(
        &self,
        members: Members,
        node: u8,
        out: &mut Vec<Letter<Command<O::Op>>>,
    ) -> Result<(), AllocError>
        ensures ok { WritesAtEnd result out.old out.new (nudges members node self.now.slots) }
    {
        self.append_proposals(members, node, out)?;
        self.append_asks(members, node, out)
    }

    // Asks all leaders again for each proposal.
    fn append_proposals(
        &self,
        members: Members,
        node: u8,
        out: &mut Vec<Letter<Command<O::Op>>>,
    ) -> Result<(), AllocError>
        ensures ok { WritesAtEnd result out.old out.new
            (all_to_all members node (proposes_again self.now.slots)) }
    {
        let proposals = self.slots.proposals();
        for (slot, command) in proposals {
            let body = LetterBody::Propose(*slot, command.copy()?);
            send_to_all(members, node, body, out)?;
        }
        Ok(())
    }

    // Asks the others for the decisions from `slot_out` on.
    fn append_asks(
        &self,
        members: Members,
        node: u8,
        out: &mut Vec<Letter<Command<O::Op>>>,
    ) -> Result<(), AllocError>
        ensures ok { WritesAtEnd result out.old out.new
            (asks_others members node self.now.slots.slot_out) }
    {
        let Some(slot) = Slot::new(self.slots.slot_out()) else {
            return Ok(());
        };
        for before in 0..members.count() {
            let to = before + 1;
            if to != node {
                let body = LetterBody::Ask(slot);
                out.push(Letter {
                    from: node,
                    to,
                    body,
                })?;
            }
        }
        Ok(())
    }
}

// Asks the leaders of all members but the last to propose a copy of the command in the slot.
fn send_copies<C: Value>(
    members: Members,
    node: u8,
    slot: Slot,
    command: &C,
    out: &mut Vec<Letter<C>>,
) -> Result<(), AllocError>
    ensures ok { WritesAtEnd result out.old out.new
        (map (letter node (LetterBody.Propose slot command.now)) (but_last members)) }
{
    for before in 0..members.count() - 1 {
        let body = LetterBody::Propose(slot, command.copy()?);
        out.push(Letter {
            from: node,
            to: before + 1,
            body,
        })?;
    }
    Ok(())
}
