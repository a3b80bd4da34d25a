ghost use Rattle.std.specs.Prelude.{◌≡◌, ◌<◌, ◌≤◌, ◌^◌, true, length, None, is_some, IsOk, IfOk, OnOk, OnErr, if◌then◌else◌};
ghost use Rattle.std.specs.FinMap as map;
ghost use Rattle.ballot.specs.Ballots.{is_promise};
ghost use Rattle.ballot.specs.Members.{is_member};
ghost use Rattle.ballot.specs.Letters.{all_to_all};
ghost use Rattle.leader.specs.Leaders.{says_again};
ghost use Rattle.slot_log.specs.Proposals.{next_proposal, proposed_next};
ghost use Rattle.object.specs.Obeying.{obeyed};
ghost use Rattle.object.specs.OnceOnly.{is_later};
ghost use Rattle.object.specs.Results.{Becomes, AddsAtEnd};
ghost use Rattle.slot_log.specs.Decisions.{next_decided, undecided};
ghost use Rattle.slot_log.specs.Histories.{history};
ghost use Rattle.replica.specs.CatchingUp.{has_proposed_in_vain};
ghost use Rattle.replica.specs.Replicas.{proposes_first};
ghost use Rattle.node.specs.Nodes.{members_of, number_of, new_node, restarted};
ghost use Rattle.node.specs.declared.deed.Deed.TheVariants as deeds;
ghost use Rattle.node.specs.Deeds.{said_again, done_if, IsAble, ComesToNothing};
ghost use Rattle.node.specs.Holding.{new_object, performing_held, own_turn_held, performs_held, outcome_held};
ghost use Rattle.node.specs.Rests.{rest_of_node};
ghost use Rattle.node.specs.ComingBack.{node_back, node_from};

use crate::deed::{Deed, Outcome};
use acceptor::Acceptor;
use ballot::{Ballot, Letter, Members, Slot};
use leader::Leader;
use object::{Answer, Command, Key, Object, Once};
use replica::Replica;
use slot_log::SlotLog;
use std::alloc::{AllocError, Global};
use std::marker::Model;

/// Letters between nodes.
pub(crate) type Letters<O> = Vec<Letter<Command<<O as Object>::Op>>>;

/// A node: its acceptor, how often it restarted, its leader and its replica with the object that this holds. It keeps of
/// its acceptor's pvalues what a report needs. It knows the members and which of them it is. It can forget slots that it
/// has performed: its object knows of them all that is asked for.
#[derive(Drop)]
pub struct LeanNode<O: Object> {
    pub(crate) acceptor: Acceptor<Command<O::Op>>,
    pub(crate) boot: u64,
    pub(crate) leader: Leader<Command<O::Op>>,
    pub(crate) replica: Replica<O>,
    pub(crate) alloc: Global,
}

impl<O: Object> Model for LeanNode<O> {
    ghost use Rattle.std.specs.Coded.{codes};
    ghost use Rattle.object.specs.OnceOnly.{latest_code};
    ghost use Rattle.ballot.specs.Slots.{slots_code};
    ghost use Rattle.node.specs.Holding.{Holding};

    ghost Value = { Holding O.Op O };

    ghost coded = { Prim.hlevel (codes, slots_code, latest_code, O.code, O.Op.code) };

    ghost view = { λ n. record { state = record { acceptor = n.acceptor; boot = n.boot; leader = n.leader; replica = n.replica.slots }; object = n.replica.object } };
}

impl<O: Object> LeanNode<O> {
    /// Node `number` of these members, to which nothing happened yet.
    pub fn new(alloc: Global, members: Members, number: u8) -> Result<LeanNode<O>, AllocError>
        requires { is_member members number ≡ true }
        ensures state { IfOk result (λ node. node.state ≡ new_node members number) }
        ensures object { IfOk result (λ node. node.object ≡ new_object O.rules) }
    {
        Ok(LeanNode {
            acceptor: Acceptor::new(alloc),
            boot: 0,
            leader: Leader::new(alloc, members, number, 0),
            replica: Replica::new(alloc)?,
            alloc,
        })
    }

    /// Node `number` of these members, as it comes back: with its acceptor, of which the slots below this one are
    /// forgotten, with this boot, a leader of the first round, and a replica that goes on at the slot, whose object has
    /// obeyed what was decided before.
    pub fn come_back(
        alloc: Global,
        members: Members,
        number: u8,
        mut acceptor: Acceptor<Command<O::Op>>,
        boot: u64,
        slot: Slot,
        object: Once<O>,
    ) -> LeanNode<O>
        requires member { is_member members number ≡ true }
        requires within { boot ≤ 2 ^ 62 }
        ensures { result ≡ node_back members number acceptor boot slot object }
    {
        acceptor.forget(slot.number());
        LeanNode {
            acceptor,
            boot,
            leader: Leader::new(alloc, members, number, boot),
            replica: Replica::at(alloc, slot, object),
            alloc,
        }
    }

    /// The same node once more, but for its object: a new one obeys what its replica performed, as far as that is known.
    pub(crate) fn copy_obeying(&self) -> Result<LeanNode<O>, AllocError>
        ensures state { IfOk result (λ copy. copy.state ≡ self.now.state) }
        ensures object { IfOk result (λ copy. copy.object
            ≡ obeyed O.rules (history self.now.state.replica)) }
    {
        let slots = self.replica.slots().copy()?;
        Ok(LeanNode {
            acceptor: self.acceptor.copy()?,
            boot: self.boot,
            leader: self.leader.copy()?,
            replica: Replica::of(self.alloc, slots)?,
            alloc: self.alloc,
        })
    }

    /// The members that it knows.
    pub fn members(&self) -> Members
        ensures members { result ≡ members_of self.now.state }
        ensures own { is_member result (number_of self.now.state) ≡ true }
    {
        self.leader.members()
    }

    /// Its own number among them.
    pub fn number(&self) -> u8
        ensures { result ≡ number_of self.now.state }
    {
        self.leader.node()
    }

    /// Whether its leader is active.
    pub fn is_active(&self) -> bool
        ensures { result ≡ self.now.state.leader.active }
    {
        self.leader.is_active()
    }

    /// How many things its leader waits for.
    pub fn awaited_count(&self) -> usize
        ensures { result ≡ length (says_again self.now.state.leader) }
    {
        self.leader.awaited_count()
    }

    /// Whether its leader has a proposal for the slot.
    pub fn has_proposal(&self, slot: Slot) -> bool
        ensures { result ≡ map.contains_key self.now.state.leader.proposals slot }
    {
        self.leader.has_proposal(slot)
    }

    /// What it promised and accepted.
    pub fn acceptor(&self) -> &Acceptor<Command<O::Op>>
        ensures { result.now ≡ self.now.state.acceptor }
    {
        &self.acceptor
    }

    /// How often it came back.
    pub fn boot(&self) -> u64
        ensures { result ≡ self.now.state.boot }
    {
        self.boot
    }

    /// The object of its replica, and what its filter knows: it has obeyed what was decided before its `slot_out`.
    pub fn object(&self) -> &Once<O>
        ensures { result.now ≡ self.now.object }
    {
        self.replica.object()
    }

    /// The slots of its replica.
    pub fn slots(&self) -> &SlotLog<Command<O::Op>>
        ensures { result.now ≡ self.now.state.replica }
    {
        self.replica.slots()
    }

    /// The least slot that its replica proposed a command for without a known decision. It takes no memory.
    pub fn undecided(&self) -> Option<Slot>
        ensures { result ≡ undecided self.now.state.replica }
    {
        self.replica.undecided()
    }

    /// Whether its replica has a request that it can propose. It takes no memory.
    pub fn can_propose(&self) -> bool
        ensures { result ≡ is_some (next_proposal self.now.state.replica) }
    {
        self.replica.can_propose()
    }

    /// Whether its replica knows the decision that it performs next. It takes no memory.
    pub fn can_perform(&self) -> bool
        ensures { result ≡ is_some (next_decided self.now.state.replica) }
    {
        self.replica.can_perform()
    }

    /// Whether its object would obey a command of this key.
    pub fn lets_through(&self, key: Key) -> bool
        ensures { result ≡ is_later key self.now.object.latest }
    {
        self.replica.lets_through(key)
    }

    /// Whether its acceptor has promised this ballot, and no higher one.
    pub fn has_promised(&self, ballot: Ballot) -> bool
        ensures { result ≡ is_promise self.now.state.acceptor.promised ballot }
    {
        self.acceptor.has_promised(ballot)
    }

    /// Does this, and appends the letters that it sends and the answers that it gives. For want of memory it changes
    /// nothing. Where there is nothing to do it takes no memory.
    pub fn act(
        &mut self,
        deed: Deed<O::Op>,
        sent: &mut Letters<O>,
        answers: &mut Vec<Answer<O::Reply>>,
    ) -> Result<Outcome, AllocError>
        requires { IsAble self.old.state deed }
        ensures state { Becomes result self.old self.new (own_turn_held O.rules self.old deed).state }
        ensures sent { AddsAtEnd result sent.old sent.new (own_turn_held O.rules self.old deed).sent }
        ensures answers { AddsAtEnd result answers.old answers.new
            (own_turn_held O.rules self.old deed).answers }
        ensures outcome { IfOk result (λ outcome. outcome ≡ outcome_held self.old deed) }
        ensures idle { ComesToNothing O.rules self.old.state deed → IsOk result }
    {
        match deed {
            Deed::Request(command) => {
                self.replica.request(command)?;
                Ok(Outcome::Done)
            }
            Deed::Wake => {
                self.leader.wake(sent)?;
                Ok(Outcome::Done)
            }
            Deed::Nudge => {
                self.nudge(sent)?;
                Ok(Outcome::Done)
            }
            Deed::Propose => self.propose(sent),
            Deed::Perform => self.perform(answers),
            Deed::Restart => {
                self.restart()?;
                Ok(Outcome::Done)
            }
        }
    }

    // Says again what it waits for.
    fn nudge(&self, sent: &mut Letters<O>) -> Result<(), AllocError>
        ensures ok { AddsAtEnd result sent.old sent.new
            (said_again (members_of self.now.state) (number_of self.now.state) self.now.state) }
    {
        let len = sent.len();
        self.leader.nudge(sent)?;
        let said = self
            .replica
            .nudge(self.leader.members(), self.leader.node(), sent);
        if said.is_err() {
            sent.truncate(len);
        }
        said
    }

    // Proposes the first request, where a slot is open to it.
    fn propose(&mut self, sent: &mut Letters<O>) -> Result<Outcome, AllocError>
        ensures outcome { IfOk result (λ outcome. outcome
            ≡ done_if (next_proposal self.old.state.replica)) }
        ensures state { Becomes result self.old self.new
            (record self.old {
              state = record self.old.state { replica = proposed_next self.old.state.replica };
            }) }
        ensures sent { AddsAtEnd result sent.old sent.new
            (all_to_all (members_of self.old.state) (number_of self.old.state)
            (proposes_first (next_proposal self.old.state.replica))) }
        ensures idle { next_proposal self.old.state.replica ≡ None → IsOk result }
    {
        let does = self
            .replica
            .propose(self.leader.members(), self.leader.node(), sent)?;
        Ok(if does { Outcome::Done } else { Outcome::Idle })
    }

    // Performs the command of its `slot_out`, where that is known, and appends the answers.
    fn perform(&mut self, answers: &mut Vec<Answer<O::Reply>>) -> Result<Outcome, AllocError>
        ensures outcome { IfOk result (λ outcome. outcome
            ≡ performs_held self.old (next_decided self.old.state.replica)) }
        ensures state { Becomes result self.old self.new
            (performing_held O.rules self.old (next_decided self.old.state.replica)).state }
        ensures answers { AddsAtEnd result answers.old answers.new
            (performing_held O.rules self.old (next_decided self.old.state.replica)).answers }
        ensures idle { next_decided self.old.state.replica ≡ None → IsOk result }
    {
        match self.replica.perform(answers)? {
            None => Ok(Outcome::Idle),
            Some(performed) => Ok(Outcome::Performed(performed)),
        }
    }

    /// Performs the next decided command, and answers nobody. For want of memory it changes nothing. Where there is nothing
    /// to do it takes no memory.
    pub fn obey(&mut self) -> Result<Outcome, AllocError>
        ensures state { Becomes result self.old self.new
            (own_turn_held O.rules self.old deeds.Perform).state }
        ensures outcome { IfOk result (λ outcome. outcome ≡ outcome_held self.old deeds.Perform) }
        ensures idle { ComesToNothing O.rules self.old.state deeds.Perform → IsOk result }
    {
        Ok(match self.replica.obey()? {
            None => Outcome::Idle,
            Some(performed) => Outcome::Performed(performed),
        })
    }

    // Stops, and begins anew with the next boot. The acceptor stays as it is.
    fn restart(&mut self) -> Result<(), AllocError>
        requires { self.old.state.boot < 2 ^ 62 }
        ensures state { OnOk result (self.new.state
            ≡ restarted (members_of self.old.state) (number_of self.old.state) self.old.state) }
        ensures object { OnOk result (self.new.object ≡ new_object O.rules) }
        ensures err { OnErr result (self.new ≡ self.old) }
    {
        let replica = Replica::new(self.alloc)?;
        self.boot += 1;
        self.leader = Leader::new(
            self.alloc,
            self.leader.members(),
            self.leader.node(),
            self.boot,
        );
        self.replica = replica;
        Ok(())
    }

    /// Whether the object has obeyed nothing of what its replica has proposed for slots before this one. It takes no
    /// memory.
    pub fn has_proposed_in_vain(&self, slot: Slot, object: &Once<O>) -> bool
        ensures { result ≡ has_proposed_in_vain slot object.now self.now.state.replica }
    {
        self.replica.has_proposed_in_vain(slot, object)
    }

    /// It goes on at a higher slot, with this object, which has obeyed what was decided before, and forgets the slots
    /// before it. What its replica has proposed for these is asked for again. It takes no memory.
    pub fn catch_up(&mut self, slot: Slot, object: Once<O>)
        requires { self.old.state.replica.slot_out ≤ slot }
        ensures { self.new ≡ node_from slot object self.old }
    {
        self.acceptor.forget(slot.number());
        self.leader.forget(slot.number());
        self.replica.catch_up(slot, object);
    }

    /// Forgets the slots below the base, which is at most the slot that its replica performs next. It takes no memory.
    pub fn forget(&mut self, base: u64)
        requires { base ≤ self.old.state.replica.slot_out }
        ensures { self.new ≡ record self.old { state = rest_of_node base self.old.state } }
    {
        self.acceptor.forget(base);
        self.leader.forget(base);
        self.replica.forget(base);
    }
}
