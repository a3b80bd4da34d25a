ghost use Rattle.std.specs.Prelude.{◌≡◌, ◌+◌, ◌≤◌, [], length, ◌||◌, max, true, false, Result, Ok, IfOk, OnOk, OnErr};
ghost use Rattle.hall.specs.declared.error.HallError.{HallError};
ghost use Rattle.conversation.specs.Desks.{HandsIn};
ghost use Rattle.event_loops.specs.Courses.{AllLead};
ghost use Rattle.event_loops.specs.Seats.{gives_up_at, has_ended};
ghost use Rattle.event_loops.specs.Sessions.{next_session, opened_then};

use crate::beginning::Beginning;
use crate::desk::LoopDesk;
use crate::seat::Seat;
use crate::stream::Stream;
use bean_words::Op;
use conversation::SessionTicket;
use hall::HallError;
use indexmap::IndexMap;
use object::Command;
use std::alloc::{AllocError, Global};
use std::marker::{Model, PhantomData};
use turns::Watch;

/// A hall has so many nodes at most.
const MOST_NODES: usize = 7;

/// What all loops share under one lock: the desk of the hall, what its nodes keep in mind, and which loop has each session.
///
/// It is seen as its desk, which goes on from what there was in the beginning.
#[derive(Drop)]
pub(crate) struct House<D: LoopDesk, B: Beginning> {
    desk: D,
    /// The first of these are the members'.
    watches: [Watch; MOST_NODES],
    owners: IndexMap<u32, usize>,
    /// So many seconds have passed.
    round: u64,
    beginning: PhantomData<B>,
}

impl<D: LoopDesk, B: Beginning> Model for House<D, B> {
    ghost use Rattle.event_loops.specs.Courses.{AllLead};

    ghost Value = { D };

    ghost view = { λ house. house.desk };

    ghost invariant = { λ house. AllLead D.leads B.began (D.shows house.desk) };
}

impl<D: LoopDesk, B: Beginning> House<D, B> {
    /// A desk at which no session was opened yet.
    pub(crate) fn new(alloc: Global, desk: D) -> House<D, B>
        requires { AllLead D.leads B.began (D.shows desk) }
        ensures { result ≡ desk }
    {
        House {
            desk,
            watches: first_watches(),
            owners: IndexMap::new(alloc),
            round: 0,
            beginning: PhantomData,
        }
    }

    /// Its desk, once all is over.
    pub(crate) fn into_desk(self) -> D
    where
        D: Drop,
        ensures desk { result ≡ self }
        ensures goes_on { AllLead D.leads B.began (D.shows result) }
    {
        self.desk
    }

    /// Its desk, to look at.
    pub(crate) fn desk(&self) -> &D
        ensures { result.now ≡ self.now }
    {
        &self.desk
    }

    /// Has each node take its first turn, in which the first one asks to lead.
    pub(crate) fn begin(&mut self) {
        self.take_turns();
        let _ = self.settle(1);
    }

    /// A client of a loop gets a session: one that is free, or else the next one.
    pub(crate) fn open_session(&mut self, owner: usize) -> Result<D::Ticket, HallError>
        ensures new { IfOk result (λ t. D.Ticket.keeping.IsOf t []) }
        ensures session { IfOk result (λ t. D.Ticket.keeping.session t
            ≡ next_session (D.free self.old) (D.opened self.old)) }
        ensures opened { OnOk result (D.opened self.new
            ≡ opened_then (D.free self.old) (D.opened self.old)) }
        ensures err { OnErr result (D.opened self.new ≡ D.opened self.old) }
        ensures none_taken { OnErr result (D.free self.new ≡ D.free self.old) }
        ensures kept { OnErr result (D.handed_in self.new ≡ D.handed_in self.old) }
    {
        self.owners.reserve(1)?;
        let ticket = self.desk.open_session()?;
        let _ = self.owners.insert(ticket.session(), owner);
        Ok(ticket)
    }

    /// A client's session is seen off once, when it hands in nothing more, and else nothing is done: afterwards another client
    /// may have it.
    pub(crate) fn see_off<S: Stream>(&mut self, seat: &mut Seat<S, D::Ticket>)
        ensures stays { (seat.old.is_abandoned || has_ended seat.old.client.stage) ≡ false →
            self.new ≡ self.old }
        ensures once { seat.old.is_seen_off ≡ true → self.new ≡ self.old }
        ensures seat { seat.new ≡ record seat.old {
          is_seen_off = seat.old.is_seen_off
              || (seat.old.is_abandoned || has_ended seat.old.client.stage);
        } }
    {
        if seat.take_leave() {
            let ticket = seat.ticket();
            let _ = self.owners.swap_remove(&ticket.session());
            self.desk.see_off(ticket);
        }
    }

    /// A client hands in what there is.
    pub(crate) fn hand_in<S: Stream>(&mut self, seat: &mut Seat<S, D::Ticket>)
        ensures handed_in { (ended : Result Unit HallError)
            × HandsIn D.Ticket.keeping D.submits self.old self.new
            seat.old.client seat.new.client ended
            × (seat.new.is_abandoned ≡ (gives_up_at ended || seat.old.is_abandoned)) }
        ensures owed { seat.new.owed ≡ seat.old.owed }
    {
        seat.hand_in(&mut self.desk);
    }

    /// What a client hands in is handed in at this node.
    pub(crate) fn stand_at(&mut self, node: u8)
        requires node { 1 ≤ node }
        ensures kept { D.handed_in self.new ≡ D.handed_in self.old }
    {
        self.desk.stand_at(node);
    }

    /// Hands in a second of the clock, and has each node take note of it, unless another loop did that.
    pub(crate) fn tick(&mut self, second: u64, node: u8)
        requires node { 1 ≤ node }
        ensures idle { second ≤ D.clock self.old → self.new ≡ self.old }
    {
        if second <= self.desk.last_second() {
            return;
        }
        self.round = self.round.saturating_add(1);
        self.hand_in_second(second, node);
        self.take_turns();
    }

    // Hands in that this second has come, and no later one.
    fn hand_in_second(&mut self, second: u64, node: u8)
        requires node { 1 ≤ node }
        ensures within { D.clock self.new ≤ max (D.clock self.old) second }
        ensures later { D.clock self.old ≤ D.clock self.new }
    {
        self.desk.tick(second, node);
    }

    /// Hands in again what a session waits for, at a node.
    pub(crate) fn hand_in_again(&mut self, ticket: &D::Ticket, node: u8)
        requires node { 1 ≤ node }
        ensures { D.handed_in self.new ≡ D.handed_in self.old }
    {
        self.desk.hand_in_again(ticket, node);
    }

    /// Takes the nodes' turns, from this one on, until none has anything to do. Answers false where something is left.
    pub(crate) fn settle(&mut self, first: u8) -> Result<bool, HallError>
        requires node { 1 ≤ first }
        ensures { result ≡ Ok true → D.is_calm self.new }
    {
        self.desk.settle(first)
    }

    /// The commands that took effect since this was asked last, for the log.
    pub(crate) fn take_placed(&mut self) -> Result<Vec<Command<Op>>, AllocError>
        ensures placed { IfOk result (λ commands. commands.items ≡ D.placed self.old) }
        ensures taken { OnOk result (D.taken self.new ≡ D.taken self.old + length (D.placed self.old)) }
    {
        self.desk.take_placed()
    }

    /// The next session that was answered, and which loop has it, of those of which this wasn't told yet.
    pub(crate) fn next_answered(&mut self) -> Option<(u32, usize)> {
        for _ in 0..u64::MAX {
            let session = self.desk.next_answered()?;
            if let Some(owner) = self.owners.get(&session) {
                return Some((session, *owner));
            }
        }
        None
    }

    // Has each node take a turn, in which it takes note of the round.
    fn take_turns(&mut self) {
        let count = self.desk.node_count();
        for at in 0..MOST_NODES {
            self.take_turn(at, count);
        }
    }

    // The node of this watch takes a turn, where there are so many nodes.
    fn take_turn(&mut self, at: usize, count: u8) {
        let House {
            desk,
            watches,
            round,
            ..
        } = self;
        if let Some(watch) = watches.get_mut(at) {
            if watch.node() <= count {
                desk.take_turn(watch, *round);
            }
        }
    }
}

// What each node keeps in mind at first.
fn first_watches() -> [Watch; MOST_NODES] {
    [
        Watch::new(1, true),
        Watch::new(2, true),
        Watch::new(3, true),
        Watch::new(4, true),
        Watch::new(5, true),
        Watch::new(6, true),
        Watch::new(7, true),
    ]
}
