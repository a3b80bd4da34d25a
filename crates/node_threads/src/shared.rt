ghost use Rattle.std.specs.Prelude.{◌≡◌, ◌<◌, ◌≤◌, true, false, Some, IfOk, OnOk, OnErr, vec_len};
ghost use Rattle.hall.specs.declared.ticket.NotedAct.{NotedAct};
ghost use Rattle.hall.specs.Halls.{after_tick, with_nodes};
ghost use Rattle.hall.specs.Recorded.{asked};
ghost use Rattle.hall.specs.Tickets.{last_command, last_noted, with_noted};
ghost use Rattle.counted_hall.specs.Counting.{CountNothing, CountsAll, CountsNone, HandsInOne, HaveAllParts, OpensOne};
ghost use Rattle.node_threads.specs.Rings.{node_after, node_of_second};

use crate::faults::Faults;
use crate::gate::{Actor, Gate, Point};
use crate::places::WaitingPlaces;
use counted_hall::{CountedHall, Watch};
use hall::{Hall, HallError, Ticket};
use object::{Act, Object};
use std::alloc::{AllocError, Global};
use std::rt::Clock;
use std::sync::ledger::{Blank, Ledger, Share};
use std::sync::{Mutex, Wait};
use std::thread::sleep;
use std::time::Duration;

/// So many naps the clock waits for the nodes' turns at most, and so many milliseconds each.
const MOST_NAPS: u32 = 100;

const NAP: u64 = 1;

/// The hall under its lock, and the places where its threads wait until there is something for them to do.
#[derive(Drop)]
pub struct Shared<O: Object, S: Ledger, C: Ledger> {
    hall: Mutex<CountedHall<O, S, C>>,
    places: WaitingPlaces,
}

/// Where and when a worker handed in its client's last command.
#[derive(Clone, Copy)]
pub(crate) struct HandedIn {
    node: u8,
    second: u64,
}

impl HandedIn {
    // What is kept of a command that was handed in at the node just now.
    fn at<O: Object>(node: u8, hall: &Hall<O>) -> HandedIn
        ensures node { result.node ≡ node }
        ensures second { result.second ≡ hall.now.second }
    {
        HandedIn {
            node,
            second: hall.last_second(),
        }
    }
}

/// How a node stands after its turn.
#[derive(Clone, Copy, Debug, PartialEq, Eq)]
pub(crate) enum AfterTurn {
    /// There is more for it to do at once.
    HasMore,
    /// There is nothing for it to do until its bell rings.
    HasNothing,
    /// It was refused memory, or the hall took no event more: it is to try again.
    WasRefused,
}

impl<O: Object, S: Ledger, C: Ledger> Shared<O, S, C> {
    /// A hall in which no session was opened yet, for so many workers, with the shares of all of both counts. Its nodes
    /// have no threads: who runs a cluster starts them.
    pub fn without_threads(
        alloc: Global,
        hall: Hall<O>,
        workers: u32,
        sessions: Blank,
        commands: Blank,
    ) -> Result<(Shared<O, S, C>, Share<S>, Share<C>), AllocError>
        requires none { CountsNone S.Ledger C.Ledger hall.book sessions commands }
        ensures all { IfOk result
            (λ shared. HaveAllParts S.Ledger C.Ledger shared.1 shared.2) }
        ensures nothing { IfOk result (λ shared. CountNothing shared.1 shared.2) }
    {
        let places = WaitingPlaces::new(alloc, hall.members().count(), workers)?;
        Ok(Shared::new(alloc, hall, places, sessions, commands))
    }

    /// The same, where there are places.
    pub(crate) fn new(
        alloc: Global,
        hall: Hall<O>,
        places: WaitingPlaces,
        sessions: Blank,
        commands: Blank,
    ) -> (Shared<O, S, C>, Share<S>, Share<C>)
        requires none { CountsNone S.Ledger C.Ledger hall.book sessions commands }
        ensures all { HaveAllParts S.Ledger C.Ledger result.1 result.2 }
        ensures nothing { CountNothing result.1 result.2 }
    {
        let (hall, sessions, commands) = CountedHall::new(alloc, hall, sessions, commands);
        let shared = Shared {
            hall: Mutex::new(hall),
            places,
        };
        (shared, sessions, commands)
    }

    /// The hall, once nobody shares it, with a mark for each session that was opened, and what all shares of the counts
    /// together say of it: how many sessions were opened there, and how many commands these handed in.
    pub(crate) fn into_hall(
        self,
        all_sessions: &mut Share<S>,
        all_commands: &mut Share<C>,
    ) -> (Hall<O>, Vec<bool>)
        requires all { HaveAllParts S.Ledger C.Ledger all_sessions.old all_commands.old }
        ensures counted { CountsAll result.0.book result.1 all_sessions.old all_sessions.new
            all_commands.old all_commands.new }
    {
        let Shared { hall, places: _ } = self;
        hall.into_inner().into_hall(all_sessions, all_commands)
    }

    /// Opens a session for a worker.
    pub fn open_session<R: Wait>(
        &self,
        rt: &R,
        mine: &mut Share<S>,
        worker: u32,
    ) -> Result<Ticket<O>, HallError>
        requires { 0 < mine.old.parts }
        ensures opened { OpensOne mine.old mine.new result }
    {
        let ticket = self.hall.lock(rt).open_session(mine)?;
        self.places.sit(worker, ticket.session());
        Ok(ticket)
    }

    /// Hands in the next command of a session at a node, and rings that node's bell. Answers where and when that was.
    pub(crate) fn submit<R: Wait>(
        &self,
        rt: &R,
        mine: &mut Share<C>,
        ticket: &mut Ticket<O>,
        act: Act<O::Op>,
        node: u8,
    ) -> Result<HandedIn, HallError>
        requires { 0 < mine.old.parts }
        ensures handed_in { HandsInOne act ticket.old ticket.new mine.old mine.new result }
        ensures at { IfOk result (λ handed_in. handed_in.node ≡ node) }
    {
        let mut guard = self.hall.lock(rt);
        guard.submit(mine, ticket, act, node)?;
        self.places.ring_node(node);
        Ok(HandedIn::at(node, guard.hall()))
    }

    /// Waits for the answer to a session's last command, and notes it in the ticket. At each second without one the
    /// command is handed in again, at the next node.
    pub(crate) fn note_answer<R: Wait>(
        &self,
        rt: &R,
        ticket: &mut Ticket<O>,
        worker: u32,
        handed_in: HandedIn,
    ) -> Result<(), AllocError>
        ensures noted { OnOk result ((reply : O.Reply)
            × (ticket.new ≡ with_noted ticket.old (Some reply))) }
        ensures err { OnErr result (ticket.new ≡ ticket.old) }
    {
        let mut handed_in = handed_in;
        for _ in rt.forever() {
            self.places.wait_as_worker(rt, worker);
            if self.look_for_answer(rt, ticket, &mut handed_in)? {
                return Ok(());
            }
        }
        unreachable!()
    }

    /// One turn of a node, after the mishap that is chosen for it. Then the bells ring of the other nodes that have mail, and
    /// of the workers whose clients were answered. Tells how the node stands then.
    pub(crate) fn take_turn<R: Wait, H: Gate + Faults>(
        &self,
        rt: &R,
        watch: &mut Watch,
        rig: &H,
    ) -> AfterTurn {
        let node = watch.node();
        rig.at(Actor::Node(node), Point::Turn);
        let mishap = rig.choose(node, watch.count_turn());
        let rounds = self.places.rounds();
        let mut guard = self.hall.lock(rt);
        rounds.begin_turn(node);
        let answers = guard.hall().answer_count();
        let went = guard.take_turn(watch, mishap, rounds.current());
        let hall = guard.hall();
        rounds.end_turn(hall, node, watch.round());
        self.ring_nodes(hall, node);
        self.ring_workers(hall, answers);
        match went {
            Err(_) => AfterTurn::WasRefused,
            Ok(()) if hall.work(node).is_some() => AfterTurn::HasMore,
            Ok(()) => AfterTurn::HasNothing,
        }
    }

    /// Waits until each node has had a turn since the last second; a tenth of a second at most.
    pub(crate) fn await_turns<R: Clock>(&self, clock: &R) {
        for _ in 0..MOST_NAPS {
            if self.places.rounds().have_all_turned() || self.is_over() {
                return;
            }
            sleep(clock, Duration::from_millis(NAP));
        }
    }

    /// Hands in a second of the clock, at one node after the other, and tells everybody that it has passed.
    pub(crate) fn tick<R: Wait>(&self, rt: &R, second: u64) {
        let mut guard = self.hall.lock(rt);
        self.places.rounds().begin_second(guard.hall());
        let _ = self.hand_in_second(&mut guard, second);
        self.places.ring_all();
    }

    /// A node waits until there is something for it.
    pub(crate) fn wait_as_node<R: Wait>(&self, rt: &R, node: u8) {
        self.places.wait_as_node(rt, node)
    }

    /// The same, for so long at most.
    pub(crate) fn pause_as_node<R: Wait>(&self, rt: &R, node: u8, pause: Duration) {
        self.places.pause_as_node(rt, node, pause)
    }

    /// The node after this one, in a ring.
    pub(crate) fn next_node(&self, node: u8) -> u8
        ensures { result ≡ node_after (vec_len self.now.places.nodes) node }
    {
        self.places.next_node(node)
    }

    /// Nodes and clock are to end.
    pub(crate) fn end(&self) {
        self.places.end();
    }

    /// Whether they are.
    pub(crate) fn is_over(&self) -> bool {
        self.places.is_over()
    }

    // Rings the bells of the nodes that have mail, but for this one.
    fn ring_nodes(&self, hall: &Hall<O>, but: u8) {
        for node in 1..=hall.members().count() {
            if node != but && hall.work(node).mail {
                self.places.ring_node(node);
            }
        }
    }

    // Rings the bells of the workers whose clients were answered since there were so many answers.
    fn ring_workers(&self, hall: &Hall<O>, answers: usize) {
        for index in answers..hall.answer_count() {
            if let Some(key) = hall.answered_key(index) {
                self.places.ring_worker_of(key.session);
            }
        }
    }

    // Hands in a second of the clock, at the node whose turn it is.
    fn hand_in_second(&self, hall: &mut CountedHall<O, S, C>, second: u64) -> Result<(), HallError>
        ensures ok { OnOk result (hall.new.hall ≡ after_tick O.rules hall.old.hall
            (node_of_second (vec_len self.now.places.nodes) second) second) }
        ensures err { OnErr result (hall.new.hall ≡ hall.old.hall) }
    {
        hall.tick(second, self.places.node_of_second(second))
    }

    // Looks once for the answer, and hands in again where a second has passed.
    fn look_for_answer<R: Wait>(
        &self,
        rt: &R,
        ticket: &mut Ticket<O>,
        handed_in: &mut HandedIn,
    ) -> Result<bool, AllocError>
        ensures noted { IfOk result (λ noted. noted ≡ true → (reply : O.Reply)
            × (ticket.new ≡ with_noted ticket.old (Some reply))) }
        ensures none { IfOk result (λ noted. noted ≡ false → ticket.new ≡ ticket.old) }
        ensures err { OnErr result (ticket.new ≡ ticket.old) }
        ensures stays { handed_in.new.second ≡ handed_in.old.second →
            handed_in.new.node ≡ handed_in.old.node }
        ensures next { handed_in.old.second < handed_in.new.second →
            handed_in.new.node ≡ node_after (vec_len self.now.places.nodes) handed_in.old.node }
        ensures rises { handed_in.old.second ≤ handed_in.new.second }
    {
        let mut guard = self.hall.lock(rt);
        if guard.hall().note(ticket)? {
            return Ok(true);
        }
        let _ = self.hand_in_again(&mut guard, ticket, handed_in);
        Ok(false)
    }

    // Where a second has passed since the command was handed in, it is handed in again, at the next node, whose bell rings.
    fn hand_in_again(
        &self,
        hall: &mut CountedHall<O, S, C>,
        ticket: &Ticket<O>,
        handed_in: &mut HandedIn,
    ) -> Result<(), HallError>
        ensures waits { hall.old.hall.second ≤ handed_in.old.second →
            (handed_in.new ≡ handed_in.old) × (hall.new.hall ≡ hall.old.hall) }
        ensures second { handed_in.old.second < hall.old.hall.second →
            handed_in.new.second ≡ hall.old.hall.second }
        ensures node { handed_in.old.second < hall.old.hall.second →
            handed_in.new.node ≡ node_after (vec_len self.now.places.nodes) handed_in.old.node }
        ensures again { handed_in.old.second < hall.old.hall.second →
            OnOk result ((noted : NotedAct O.Op O.Reply) → last_noted ticket.now ≡ Some noted →
            hall.new.hall ≡ with_nodes hall.old.hall
            (asked O.rules hall.old.hall.nodes handed_in.new.node
            (last_command ticket.now noted.act))) }
        ensures err { OnErr result (hall.new.hall ≡ hall.old.hall) }
    {
        let second = hall.hall().last_second();
        if second <= handed_in.second {
            return Ok(());
        }
        let node = self.places.next_node(handed_in.node);
        *handed_in = HandedIn { node, second };
        hall.resubmit(ticket, node)?;
        self.places.ring_node(node);
        Ok(())
    }
}
