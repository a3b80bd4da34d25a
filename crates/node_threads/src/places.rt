ghost use Rattle.std.specs.Prelude.{◌≡◌, ◌<◌, IfOk, vec_len};
ghost use Rattle.node_threads.specs.Rings.{node_after, node_of_second};

use crate::rounds::Rounds;
use std::alloc::{AllocError, Global};
use std::sync::Wait;
use std::sync::atomic::{AtomicBool, AtomicU64, Ordering};
use std::thread::{Parker, yield_now};
use std::time::Duration;

/// Where the threads wait: node n at place n - 1 of the nodes, worker k at place k - 1 of the workers. And whether all is
/// over.
///
/// Each has a bell, which is rung also where nobody waits: then the next wait ends at once.
#[derive(Drop)]
pub(crate) struct WaitingPlaces {
    nodes: Vec<Parker>,
    workers: Vec<Seat>,
    rounds: Rounds,
    is_over: AtomicBool,
    ghost some: { 0 < vec_len nodes },
    ghost few: { vec_len nodes < 256 },
}

/// A worker's place, and the last session that it began to serve, 0 before the first.
#[derive(Drop)]
struct Seat {
    session: AtomicU64,
    bell: Parker,
}

impl Seat {
    // The place of a worker that has served nobody.
    fn new() -> Seat {
        Seat {
            session: AtomicU64::new(0),
            bell: Parker::new(),
        }
    }
}

impl WaitingPlaces {
    /// Places for so many nodes and workers.
    pub(crate) fn new(alloc: Global, nodes: u8, workers: u32) -> Result<WaitingPlaces, AllocError>
        requires { 0 < nodes }
        ensures { IfOk result (λ places. vec_len places.nodes ≡ nodes) }
    {
        let mut bells = Vec::new(alloc);
        bells.resize_with(usize::from(nodes), Parker::new)?;
        let mut seats = Vec::new(alloc);
        seats.resize_with(workers as usize, Seat::new)?;
        Ok(WaitingPlaces {
            nodes: bells,
            workers: seats,
            rounds: Rounds::new(alloc, nodes)?,
            is_over: AtomicBool::new(false),
        })
    }

    /// Which seconds count for the nodes.
    pub(crate) fn rounds(&self) -> &Rounds {
        &self.rounds
    }

    /// A worker serves this session from now on.
    pub(crate) fn sit(&self, worker: u32, session: u32) {
        if let Some(seat) = self.seat(worker) {
            seat.session.store(u64::from(session), Ordering::SeqCst);
        }
    }

    /// A node waits until there is something for it.
    pub(crate) fn wait_as_node<R: Wait>(&self, rt: &R, node: u8) {
        match self.node_bell(node) {
            Some(bell) => bell.park(rt),
            None => yield_now(),
        }
    }

    /// A node waits until there is something for it, for so long at most.
    pub(crate) fn pause_as_node<R: Wait>(&self, rt: &R, node: u8, pause: Duration) {
        match self.node_bell(node) {
            Some(bell) => bell.park_timeout(rt, pause),
            None => yield_now(),
        }
    }

    /// A worker waits until there is something for it.
    pub(crate) fn wait_as_worker<R: Wait>(&self, rt: &R, worker: u32) {
        match self.seat(worker) {
            Some(seat) => seat.bell.park(rt),
            None => yield_now(),
        }
    }

    /// There is something for a node.
    pub(crate) fn ring_node(&self, node: u8) {
        if let Some(bell) = self.node_bell(node) {
            bell.unpark();
        }
    }

    /// There is something for the worker that serves this session.
    pub(crate) fn ring_worker_of(&self, session: u32) {
        let session = u64::from(session);
        let mut seats = self.workers.iter();
        if let Some(seat) = seats.find(|seat| seat.session.load(Ordering::SeqCst) == session) {
            seat.bell.unpark();
        }
    }

    /// There is something for everybody: a second has passed, or all is over.
    pub(crate) fn ring_all(&self) {
        self.nodes.iter().for_each(|bell| bell.unpark());
        self.workers.iter().for_each(|seat| seat.bell.unpark());
    }

    /// The node after this one, in a ring.
    pub(crate) fn next_node(&self, node: u8) -> u8
        ensures next { result ≡ node_after (vec_len self.now.nodes) node }
    {
        if usize::from(node) < self.nodes.len() {
            node + 1
        } else {
            1
        }
    }

    /// The node at which a second is handed in: second t at node 1 + t mod N of N nodes.
    pub(crate) fn node_of_second(&self, second: u64) -> u8
        ensures at { result ≡ node_of_second (vec_len self.now.nodes) second }
    {
        let place = second % self.nodes.len() as u64;
        place as u8 + 1
    }

    /// Nodes and clock are to end.
    pub(crate) fn end(&self) {
        self.is_over.store(true, Ordering::SeqCst);
        self.ring_all();
    }

    /// Whether they are.
    pub(crate) fn is_over(&self) -> bool {
        self.is_over.load(Ordering::SeqCst)
    }

    // A node's bell. Nodes count from 1.
    fn node_bell(&self, node: u8) -> Option<&Parker> {
        self.nodes.get(usize::from(node).checked_sub(1)?)
    }

    // A worker's place. Workers count from 1.
    fn seat(&self, worker: u32) -> Option<&Seat> {
        self.workers.get((worker as usize).checked_sub(1)?)
    }
}
