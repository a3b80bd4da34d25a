use hall::Hall;
use object::Object;
use std::alloc::{AllocError, Global};
use std::sync::atomic::{AtomicBool, AtomicU64, Ordering};

/// Which seconds count for the nodes. With one that does a round begins: each node says again what it waits for, and has
/// waited a round longer.
///
/// A round begins only where the cluster has come to rest since all nodes took note of the last one: no letter is on its way
/// but to nodes that take no turns. What stands undecided then was lost, or nobody leads. So seconds that come in a row, as
/// those that are made up after the process stood still, don't make a node wake while another leads; and what was said once
/// isn't said again while it is still on its way.
#[derive(Drop)]
pub(crate) struct Rounds {
    nodes: Vec<Pulse>,
    round: AtomicU64,
    was_at_rest: AtomicBool,
}

/// What is known of a node's turns.
#[derive(Drop)]
struct Pulse {
    /// It had a turn since the last second.
    has_turned: AtomicBool,
    /// It had none in the whole second before, nor since.
    is_silent: AtomicBool,
    /// The last round that it took note of.
    noted: AtomicU64,
}

impl Rounds {
    /// No round has begun yet for so many nodes.
    pub(crate) fn new(alloc: Global, nodes: u8) -> Result<Rounds, AllocError> {
        let mut pulses = Vec::with_capacity(alloc, usize::from(nodes))?;
        for _ in 0..nodes {
            pulses.push(Pulse {
                has_turned: AtomicBool::new(false),
                is_silent: AtomicBool::new(false),
                noted: AtomicU64::new(0),
            })?;
        }
        Ok(Rounds {
            nodes: pulses,
            round: AtomicU64::new(0),
            was_at_rest: AtomicBool::new(false),
        })
    }

    /// The round that it is.
    pub(crate) fn current(&self) -> u64 {
        self.round.load(Ordering::SeqCst)
    }

    /// Whether each node has had a turn since the last second.
    pub(crate) fn have_all_turned(&self) -> bool {
        self.nodes
            .iter()
            .all(|pulse| pulse.has_turned.load(Ordering::SeqCst))
    }

    /// A node begins a turn.
    pub(crate) fn begin_turn(&self, node: u8) {
        if let Some(pulse) = self.pulse(node) {
            pulse.has_turned.store(true, Ordering::SeqCst);
            pulse.is_silent.store(false, Ordering::SeqCst);
        }
    }

    /// It ends one, and has taken note of this round. The hall's lock is still held.
    pub(crate) fn end_turn<O: Object>(&self, hall: &Hall<O>, node: u8, noted: u64) {
        if let Some(pulse) = self.pulse(node) {
            pulse.noted.store(noted, Ordering::SeqCst);
        }
        if self.is_at_rest(hall) {
            self.was_at_rest.store(true, Ordering::SeqCst);
        }
    }

    /// A second is handed in: with it a round begins, where the cluster has come to rest. The hall's lock is held.
    pub(crate) fn begin_second<O: Object>(&self, hall: &Hall<O>) {
        for pulse in self.nodes.iter() {
            let has_turned = pulse.has_turned.swap(false, Ordering::SeqCst);
            pulse.is_silent.store(!has_turned, Ordering::SeqCst);
        }
        let was_at_rest = self.was_at_rest.swap(false, Ordering::SeqCst);
        if was_at_rest || self.is_at_rest(hall) {
            self.round.fetch_add(1, Ordering::SeqCst);
        }
    }

    // Whether each node has taken note of the round and has no mail, or is silent.
    fn is_at_rest<O: Object>(&self, hall: &Hall<O>) -> bool {
        let round = self.current();
        (1..=hall.members().count()).all(|node| self.is_calm(hall, node, round))
    }

    // Whether this node has, or is.
    fn is_calm<O: Object>(&self, hall: &Hall<O>, node: u8, round: u64) -> bool {
        let Some(pulse) = self.pulse(node) else {
            return true;
        };
        let has_noted = pulse.noted.load(Ordering::SeqCst) >= round;
        pulse.is_silent.load(Ordering::SeqCst) || (has_noted && !hall.work(node).mail)
    }

    // What is known of a node. Nodes count from 1.
    fn pulse(&self, node: u8) -> Option<&Pulse> {
        self.nodes.get(usize::from(node).checked_sub(1)?)
    }
}
