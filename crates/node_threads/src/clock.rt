use crate::gate::{Actor, Gate, Point};
use crate::shared::Shared;
use counted_hall::Seconds;
use object::Object;
use std::rt::Clock;
use std::sync::Wait;
use std::sync::ledger::Ledger;

/// What the thread of the clock does: it hands in each second, at one node after the other, until all is over. Between two
/// seconds that come in a row it gives each node a turn.
pub(crate) fn run_clock<
    O: Object,
    S: Ledger,
    C: Ledger,
    R: Wait + Clock,
    T: Seconds + Drop,
    G: Gate,
>(rt: &R, shared: &Shared<O, S, C>, mut seconds: T, gate: &G) {
    for _ in rt.forever() {
        let Some(second) = seconds.next() else {
            return;
        };
        if shared.is_over() {
            return;
        }
        shared.await_turns(rt);
        gate.at(Actor::Clock, Point::Turn);
        shared.tick(rt, second);
    }
}
