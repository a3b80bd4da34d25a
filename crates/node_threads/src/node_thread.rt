ghost use Rattle.std.specs.Prelude.{◌<◌};

use crate::faults::Faults;
use crate::gate::Gate;
use crate::shared::{AfterTurn, Shared};
use backoff::Backoff;
use counted_hall::Watch;
use object::Object;
use std::sync::Wait;
use std::sync::ledger::Ledger;

/// So many milliseconds a node pauses at first where it was refused memory in its turn.
const FIRST_PAUSE: u64 = 10;

/// What the thread of a node does: it takes its turn when there is something for it, until all is over. Where it is
/// refused memory, it tries again after a pause. Nodes count from 1.
pub(crate) fn run_node<O: Object, S: Ledger, C: Ledger, R: Wait, H: Gate + Faults>(
    rt: &R,
    shared: &Shared<O, S, C>,
    node: u8,
    rig: &H,
)
    requires { 0 < node }
{
    // it proposes before it reads its mail, so no request waits as long as letters keep coming
    let mut watch = Watch::new(node, false);
    let mut backoff = Backoff::new(FIRST_PAUSE);
    for _ in rt.forever() {
        let stands = shared.take_turn(rt, &mut watch, rig);
        if shared.is_over() {
            return;
        }
        if stands == AfterTurn::WasRefused {
            shared.pause_as_node(rt, node, backoff.next_pause());
            continue;
        }
        backoff.reset();
        if stands == AfterTurn::HasNothing {
            shared.wait_as_node(rt, node);
        }
    }
}
