ghost use Rattle.std.specs.Prelude.{◌≡◌, ◌≤◌, ℕ, Ok, true, false};
ghost use Rattle.turns.specs.Working.{no_work};

use crate::nodes::Nodes;
use hall::HallError;

/// A node proposes so many requests, receives so many letters and performs so much in one turn at most.
const MOST_IN_A_TURN: u32 = 64;

/// So many turns are taken before others may have the lock.
const MOST_TURNS: u32 = 1024;

/// Takes the nodes' turns, one after the other from this one on, or from the first where there is no such node, until none has
/// anything to do. Answers false where something is left after so many turns that others are to have the lock.
pub fn settle<N: Nodes>(nodes: &mut N, first: u8) -> Result<bool, HallError>
    ensures kept { N.handed_in nodes.new ≡ N.handed_in nodes.old }
    ensures goes_on { N.goes_on nodes.old nodes.new }
    ensures calm { result ≡ Ok true → (n : ℕ) → 1 ≤ n → n ≤ N.node_count nodes.new →
        N.work_of nodes.new n ≡ no_work }
{
    let count = nodes.count();
    let mut node = if (1..=count).contains(&first) {
        first
    } else {
        1
    };
    // So many nodes before this one had nothing to do when they had their turn, and nothing was done since.
    let mut calm = 0u8;
    for _ in 0..MOST_TURNS {
        if take_turn(nodes, node)? {
            calm = 0;
        } else {
            calm = calm.saturating_add(1);
        }
        if calm >= count {
            return Ok(true);
        }
        node = if node < count { node + 1 } else { 1 };
    }
    Ok(false)
}

// One turn of a node: it proposes what was asked for, receives what is in its mail, and performs what was decided. Whether
// there was anything to do.
fn take_turn<N: Nodes>(nodes: &mut N, node: u8) -> Result<bool, HallError>
    ensures kept { N.handed_in nodes.new ≡ N.handed_in nodes.old }
    ensures goes_on { N.goes_on nodes.old nodes.new }
    ensures idle { result ≡ Ok false → N.work_of nodes.old node ≡ no_work }
    ensures calm { result ≡ Ok false → N.work_of nodes.new ≡ N.work_of nodes.old }
{
    let has_proposed = propose(nodes, node)?;
    let has_received = receive(nodes, node)?;
    let has_performed = perform(nodes, node)?;
    Ok(has_proposed || has_received || has_performed)
}

// It proposes what was asked for.
fn propose<N: Nodes>(nodes: &mut N, node: u8) -> Result<bool, HallError>
    ensures kept { N.handed_in nodes.new ≡ N.handed_in nodes.old }
    ensures goes_on { N.goes_on nodes.old nodes.new }
    ensures idle { result ≡ Ok false → (N.work_of nodes.old node).request ≡ false }
    ensures calm { result ≡ Ok false → N.work_of nodes.new ≡ N.work_of nodes.old }
{
    for count in 0..MOST_IN_A_TURN {
        if !nodes.propose(node)? {
            return Ok(count > 0);
        }
    }
    Ok(true)
}

// It receives what is in its mail.
fn receive<N: Nodes>(nodes: &mut N, node: u8) -> Result<bool, HallError>
    ensures kept { N.handed_in nodes.new ≡ N.handed_in nodes.old }
    ensures goes_on { N.goes_on nodes.old nodes.new }
    ensures idle { result ≡ Ok false → (N.work_of nodes.old node).mail ≡ false }
    ensures calm { result ≡ Ok false → N.work_of nodes.new ≡ N.work_of nodes.old }
{
    for count in 0..MOST_IN_A_TURN {
        if !nodes.deliver(node)? {
            return Ok(count > 0);
        }
    }
    Ok(true)
}

// It performs what was decided.
fn perform<N: Nodes>(nodes: &mut N, node: u8) -> Result<bool, HallError>
    ensures kept { N.handed_in nodes.new ≡ N.handed_in nodes.old }
    ensures goes_on { N.goes_on nodes.old nodes.new }
    ensures idle { result ≡ Ok false → (N.work_of nodes.old node).decision ≡ false }
    ensures calm { result ≡ Ok false → N.work_of nodes.new ≡ N.work_of nodes.old }
{
    for count in 0..MOST_IN_A_TURN {
        if !nodes.perform(node)? {
            return Ok(count > 0);
        }
    }
    Ok(true)
}
