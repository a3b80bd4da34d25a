ghost use Rattle.std.specs.Prelude.{◌≡◌};

use crate::nodes::Nodes;
use ballot::Slot;
use hall::HallError;

/// A node receives so many letters in one turn at most.
const MOST_LETTERS: u32 = 64;

/// The node that wakes at the start.
const FIRST_NODE: u8 = 1;

/// What a node keeps in mind from one of its turns to the next.
#[derive(Drop)]
pub struct Watch {
    node: u8,
    /// Whether it reads its mail before it proposes.
    reads_first: bool,
    has_begun: bool,
    /// How many turns it has had, 2^64 - 1 where there were more.
    turns: u64,
    /// The last round that it took note of.
    round: u64,
    /// The least slot that it proposed a command for without a known decision, and for how many rounds that was so.
    undecided: Option<Slot>,
    rounds: u8,
}

impl Watch {
    /// A node that has had no turn.
    pub fn new(node: u8, reads_first: bool) -> Watch {
        Watch {
            node,
            reads_first,
            has_begun: false,
            turns: 0,
            round: 0,
            undecided: None,
            rounds: 0,
        }
    }

    /// The node.
    pub fn node(&self) -> u8 {
        self.node
    }

    /// Whether it has had a turn.
    pub fn has_begun(&self) -> bool {
        self.has_begun
    }

    /// The number of the node's next turn, which it has now. Turns count from 1, and stay at 2^64 - 1.
    pub fn count_turn(&mut self) -> u64 {
        self.turns = self.turns.saturating_add(1);
        self.turns
    }

    /// The last round that it took note of.
    pub fn round(&self) -> u64 {
        self.round
    }

    /// One turn of the node: it proposes a request, unless it is to read its mail first; receives what is in its mail, up to
    /// 64 letters; and performs what was decided. At the start the first node wakes. In each round, once no mail is left to
    /// it, it says again what it waits for.
    pub fn take_turn<N: Nodes>(&mut self, nodes: &mut N, round: u64) -> Result<(), HallError>
        ensures kept { N.handed_in nodes.new ≡ N.handed_in nodes.old }
        ensures goes_on { N.goes_on nodes.old nodes.new }
    {
        self.begin(nodes)?;
        self.propose(nodes)?;
        receive(nodes, self.node)?;
        perform(nodes, self.node)?;
        self.note_round(nodes, round)
    }

    // It proposes a request, unless it is to read its mail first: this may tell it that another node's command takes the
    // slot.
    fn propose<N: Nodes>(&self, nodes: &mut N) -> Result<(), HallError>
        ensures kept { N.handed_in nodes.new ≡ N.handed_in nodes.old }
        ensures goes_on { N.goes_on nodes.old nodes.new }
    {
        let work = nodes.work(self.node);
        let waits = self.reads_first && work.mail;
        if !waits && work.request {
            nodes.propose(self.node)?;
        }
        Ok(())
    }

    // The first node wakes in its first turn.
    fn begin<N: Nodes>(&mut self, nodes: &mut N) -> Result<(), HallError>
        ensures kept { N.handed_in nodes.new ≡ N.handed_in nodes.old }
        ensures goes_on { N.goes_on nodes.old nodes.new }
    {
        if self.node == FIRST_NODE && !self.has_begun {
            nodes.wake(self.node)?;
        }
        self.has_begun = true;
        Ok(())
    }

    // Where a round has begun and no mail is left, the node says again what it waits for. Node n wakes where a proposal of
    // its own stood undecided over n rounds.
    fn note_round<N: Nodes>(&mut self, nodes: &mut N, round: u64) -> Result<(), HallError>
        ensures kept { N.handed_in nodes.new ≡ N.handed_in nodes.old }
        ensures goes_on { N.goes_on nodes.old nodes.new }
    {
        if round <= self.round || nodes.work(self.node).mail {
            return Ok(());
        }
        self.round = round;
        nodes.nudge(self.node)?;
        self.count_undecided(nodes.undecided(self.node));
        if self.rounds >= self.node {
            self.rounds = 0;
            nodes.wake(self.node)?;
        }
        Ok(())
    }

    // One round more with this slot undecided, or the first look at it.
    fn count_undecided(&mut self, undecided: Option<Slot>) {
        self.rounds = if undecided.is_some() && undecided == self.undecided {
            self.rounds.saturating_add(1)
        } else {
            0
        };
        self.undecided = undecided;
    }
}

// The node receives what is in its mail.
fn receive<N: Nodes>(nodes: &mut N, node: u8) -> Result<(), HallError>
    ensures kept { N.handed_in nodes.new ≡ N.handed_in nodes.old }
    ensures goes_on { N.goes_on nodes.old nodes.new }
{
    for _ in 0..MOST_LETTERS {
        if !nodes.work(node).mail {
            break;
        }
        nodes.deliver(node)?;
    }
    Ok(())
}

// It performs what was decided.
fn perform<N: Nodes>(nodes: &mut N, node: u8) -> Result<(), HallError>
    ensures kept { N.handed_in nodes.new ≡ N.handed_in nodes.old }
    ensures goes_on { N.goes_on nodes.old nodes.new }
{
    for _ in 0..u64::MAX {
        if !nodes.work(node).decision {
            break;
        }
        nodes.perform(node)?;
    }
    Ok(())
}
