ghost use Rattle.std.specs.Prelude.{◌≡◌, ℕ, List, Ok, false, IfOk};
ghost use Rattle.hall.specs.declared.work.Work.{Work};

use ballot::Slot;
use hall::{Hall, HallError, Work};
use object::Object;

/// Nodes that take turns, as a hall has them under its lock. They are numbered from 1.
pub trait Nodes {
    // How many nodes there are.
    ghost node_count: { Self → ℕ };

    // What node n has to do.
    ghost work_of: { Self → ℕ → Work };

    // How many commands each session handed in, which no turn changes.
    ghost handed_in: { Self → List ℕ };

    // What is kept from the one state to the other, by each turn.
    ghost goes_on: { Self → Self → Type 0 };

    // It is kept where nothing is done, and from turn to turn.
    ghost stays: { (nodes : Self) → goes_on nodes nodes };

    ghost further: { (a b c : Self) → goes_on a b → goes_on b c → goes_on a c };

    // There are as many nodes as before.
    ghost as_many: { (a b : Self) → goes_on a b → node_count b ≡ node_count a };

    /// How many nodes there are.
    fn count(&self) -> u8
        ensures { result ≡ node_count self.now };

    /// What a node has to do.
    fn work(&self, node: u8) -> Work
        ensures { result ≡ work_of self.now node };

    /// The least slot that a node proposed a command for without a known decision.
    fn undecided(&self, node: u8) -> Option<Slot>;

    /// A node asks to lead, unless it leads or asks already.
    fn wake(&mut self, node: u8) -> Result<(), HallError>
        ensures kept { handed_in self.new ≡ handed_in self.old }
        ensures goes_on { goes_on self.old self.new };

    /// A node says again what it waits for.
    fn nudge(&mut self, node: u8) -> Result<(), HallError>
        ensures kept { handed_in self.new ≡ handed_in self.old }
        ensures goes_on { goes_on self.old self.new };

    /// A node proposes its first request; false where there is nothing that it can propose. That leaves the work of all nodes
    /// as it is.
    fn propose(&mut self, node: u8) -> Result<bool, HallError>
        ensures kept { handed_in self.new ≡ handed_in self.old }
        ensures goes_on { goes_on self.old self.new }
        ensures does { IfOk result (λ does. does ≡ (work_of self.old node).request) }
        ensures calm { result ≡ Ok false → work_of self.new ≡ work_of self.old };

    /// A node receives the letter in front of its mail; false where there is none. That leaves the work of all nodes as it is.
    fn deliver(&mut self, node: u8) -> Result<bool, HallError>
        ensures kept { handed_in self.new ≡ handed_in self.old }
        ensures goes_on { goes_on self.old self.new }
        ensures does { IfOk result (λ does. does ≡ (work_of self.old node).mail) }
        ensures calm { result ≡ Ok false → work_of self.new ≡ work_of self.old };

    /// A node performs the next decided command; false where none is known. That leaves the work of all nodes as it is.
    fn perform(&mut self, node: u8) -> Result<bool, HallError>
        ensures kept { handed_in self.new ≡ handed_in self.old }
        ensures goes_on { goes_on self.old self.new }
        ensures does { IfOk result (λ does. does ≡ (work_of self.old node).decision) }
        ensures calm { result ≡ Ok false → work_of self.new ≡ work_of self.old };
}

impl<O: Object> Nodes for Hall<O> {
    ghost use Rattle.std.specs.Prelude.{length};
    ghost use Rattle.turns.specs.Working.{work_of};
    ghost use Rattle.turns.specs.Going.{HallTurnsOn};
    ghost use Rattle.turns.specs.GoingLaws.{turns_stay, turns_further, turns_as_many};

    ghost node_count = { λ hall. length hall.nodes.network.members };

    ghost work_of = { λ hall n. work_of hall n };

    // Its book counts them.
    ghost handed_in = { λ hall. hall.book };

    // What happened, the members and the book are kept.
    ghost goes_on = { λ old new. HallTurnsOn old new };

    ghost stays = { turns_stay };

    ghost further = { turns_further };

    ghost as_many = { turns_as_many };

    fn count(&self) -> u8 {
        self.members().count()
    }

    fn work(&self, node: u8) -> Work {
        self.work(node)
    }

    fn undecided(&self, node: u8) -> Option<Slot> {
        self.undecided(node)
    }

    fn wake(&mut self, node: u8) -> Result<(), HallError> {
        self.wake(node)
    }

    fn nudge(&mut self, node: u8) -> Result<(), HallError> {
        self.nudge(node)
    }

    fn propose(&mut self, node: u8) -> Result<bool, HallError> {
        self.propose(node)
    }

    fn deliver(&mut self, node: u8) -> Result<bool, HallError> {
        self.deliver(node)
    }

    fn perform(&mut self, node: u8) -> Result<bool, HallError> {
        self.perform(node)
    }
}
