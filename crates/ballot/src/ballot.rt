ghost use Rattle.std.specs.Prelude.{◌≡◌, ◌<◌, ◌^◌, SomeIff};
ghost use Rattle.ballot.specs.Ballots.{IsBallot, next_after};

use std::marker::Model;

/// The ballot of a node's leader. Ballots are ordered by round, then node, then boot.
///
/// Rounds and boots are 0 to 2^62, nodes 1 to 7.
#[derive(Clone, Copy, Debug, PartialEq, Eq, PartialOrd, Ord)]
pub struct Ballot {
    round: u64,
    node: u8,
    boot: u64,
}

impl Model for Ballot {
    ghost use Rattle.ballot.specs.Ballots.{Numbers, IsBallot};

    ghost Value = { Numbers };

    ghost view = { λ b. record { round = b.round; node = b.node; boot = b.boot } };

    ghost invariant = { λ b. IsBallot (record { round = b.round; node = b.node; boot = b.boot }) };

    ghost inverse = { λ b. record { round = b.round; node = b.node; boot = b.boot } };
}

impl Ballot {
    /// The ballot of these numbers, where they are within their limits.
    pub fn new(round: u64, node: u8, boot: u64) -> Option<Ballot>
        ensures { SomeIff result (IsBallot (record { round = round; node = node; boot = boot }))
            (record { round = round; node = node; boot = boot }) }
    {
        if round <= 1 << 62 && node >= 1 && node <= 7 && boot <= 1 << 62 {
            Some(Ballot { round, node, boot })
        } else {
            None
        }
    }

    /// Its round.
    pub fn round(&self) -> u64
        ensures { result ≡ self.now.round }
    {
        self.round
    }

    /// The node whose leader it is of.
    pub fn node(&self) -> u8
        ensures { result ≡ self.now.node }
    {
        self.node
    }

    /// The boot of that node.
    pub fn boot(&self) -> u64
        ensures { result ≡ self.now.boot }
    {
        self.boot
    }

    /// The ballot of the next round, of this node and boot, where it is within the limits.
    pub fn next_after(&self, node: u8, boot: u64) -> Option<Ballot>
        ensures { SomeIff result (IsBallot (next_after self.now node boot))
            (next_after self.now node boot) }
    {
        Ballot::new(self.round + 1, node, boot)
    }
}
