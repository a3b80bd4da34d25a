ghost use Rattle.std.specs.Prelude.{◌≡◌};
ghost use Rattle.ballot.specs.Members.{nobody, has, add};

use std::marker::Model;

/// A set of members. It takes no memory beside itself.
#[derive(Clone, Copy, Debug, PartialEq, Eq)]
pub struct MemberSet {
    row: [bool; 7],
}

impl Model for MemberSet {
    ghost use Rattle.std.specs.Prelude.{List, Bool};

    ghost Value = { List Bool };

    ghost view = { λ s. s.row };

    ghost inverse = { λ row. record { row = row } };
}

impl MemberSet {
    /// Nobody.
    pub fn nobody() -> MemberSet
        ensures { result ≡ nobody }
    {
        MemberSet { row: [false; 7] }
    }

    /// Whether the node is in the set.
    pub fn has(&self, node: u8) -> bool
        ensures { result ≡ has self.now node }
    {
        match node {
            1..=7 => self.row[node as usize - 1],
            _ => false,
        }
    }

    /// Puts the node, 1 to 7, into the set. Another number changes nothing.
    pub fn add(&mut self, node: u8)
        ensures { self.new ≡ add self.old node }
    {
        if let 1..=7 = node {
            self.row[node as usize - 1] = true;
        }
    }
}
