ghost use Rattle.std.specs.Prelude.{◌≡◌, ◌<◌, ◌≤◌, SomeIff, replicate, length, sum};
ghost use Rattle.ballot.specs.Members.{IsMembers, is_unweighted, is_weight, is_member, is_majority, majority, weigh, weight_of};

use crate::member_set::MemberSet;
use std::marker::Model;

/// The nodes of a cluster: 1, 2, .. up to their count, with a weight from 1 to 1000 each.
#[derive(Clone, Copy, Debug, PartialEq, Eq)]
pub struct Members {
    count: u8,
    // The weights of the members, and 0 where there is no member.
    row: [u32; 7],
}

impl Model for Members {
    ghost use Rattle.std.specs.Prelude.{ℕ, List, ◌++◌, ◌-◌, length, replicate, take};
    ghost use Rattle.ballot.specs.WeightRows.{IsWeightRow, row_back};

    ghost Value = { List ℕ };

    ghost view = { λ m. take m.count m.row };

    ghost invariant = { λ m. IsWeightRow m.count m.row };

    ghost inverse = { λ weights. record {
      count = length weights;
      row = weights ++ replicate (7 - length weights) 0;
    } };

    ghost inverse_ok = { λ m h. row_back m h };
}

impl Members {
    /// The nodes 1 to `count`, with a weight of 1 each, where there are 1 to 7.
    pub fn new(count: u8) -> Option<Members>
        ensures { SomeIff result ((0 < count) × (count ≤ 7)) (replicate count 1) }
    {
        Members::weighted([1; 7].get(..usize::from(count))?)
    }

    /// The nodes with these weights, the first for node 1, where there are 1 to 7 and each weighs 1 to 1000.
    pub fn weighted(weights: &[u32]) -> Option<Members>
        ensures { SomeIff result (IsMembers weights.now) weights.now }
    {
        if weights.len() < 1 || weights.len() > 7 || !weights.iter().all(is_weight) {
            return None;
        }
        let mut row = [0; 7];
        row[..weights.len()].copy_from_slice(weights);
        Some(Members {
            count: weights.len() as u8,
            row,
        })
    }

    /// How many there are.
    pub fn count(&self) -> u8
        ensures count { result ≡ length self.now }
        ensures some { 0 < result }
        ensures few { result ≤ 7 }
    {
        self.count
    }

    /// The weights, in rising number of the members.
    pub fn weights(&self) -> &[u32]
        ensures weights { result.now ≡ self.now }
        ensures members { IsMembers self.now }
    {
        &self.row[..usize::from(self.count)]
    }

    /// What the node weighs, where it is a member.
    pub fn weight(&self, node: u8) -> Option<u32>
        ensures { result ≡ weight_of self.now node }
    {
        let place = usize::from(node.checked_sub(1)?);
        self.weights().get(place).copied()
    }

    /// Whether each of them weighs 1, so that a majority is more than half of them.
    pub fn is_unweighted(&self) -> bool
        ensures { result ≡ is_unweighted self.now }
    {
        self.weights().iter().all(|weight| *weight == 1)
    }

    /// What all of them weigh.
    pub fn total(&self) -> u32
        ensures { result ≡ sum self.now }
    {
        let mut total = 0;
        for weight in self.weights() {
            total += *weight;
        }
        total
    }

    /// The least weight above half of the whole.
    pub fn majority(&self) -> u32
        ensures { result ≡ majority self.now }
    {
        self.total() / 2 + 1
    }

    /// Whether the node is a member.
    pub fn has(&self, node: u8) -> bool
        ensures { result ≡ is_member self.now node }
    {
        node >= 1 && node <= self.count
    }

    /// Whether the members in the set weigh at least the majority.
    pub fn is_majority(&self, set: &MemberSet) -> bool
        ensures { result ≡ is_majority self.now set.now }
    {
        self.majority() <= self.weigh(set)
    }

    // What the members in the set weigh.
    fn weigh(&self, set: &MemberSet) -> u32
        ensures { result ≡ weigh self.now set.now }
    {
        let weights = self.weights();
        let mut weight = 0;
        for place in 0..weights.len() {
            if set.has(place as u8 + 1) {
                weight += weights[place];
            }
        }
        weight
    }
}

// Whether a member can weigh this.
fn is_weight(weight: &u32) -> bool
    ensures { result ≡ is_weight weight.now }
{
    *weight >= 1 && *weight <= 1000
}
