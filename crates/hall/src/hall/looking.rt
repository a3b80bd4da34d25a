ghost use Rattle.std.specs.Prelude.{◌≡◌, ◌&&◌, not, length, slice_get, option_map, is_some, if◌then◌else◌, None};
ghost use Rattle.object.specs.Keys.{stands};
ghost use Rattle.slot_log.specs.Decisions.{next_decided, undecided};
ghost use Rattle.slot_log.specs.Proposals.{next_proposal};
ghost use Rattle.network.specs.Networks.{node_of, has_mail};
ghost use Rattle.recorder.specs.Records.{own_key};
ghost use Rattle.hall.specs.Halls.{has_unplaced};
ghost use Rattle.hall.specs.Refusals.{is_stranger};

use super::Hall;
use crate::work::Work;
use ballot::{Members, Slot};
use object::{Key, Object};

/// Look-ups, which take no memory. They let a driver wait until there is something to do.
impl<O: Object> Hall<O> {
    /// The members.
    pub fn members(&self) -> Members
        ensures { result ≡ self.now.nodes.network.members }
    {
        self.nodes.network.members()
    }

    /// How many commands each session has handed in, from the first session on.
    pub fn book(&self) -> &[u64]
        ensures { result.now ≡ self.now.book }
    {
        self.book.as_slice()
    }

    /// Whether the order has the key.
    pub fn placed(&self, key: Key) -> bool
        ensures { result ≡ stands own_key key self.now.nodes.past.order }
    {
        self.nodes.recorder.is_placed(key)
    }

    /// The least slot that a node's replica proposed a command for without a known decision. There is none where the
    /// node isn't a member.
    pub fn undecided(&self, node: u8) -> Option<Slot>
        ensures { result ≡ (if is_stranger self.now node then None
            else undecided (node_of self.now.nodes.network node).replica) }
    {
        if self.is_stranger(node) {
            return None;
        }
        self.nodes.network.node(node).undecided()
    }

    /// What a node has to do: nothing where it isn't a member.
    pub fn work(&self, node: u8) -> Work
        ensures mail { result.mail ≡ (not (is_stranger self.now node)
            && has_mail self.now.nodes.network node) }
        ensures request { result.request ≡ (not (is_stranger self.now node)
            && is_some (next_proposal (node_of self.now.nodes.network node).replica)) }
        ensures decision { result.decision ≡ (not (is_stranger self.now node)
            && is_some (next_decided (node_of self.now.nodes.network node).replica)) }
    {
        if self.is_stranger(node) {
            return Work::NONE;
        }
        let network = &self.nodes.network;
        Work {
            mail: network.has_mail(node),
            request: network.node(node).can_propose(),
            decision: network.node(node).can_perform(),
        }
    }

    /// Whether a command was submitted that hasn't taken effect.
    pub fn has_unplaced(&self) -> bool
        ensures { result ≡ has_unplaced self.now }
    {
        self.nodes.recorder.order().len() < self.nodes.recorder.submitted().len()
    }

    /// How many answers were given.
    pub fn answer_count(&self) -> usize
        ensures { result ≡ length self.now.nodes.past.happenings.answers }
    {
        self.nodes.recorder.answers().len()
    }

    /// The key that an answer was given to. Answers are numbered from 0.
    pub fn answered_key(&self, index: usize) -> Option<Key>
        ensures { result ≡ option_map (λ a. a.to)
            (slice_get self.now.nodes.past.happenings.answers index) }
    {
        let answer = self.nodes.recorder.answers().get(index)?;
        Some(answer.to)
    }

    /// The greatest second that the clock handed in, 0 where there is none.
    pub fn last_second(&self) -> u64
        ensures { result ≡ self.now.second }
    {
        self.second
    }
}
