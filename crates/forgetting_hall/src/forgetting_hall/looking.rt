ghost use Rattle.std.specs.Prelude.{◌≡◌, ◌<◌, ◌^◌, ◌&&◌, not, length, is_some, if◌then◌else◌, None, Some};
ghost use Rattle.std.specs.Option.{option_copied};
ghost use Rattle.std.specs.FinMap.{get};
ghost use Rattle.slot_log.specs.Decisions.{next_decided, undecided};
ghost use Rattle.slot_log.specs.Proposals.{next_proposal};
ghost use Rattle.network.specs.Networks.{has_mail};
ghost use Rattle.lean_network.specs.LeanNetworks.{states, lean_node_of};
ghost use Rattle.object.specs.Answers.{answered_key};
ghost use Rattle.object.specs.declared.command.Command.{Command};
ghost use Rattle.recorder.specs.Firsts.{firsts};
ghost use Rattle.agreement.specs.Runs.{IsWorld};
ghost use Rattle.agreement.specs.Worlds.{World};
ghost use Rattle.forgetting_hall.specs.Clients.{CountsPlaced};
ghost use Rattle.forgetting_hall.specs.Halls.{rest_of_hall};
ghost use Rattle.forgetting_hall.specs.Handing.{last_of, last_number_of, reply_of, reply_to, second_of};
ghost use Rattle.forgetting_hall.specs.Rests.{ShowsWorld, IsReplyInOrder};
ghost use Rattle.forgetting_hall.specs.Refusing.{is_foreign};

use super::ForgettingHall;
use crate::halls::halls_rest;
use ballot::{Members, Slot};
use client_table::Client;
use hall::Work;
use object::{Command, Key, Object};

/// Look-ups, which take no memory.
impl<O: Object> ForgettingHall<O> {
    /// The members.
    pub fn members(&self) -> Members
        ensures { result ≡ self.now.network.members }
    {
        self.network.members()
    }

    /// The first slot that it keeps.
    pub fn base(&self) -> u64
        ensures { result ≡ self.now.base }
    {
        self.base
    }

    /// What it keeps of a session; the clock is session 0.
    pub fn client(&self, session: u32) -> Option<&Client<O::Op, O::Reply>>
        ensures { option_copied result ≡ get self.now.summary.clients session }
    {
        self.clients.client(session)
    }

    /// The reply to a session's last command, if it was given. One order explains it with all else that happened.
    pub fn reply(&self, session: u32) -> Option<&O::Reply>
        ensures reply { option_copied result ≡ reply_of self.now session }
        ensures legal { (w : World O.Op O.Reply) (c : Command O.Op) (reply : O.Reply) → IsWorld O.rules w
            → ShowsWorld O.rules (rest_of_hall O.rules self.now) w → last_of self.now session ≡ Some c
            → reply_of self.now session ≡ Some reply → IsReplyInOrder O.rules O.promise w c reply }
    {
        halls_rest::<O>();
        self.clients.client(session)?.reply.as_ref()
    }

    /// The reply to the command of this key, where it is the last one of its session and was answered. One order explains it
    /// with all else that happened.
    pub fn reply_to(&self, key: Key) -> Option<&O::Reply>
        ensures reply { option_copied result ≡ reply_to self.now key }
        ensures legal { (w : World O.Op O.Reply) (reply : O.Reply) → IsWorld O.rules w
            → ShowsWorld O.rules (rest_of_hall O.rules self.now) w
            → reply_to self.now key ≡ Some reply → (c : Command O.Op) × (c.key ≡ key) × IsReplyInOrder O.rules O.promise w c reply }
    {
        halls_rest::<O>();
        let last = self.last(key.session)?;
        if last.key() != key {
            return None;
        }
        self.reply(key.session)
    }

    /// The number of a session's last command, 0 where there is none. The clock is session 0, and its numbers are seconds.
    pub fn last_number(&self, session: u32) -> u64
        ensures number { result ≡ last_number_of self.now session }
        ensures low { result < 2 ^ 62 }
    {
        let _ = &self.clients;
        match self.last(session) {
            None => 0,
            Some(command) => command.key().number,
        }
    }

    /// What a node has to do: nothing where it isn't a member.
    pub fn work(&self, node: u8) -> Work
        ensures mail { result.mail ≡ (not (is_foreign self.now node)
            && has_mail (states self.now.network) node) }
        ensures request { result.request ≡ (not (is_foreign self.now node)
            && is_some (next_proposal (lean_node_of O.rules self.now.network node).state.replica)) }
        ensures decision { result.decision ≡ (not (is_foreign self.now node)
            && is_some (next_decided (lean_node_of O.rules self.now.network node).state.replica)) }
    {
        if self.is_foreign(node) {
            return Work::NONE;
        }
        Work {
            mail: self.network.has_mail(node),
            request: self.network.node(node).can_propose(),
            decision: self.network.node(node).can_perform(),
        }
    }

    /// The least slot that a node proposed a command for without a known decision. There is none where the node isn't a
    /// member.
    pub fn undecided(&self, node: u8) -> Option<Slot>
        ensures { result ≡ (if is_foreign self.now node then None
            else undecided (lean_node_of O.rules self.now.network node).state.replica) }
    {
        if self.is_foreign(node) {
            return None;
        }
        self.network.node(node).undecided()
    }

    /// The greatest second that the clock handed in, 0 where there is none.
    pub fn last_second(&self) -> u64
        ensures { result ≡ second_of self.now }
    {
        self.last_number(0)
    }

    /// How many commands were submitted.
    pub fn submitted_count(&self) -> u64
        ensures { (w : World O.Op O.Reply) → ShowsWorld O.rules (rest_of_hall O.rules self.now) w →
            result ≡ length w.happenings.submitted }
    {
        self.clients.submitted()
    }

    /// How many commands were answered.
    pub fn answer_count(&self) -> u64
        ensures { (w : World O.Op O.Reply) → ShowsWorld O.rules (rest_of_hall O.rules self.now) w →
            result ≡ length (firsts answered_key w.happenings.answers) }
    {
        self.clients.answered()
    }

    /// How many commands took effect.
    pub fn placed_count(&self) -> u64
        ensures count { result ≡ self.now.summary.placed }
        ensures placed { (w : World O.Op O.Reply) → ShowsWorld O.rules (rest_of_hall O.rules self.now) w →
            CountsPlaced result w }
    {
        self.clients.placed()
    }

    // The session's last command.
    pub(super) fn last(&self, session: u32) -> Option<&Command<O::Op>>
        ensures { option_copied result ≡ last_of self.now session }
    {
        self.clients.client(session)?.last.as_ref()
    }
}
