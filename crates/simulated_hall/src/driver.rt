ghost use Rattle.std.specs.Prelude.{◌≡◌, ◌<◌, ◌≤◌, ◌⊎◌, ℕ, true, false, is_some, IfSome};
ghost use Rattle.ballot.specs.Members.{is_member};
ghost use Rattle.slot_log.specs.Decisions.{next_decided};
ghost use Rattle.network.specs.Networks.{node_of, has_mail};
ghost use Rattle.simulated_hall.specs.Driving.{IsFirstMember, IsReadNext, is_heavier, node_called, weighs};

use ballot::Members;
use hall::Hall;
use object::Object;
use schedule::Schedule;

/// The node at which the client hands in its commands.
pub(crate) const HOME: u8 = 1;

/// After so many calls for one command the driver goes its plain rounds.
const DRAWN_CALLS: u32 = 2_000;

/// So many letters at most come of the elections to which the storms of one request and its seconds lead. `Driver` says
/// what they are.
const PURSE: u32 = 12_000;

/// Before a request, so much of what waits at the nodes is done; what is left waits for the next one.
const CATCH_UP: u32 = 64;

/// So many calls at most are drawn for one command.
const LONGEST_STORM: u32 = 300;

/// A call of the hall. All but the last are of a node.
#[derive(Clone, Copy, Debug, PartialEq, Eq)]
pub(crate) enum Call {
    Deliver(u8),
    Lose(u8),
    Repeat(u8),
    Wake(u8),
    Nudge(u8),
    Propose(u8),
    Perform(u8),
    Restart(u8),
    /// The command that is carried is handed in once more.
    HandInAgain,
}

/// How a plain round goes on.
#[derive(Clone, Copy, Debug, PartialEq, Eq)]
enum Round {
    Restart,
    HandInAgain,
    Wake,
    Deliver,
    Perform,
}

/// Chooses the calls of a hall, as a seed draws them: letters are lost, repeated and reordered, nodes restart, and then
/// again all goes well for a while.
///
/// No request that doesn't wait comes near `MOST_CALLS`, whatever came before. With S slots and N members:
///
/// - An election takes 2 letters a member, and 3 for each slot and member, since the leader has every slot accepted and
///   decided again. A nudge brings no more.
/// - Each Wake and each Nudge of a storm brings one at most, and may later beat node 1, which is elected once more. After
///   a storm node 1 is elected once, and again where it restarts for the plain rounds. So each storm, each Wake and each
///   Nudge is paid for with 8 N (S + 2) letters, and is left out where the purse hasn't as many. Then S N is at most 1,500.
/// - Nor is there a storm, or a full purse, before the last storm is settled: every mail was emptied, and node 1 leads by a
///   ballot than which no member knows a greater one. From then on nothing is lost, and no node but node 1 wakes.
/// - Beside the purse there are the 300 calls of a storm, each of which may repeat a letter that brings 64 (19,200); what
///   waited in mails, 4 letters for each slot and member (6,000); what restarted nodes perform again (1,500), in plain
///   rounds with 4 calls a slot (6,000); and what is told to node 1 while it settles, 64 decisions by each of 6 others, 9
///   times (3,500). With the purse these are fewer than 50,000.
/// - Without a storm a request takes what it catches up with, and some 40 calls.
#[derive(Drop)]
pub(crate) struct Driver {
    schedule: Schedule,
    /// How many commands were carried so far.
    commands: u32,
    /// So many slots at most have a command: one for each that was carried, and one more for each restart of node 1, after
    /// which its command may be proposed in another slot, too.
    slots: u32,
    /// So many letters may still come of the storms of this request.
    purse: u32,
    /// So many calls of this command are drawn.
    storm: u32,
    /// So many calls are left that settle the last storm.
    unsettled: u32,
    /// The letters that are on their way are lost.
    loses: bool,
    /// So much of what waits is done before the command goes its shortest way.
    behind: u32,
    /// How often nothing was left to deliver.
    idle: u32,
    round: Round,
}

impl Driver {
    /// A driver whose choices are drawn from the seed.
    pub fn new(seed: u64) -> Driver {
        Driver {
            schedule: Schedule::new(seed),
            commands: 0,
            slots: 0,
            purse: 0,
            storm: 0,
            unsettled: 0,
            loses: false,
            behind: 0,
            idle: 0,
            round: Round::Restart,
        }
    }

    /// Another command is to be carried: a request, or a second of the clock. While seconds pass nobody waits for the
    /// nodes that aren't needed, once the last storm is settled.
    pub fn begin(&mut self, members: Members, is_request: bool)
        ensures settles { (self.new.storm ≡ 0) ⊎ (0 < self.new.unsettled) }
    {
        self.commands = self.commands.saturating_add(1);
        self.slots = self.slots.saturating_add(1);
        self.behind = if is_request { CATCH_UP } else { 0 };
        self.idle = 0;
        self.round = Round::Restart;
        self.storm = 0;
        if self.unsettled > 0 {
            return;
        }
        if is_request {
            self.purse = PURSE;
        }
        if self.schedule.pick(self.commands) == 0 && self.pays(members) {
            self.storm = self.schedule.pick(LONGEST_STORM);
            self.unsettled = 2 * (u32::from(members.count()) + 2);
        }
    }

    /// The next call for the command, after `count` others. It is one of a member of the hall.
    pub fn next<O: Object>(&mut self, hall: &Hall<O>, count: u32) -> Call
        ensures { is_member hall.now.nodes.network.members (node_called result) ≡ true }
    {
        home_is_member(hall.members());
        if count >= DRAWN_CALLS {
            return self.plain_call(hall);
        }
        if count < self.storm {
            return self.call_in_storm(hall.members());
        }
        if count == self.storm {
            self.loses = self.storm > 0 && self.schedule.pick(2) == 0;
            return Call::Wake(HOME);
        }
        self.call_in_calm(hall)
    }
}

impl Driver {
    // Pays for what a storm, or a Wake or a Nudge in it, may lead to, where the purse has as much.
    fn pays(&mut self, members: Members) -> bool
        ensures paid { result ≡ true → self.new.purse < self.old.purse }
        ensures kept { result ≡ false → self.new ≡ self.old }
    {
        let each_slot = 8 * u32::from(members.count());
        let letters = self.slots.saturating_add(2).saturating_mul(each_slot);
        let Some(left) = self.purse.checked_sub(letters) else {
            return false;
        };
        self.purse = left;
        true
    }

    // A call that is drawn. Mostly a letter is delivered; a restart is among the rarest.
    fn call_in_storm(&mut self, members: Members) -> Call
        ensures { is_member members (node_called result) ≡ true }
    {
        let node = self.member(members);
        match self.schedule.pick(20) {
            0 => Call::Lose(node),
            1 => Call::Repeat(node),
            2 if self.pays(members) => Call::Wake(node),
            3 if self.pays(members) => Call::Nudge(node),
            4 | 5 => Call::Propose(node),
            6 | 7 => Call::Perform(node),
            8 => self.restart(node),
            _ => Call::Deliver(node),
        }
    }

    // The node begins anew.
    fn restart(&mut self, node: u8) -> Call
        ensures { node_called result ≡ node }
    {
        if node == HOME {
            self.slots = self.slots.saturating_add(1);
        }
        Call::Restart(node)
    }

    // What there is to do, or where there is nothing what may bring some. Where it is not behind and the last storm is
    // settled, node 1 proposes and performs as soon as it can.
    fn call_in_calm<O: Object>(&mut self, hall: &Hall<O>) -> Call
        ensures { is_member hall.now.nodes.network.members (node_called result) ≡ true }
    {
        home_is_member(hall.members());
        let is_ready = self.behind == 0 && self.unsettled == 0;
        if is_ready && hall.work(HOME).decision {
            return Call::Perform(HOME);
        }
        if is_ready && hall.work(HOME).request {
            return Call::Propose(HOME);
        }
        if let Some(call) = self.call_for_waiting(hall) {
            self.behind = self.behind.saturating_sub(1);
            return call;
        }
        if self.unsettled > 0 {
            return self.settle();
        }
        if self.behind > 0 {
            self.behind = 0;
            return Call::Propose(HOME);
        }
        self.rouse(hall.members())
    }

    // What the first letter that is on its way asks for, or the first decision that is to be performed.
    fn call_for_waiting<O: Object>(&mut self, hall: &Hall<O>) -> Option<Call>
        ensures { IfSome result (λ call.
            is_member hall.now.nodes.network.members (node_called call) ≡ true) }
    {
        if let Some(node) = next_with_mail(hall) {
            return if self.loses {
                Some(Call::Lose(node))
            } else {
                Some(Call::Deliver(node))
            };
        }
        self.loses = false;
        match first_to_perform(hall) {
            Some(node) => Some(Call::Perform(node)),
            None => None,
        }
    }

    // While every mail is empty, node 1 says again what it waits for, and wakes. Each time that another's ballot beats it
    // one member fewer knows a greater one, and the first time its questions may have been lost.
    fn settle(&mut self) -> Call
        ensures { node_called result ≡ 1 }
    {
        self.unsettled = self.unsettled.saturating_sub(1);
        if self.unsettled % 2 == 1 {
            Call::Nudge(HOME)
        } else {
            Call::Wake(HOME)
        }
    }

    // What may bring something to do.
    fn rouse(&mut self, members: Members) -> Call
        ensures { is_member members (node_called result) ≡ true }
    {
        home_is_member(members);
        let turn = self.idle % 5;
        self.idle = self.idle.saturating_add(1);
        match turn {
            1 => Call::Nudge(HOME),
            2 => Call::HandInAgain,
            3 => Call::Nudge(self.member(members)),
            _ => Call::Wake(HOME),
        }
    }

    // Begins the node anew, and then again and again hands the command in, wakes the leader, empties every mail,
    // proposes and performs.
    fn plain_call<O: Object>(&mut self, hall: &Hall<O>) -> Call
        ensures { is_member hall.now.nodes.network.members (node_called result) ≡ true }
    {
        home_is_member(hall.members());
        let (call, next) = match self.round {
            Round::Restart => (self.restart(HOME), Round::HandInAgain),
            Round::HandInAgain => (Call::HandInAgain, Round::Wake),
            Round::Wake => (Call::Wake(HOME), Round::Deliver),
            Round::Deliver => match first_with_mail(hall) {
                Some(node) => (Call::Deliver(node), Round::Deliver),
                None => (Call::Propose(HOME), Round::Perform),
            },
            Round::Perform => (Call::Perform(HOME), Round::HandInAgain),
        };
        self.round = next;
        call
    }

    // One of the members.
    fn member(&mut self, members: Members) -> u8
        ensures { is_member members result ≡ true }
    {
        let before = self.schedule.pick(u32::from(members.count()));
        before as u8 + 1
    }
}

/// The node at which the client hands in is a member, whoever the others are.
pub(crate) fn home_is_member(members: Members)
    ensures { is_member members 1 ≡ true }
{
    let _ = members.count();
}

// The first member to which a letter is on its way.
fn first_with_mail<O: Object>(hall: &Hall<O>) -> Option<u8>
    ensures { IsFirstMember hall.now.nodes.network.members
        (λ n. has_mail hall.now.nodes.network n) result }
{
    for before in 0..hall.members().count() {
        if hall.work(before + 1).mail {
            return Some(before + 1);
        }
    }
    None
}

// Whose mail is read next: that of node 1, and of others that of one which weighs most. So the members that a majority
// doesn't need are the last, whatever they weigh.
fn next_with_mail<O: Object>(hall: &Hall<O>) -> Option<u8>
    ensures { IsReadNext hall.now.nodes.network.members
        (λ n. has_mail hall.now.nodes.network n) result }
{
    home_is_member(hall.members());
    let first = first_with_mail(hall)?;
    if first == HOME {
        return Some(HOME);
    }
    Some(heaviest_with_mail(hall, first))
}

// The member with mail that weighs most, where this one has some.
fn heaviest_with_mail<O: Object>(hall: &Hall<O>, first: u8) -> u8
    requires member { is_member hall.now.nodes.network.members first ≡ true }
    requires mail { has_mail hall.now.nodes.network first ≡ true }
    ensures member { is_member hall.now.nodes.network.members result ≡ true }
    ensures mail { has_mail hall.now.nodes.network result ≡ true }
    ensures heaviest { (m : ℕ) → is_member hall.now.nodes.network.members m ≡ true
        → has_mail hall.now.nodes.network m ≡ true
        → weighs hall.now.nodes.network.members m ≤ weighs hall.now.nodes.network.members result }
{
    let members = hall.members();
    let mut best = first;
    for before in 0..members.count() {
        if hall.work(before + 1).mail && is_heavier(members, before + 1, best) {
            best = before + 1;
        }
    }
    best
}

// Whether a node weighs more than another one.
fn is_heavier(members: Members, node: u8, other: u8) -> bool
    ensures { result ≡ is_heavier members node other }
{
    members.weight(node).unwrap_or(0) > members.weight(other).unwrap_or(0)
}

// The first member that knows the decision which it is to perform next.
fn first_to_perform<O: Object>(hall: &Hall<O>) -> Option<u8>
    ensures { IsFirstMember hall.now.nodes.network.members
        (λ n. is_some (next_decided (node_of hall.now.nodes.network n).replica)) result }
{
    for before in 0..hall.members().count() {
        if hall.work(before + 1).decision {
            return Some(before + 1);
        }
    }
    None
}
