ghost use Rattle.std.specs.Prelude.{◌≡◌};
ghost use Rattle.hall.specs.Tickets.{is_close, is_tick};
ghost use Rattle.forgetting_hall.specs.Refusing.{is_foreign, has_all_events, is_session, is_behind_last, keeps_waiting, refusal_of_event, refusal_of_keyed, refusal_of_submit, refusal_of_resubmit, refusal_of_tick};
ghost use Rattle.std.specs.FinMap.{get};

use super::ForgettingHall;
use agreement::MOST_EVENTS;
use hall::{HallError, LAST_SECOND};
use object::{Act, Key, Object};

/// A command that is handed in with its key has this number at most.
const MOST_KEYED: u64 = 1 << 61;

impl<O: Object> ForgettingHall<O> {
    // Why a session's next command is refused, want of memory aside.
    pub(super) fn refusal_of_submit(
        &self,
        session: u32,
        act: &Act<O::Op>,
        node: u8,
    ) -> Option<HallError>
        ensures { result ≡ refusal_of_submit self.now session act.now node }
    {
        if self.is_foreign(node) {
            return Some(HallError::NoSuchNode);
        }
        if is_tick(act) || !self.is_session(session) {
            return Some(HallError::BadNumber);
        }
        if self.keeps_waiting(session, act) {
            return Some(HallError::Busy);
        }
        if self.has_all_events() {
            return Some(HallError::Full);
        }
        None
    }

    // Why its last command is, once more.
    pub(super) fn refusal_of_resubmit(&self, session: u32, node: u8) -> Option<HallError>
        ensures { result ≡ refusal_of_resubmit self.now session node }
    {
        if self.is_foreign(node) {
            return Some(HallError::NoSuchNode);
        }
        if !self.is_session(session) {
            return Some(HallError::BadNumber);
        }
        if self.last(session).is_some() && self.has_all_events() {
            return Some(HallError::Full);
        }
        None
    }

    // Why the next second of the clock is.
    pub(super) fn refusal_of_tick(&self, node: u8) -> Option<HallError>
        ensures { result ≡ refusal_of_tick self.now node }
    {
        if self.is_foreign(node) {
            return Some(HallError::NoSuchNode);
        }
        if self.last_number(0) >= LAST_SECOND {
            return Some(HallError::BadNumber);
        }
        if self.has_all_events() {
            return Some(HallError::Full);
        }
        None
    }

    // Why a command is that has this key.
    pub(super) fn refusal_of_keyed(&self, key: Key, node: u8) -> Option<HallError>
        ensures { result ≡ refusal_of_keyed self.now key node }
    {
        if self.is_foreign(node) {
            return Some(HallError::NoSuchNode);
        }
        if !self.is_behind_last(key) {
            return Some(HallError::BadNumber);
        }
        if self.has_all_events() {
            return Some(HallError::Full);
        }
        None
    }

    // Why an event at a node is.
    pub(super) fn refusal_of_event(&self, node: u8) -> Option<HallError>
        ensures { result ≡ refusal_of_event self.now node }
    {
        if self.is_foreign(node) {
            return Some(HallError::NoSuchNode);
        }
        if self.has_all_events() {
            return Some(HallError::Full);
        }
        None
    }

    // The node isn't a member.
    pub(super) fn is_foreign(&self, node: u8) -> bool
        ensures { result ≡ is_foreign self.now node }
    {
        !self.network.members().has(node)
    }

    // No event more is taken.
    fn has_all_events(&self) -> bool
        ensures { result ≡ has_all_events self.now }
    {
        self.taken >= MOST_EVENTS
    }

    // The session is there, and not the clock.
    fn is_session(&self, session: u32) -> bool
        ensures { result ≡ is_session self.now session }
    {
        session != 0 && self.clients.client(session).is_some()
    }

    // The number is behind the last one of its session, which is there, and low enough.
    fn is_behind_last(&self, key: Key) -> bool
        ensures { result ≡ is_behind_last self.now key }
    {
        self.clients.client(key.session).is_some()
            && key.number > self.last_number(key.session)
            && key.number <= MOST_KEYED
    }

    // The session's last command leaves no room for this act.
    fn keeps_waiting(&self, session: u32, act: &Act<O::Op>) -> bool
        ensures { result ≡ keeps_waiting (get self.now.summary.clients session) act.now }
    {
        let Some(client) = self.clients.client(session) else {
            return false;
        };
        let Some(last) = &client.last else {
            return false;
        };
        is_close(last.act()) || (!is_close(act) && client.reply.is_none())
    }
}

// The act ends its session.
fn is_close<Op>(act: &Act<Op>) -> bool
    ensures { result ≡ is_close act.now }
{
    matches!(act, Act::Close)
}

// The act is the clock's.
fn is_tick<Op>(act: &Act<Op>) -> bool
    ensures { result ≡ is_tick act.now }
{
    matches!(act, Act::Tick)
}
