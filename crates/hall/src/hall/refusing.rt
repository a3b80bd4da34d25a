ghost use Rattle.std.specs.Prelude.{◌≡◌};
ghost use Rattle.hall.specs.Refusals.{is_stranger, is_full, is_second, is_last, is_own, keeps_busy, is_submitted_as, submit_refusal, resubmit_refusal, tick_refusal, event_refusal, node_refusal};
ghost use Rattle.hall.specs.Tickets.{last_noted, is_close, is_tick};

use super::Hall;
use crate::error::HallError;
use crate::ticket::Ticket;
use agreement::MOST_EVENTS;
use object::{Act, Key, Object};

/// The greatest second of a clock.
pub const LAST_SECOND: u64 = 1 << 40;

impl<O: Object> Hall<O> {
    // Why the ticket's new command is refused, want of memory aside.
    pub(super) fn submit_refusal(
        &self,
        ticket: &Ticket<O>,
        act: &Act<O::Op>,
        node: u8,
    ) -> Option<HallError>
        ensures { result ≡ submit_refusal O.Op.eq self.now ticket.now act.now node }
    {
        if self.is_stranger(node) {
            return Some(HallError::NoSuchNode);
        }
        if is_tick(act) || !self.is_own(ticket) {
            return Some(HallError::BadNumber);
        }
        if self.keeps_busy(ticket, act) {
            return Some(HallError::Busy);
        }
        if self.is_full() {
            return Some(HallError::Full);
        }
        None
    }

    // Why its last command is, once more.
    pub(super) fn resubmit_refusal(&self, ticket: &Ticket<O>, node: u8) -> Option<HallError>
        ensures { result ≡ resubmit_refusal O.Op.eq self.now ticket.now node }
    {
        if self.is_stranger(node) {
            return Some(HallError::NoSuchNode);
        }
        if !self.is_own(ticket) {
            return Some(HallError::BadNumber);
        }
        if ticket.last().is_some() && self.is_full() {
            return Some(HallError::Full);
        }
        None
    }

    // Why a second of the clock is.
    pub(super) fn tick_refusal(&self, second: u64, node: u8) -> Option<HallError>
        ensures { result ≡ tick_refusal self.now second node }
    {
        if self.is_stranger(node) {
            return Some(HallError::NoSuchNode);
        }
        if second < 1 || second > LAST_SECOND {
            return Some(HallError::BadNumber);
        }
        if self.is_full() {
            return Some(HallError::Full);
        }
        None
    }

    // Why an event at a node is.
    pub(super) fn event_refusal(&self, node: u8) -> Option<HallError>
        ensures { result ≡ event_refusal self.now node }
    {
        if self.is_stranger(node) {
            return Some(HallError::NoSuchNode);
        }
        if self.is_full() {
            return Some(HallError::Full);
        }
        None
    }

    // The node isn't a member.
    pub(super) fn is_stranger(&self, node: u8) -> bool
        ensures { result ≡ is_stranger self.now node }
    {
        !self.nodes.network.members().has(node)
    }

    // No event more is taken.
    fn is_full(&self) -> bool
        ensures { result ≡ is_full self.now }
    {
        self.nodes.taken >= MOST_EVENTS
    }

    // The ticket's session was opened here, and its last command is the last one of that session.
    fn is_own(&self, ticket: &Ticket<O>) -> bool
        ensures { result ≡ is_own O.Op.eq self.now ticket.now }
    {
        let key = ticket.last_key();
        if !self.is_last(key) {
            return false;
        }
        match ticket.last() {
            None => true,
            Some(last) => match self.nodes.recorder.submission_of(key) {
                None => false,
                Some(submission) => *submission.command.act() == last.act,
            },
        }
    }

    // The key is that of the last command of a session that was opened here, of number 0 where it has none.
    pub(super) fn is_last(&self, key: Key) -> bool
        ensures { result ≡ is_last self.now key }
    {
        if key.session < 1 || key.session as usize > self.book.len() {
            return false;
        }
        self.book[key.session as usize - 1] == key.number
    }

    // The ticket's last command leaves no room for this act: it ended the session, or has no reply yet, and this act
    // doesn't end it.
    fn keeps_busy(&self, ticket: &Ticket<O>, act: &Act<O::Op>) -> bool
        ensures { result ≡ keeps_busy self.now ticket.now act.now (last_noted ticket.now) }
    {
        match ticket.last() {
            None => false,
            Some(last) => {
                is_close(&last.act)
                    || (!is_close(act)
                        && self.nodes.recorder.answer_to(ticket.last_key()).is_none())
            }
        }
    }
}

// The act ends its session.
fn is_close<Op>(act: &Act<Op>) -> bool
    ensures { result ≡ is_close act.now }
{
    matches!(act, Act::Close)
}

// The act is the clock's.
fn is_tick<Op>(act: &Act<Op>) -> bool
    ensures { result ≡ is_tick act.now }
{
    matches!(act, Act::Tick)
}
