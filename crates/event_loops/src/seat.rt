ghost use Rattle.std.specs.Prelude.{◌≡◌, ◌+◌, ◌<◌, ◌≤◌, ◌||◌, ◌&&◌, not, Result, [], true, false, length, IfOk};
ghost use Rattle.session.specs.Serving.{longest_piece};
ghost use Rattle.hall.specs.declared.error.HallError.{HallError};
ghost use Rattle.conversation.specs.Desks.{HandsIn, Notes};
ghost use Rattle.conversation.specs.Talks.{is_awaiting, leaving};
ghost use Rattle.event_loops.specs.Courses.{AllLead};
ghost use Rattle.event_loops.specs.Seats.{gives_up_at, has_ended};
ghost use Rattle.event_loops.specs.declared.seat.Wish.TheVariants.{End};

use crate::desk::LoopDesk;
use crate::stream::Stream;
use crate::wire::Wire;
use conversation::{Client, LONGEST_UNSENT, Pause, SessionTicket, Stage};
use hall::HallError;
use journal::Kept;
use mio::event::Event;
use std::alloc::AllocError;

/// A client of a loop. What it is to be told leaves once what that rests on is kept.
#[derive(Drop)]
pub(crate) struct Seat<S: Stream, T: SessionTicket> {
    client: Client<Wire<S>, T>,
    /// What is told to it rests on so many commands of the log.
    owed: u64,
    /// There may be bytes to read.
    may_read: bool,
    /// The client sends nothing more.
    is_half_closed: bool,
    /// It takes nothing more either.
    has_gone: bool,
    /// The hall takes nothing more of its session.
    is_abandoned: bool,
    /// Its session was seen off, and may be another client's.
    is_seen_off: bool,
    /// Something was refused for want of memory: it waits until the loop tries again.
    pub(crate) is_refused: bool,
    /// The loop has it on its list of those that it goes on with.
    pub(crate) is_listed: bool,
}

/// What a seat wants once it has gone on.
#[derive(Clone, Copy, Debug, PartialEq, Eq)]
pub(crate) enum Wish {
    /// To wait until something is reported or answered.
    Wait,
    /// To hand something in, or to be told whether the nodes have anything left to do.
    HandIn,
    /// To go on when others have had their turn.
    GoOn,
    /// Nothing more: its end was handed in, and all is sent or the client has gone.
    End,
}

impl<S: Stream, T: SessionTicket> Seat<S, T> {
    /// A client whose session has handed in nothing.
    pub(crate) fn new(client: Client<Wire<S>, T>) -> Seat<S, T>
        ensures client { result.client ≡ client }
        ensures owed { result.owed ≡ 0 }
        ensures here { result.is_seen_off ≡ false }
    {
        Seat {
            client,
            owed: 0,
            may_read: true,
            is_half_closed: false,
            has_gone: false,
            is_abandoned: false,
            is_seen_off: false,
            is_refused: false,
            is_listed: false,
        }
    }

    /// Takes note of what is reported.
    pub(crate) fn see(&mut self, event: &Event)
        ensures { self.new.owed ≡ self.old.owed }
    {
        if event.is_readable() || event.is_read_closed() {
            self.may_read = true;
        }
        if event.is_read_closed() {
            self.is_half_closed = true;
        }
        if event.is_error() || event.is_write_closed() {
            self.give_up();
        }
    }

    /// Its client has gone.
    pub(crate) fn give_up(&mut self)
        ensures gone { self.new.has_gone ≡ true }
        ensures leaves { self.new.client ≡ leaving self.old.client }
        ensures abandoned { self.new.is_abandoned ≡ self.old.is_abandoned }
        ensures owed { self.new.owed ≡ self.old.owed }
    {
        self.has_gone = true;
        self.client.leave();
    }

    /// Hands in what there is. Where that is refused, and not for want of memory, its session ends without more.
    pub(crate) fn hand_in<D: LoopDesk<Ticket = T>>(&mut self, desk: &mut D)
        ensures handed_in { (ended : Result Unit HallError)
            × HandsIn T.keeping D.submits desk.old desk.new self.old.client self.new.client ended
            × (self.new.is_abandoned ≡ (gives_up_at ended || self.old.is_abandoned)) }
        ensures goes_on { AllLead D.leads (D.shows desk.old) (D.shows desk.new) }
        ensures owed { self.new.owed ≡ self.old.owed }
    {
        let ended = self.client.hand_in(desk);
        self.take_note(ended);
    }

    // Takes note of how handing in has ended.
    fn take_note(&mut self, ended: Result<(), HallError>)
        ensures client { self.new.client ≡ self.old.client }
        ensures abandons { self.new.is_abandoned ≡ (gives_up_at ended || self.old.is_abandoned) }
        ensures owed { self.new.owed ≡ self.old.owed }
    {
        match ended {
            Ok(()) => {}
            Err(HallError::OutOfMemory) => self.is_refused = true,
            Err(_) => self.is_abandoned = true,
        }
    }

    /// Notes the answer to what it handed in, where it is there. Its text rests on all that took effect.
    pub(crate) fn note<D: LoopDesk<Ticket = T>>(&mut self, desk: &D) -> Result<bool, AllocError>
        ensures noted { Notes T.keeping (D.to_note desk.now self.old.client.ticket)
            self.old.client self.new.client result }
        ensures owes { IfOk result (λ told. told ≡ true →
            D.taken desk.now + length (D.placed desk.now) ≤ self.new.owed) }
        ensures rises { self.old.owed ≤ self.new.owed }
    {
        let told = self.client.note(desk)?;
        if told {
            self.owed = self.owed.max(desk.placed_count());
        }
        Ok(told)
    }

    /// What is told to it is kept: it may be gone on with.
    pub(crate) fn is_kept(&self, kept: Kept) -> bool
        ensures { result ≡ true → self.now.owed ≤ kept }
    {
        self.owed <= kept.upto()
    }

    /// Puts it on a list under its key, unless it is on one. False where there is no memory for that.
    pub(crate) fn put_on(&mut self, list: &mut Vec<usize>, key: usize) -> bool
        ensures { self.new.owed ≡ self.old.owed }
    {
        if !self.is_listed {
            self.is_listed = list.push(key).is_ok();
            self.is_refused = !self.is_listed;
        }
        self.is_listed
    }

    /// Whether its session hands in nothing more.
    pub(crate) fn has_left(&self) -> bool
        ensures { result ≡ (self.now.is_abandoned || has_ended self.now.client.stage) }
    {
        self.is_abandoned || matches!(self.client.conversation().stage(), Stage::Left(_))
    }

    /// Whether it is to be seen off now: its session hands in nothing more, and that wasn't asked before when it was so.
    pub(crate) fn take_leave(&mut self) -> bool
        ensures leaves { result ≡ (not self.old.is_seen_off
            && (self.old.is_abandoned || has_ended self.old.client.stage)) }
        ensures seat { self.new ≡ record self.old {
          is_seen_off = self.old.is_seen_off
              || (self.old.is_abandoned || has_ended self.old.client.stage);
        } }
    {
        let leaves = !self.is_seen_off && self.has_left();
        self.is_seen_off = self.is_seen_off || leaves;
        leaves
    }

    /// Where its client sends nothing more, a wait for an answer ends, as if it had gone: no node has anything left to do.
    pub(crate) fn give_up_waiting(&mut self)
        ensures owed { self.new.owed ≡ self.old.owed }
        ensures open { self.old.is_half_closed ≡ false → self.new ≡ self.old }
        ensures idle { is_awaiting self.old.client.stage ≡ false → self.new ≡ self.old }
        ensures leaves { self.old.is_half_closed ≡ true →
            is_awaiting self.old.client.stage ≡ true →
            self.new ≡ record self.old { client = leaving self.old.client } }
    {
        if self.is_half_closed && self.is_asked() {
            self.client.leave();
        }
    }

    /// Looks for the next request, reads a piece where that isn't there yet, and sends what the connection takes.
    pub(crate) fn go_on(&mut self, piece: &mut [u8], kept: Kept) -> Wish
        requires some { 0 < length piece.old }
        requires few { length piece.old ≤ longest_piece }
        requires kept { self.old.owed ≤ kept }
        ensures owed { self.new.owed ≡ self.old.owed }
        ensures ended { result ≡ End →
            (self.new.is_abandoned || has_ended self.new.client.stage) ≡ true }
        ensures sent { result ≡ End → self.new.is_abandoned ≡ false → self.new.has_gone ≡ false →
            self.new.client.session.unsent ≡ [] }
    {
        self.look();
        if self.may_read && self.client.conversation().wants_piece() {
            self.read(piece);
            self.look();
        }
        self.send(kept);
        self.wish()
    }

    /// Its session's ticket.
    pub(crate) fn ticket(&self) -> &T
        ensures ticket { result.now ≡ self.now.client.ticket }
    {
        self.client.conversation().ticket()
    }

    /// Whether an answer is awaited.
    pub(crate) fn is_asked(&self) -> bool
        ensures awaits { result ≡ is_awaiting self.now.client.stage }
    {
        matches!(self.client.conversation().stage(), Stage::Asked)
    }

    // Looks for the next request. A client for which there is no memory is given up.
    fn look(&mut self)
        ensures { self.new.owed ≡ self.old.owed }
    {
        if self.client.look().is_err() {
            self.give_up();
        }
    }

    // Reads a piece. After one that doesn't fill the room for it, what comes next is reported; but where the client sends
    // nothing more, that was reported before.
    fn read(&mut self, piece: &mut [u8])
        requires some { 0 < length piece.old }
        requires few { length piece.old ≤ longest_piece }
        ensures { self.new.owed ≡ self.old.owed }
    {
        match self.client.read(piece) {
            Ok(n) => self.may_read = n > 0 && (n == piece.len() || self.is_half_closed),
            Err(Pause::Later) => self.may_read = false,
            Err(Pause::Failed) => self.give_up(),
        }
    }

    // Sends what the connection takes. What it takes later is reported.
    fn send(&mut self, kept: Kept)
        requires { self.old.owed ≤ kept }
        ensures { self.new.owed ≡ self.old.owed }
    {
        for _ in 0..u64::MAX {
            if self.client.conversation().unsent().is_empty() {
                return;
            }
            match self.release(kept) {
                Ok(0) | Err(Pause::Failed) => {
                    self.give_up();
                    return;
                }
                Ok(_) => {}
                Err(Pause::Later) => return,
            }
        }
    }

    // Writes what the connection takes of what waits to be written, which is kept.
    fn release(&mut self, _kept: Kept) -> Result<usize, Pause>
        requires { self.old.owed ≤ _kept }
        ensures { self.new.owed ≡ self.old.owed }
    {
        self.client.write()
    }

    // What it wants.
    fn wish(&self) -> Wish
        ensures ended { result ≡ End →
            (self.now.is_abandoned || has_ended self.now.client.stage) ≡ true }
        ensures sent { result ≡ End → self.now.is_abandoned ≡ false → self.now.has_gone ≡ false →
            self.now.client.session.unsent ≡ [] }
    {
        let conversation = self.client.conversation();
        match conversation.stage() {
            _ if self.is_abandoned => Wish::End,
            Stage::Found(_) | Stage::Leaving(_) if self.is_refused => Wish::Wait,
            Stage::Found(_) | Stage::Leaving(_) => Wish::HandIn,
            Stage::Looking if conversation.unsent().len() <= LONGEST_UNSENT => Wish::GoOn,
            Stage::Reading if self.may_read && conversation.wants_piece() => Wish::GoOn,
            Stage::Asked if self.is_half_closed && !self.is_refused => Wish::HandIn,
            Stage::Left(_) if self.has_gone || conversation.unsent().is_empty() => Wish::End,
            Stage::Looking | Stage::Reading | Stage::Asked | Stage::Left(_) => Wish::Wait,
        }
    }
}
