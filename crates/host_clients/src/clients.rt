ghost use Rattle.std.specs.Prelude.{◌≡◌, ℕ, [], max, Some, true, false, IfOk, IfSome, IfNone, OnErr, IsErrOf, slice_get};
ghost use Rattle.std.specs.Option.{option_copied};
ghost use Rattle.object.specs.declared.command.Act.TheVariants.{Close};
ghost use Rattle.host_clients.specs.Clients.{no_clients, HasSeat, OpensAs, HandsInNext, HearsAnswer, Frees, EndsAtPlace, EndsEarlier, IsEarlier, IsOpen, last_number};
ghost use Rattle.host_clients.specs.declared.seat.Seat as seats;

use crate::client_fault::ClientFault;
use crate::seat::{LAST_NUMBER, Seat};
use object::{Act, Answer, Command, Key, Value};
use std::alloc::{AllocError, Global};
use std::marker::Model;

/// The sessions of a host's clients, each with a seat. Session numbers are a host's own: those of node n are n, n + 8,
/// n + 16 and so on.
#[derive(Drop)]
pub struct Clients<Op: Value, Reply: Value> {
    // The number of the first session. Later ones follow in steps of 8.
    first: u32,
    seats: Vec<Seat<Op, Reply>>,
    // Numbers below this one may be used.
    limit: u32,
    // The places of the seats whose sessions have ended.
    free: Vec<usize>,
}

impl<Op: Value, Reply: Value> Model for Clients<Op, Reply> {
    ghost use Rattle.std.specs.Prelude.{◌≤◌, ◌<◌, ◌+◌, ◌*◌, ◌^◌, length};
    ghost use Rattle.object.specs.ListLaws.{Each};
    ghost use Rattle.host_clients.specs.Clients.{ClientsState};

    ghost Value = { ClientsState Op Reply };

    ghost view = { λ c. record {
      first = c.first;
      seats = c.seats.items;
      limit = c.limit;
      free = c.free.items;
    } };

    ghost invariant = { λ c. (c.first + 8 * length c.seats.items < 2 ^ 32 + 8)
        × Each (λ place. place < length c.seats.items) c.free.items };
}

impl<Op: Value, Reply: Value> Clients<Op, Reply> {
    /// Nobody is there, and no number may be used yet. The first session is to have this number.
    pub fn new(alloc: Global, first: u32) -> Clients<Op, Reply>
        ensures { result ≡ no_clients first }
    {
        Clients {
            first,
            seats: Vec::new(alloc),
            limit: 0,
            free: Vec::new(alloc),
        }
    }

    /// Numbers below this one may be used from now on. That has to be kept before the first of them is used, so that no
    /// later process uses one again.
    pub fn allow(&mut self, limit: u32)
        ensures { self.new ≡ record self.old { limit = max self.old.limit limit } }
    {
        self.limit = self.limit.max(limit);
    }

    /// Opens a session: that of the seat which became free last, and where none is, the next one. A refusal changes
    /// nothing.
    pub fn open_session(&mut self) -> Result<u32, ClientFault>
        ensures ok { IfOk result (λ session. OpensAs self.old session self.new) }
        ensures used_up { IsErrOf result ClientFault.SessionsUsedUp → self.old.free ≡ [] }
        ensures err { OnErr result (self.new ≡ self.old) }
    {
        if let Some(place) = self.free.pop() {
            let number = self.seats[place].number;
            self.seats[place] = Seat {
                number,
                is_open: true,
                last: None,
                reply: None,
            };
            return Ok(self.first + 8 * place as u32);
        }
        let next = u64::from(self.first) + 8 * self.seats.len() as u64;
        if next >= u64::from(self.limit) {
            return Err(ClientFault::SessionsUsedUp);
        }
        self.seats.reserve(1)?;
        self.seats.push_reserved(Seat {
            number: 0,
            is_open: true,
            last: None,
            reply: None,
        });
        Ok(next as u32)
    }

    /// The next command of a session, which asks for this. It is the session's last command from then on. A refusal
    /// changes nothing.
    pub fn hand_in(&mut self, session: u32, act: Act<Op>) -> Result<Command<Op>, ClientFault>
        ensures ok { IfOk result (λ command. HandsInNext self.old session act command self.new) }
        ensures none { IsErrOf result ClientFault.NoSession →
            IsOpen self.old session → ⊥ }
        ensures err { OnErr result (self.new ≡ self.old) }
    {
        let Some(place) = self.open_place(session) else {
            return Err(ClientFault::NoSession);
        };
        let Some(number) = self.seats[place].next_number() else {
            return Err(ClientFault::NoCommand);
        };
        let Some(command) = Command::new(Key { session, number }, act) else {
            return Err(ClientFault::NoCommand);
        };
        let last = Some(command.copy()?);
        self.seats[place] = Seat {
            number,
            is_open: true,
            last,
            reply: None,
        };
        Ok(command)
    }

    /// The seat of a session.
    pub fn seat(&self, session: u32) -> Option<&Seat<Op, Reply>>
        ensures seat { (place : ℕ) → HasSeat self.now session place →
            option_copied result ≡ slice_get self.now.seats place }
        ensures none { IfNone result ((place : ℕ) → HasSeat self.now session place → ⊥) }
    {
        Some(&self.seats[self.place(session)?])
    }

    /// An answer was given: it is the reply to the last command of its session, where it is one to that, and the first.
    /// It takes no memory.
    pub fn hear(&mut self, answer: Answer<Reply>)
        ensures { HearsAnswer answer self.old self.new }
    {
        if let Some(place) = self.place(answer.to.session) {
            self.seats[place].hear(answer);
        }
    }

    /// The command of this key took effect. Where it is the last one of its session, and its end, the session may be
    /// opened again from then on; it answers whether that is so. Where memory is refused, the session stays as it is, and
    /// its number is used no more.
    pub fn performed(&mut self, key: Key) -> Result<bool, AllocError>
        ensures yes { IfOk result (λ freed. freed ≡ true → Frees key self.old self.new) }
        ensures no { IfOk result (λ freed. freed ≡ false → self.new ≡ self.old) }
        ensures ends { IfOk result (λ freed. freed ≡ false → (place : ℕ) →
            EndsAtPlace self.old place key → ⊥) }
        ensures err { OnErr result (self.new ≡ self.old) }
    {
        let Some(place) = self.place(key.session) else {
            return Ok(false);
        };
        if !self.seats[place].ends_with(key) {
            return Ok(false);
        }
        self.free.push(place)?;
        let number = self.seats[place].number;
        self.seats[place] = Seat {
            number,
            is_open: false,
            last: None,
            reply: None,
        };
        Ok(true)
    }

    /// The command by which this process ends a session of an earlier one. It has the greatest number of all, which no
    /// command of a client has, so whatever was handed in of the session comes before it.
    pub fn end_earlier(&self, session: u32) -> Result<Command<Op>, ClientFault>
        ensures ok { IfOk result (λ command. EndsEarlier self.now session command) }
        ensures err { OnErr result (IsEarlier self.now session → ⊥) }
    {
        if session == 0 || session >= self.first || (self.first - session) % 8 != 0 {
            return Err(ClientFault::NoSession);
        }
        match end_of(session) {
            Some(end) => Ok(end),
            None => Err(ClientFault::NoSession),
        }
    }

    // The place of the seat of a session that a client has.
    fn open_place(&self, session: u32) -> Option<usize>
        ensures some { IfSome result (λ place. HasSeat self.now session place) }
        ensures still { IfSome result (λ place. (seat : seats.Seat Op Reply) →
            slice_get self.now.seats place ≡ Some seat → seat.is_open ≡ true) }
        ensures none { IfNone result (IsOpen self.now session → ⊥) }
    {
        let Some(place) = self.place(session) else {
            return None;
        };
        if self.seats[place].is_open {
            Some(place)
        } else {
            None
        }
    }

    // The place of a session's seat.
    fn place(&self, session: u32) -> Option<usize>
        ensures some { IfSome result (λ place. HasSeat self.now session place) }
        ensures none { IfNone result ((place : ℕ) → HasSeat self.now session place → ⊥) }
    {
        let offset = session.checked_sub(self.first)? as usize;
        if offset % 8 == 0 && offset / 8 < self.seats.len() {
            Some(offset / 8)
        } else {
            None
        }
    }
}

// The end of a session, under the greatest number of all.
fn end_of<Op: Value>(session: u32) -> Option<Command<Op>>
    ensures some { IfSome result (λ end.
        (end.key ≡ record { session = session; number = last_number }) × (end.act ≡ Close)) }
    ensures none { IfNone result (session ≡ 0) }
{
    let key = Key {
        session,
        number: LAST_NUMBER,
    };
    Command::new(key, Act::Close)
}
