ghost use Rattle.std.specs.Prelude.{◌≡◌, ◌++◌, ◌∷◌, [], ◌+◌, ◌<◌, ◌≤◌, true, length, IfOk, IfErr, OnOk, OnErr};
ghost use Rattle.hall.specs.declared.error.HallError.{HallError};
ghost use Rattle.hall.specs.declared.error.HallError.TheVariants.{OutOfMemory, Full};
ghost use Rattle.hall.specs.Halls.{new_hall, most_sessions};
ghost use Rattle.hall.specs.Tickets.{new_ticket};

mod acting;
mod agreeing;
mod looking;
mod mailing;
mod refusing;
mod submitting;
mod telling;

use crate::error::HallError;
use crate::laws::laws_below;
use crate::recorded::RecordedNetwork;
use crate::ticket::Ticket;
use ballot::Members;
use object::Object;
pub use refusing::LAST_SECOND;
use std::alloc::{AllocError, Global};
use std::marker::Model;

/// A hall opens so many sessions.
const MOST_SESSIONS: u64 = 4_294_967_295;

/// All nodes with their mail, what happened there, and the sessions that use them.
///
/// A hall shows a world that events lead to. Each call that answers Ok is the event of its name there, or none: of
/// every such world it says which one is shown then. A refusal changes nothing, the ticket neither.
#[derive(Drop)]
pub struct Hall<O: Object> {
    pub(crate) nodes: RecordedNetwork<O>,
    // For each session that was opened the number of its last command.
    pub(crate) book: Vec<u64>,
    // The greatest second that the clock handed in.
    pub(crate) second: u64,
    pub(crate) alloc: Global,
}

impl<O: Object> Model for Hall<O> {
    ghost use Rattle.std.specs.Coded.{codes};
    ghost use Rattle.ballot.specs.Slots.{slots_code};
    ghost use Rattle.hall.specs.Halls.{HallState, IsHall};

    ghost Value = { HallState O.Op O.Reply };

    ghost coded = { Prim.hlevel (codes, slots_code, O.code, O.Op.code, O.Reply.code) };

    ghost view = { λ h. record { nodes = h.nodes; book = h.book.items; second = h.second } };

    ghost invariant = { λ h. IsHall O.rules (record { nodes = h.nodes; book = h.book.items; second = h.second }) };
}

impl<O: Object> Hall<O> {
    /// These members, before anything happened.
    pub fn new(alloc: Global, members: Members) -> Result<Hall<O>, AllocError>
        ensures { IfOk result (λ h. h ≡ new_hall members) }
    {
        laws_below::<O>();
        Ok(Hall {
            nodes: RecordedNetwork::new(alloc, members)?,
            book: Vec::new(alloc),
            second: 0,
            alloc,
        })
    }

    /// The ticket of a new session. Sessions are numbered from 1.
    pub fn open_session(&mut self) -> Result<Ticket<O>, HallError>
        ensures ticket { IfOk result (λ t. t ≡ new_ticket (length self.old.book + 1)) }
        ensures ok { OnOk result (self.new
            ≡ record self.old { book = self.old.book ++ (0 ∷ []) }) }
        ensures err { OnErr result (self.new ≡ self.old) }
        ensures full { most_sessions ≤ length self.old.book → result ≡ Err Full }
        ensures memory { length self.old.book < most_sessions →
            IfErr result (λ r. r ≡ OutOfMemory) }
    {
        if self.book.len() as u64 >= MOST_SESSIONS {
            return Err(HallError::Full);
        }
        self.book.reserve(1)?;
        self.book.push_reserved(0);
        Ok(Ticket::new(self.alloc, self.book.len() as u32))
    }
}
