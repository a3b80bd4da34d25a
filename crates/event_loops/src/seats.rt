ghost use Rattle.std.specs.Prelude.{◌≡◌, ◌≢◌, ◌==◌, ◌≤◌, ℕ, [], None, Some, length, nat_eq, IfOk, OnOk};
ghost use Rattle.std.specs.Option.{option_copied_mut};
ghost use Rattle.indexmap.specs.IndexMap.{get as key_under};
ghost use Rattle.slab.specs.Slab.{HasRoomFor, Updates, get, slab_len};

use crate::seat::Seat;
use crate::stream::Stream;
use conversation::SessionTicket;
use indexmap::IndexMap;
use slab::Slab;
use std::alloc::{AllocError, Global};

/// The clients of a loop: each has a key, under which its connection is reported, and is found by its session.
#[derive(Drop)]
pub(crate) struct Seats<S: Stream, T: SessionTicket> {
    seats: Slab<Seat<S, T>>,
    keys: IndexMap<u32, usize>,
}

impl<S: Stream, T: SessionTicket> Seats<S, T> {
    pub(crate) fn new(alloc: Global) -> Seats<S, T>
        ensures none { result.seats.slots ≡ [] }
    {
        Seats {
            seats: Slab::new(alloc),
            keys: IndexMap::new(alloc),
        }
    }

    /// Makes room for a client more.
    pub(crate) fn make_room(&mut self) -> Result<(), AllocError>
        ensures room { OnOk result (HasRoomFor self.new.seats 1) }
        ensures seats { self.new.seats.slots ≡ self.old.seats.slots }
    {
        self.keys.reserve(1)?;
        self.seats.reserve(1)
    }

    /// The key of the next client.
    pub(crate) fn next_key(&self) -> usize
        ensures next { result ≡ self.now.seats.vacant_key }
    {
        self.seats.vacant_key()
    }

    /// Takes in a client, where there is room for it.
    pub(crate) fn take_in(&mut self, seat: Seat<S, T>) -> Result<usize, AllocError>
        ensures key { IfOk result (λ key. key ≡ self.old.seats.vacant_key) }
        ensures taken_in { IfOk result (λ key.
            Updates self.old.seats self.new.seats key (Some seat)) }
    {
        let session = seat.ticket().session();
        let Ok(key) = self.seats.insert(seat) else {
            return Err(AllocError);
        };
        let _ = self.keys.insert(session, key);
        Ok(key)
    }

    /// The client of this key.
    pub(crate) fn get_mut(&mut self, key: usize) -> Option<&mut Seat<S, T>>
        ensures seat { option_copied_mut result ≡ get self.old.seats key }
    {
        self.seats.get_mut(key)
    }

    /// The key of the client that has this session.
    pub(crate) fn key_of(&self, session: u32) -> Option<usize>
        ensures key { result ≡ key_under nat_eq self.now.keys session }
    {
        self.keys.get(&session).copied()
    }

    /// Lets a client go: its connection is closed. Who else has its session by now is still found by it.
    pub(crate) fn let_go(&mut self, key: usize)
        ensures gone { Updates self.old.seats self.new.seats key None }
        ensures others { (session other : ℕ) → key_under nat_eq self.old.keys session ≡ Some other
            → other ≢ key → key_under nat_eq self.new.keys session ≡ Some other }
    {
        if let Some(seat) = self.seats.try_remove(key) {
            let session = seat.ticket().session();
            if self.key_of(session) == Some(key) {
                let _ = self.keys.swap_remove(&session);
            }
        }
    }

    /// Whether nobody is there.
    pub(crate) fn is_empty(&self) -> bool
        ensures empty { result ≡ (slab_len self.now.seats == 0) }
    {
        self.seats.is_empty()
    }

    /// No key is as great as this.
    pub(crate) fn key_bound(&self) -> usize
        ensures bound { length self.now.seats.slots ≤ result }
    {
        self.seats.capacity()
    }
}
