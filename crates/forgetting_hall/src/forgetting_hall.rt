ghost use Rattle.std.specs.Prelude.{◌≡◌, IfOk};
ghost use Rattle.forgetting_hall.specs.Halls.{new_forgetting};

mod acting;
mod gathering;
mod looking;
mod mailing;
mod noting;
mod refusing;
mod resting;
mod resuming;
mod submitting;
mod turning;

use crate::halls::halls_rest;
use agreement::every_world;
use ballot::Members;
use client_table::ClientTable;
use lean_network::LeanNetwork;
use object::{Command, Object};
use std::alloc::{AllocError, Global};
use std::marker::Model;

/// All nodes with their mail, and of what happened there what is needed to go on: each session's last command with the reply
/// to it. It forgets the slots that every node has performed.
///
/// It shows a world that events lead to. Each call that answers Ok is the event of its name there, or none: of every such
/// world it says which one is shown then. A refusal changes nothing.
#[derive(Drop)]
pub struct ForgettingHall<O: Object> {
    network: LeanNetwork<O>,
    // The first slot that is kept.
    base: u64,
    clients: ClientTable<O::Op, O::Reply>,
    // How many sessions were opened.
    opened: u32,
    // The greatest slot that some node has performed.
    reach: u64,
    // How many events there were.
    taken: u64,
    // The sessions that were answered since somebody asked for them.
    answered: Vec<u32>,
    // Whether the commands that take effect are gathered, and those that did since somebody asked for them.
    gathers: bool,
    gathered: Vec<Command<O::Op>>,
    alloc: Global,
}

impl<O: Object> Model for ForgettingHall<O> {
    ghost use Rattle.std.specs.Coded.{codes};
    ghost use Rattle.object.specs.OnceOnly.{latest_code};
    ghost use Rattle.ballot.specs.Slots.{slots_code};
    ghost use Rattle.forgetting_hall.specs.Halls.{ForgettingState, IsForgettingHall};

    ghost Value = { ForgettingState O.Op O O.Reply };

    ghost coded = { Prim.hlevel (codes, slots_code, latest_code, O.code, O.Op.code, O.Reply.code) };

    ghost view = { λ h. record {
      network = h.network;
      base = h.base;
      summary = h.clients;
      opened = h.opened;
      reach = h.reach;
      taken = h.taken;
      gathering = record { is_on = h.gathers; commands = h.gathered.items };
    } };

    ghost invariant = { λ h. IsForgettingHall O.rules (record {
      network = h.network;
      base = h.base;
      summary = h.clients;
      opened = h.opened;
      reach = h.reach;
      taken = h.taken;
      gathering = record { is_on = h.gathers; commands = h.gathered.items };
    }) };
}

impl<O: Object> ForgettingHall<O> {
    /// These members, before anything happened.
    pub fn new(alloc: Global, members: Members) -> Result<ForgettingHall<O>, AllocError>
        ensures { IfOk result (λ h. h ≡ new_forgetting O.rules members) }
    {
        every_world::<O>();
        halls_rest::<O>();
        Ok(ForgettingHall {
            network: LeanNetwork::new(alloc, members)?,
            base: 0,
            clients: ClientTable::new(alloc)?,
            opened: 0,
            reach: 0,
            taken: 0,
            answered: Vec::new(alloc),
            gathers: false,
            gathered: Vec::new(alloc),
            alloc,
        })
    }
}
