ghost use Rattle.std.specs.Prelude.{◌≡◌, ◌++◌, ◌∷◌, [], None, IfOk, OnOk};
ghost use Rattle.world.specs.Refusals.{refusal};
ghost use Rattle.world.specs.WaySteps.{ButForMemory};
ghost use Rattle.world.specs.WaysOut.{AddsEvent};

use crate::error::WorldError;
use crate::world::World;
use agreement::Event;
use object::{Object, Value};
use std::alloc::AllocError;

mod advancing;
mod asking;
mod bringing;
mod resting;

/// A way out of a world: events, and the world to which they lead from it.
#[derive(Drop)]
pub(crate) struct Way<O: Object> {
    pub(crate) trial: World<O>,
    pub(crate) events: Vec<Event<O::Op>>,
}

impl<O: Object> Way<O> {
    /// No events yet, from this world on.
    pub(crate) fn new(world: &World<O>) -> Result<Way<O>, AllocError>
        ensures trial { IfOk result (λ way. way.trial ≡ world.now) }
        ensures events { IfOk result (λ way. way.events.items ≡ []) }
    {
        Ok(Way {
            trial: world.copy()?,
            events: Vec::new(world.allocator()),
        })
    }

    // Takes an event that the world doesn't refuse.
    pub(crate) fn take(&mut self, event: Event<O::Op>) -> Result<(), WorldError>
        requires { refusal O.Op.eq self.old.trial event ≡ None }
        ensures { ButForMemory result (AddsEvent O.rules event self.old.trial self.old.events.items
            self.new.trial self.new.events.items) }
    {
        let noted = event.copy()?;
        self.note(noted)?;
        self.trial.step(event)
    }

    // Puts an event behind those that are there.
    fn note(&mut self, event: Event<O::Op>) -> Result<(), AllocError>
        ensures noted { OnOk result (self.new.events.items ≡ self.old.events.items ++ (event ∷ [])) }
        ensures trial { self.new.trial ≡ self.old.trial }
    {
        self.events.push(event)?;
        Ok(())
    }
}
