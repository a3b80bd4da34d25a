ghost use Rattle.std.specs.Prelude.{◌≡◌};
ghost use Rattle.world.specs.Tasks.{event_for};

use agreement::Event;
use node::Deed;

/// What an event asks for.
#[derive(Drop)]
pub(crate) enum Task<Op> {
    /// The node of this number does this.
    Act(u8, Deed<Op>),
    /// The letter of this number reaches its receiver.
    Deliver(usize),
}

/// Which deed of which node the event is, or the delivery of which letter.
pub(crate) fn task_of<Op>(event: Event<Op>) -> Task<Op>
    ensures { event_for result ≡ event }
{
    match event {
        Event::Submit(id, command) => Task::Act(id, Deed::Request(command)),
        Event::Deliver(index) => Task::Deliver(index),
        Event::Wake(id) => Task::Act(id, Deed::Wake),
        Event::Nudge(id) => Task::Act(id, Deed::Nudge),
        Event::Propose(id) => Task::Act(id, Deed::Propose),
        Event::Perform(id) => Task::Act(id, Deed::Perform),
        Event::Restart(id) => Task::Act(id, Deed::Restart),
    }
}
