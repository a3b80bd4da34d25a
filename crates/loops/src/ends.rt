ghost use Rattle.std.specs.Prelude.{◌≡◌, ◌∷◌, ◌++◌, ◌⊎◌, [], true, List, All};
ghost use Rattle.object.specs.declared.command.Key.{Key};
ghost use Rattle.hall.specs.Tickets.{is_close};
ghost use Rattle.forgetting_hall.specs.Leading.{TurnsOn};
ghost use Rattle.loops.specs.Lending.{IsEndAmong, has_ended};

use crate::steps;
use forgetting_hall::ForgettingHall;
use object::{Act, Command, Key, Object};

/// Puts the ends among these commands on the list of those whose sessions are free. Where there is no memory for that, a
/// session is let go of.
pub(crate) fn note_ends<O: Object>(
    hall: &mut ForgettingHall<O>,
    free: &mut Vec<Key>,
    commands: &[Command<O::Op>],
)
    ensures freed { (more : List Key) × (free.new.items ≡ free.old.items ++ more)
        × All (λ key. IsEndAmong commands.now key) more }
    ensures submitted { hall.new.summary.submitted ≡ hall.old.summary.submitted }
    ensures opened { hall.new.opened ≡ hall.old.opened }
    ensures gathering { hall.new.gathering ≡ hall.old.gathering }
    ensures goes_on { TurnsOn O.rules hall.old hall.new }
{
    for command in commands {
        note_end(hall, free, command);
    }
}

// The same of one command.
fn note_end<O: Object>(hall: &mut ForgettingHall<O>, free: &mut Vec<Key>, command: &Command<O::Op>)
    ensures freed { (free.new.items ≡ free.old.items)
        ⊎ ((free.new.items ≡ free.old.items ++ command.now.key ∷ []) × (is_close command.now.act ≡ true)) }
    ensures submitted { hall.new.summary.submitted ≡ hall.old.summary.submitted }
    ensures opened { hall.new.opened ≡ hall.old.opened }
    ensures gathering { hall.new.gathering ≡ hall.old.gathering }
    ensures goes_on { TurnsOn O.rules hall.old hall.new }
{
    if is_close(command.act()) && free.push(command.key()).is_err() {
        steps::let_go(hall, command.key().session);
    }
}

/// Whether the session's end was handed in, and nothing behind it.
pub(crate) fn has_ended<O: Object>(hall: &ForgettingHall<O>, session: u32) -> bool
    ensures { result ≡ has_ended hall.now session }
{
    let Some(client) = hall.client(session) else {
        return false;
    };
    let Some(last) = &client.last else {
        return false;
    };
    is_close(last.act())
}

// The act ends its session.
fn is_close<Op>(act: &Act<Op>) -> bool
    ensures { result ≡ is_close act.now }
{
    matches!(act, Act::Close)
}
