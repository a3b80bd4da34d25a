ghost use Rattle.std.specs.Prelude.{◌≡◌, ◌∷◌, ◌++◌, ℕ, List, [], OnOk, true, IsTrue};
ghost use Rattle.std.specs.BTreeSet.{contains};
ghost use Rattle.std.specs.Ordering.{nat_cmp};
ghost use Rattle.object.specs.declared.command.Command.{Command};
ghost use Rattle.hall.specs.Tickets.{is_close};
ghost use Rattle.recovery.specs.Obeyed.{AreLeftOpen};
ghost use Rattle.recovery.specs.Opened.{EndsAll};

use crate::fault::RecoverFault;
use object::{Act, Command, Value};
use std::collections::BTreeSet;

/// Takes note of which sessions the commands leave open, behind others.
pub(crate) fn note_all<Op: Value>(
    live: &mut BTreeSet<u32>,
    commands: &[Command<Op>],
) -> Result<(), RecoverFault>
    ensures { OnOk result ((before : List (Command Op)) → AreLeftOpen live.old before
        → AreLeftOpen live.new (before ++ commands.now)) }
{
    for command in commands {
        note(live, command)?;
    }
    Ok(())
}

// The same of one command.
fn note<Op: Value>(live: &mut BTreeSet<u32>, command: &Command<Op>) -> Result<(), RecoverFault>
    ensures { OnOk result ((before : List (Command Op)) → AreLeftOpen live.old before
        → AreLeftOpen live.new (before ++ command.now ∷ [])) }
{
    let session = command.key().session;
    if session == 0 {
        return Ok(());
    }
    match command.act() {
        Act::Close => {
            live.remove(&session);
        }
        Act::Do(_) | Act::Tick => {
            live.insert(session)?;
        }
    }
    Ok(())
}

/// Whether each command ends a session that is open then, and none is in the end.
pub(crate) fn end_all<Op: Value>(live: BTreeSet<u32>, commands: &[Command<Op>]) -> bool
    ensures { IsTrue result → (before : List (Command Op)) → AreLeftOpen live before
        → EndsAll before commands.now }
{
    let mut left = live;
    for command in commands {
        if !is_close(command.act()) || !left.remove(&command.key().session) {
            return false;
        }
    }
    left.is_empty()
}

/// Whether the act ends its session.
pub(crate) fn is_close<Op: Value>(act: &Act<Op>) -> bool
    ensures { result ≡ is_close act.now }
{
    matches!(act, Act::Close)
}
