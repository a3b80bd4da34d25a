ghost use Rattle.std.specs.Prelude.{IfOk};
ghost use Rattle.recovery.specs.Sessions.{AreSessionsOf};

use object::{Command, Value};
use std::alloc::{AllocError, Global};

/// The sessions of the commands, each once, in rising order; that of the clock is none.
pub(crate) fn sessions_of<Op: Value>(
    alloc: Global,
    commands: &[Command<Op>],
) -> Result<Vec<u32>, AllocError>
    ensures { IfOk result (λ sessions. AreSessionsOf sessions.items commands.now) }
{
    let mut sessions = Vec::new(alloc);
    let mut last = 0;
    for command in commands {
        let session = command.key().session;
        if session != 0 && session != last {
            sessions.push(session)?;
            last = session;
        }
    }
    sessions.sort_unstable();
    sessions.dedup();
    Ok(sessions)
}
