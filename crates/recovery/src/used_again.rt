ghost use Rattle.std.specs.Prelude.{◌≡◌, [], IfOk};
ghost use Rattle.recovery.specs.UsedAgain.{uses_again};

use crate::open_sessions::is_close;
use object::{Command, Value};
use std::alloc::{AllocError, Global};
use std::collections::BTreeSet;

/// Whether one of the commands comes behind the end of its session.
pub(crate) fn uses_again<Op: Value>(
    alloc: Global,
    commands: &[Command<Op>],
) -> Result<bool, AllocError>
    ensures { IfOk result (λ again. again ≡ uses_again [] commands.now) }
{
    let mut ended = BTreeSet::new(alloc);
    for command in commands {
        let session = command.key().session;
        if ended.contains(&session) {
            return Ok(true);
        }
        if is_close(command.act()) {
            ended.insert(session)?;
        }
    }
    Ok(false)
}
