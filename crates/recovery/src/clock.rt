ghost use Rattle.std.specs.Prelude.{◌≡◌};
ghost use Rattle.recovery.specs.Clocks.{last_second_in};

use object::{Command, Value};

/// The greatest second that the clock handed in among these commands, 0 where there is none.
pub(crate) fn last_second_in<Op: Value>(commands: &[Command<Op>]) -> u64
    ensures { result ≡ last_second_in commands.now }
{
    let mut second = 0;
    for command in commands {
        let key = command.key();
        if key.session == 0 {
            second = second.max(key.number);
        }
    }
    second
}
