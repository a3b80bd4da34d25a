ghost use Rattle.std.specs.Prelude.{◌≡◌, ◌⊎◌, ◌++◌, [], true, false, Err, IfOk};
ghost use Rattle.hall.specs.Halls.{has_unplaced};
ghost use Rattle.recorder.specs.Records.{commands_from};
ghost use Rattle.recovery.specs.Clocks.{last_second_in};
ghost use Rattle.recovery.specs.Opened.{EndsAll};
ghost use Rattle.recovery.specs.UsedAgain.{uses_again};
ghost use Rattle.recovery.specs.declared.fault.RecoverFault.TheVariants.{OutOfMemory, UsedAgain};
ghost use Rattle.beanpax.specs.Program.{WritesMore};
ghost use Rattle.beanpax.specs.Restorings.{IsRestored};
ghost use Rattle.beanpax.specs.declared.start_fault.StartFault.TheVariants.{Unobeyed};

use crate::host::Host;
use crate::start_fault::StartFault;
use crate::starting::{has_passed, tell_obeyed};
use ballot::Members;
use bean_queue::Queue;
use journal::Journal;
use log_file::{Durable, OpenedLog};
use loops::KeptHall;
use object::{Command, Object};
use recovery::{KeepingRecovery, RecoveredKeeping};
use session::ByteOut;
use std::time::Instant;

/// A hall that keeps all and has obeyed a log, and the log, which goes on from there.
#[derive(Drop)]
pub(crate) struct Restored<W> {
    pub(crate) kept: KeptHall<Queue>,
    pub(crate) journal: Journal<W>,
}

/// Does as `start_from` with a hall that keeps all: for a server that is to write a dump of all that its log has. A log in
/// which a session goes on behind its end is refused.
pub(crate) fn restore_from<R: Host, E: ByteOut, W: Durable + Drop>(
    rt: &R,
    members: Members,
    opened: OpenedLog<W>,
    errors: &mut E,
) -> Result<Restored<W>, StartFault>
    ensures restored { IfOk result (IsRestored W.contents members opened) }
    ensures again { uses_again [] opened.commands.items ≡ true →
        (result ≡ Err (Unobeyed UsedAgain)) ⊎ (result ≡ Err (Unobeyed OutOfMemory)) }
    ensures more { WritesMore E.ByteOut errors.old errors.new }
{
    let OpenedLog { log, commands, .. } = opened;
    let recovered = obey_keeping(rt, members, &commands, errors)?;
    let RecoveredKeeping {
        hall,
        tickets,
        closes,
    } = recovered;
    // It does nothing when it runs: the proof reads there that they are fewer than 2^64.
    let _count = hall.placed_count();
    let mut journal = Journal::new(rt.alloc(), log, commands.len() as u64);
    journal.put(closes);
    journal.keep()?;
    let kept = KeptHall { hall, tickets };
    Ok(Restored { kept, journal })
}

// Obeys the commands in a hall that keeps all, and ends each session that they leave open. Each second it is told how far it
// is.
fn obey_keeping<R: Host, E: ByteOut, O: Object>(
    rt: &R,
    members: Members,
    commands: &[Command<O::Op>],
    errors: &mut E,
) -> Result<RecoveredKeeping<O>, StartFault>
    ensures members { IfOk result (λ r. r.hall.nodes.network.members ≡ members) }
    ensures placed { IfOk result (λ r.
        commands_from 0 r.hall.nodes.past ≡ commands.now ++ r.closes.items) }
    ensures ends { IfOk result (λ r. EndsAll commands.now r.closes.items) }
    ensures settled { IfOk result (λ r. has_unplaced r.hall ≡ false) }
    ensures second { IfOk result (λ r. r.hall.second ≡ last_second_in commands.now) }
    ensures again { uses_again [] commands.now ≡ true →
        (result ≡ Err (Unobeyed UsedAgain)) ⊎ (result ≡ Err (Unobeyed OutOfMemory)) }
    ensures more { WritesMore E.ByteOut errors.old errors.new }
{
    let mut recovery = KeepingRecovery::begin(rt.alloc(), members, commands)?;
    let mut since = Instant::now(rt).ok();
    for done in 0..commands.len() {
        recovery.obey(&commands[done])?;
        if has_passed(rt, since) {
            since = Instant::now(rt).ok();
            tell_obeyed(done + 1, errors);
        }
    }
    Ok(recovery.finish(commands)?)
}
