ghost use Rattle.std.specs.Prelude.{◌≡◌, ◌++◌, ◌≤◌, ℕ, List, [], length, take, IfOk, IfSome};
ghost use Rattle.forgetting_hall.specs.Handing.{second_of};
ghost use Rattle.forgetting_hall.specs.Telling.{HasTold};
ghost use Rattle.recovery.specs.Clocks.{last_second_in};
ghost use Rattle.recovery.specs.Opened.{EndsAll};
ghost use Rattle.beanpax.specs.Program.{WritesMore};
ghost use Rattle.beanpax.specs.Starts.{IsStarted};

use crate::host::Host;
use crate::start_fault::StartFault;
use crate::telling::tell_number;
use ballot::Members;
use bean_queue::Queue;
use forgetting_hall::ForgettingHall;
use journal::Journal;
use log_file::{Durable, OpenedLog};
use object::{Command, Object};
use recovery::{Recovered, Recovery};
use session::ByteOut;
use std::time::{Duration, Instant};

/// After so many seconds it is told how far it is.
const TOLD_AFTER: u64 = 1;

/// A hall that has obeyed a log, and the log, which goes on from there.
#[derive(Drop)]
pub(crate) struct Started<W> {
    pub(crate) hall: ForgettingHall<Queue>,
    pub(crate) journal: Journal<W>,
}

/// Obeys the log's commands in a hall of these members, ends each session that they leave open, and keeps these ends in
/// the log.
pub(crate) fn start_from<R: Host, E: ByteOut, W: Durable + Drop>(
    rt: &R,
    members: Members,
    opened: OpenedLog<W>,
    errors: &mut E,
) -> Result<Started<W>, StartFault>
    ensures started { IfOk result (IsStarted ⟦<Queue as Object>⟧.rules W.contents members opened) }
    ensures more { WritesMore E.ByteOut errors.old errors.new }
{
    let OpenedLog { log, commands, .. } = opened;
    let Recovered { hall, closes } = obey(rt, members, &commands, errors)?;
    // It does nothing when it runs: the proof reads there that they are fewer than 2^64.
    let _count = hall.placed_count();
    let mut journal = Journal::new(rt.alloc(), log, commands.len() as u64);
    journal.put(closes);
    journal.keep()?;
    Ok(Started { hall, journal })
}

// Obeys the commands, and ends each session that they leave open. Each second it is told how far it is.
fn obey<R: Host, E: ByteOut, O: Object>(
    rt: &R,
    members: Members,
    commands: &[Command<O::Op>],
    errors: &mut E,
) -> Result<Recovered<O>, StartFault>
    ensures told { IfOk result (λ r. HasTold O.rules members r.hall (commands.now ++ r.closes.items)) }
    ensures counted { IfOk result (λ r. r.hall.summary.placed ≡ length (commands.now ++ r.closes.items)) }
    ensures settled { IfOk result (λ r. r.hall.summary.submitted ≡ r.hall.summary.placed) }
    ensures ends { IfOk result (λ r. EndsAll commands.now r.closes.items) }
    ensures gathered { IfOk result (λ r. r.hall.gathering.commands ≡ []) }
    ensures second { IfOk result (λ r. second_of r.hall ≡ last_second_in commands.now) }
    ensures more { WritesMore E.ByteOut errors.old errors.new }
{
    let mut recovery = Recovery::begin(rt.alloc(), members, commands)?;
    let mut since = Instant::now(rt).ok();
    let mut done = 0;
    while done < commands.len() {
        done += recovery.obey_some(&commands[done..])?;
        if has_passed(rt, since) {
            since = Instant::now(rt).ok();
            tell_obeyed(done, errors);
        }
    }
    Ok(recovery.finish()?)
}

/// Tells how far it is.
pub(crate) fn tell_obeyed<E: ByteOut>(count: usize, errors: &mut E)
    ensures { WritesMore E.ByteOut errors.old errors.new }
{
    let rest = " commands of the log are obeyed\n";
    tell_number("beanpax: ", count as u64, rest, errors);
}

/// Whether a second has passed since then.
pub(crate) fn has_passed<R: Host>(rt: &R, since: Option<Instant>) -> bool {
    let passed = since.and_then(|since| since.elapsed(rt).ok());
    passed.is_some_and(|passed| passed >= Duration::from_secs(TOLD_AFTER))
}
