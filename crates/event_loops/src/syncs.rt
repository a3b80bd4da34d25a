ghost use Rattle.std.specs.Prelude.{◌≡◌, IfOk};
ghost use Rattle.event_loops.specs.declared.shared_log.Durability.TheVariants.{Synced};

use crate::beginning::Beginning;
use crate::desk::LoopDesk;
use crate::event_loop::Common;
use crate::fault::ServeFault;
use crate::shared_log::{Held, SharedLog};
use std::rt::Clock;
use std::sync::Wait;
use std::thread::sleep;
use std::time::Duration;

/// So many seconds it sleeps at most before it looks whether all is over.
const LONGEST_SLEEP: u64 = 1;

/// What the thread does that syncs the log from time to time, until all is over.
pub(crate) fn run_syncs<R: Wait + Clock, D: LoopDesk, B: Beginning>(
    common: &Common<'_, R, D, B>,
    pause: Duration,
) -> Result<(), ServeFault> {
    for _ in common.rt.forever() {
        let is_over = sleep_long(common, pause);
        keep_all(common)?;
        if is_over {
            return Ok(());
        }
    }
    unreachable!()
}

/// Syncs all that took effect.
pub(crate) fn keep_all<R: Wait + Clock, D: LoopDesk, B: Beginning>(
    common: &Common<'_, R, D, B>,
) -> Result<(), ServeFault> {
    let Some(log) = common.log else {
        return Ok(());
    };
    match sync_all(common, log) {
        Ok(_) => Ok(()),
        Err(fault) => {
            common.end_all();
            Err(fault)
        }
    }
}

// The same with this log.
fn sync_all<R: Wait + Clock, D: LoopDesk, B: Beginning>(
    common: &Common<'_, R, D, B>,
    log: &SharedLog,
) -> Result<Held, ServeFault>
    ensures { IfOk result (λ held. held.how ≡ Synced) }
{
    let count = common.house.lock(common.rt).desk().placed_count();
    log.sync(common.rt, common.house, count)
}

// Sleeps so long, or until all is over. Answers whether it is.
fn sleep_long<R: Wait + Clock, D: LoopDesk, B: Beginning>(
    common: &Common<'_, R, D, B>,
    pause: Duration,
) -> bool {
    let mut left = pause;
    for _ in common.rt.forever() {
        let is_over = common.door.is_over(common.rt);
        if is_over || left.is_zero() {
            return is_over;
        }
        let part = left.min(Duration::from_secs(LONGEST_SLEEP));
        sleep(common.rt, part);
        left = left.saturating_sub(part);
    }
    unreachable!()
}
