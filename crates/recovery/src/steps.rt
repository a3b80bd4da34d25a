ghost use Rattle.std.specs.Prelude.{◌≡◌, ◌≢◌, ◌≤◌, ℕ, IfErr, OnOk};
ghost use Rattle.turns.specs.Working.{no_work};
ghost use Rattle.forgetting_hall.specs.Telling.{TellsOn};
ghost use Rattle.recovery.specs.declared.fault.RecoverFault.TheVariants.{UsedAgain};

use crate::fault::RecoverFault;
use forgetting_hall::{ForgettingHall, tells_in_order};
use object::{Act, Command, Object, Value};
use turns::{Nodes, settle};

/// The node at which all is handed in, and which leads.
pub(crate) const FIRST_NODE: u8 = 1;

/// The nodes' turns are taken so many times at most until none has anything to do.
const MOST_ROUNDS: u32 = 1 << 20;

/// The first node asks to lead.
pub(crate) fn wake<O: Object>(hall: &mut ForgettingHall<O>) -> Result<(), RecoverFault>
    ensures { TellsOn O.rules hall.old hall.new }
{
    Nodes::wake(hall, FIRST_NODE)?;
    Ok(())
}

/// The nodes take their turns, until none has anything to do.
pub(crate) fn settle_all<N: Nodes>(hall: &mut N) -> Result<(), RecoverFault>
    ensures goes_on { N.goes_on hall.old hall.new }
    ensures calm { OnOk result ((n : ℕ) → 1 ≤ n → n ≤ N.node_count hall.new
        → N.work_of hall.new n ≡ no_work) }
    ensures fault { IfErr result (λ fault. fault ≢ UsedAgain) }
{
    for _ in 0..MOST_ROUNDS {
        if settle(hall, FIRST_NODE)? {
            return Ok(());
        }
    }
    Err(RecoverFault::NoOrder)
}

/// A session of this number is there.
pub(crate) fn open_as<O: Object>(
    hall: &mut ForgettingHall<O>,
    session: u32,
) -> Result<(), RecoverFault>
    ensures { TellsOn O.rules hall.old hall.new }
{
    tells_in_order::<O>();
    hall.open_as(session)?;
    Ok(())
}

/// A command of the log is handed in.
pub(crate) fn hand_in<O: Object>(
    hall: &mut ForgettingHall<O>,
    command: &Command<O::Op>,
) -> Result<(), RecoverFault>
    ensures { TellsOn O.rules hall.old hall.new }
{
    tells_in_order::<O>();
    hall.hand_in(command.copy()?, FIRST_NODE)?;
    Ok(())
}

/// A session is ended.
pub(crate) fn close<O: Object>(
    hall: &mut ForgettingHall<O>,
    session: u32,
) -> Result<(), RecoverFault>
    ensures { TellsOn O.rules hall.old hall.new }
{
    tells_in_order::<O>();
    hall.submit(session, Act::Close, FIRST_NODE)?;
    Ok(())
}

/// These sessions are let go of, and slots that every node has performed are forgotten.
pub(crate) fn forget<O: Object>(hall: &mut ForgettingHall<O>, sessions: &[u32])
    ensures told { TellsOn O.rules hall.old hall.new }
    ensures gathering { hall.new.gathering ≡ hall.old.gathering }
{
    for session in sessions {
        let_go(hall, *session);
    }
    forget_slots(hall);
}

// A session is let go of.
fn let_go<O: Object>(hall: &mut ForgettingHall<O>, session: u32)
    ensures told { TellsOn O.rules hall.old hall.new }
    ensures gathering { hall.new.gathering ≡ hall.old.gathering }
{
    tells_in_order::<O>();
    if session != 0 {
        hall.let_go(session);
    }
}

/// Slots that every node has performed are forgotten, and who was answered, since nobody waits.
pub(crate) fn forget_slots<O: Object>(hall: &mut ForgettingHall<O>)
    ensures told { TellsOn O.rules hall.old hall.new }
    ensures gathering { hall.new.gathering ≡ hall.old.gathering }
{
    tells_in_order::<O>();
    hall.forget();
    let _ = hall.take_answered();
}
