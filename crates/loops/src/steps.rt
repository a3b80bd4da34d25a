ghost use Rattle.std.specs.Prelude.{◌≡◌, ◌+◌, ◌≤◌, ◌<◌, ◌^◌, max, IfOk, OnOk, OnErr};
ghost use Rattle.forgetting_hall.specs.Handing.{next_of, second_of};
ghost use Rattle.forgetting_hall.specs.Halls.{rest_of_hall};
ghost use Rattle.forgetting_hall.specs.Leading.{TurnsOn};
ghost use Rattle.forgetting_hall.specs.Rests.{handed_in};
ghost use Rattle.loops.specs.Lending.{command_behind};

use forgetting_hall::{ForgettingHall, leads_on, tells_in_order};
use hall::HallError;
use object::{Act, Command, Key, Object};

/// So many seconds that were missed are made up under one hold of the lock.
const MOST_SECONDS: u32 = 1024;

/// A session's next command is handed in at a node.
pub(crate) fn submit<O: Object>(
    hall: &mut ForgettingHall<O>,
    session: u32,
    act: Act<O::Op>,
    node: u8,
) -> Result<(), HallError>
    ensures ok { OnOk result (rest_of_hall O.rules hall.new
        ≡ handed_in O.rules (rest_of_hall O.rules hall.old) node (next_of hall.old session act)) }
    ensures err { OnErr result (hall.new ≡ hall.old) }
    ensures goes_on { TurnsOn O.rules hall.old hall.new }
{
    tells_in_order::<O>();
    leads_on::<O>();
    hall.submit(session, act, node)
}

/// An act is handed in behind this key, its session's last one, at a node: also where that was the session's end.
pub(crate) fn submit_behind<O: Object>(
    hall: &mut ForgettingHall<O>,
    last: Key,
    act: Act<O::Op>,
    node: u8,
) -> Result<(), HallError>
    requires { last.number < 2 ^ 62 }
    ensures ok { OnOk result (rest_of_hall O.rules hall.new
        ≡ handed_in O.rules (rest_of_hall O.rules hall.old) node (command_behind last act)) }
    ensures err { OnErr result (hall.new ≡ hall.old) }
    ensures goes_on { TurnsOn O.rules hall.old hall.new }
{
    tells_in_order::<O>();
    leads_on::<O>();
    let key = Key {
        session: last.session,
        number: last.number + 1,
    };
    match Command::new(key, act) {
        Some(command) => hall.hand_in(command, node),
        None => Err(HallError::BadNumber),
    }
}

/// A session's last command is handed in again, at a node.
pub(crate) fn resubmit<O: Object>(hall: &mut ForgettingHall<O>, session: u32, node: u8)
    ensures goes_on { TurnsOn O.rules hall.old hall.new }
    ensures nothing_new { hall.new.summary ≡ hall.old.summary }
    ensures opened { hall.new.opened ≡ hall.old.opened }
{
    tells_in_order::<O>();
    leads_on::<O>();
    // it is handed in once more when the next second has come
    let _ = hall.resubmit(session, node);
}

/// The clock goes on to this second, at a node, by so many seconds at most as are made up at once.
pub(crate) fn tick_to<O: Object>(hall: &mut ForgettingHall<O>, second: u64, node: u8)
    ensures goes_on { TurnsOn O.rules hall.old hall.new }
    ensures within { second_of hall.new ≤ max (second_of hall.old) second }
{
    leads_on::<O>();
    for _ in 0..MOST_SECONDS {
        if hall.last_second() >= second {
            return;
        }
        if tick(hall, node).is_err() {
            return;
        }
    }
}

// The clock shows the next second, at a node.
fn tick<O: Object>(hall: &mut ForgettingHall<O>, node: u8) -> Result<(), HallError>
    ensures goes_on { TurnsOn O.rules hall.old hall.new }
    ensures next { second_of hall.new ≤ second_of hall.old + 1 }
{
    tells_in_order::<O>();
    leads_on::<O>();
    hall.tick(node)
}

/// The slots that every node has performed are forgotten.
pub(crate) fn forget<O: Object>(hall: &mut ForgettingHall<O>)
    ensures goes_on { TurnsOn O.rules hall.old hall.new }
    ensures summary { hall.new.summary ≡ hall.old.summary }
    ensures opened { hall.new.opened ≡ hall.old.opened }
{
    tells_in_order::<O>();
    leads_on::<O>();
    hall.forget();
}

/// A session is opened: the next one.
pub(crate) fn open_session<O: Object>(hall: &mut ForgettingHall<O>) -> Result<u32, HallError>
    ensures session { IfOk result (λ session. session ≡ hall.old.opened + 1) }
    ensures opened { OnOk result (hall.new.opened ≡ hall.old.opened + 1) }
    ensures err { OnErr result (hall.new ≡ hall.old) }
    ensures goes_on { TurnsOn O.rules hall.old hall.new }
{
    tells_in_order::<O>();
    leads_on::<O>();
    hall.open_session()
}

/// A session is let go of. The clock stays.
pub(crate) fn let_go<O: Object>(hall: &mut ForgettingHall<O>, session: u32)
    ensures submitted { hall.new.summary.submitted ≡ hall.old.summary.submitted }
    ensures opened { hall.new.opened ≡ hall.old.opened }
    ensures gathering { hall.new.gathering ≡ hall.old.gathering }
    ensures goes_on { TurnsOn O.rules hall.old hall.new }
{
    tells_in_order::<O>();
    leads_on::<O>();
    if session != 0 {
        hall.let_go(session);
    }
}
