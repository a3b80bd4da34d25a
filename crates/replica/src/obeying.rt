ghost use Rattle.std.specs.Prelude.{◌≡◌, IfOk, OnOk};
ghost use Rattle.std.specs.List.{fold};
ghost use Rattle.std.specs.Option.{option_copied, option_to_list};
ghost use Rattle.object.specs.Obeying.{obeyed};
ghost use Rattle.object.specs.OnceOnly.{filtered};
ghost use Rattle.slot_log.specs.Histories.{history};

use ballot::Slot;
use object::{Command, Object, Once};
use slot_log::SlotLog;
use std::alloc::{AllocError, Global};

/// A new object that has obeyed the commands of the slots before `slot_out`, and answered nobody.
pub(crate) fn obeying<O: Object>(
    alloc: Global,
    slots: &SlotLog<Command<O::Op>>,
) -> Result<Once<O>, AllocError>
    ensures { IfOk result (λ object. object ≡ obeyed O.rules (history slots.now)) }
{
    let mut object = Once::new(alloc)?;
    for number in 1..slots.slot_out() {
        let slot = Slot::new(number).unwrap();
        obey(slots.decision(slot), &mut object)?;
    }
    Ok(object)
}

// The object obeys the command, if there is one.
fn obey<O: Object>(command: Option<&Command<O::Op>>, object: &mut Once<O>) -> Result<(), AllocError>
    ensures { OnOk result (object.new
        ≡ fold (filtered O.rules.after) object.old (option_to_list (option_copied command.entry))) }
{
    if let Some(command) = command {
        object.obey(command)?;
    }
    Ok(())
}
