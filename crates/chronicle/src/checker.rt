ghost use Rattle.std.specs.Prelude.{Bool, IfOk, IfErr, OnOk};
ghost use Rattle.object.specs.Legal.{IsLegal};
ghost use Rattle.bean_queue.specs.Holds.{IsGivenOnce, IsHeldByOne};
ghost use Rattle.bean_queue.specs.Places.{queue_places};
ghost use Rattle.bean_words.specs.declared.op.Op.{Op};
ghost use Rattle.chronicle.specs.Checking.{AreRightPlaces, IsFaultless, ordered_commands};
ghost use Rattle.bean_queue.specs.Effects.{queue_rules};
ghost use Rattle.chronicle.specs.CheckFaults.{IsCheckFault};
ghost use Rattle.chronicle.specs.Replaying.{IsOrderFault};
ghost use Rattle.chronicle.specs.Walks.{IsReplayed};

use crate::check_fault::CheckFault;
use crate::first_places::first_places;
use crate::laws::faultless_is_legal;
use crate::replay::obey_order;
use crate::walk::{Replayed, check_happenings};
use bean_words::{Op, Reply};
use recorder::Chronicle;
use std::alloc::Global;

/// Whether each line of the chronicle's dump is right; else the fault that is told. No copy of a command is made.
///
/// Beside what the queue takes to obey the order, the time is in proportion to the dump, times the logarithm of
/// its lines for looking up keys.
pub fn check(alloc: Global, chronicle: &Chronicle<Op, Reply>) -> Result<(), CheckFault>
    ensures ok { OnOk result (IsFaultless chronicle.now) }
    ensures legal { (same : Op → Op → Bool) → OnOk result (IsLegal (queue_rules same)
        (record { submitted = chronicle.now.submitted; answers = chronicle.now.answers })
        (ordered_commands chronicle.now)) }
    ensures once { OnOk result (IsGivenOnce (queue_places (ordered_commands chronicle.now))) }
    ensures held { OnOk result (IsHeldByOne (queue_places (ordered_commands chronicle.now))) }
    ensures at { IfErr result (IsCheckFault chronicle.now) }
{
    faultless_is_legal();
    let replayed = replay(alloc, chronicle)?;
    check_happenings(chronicle, &replayed)
}

/// Lets a queue obey the order, and keeps what the other lines are looked up in; or tells the first wrong
/// place.
fn replay(alloc: Global, chronicle: &Chronicle<Op, Reply>) -> Result<Replayed, CheckFault>
    ensures right { OnOk result (AreRightPlaces chronicle.now chronicle.now.order) }
    ensures replayed { IfOk result (IsReplayed chronicle.now) }
    ensures at { IfErr result (IsOrderFault chronicle.now) }
{
    let firsts = first_places(alloc, chronicle.submitted())?;
    let given = obey_order(alloc, chronicle, &firsts)?;
    let answers = first_places(alloc, &given)?;
    let places = first_places(alloc, chronicle.order())?;
    Ok(Replayed {
        firsts,
        places,
        given,
        answers,
    })
}
