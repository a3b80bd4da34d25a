ghost use Rattle.std.specs.Prelude.{◌≡◌, ◌++◌, ℕ, IfOk, OnOk};
ghost use Rattle.std.specs.Option.{option_or};
ghost use Rattle.std.specs.FinMap as slots;
ghost use Rattle.leader.specs.Adoptions.{TakesGreatest};
ghost use Rattle.leader.specs.Greatest.{all_raised, all_taken};

use ballot::{Ballot, Pvalue, SlotMap, SlotRow};
use object::Value;
use std::alloc::{AllocError, Global};

/// The proposals, but at each slot with a gathered or reported pvalue the value of the first of the greatest ballot.
/// Of what was gathered and reported, one value a slot is copied.
pub(crate) fn with_greatest<C: Value>(
    alloc: Global,
    proposals: &SlotRow<C>,
    gathered: &[Pvalue<C>],
    report: &[Pvalue<C>],
) -> Result<SlotMap<C>, AllocError>
    ensures { IfOk result (λ taken. TakesGreatest proposals.now (gathered.now
        ++ report.now) taken) }
{
    let mut greatest = SlotMap::new(alloc);
    note_greatest(gathered, &mut greatest)?;
    note_greatest(report, &mut greatest)?;
    let mut taken = SlotMap::new(alloc);
    take_greatest(gathered, &greatest, &mut taken)?;
    take_greatest(report, &greatest, &mut taken)?;
    let own = proposals.to_map()?;
    take_open(&own, &mut taken)?;
    Ok(taken)
}

/// Notes of each slot the greatest ballot, of that which is noted and those of the pvalues.
fn note_greatest<C: Value>(
    pvalues: &[Pvalue<C>],
    greatest: &mut SlotMap<Ballot>,
) -> Result<(), AllocError>
    ensures { OnOk result (greatest.new ≡ all_raised greatest.old pvalues.now) }
{
    for pvalue in pvalues {
        if greatest.get(pvalue.slot).copied() < Some(pvalue.ballot) {
            greatest.insert(pvalue.slot, pvalue.ballot)?;
        }
    }
    Ok(())
}

/// Takes for each slot that has no value yet the first value of its greatest ballot.
fn take_greatest<C: Value>(
    pvalues: &[Pvalue<C>],
    greatest: &SlotMap<Ballot>,
    taken: &mut SlotMap<C>,
) -> Result<(), AllocError>
    ensures { OnOk result (taken.new ≡ all_taken greatest.now taken.old pvalues.now) }
{
    for pvalue in pvalues {
        if greatest.get(pvalue.slot).copied() == Some(pvalue.ballot)
            && !taken.contains(pvalue.slot)
        {
            taken.insert(pvalue.slot, pvalue.value.copy()?)?;
        }
    }
    Ok(())
}

/// Takes the proposal of each slot that has no value yet.
fn take_open<C: Value>(proposals: &SlotMap<C>, taken: &mut SlotMap<C>) -> Result<(), AllocError>
    ensures { OnOk result ((s : ℕ)
        → slots.get taken.new s ≡ option_or (slots.get taken.old s) (slots.get proposals.now s)) }
{
    let entries = proposals.entries();
    for (slot, command) in entries {
        if !taken.contains(*slot) {
            taken.insert(*slot, command.copy()?)?;
        }
    }
    Ok(())
}
