ghost use Rattle.std.specs.Prelude.{◌≡◌, [], None, OnOk, OnErr};
ghost use Rattle.std.specs.Map.{lookup};
ghost use Rattle.std.specs.BTreeMap.{insert_entry, is_at};
ghost use Rattle.bean_words.specs.Names.{name_cmp};
ghost use Rattle.tube_store.specs.NameSteps.{step_back, before_steps, AreByName, GoesTo};

use crate::value_change::ValueChange;
use bean_words::Name;
use object::Value;
use std::alloc::AllocError;
use std::collections::BTreeMap;

/// How a change of values by name is taken back.
#[derive(Drop)]
pub(crate) enum NameStep<V: Copy> {
    /// The tube has no value.
    Begun(Name),
    /// The tube has this value again.
    Changed { tube: Name, before: V },
}

/// Takes one step back.
fn take_step_back<V: Copy>(values: &mut BTreeMap<Name, V>, step: NameStep<V>)
    requires { AreByName values.old.entries }
    ensures { GoesTo values.new.entries (step_back step values.old.entries) }
{
    match step {
        NameStep::Begun(tube) => {
            values.remove(&tube);
        }
        NameStep::Changed { tube, before } => {
            if let Some(found) = values.get_mut(&tube) {
                *found = before;
            }
        }
    }
}

/// Takes all these steps back, the last one first.
pub(crate) fn take_steps_back<V: Copy>(values: &mut BTreeMap<Name, V>, steps: &mut Vec<NameStep<V>>)
    requires { AreByName values.old.entries }
    ensures values { GoesTo values.new.entries (before_steps steps.old.items values.old.entries) }
    ensures steps { steps.new.items ≡ [] }
{
    while let Some(step) = steps.pop() {
        take_step_back(values, step);
    }
}

/// Gives a tube without a value this one, and adds the step that takes that back.
fn begin<V: Copy>(
    values: &mut BTreeMap<Name, V>,
    steps: &mut Vec<NameStep<V>>,
    tube: &Name,
    first: V,
) -> Result<(), AllocError>
    requires absent { lookup (is_at (name_cmp tube.now)) values.old.entries ≡ None }
    requires ordered { AreByName values.old.entries }
    ensures values { OnOk result
        (values.new.entries ≡ insert_entry name_cmp values.old.entries tube.now first) }
    ensures err { OnErr result (values.new.entries ≡ values.old.entries) }
    ensures before { before_steps steps.new.items values.new.entries
        ≡ before_steps steps.old.items values.old.entries }
    ensures ordered { AreByName values.new.entries }
{
    let begun = tube.copy()?;
    steps.reserve(1)?;
    values.insert(tube.copy()?, first)?;
    steps.push(NameStep::Begun(begun))?;
    Ok(())
}

/// Makes a change of a tube's value, and adds the step that takes that back. Where the tube has one, it is looked up once.
pub(crate) fn change_value<V: Copy, C: ValueChange<V>>(
    values: &mut BTreeMap<Name, V>,
    steps: &mut Vec<NameStep<V>>,
    tube: &Name,
    change: C,
) -> Result<(), AllocError>
    requires { AreByName values.old.entries }
    ensures values { OnOk result
        (values.new.entries ≡ insert_entry name_cmp values.old.entries tube.now
        (C.after change (lookup (is_at (name_cmp tube.now)) values.old.entries))) }
    ensures err { OnErr result (values.new.entries ≡ values.old.entries) }
    ensures before { before_steps steps.new.items values.new.entries
        ≡ before_steps steps.old.items values.old.entries }
    ensures ordered { AreByName values.new.entries }
{
    if let Some(found) = values.get_mut(tube) {
        let before = *found;
        steps.push(NameStep::Changed {
            tube: tube.copy()?,
            before,
        })?;
        *found = change.after(Some(before));
        return Ok(());
    }
    begin(values, steps, tube, change.after(None))
}
