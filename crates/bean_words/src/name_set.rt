ghost use Rattle.std.specs.Prelude.{◌≡◌, ◌⊎◌, ℕ, List, OnOk};
ghost use Rattle.object.specs.Lists.{In};

use crate::name::Name;
use object::Value;
use std::alloc::AllocError;
use std::collections::BTreeSet;

/// Puts a name among others. It is copied only where it isn't there yet.
pub fn add_name(names: &mut BTreeSet<Name>, name: &Name) -> Result<(), AllocError>
    ensures kept { (tube : List ℕ) → In tube names.old.keys → In tube names.new.keys }
    ensures only { (tube : List ℕ) → In tube names.new.keys
        → In tube names.old.keys ⊎ (tube ≡ name.now) }
    ensures there { OnOk result (In name.now names.new.keys) }
{
    if !names.contains(name) {
        names.insert(name.copy()?)?;
    }
    Ok(())
}
