ghost use Rattle.std.specs.Prelude.{IfOk};
ghost use Rattle.chronicle.specs.Replaying.{HasFirstPlaces};

use object::{Key, Keyed};
use std::alloc::{AllocError, Global};
use std::collections::BTreeMap;

/// The place of the first item of each key. It fails for want of memory alone.
pub(crate) fn first_places<X: Keyed>(
    alloc: Global,
    items: &[X],
) -> Result<BTreeMap<Key, usize>, AllocError>
    ensures { IfOk result (HasFirstPlaces X.key_of items.now) }
{
    let mut places = BTreeMap::new(alloc);
    // The first item of a key is put last, and stays.
    for place in (0..items.len()).rev() {
        places.insert(items[place].key(), place)?;
    }
    Ok(places)
}
