ghost use Rattle.std.specs.Prelude.{◌≡◌, ◌≤◌, OnOk, vec_capacity};

use std::alloc::AllocError;

/// Gives the list room for so many items in all. It fails for want of memory alone.
pub(crate) fn make_room<X>(items: &mut Vec<X>, count: usize) -> Result<(), AllocError>
    ensures items { items.new.items ≡ items.old.items }
    ensures ok { OnOk result (count ≤ vec_capacity items.new) }
    ensures kept { vec_capacity items.old ≤ vec_capacity items.new }
{
    items.reserve(count.saturating_sub(items.len()))
}
