//! Growth of a vector, to memory of its own.
ghost use Rattle.std.specs.Prelude.{◌≡◌, vec_capacity};
ghost use Rattle.multimap_slots.specs.Private.Vectors.{GrowsTo};

use std::alloc::{AllocError, Allocator};
use std::mem;

/// Makes room for `slots` items in all. Where it grows, it takes new memory and moves the items
/// there. A growth in place would also copy the free slots behind them; a tape has as many of these
/// as items.
pub(crate) fn grow_to<T, A: Allocator + Copy>(
    items: &mut Vec<T, A>,
    slots: usize,
) -> Result<(), AllocError>
    ensures items { items.new.items ≡ items.old.items }
    ensures capacity { GrowsTo slots (vec_capacity items.old) (vec_capacity items.new) result }
{
    // The capacity tells the proof that the items fit into more slots.
    if slots <= items.capacity() {
        return Ok(());
    }
    let mut wider = Vec::with_capacity(*items.allocator(), slots)?;
    // There is room for the items, so none is refused.
    let _moved = wider.append(items);
    mem::swap(items, &mut wider);
    wider.destroy_empty();
    Ok(())
}
