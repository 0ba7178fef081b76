//! The slots of a vector of items.
ghost use Rattle.std.specs.Prelude.{◌≡◌};
ghost use Rattle.std.specs.Borrow.{sem};
ghost use Rattle.multimap_slots.specs.CellsLends.{lends_slots};

use std::alloc::Allocator;

// `L` has no part in it: it gives the types of a list or a tape, whose proof calls this.
/// The slots of a vector.
pub(crate) fn slots_of<T, L, A: Allocator>(items: &mut Vec<Option<T>, A>) -> &mut [Option<T>]
    ensures* writes_back { sem 𝓛 (lends_slots T.row A.row A.Allocator items.entry result) }
    ensures value { result.now ≡ items.old.items }
{
    items.as_mut_slice()
}
