//! The iterator over the values of all pairs, for writing.
ghost use Rattle.multimap_walks.specs.Lending.{CanLend};

mod methods;

use crate::links::{ChainEnds, ValueLink};
use crate::packed::PackedLink;
use multimap_slots::{LinkForm, SlotCells};
use std::alloc::{Allocator, Global};
use std::marker::PhantomData;

/// A mutable iterator over the values of all pairs of a map, in the order of the pairs.
///
/// This struct is created by `ListOrderedMultimap::values_mut`; see there for an example. Its items
/// are `&mut value`. It iterates from both ends, and knows its length. It has a `Drop`, so one that
/// is held in a variable borrows the map to the end of its block; `drop` ends it sooner. Each item
/// reads the slot of its value.
pub struct ValuesMut<'map, K, V, A: Allocator = Global, F: LinkForm<ValueLink> = PackedLink> {
    keys: PhantomData<&'map K>,
    values: SlotCells<'map, V, ValueLink, A, F>,
    left: ChainEnds,
    ghost readable: { ∥ CanLend values left ∥₁ },
}

/// Leaves the values that weren't yielded as they are.
impl<'map, K, V, A: Allocator, F: LinkForm<ValueLink>> Drop for ValuesMut<'map, K, V, A, F> {
    ghost use Rattle.std.specs.Borrow.{sem};
    ghost use Rattle.multimap_slots.specs.Ended.{ends_with};
    ghost use Rattle.multimap_walks.specs.WritingWalk.{values_mut_cells};

    fn drop(self)
        ensures* ends { sem 𝓛 (ends_with V.row (values_mut_cells self.entry)) }
    {
        let ValuesMut {
            keys: _,
            values: _,
            left: _,
        } = self;
    }
}
