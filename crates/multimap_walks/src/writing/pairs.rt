//! The iterator over all pairs, with their values for writing.
ghost use Rattle.multimap_walks.specs.RestWalk.{CanReadPairs};

mod methods;

use crate::links::{ChainEnds, KeyLink, ValueLink};
use crate::packed::PackedLink;
use crate::slots::end_reads;
use multimap_slots::{LinkForm, Reads, SlotCells, SlotList};
use std::alloc::{Allocator, Global};

/// A mutable iterator over the pairs of a map, in their order.
///
/// This struct is created by `ListOrderedMultimap::iter_mut`; see there for an example. Its items
/// are `(&key, &mut value)`. It iterates from both ends, and knows its length. It has a `Drop`, so
/// one that is held in a variable borrows the map to the end of its block; `drop` ends it sooner.
/// Each item reads the slots of its value and of its key.
pub struct IterMut<'map, K, V, A: Allocator = Global, F: LinkForm<ValueLink> = PackedLink> {
    reads: Reads,
    keys: &'map SlotList<K, KeyLink, A>,
    values: SlotCells<'map, V, ValueLink, A, F>,
    left: ChainEnds,
    ghost readable: { ∥ CanReadPairs values left keys.now ∥₁ },
}

/// Leaves the values that weren't yielded as they are.
impl<'map, K, V, A: Allocator, F: LinkForm<ValueLink>> Drop for IterMut<'map, K, V, A, F> {
    ghost use Rattle.std.specs.Borrow.{sem};
    ghost use Rattle.multimap_slots.specs.Ended.{ends_with};
    ghost use Rattle.multimap_walks.specs.WritingWalk.{iter_mut_cells};

    fn drop(self)
        ensures* ends { sem 𝓛 (ends_with V.row (iter_mut_cells self.entry)) }
    {
        let IterMut {
            reads,
            keys: _,
            values: _,
            left: _,
        } = self;
        end_reads(reads);
    }
}
