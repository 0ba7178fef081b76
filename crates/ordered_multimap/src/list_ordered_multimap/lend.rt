//! The values of the map for writing, and its keys for reading.
ghost use Rattle.std.specs.Borrow.{sem};
ghost use Rattle.multimap_slots.specs.SlotCells.{cells_name, LendsSlots};
ghost use Rattle.ordered_multimap.specs.Agrees.{hash_of};
ghost use Rattle.ordered_multimap.specs.ValuesLent.{lends_tape_values, lends_values, AreLent};
ghost use Rattle.ordered_multimap.specs.ValuesLent.{EndsMap, EndsTapeOfValues};

use super::ListOrderedMultimap;
use multimap_slots::{SlotCells, SlotList, Tape};
use multimap_walks::{KeyLink, PackedLink, ValueLink};
use std::alloc::Allocator;
use std::hash::{BuildHasher, Hash};

/// The cells of a tape of values, with the type parameters of the map.
fn cells_of<K: Eq + Hash, V, S: BuildHasher, A: Allocator>(
    values: &mut Tape<V, ValueLink, A, PackedLink>,
) -> SlotCells<'_, V, ValueLink, A, PackedLink>
    ensures* writes_back { sem 𝓛 (lends_tape_values V.row A.row A.Allocator values.entry result) }
    ensures lent { LendsSlots values.old.list result }
    ensures ends { EndsTapeOfValues V.row values.old result }
{
    values.cells()
}

impl<K: Eq + Hash, V, S: BuildHasher, A: Allocator> ListOrderedMultimap<K, V, S, A> {
    /// The values for writing, and the keys.
    pub(super) fn lend(
        &mut self,
    ) -> (
        SlotCells<'_, V, ValueLink, A, PackedLink>,
        &SlotList<K, KeyLink, A>,
    )
        ensures* writes_back { sem 𝓛 (lends_values K.row V.row S.row A.row S.Hasher.row K.Hash
            S.BuildHasher S.Hasher.Hasher A.Allocator self.entry (cells_name result.0)) }
        ensures lent { AreLent K.eq
            (λ h k. hash_of S.BuildHasher S.Hasher.Hasher h (K.hash_input k))
            self.old result.0 result.1.now }
        ensures ends { EndsMap K.row V.row S.row self.old result.0 }
    {
        let cells = cells_of::<K, V, S, A>(&mut self.values);
        (cells, &self.keys)
    }
}
