//! New storage for the keys and values of a map, where it is packed or cloned.
ghost use Rattle.std.specs.Prelude.{◌≡◌, ◌≤◌, ◌/◌, length, IfOk};
ghost use Rattle.ordered_multimap.specs.Private.KeyRelocations.{IsNewStorage};

use multimap_slots::{SlotList, Tape};
use multimap_table::KeyTable;
use multimap_walks::{KeyLink, PackedLink, ValueLink};
use std::alloc::{AllocError, Allocator};

/// New storage for the keys and values of a map.
#[derive(Drop)]
pub(super) struct Storage<K, V, A: Allocator> {
    pub(super) keys: SlotList<K, KeyLink, A>,
    pub(super) table: KeyTable<A>,
    pub(super) values: Tape<V, ValueLink, A, PackedLink>,
    // At the old place of each key its new one.
    pub(super) new_places: Vec<usize, A>,
}

/// Empty storage with room for so many keys and values, and with a name for each of so many places.
#[inline(always)]
pub(super) fn new_storage<K: Drop, V: Drop, A: Allocator + Copy>(
    alloc: A,
    key_capacity: usize,
    value_capacity: usize,
    places: usize,
) -> Result<Storage<K, V, A>, AllocError>
    ensures empty { IfOk result (λ s. IsNewStorage s.keys s.table s.values) }
    ensures key_room { IfOk result (λ s. key_capacity ≤ s.keys.capacity) }
    ensures row_room { IfOk result (λ s. key_capacity ≤ s.table.capacity) }
    ensures value_room { IfOk result (λ s. value_capacity ≤ s.values.list.capacity / 2) }
    ensures new_places { IfOk result (λ s. length s.new_places.items ≡ places) }
{
    let new_places = Vec::from_elem(alloc, 0, places)?;
    let keys = SlotList::with_capacity(alloc, key_capacity)?;
    let table = KeyTable::with_capacity(alloc, key_capacity)?;
    let values = Tape::with_form_and_capacity(alloc, value_capacity)?;
    Ok(Storage {
        keys,
        table,
        values,
        new_places,
    })
}
