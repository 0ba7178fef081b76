//! Packing: keys and values go to new storage in their order, and what is left of the old is
//! dropped.
ghost use Rattle.std.specs.Prelude.{◌≡◌, ◌≤◌, ◌<◌, ℕ, Some, length};
ghost use Rattle.std.specs.FinMap.{empty, len};
ghost use Rattle.multimap_slots.specs.Lists.{IsIn, places_below};
ghost use Rattle.multimap_slots.specs.Slots.{HasRoomFor, IsEmpty, IsSound, link_at};
ghost use Rattle.ordered_multimap.specs.Private.Append.{HasListedRows, KeepsTapeRoom};
ghost use Rattle.ordered_multimap.specs.Private.KeyRelocations.{ArePacked, AreMoved, HasRows, HaveCome, HaveNewPlaces, IsNewStorage, MovesKey, new_place_in};
ghost use Rattle.ordered_multimap.specs.Private.Relocations.{AreChained};
ghost use Rattle.ordered_multimap.specs.Rooms.{Packs};
ghost use Rattle.ordered_multimap.specs.Private.Remove.{KeepsKeyRoom, KeepsRoom};
ghost use Rattle.ordered_multimap.specs.TapeNumbers.{AreUnused, numbers_of};

use super::ListOrderedMultimap;
use super::compact::compact;
use super::storage::{Storage, new_storage};
use multimap_slots::{SlotList, Tape};
use multimap_table::KeyTable;
use multimap_walks::{KeyLink, PackedLink, ValueLink};
use std::alloc::{AllocError, Allocator};
use std::hash::{BuildHasher, Hash};

/// Takes the key at the place to the end of the new list, with its link and a row of its hash, and
/// notes its new place.
fn move_key<K, A: Allocator>(
    keys: &mut SlotList<K, KeyLink, A>,
    place: usize,
    packed: &mut SlotList<K, KeyLink, A>,
    table: &mut KeyTable<A>,
    new_places: &mut Vec<usize, A>,
)
    requires listed { IsIn place keys.old.order }
    requires rows { HasListedRows packed.old table.old.rows }
    requires key_room { HasRoomFor packed.old 1 }
    requires row_room { len table.old.rows < table.old.capacity }
    requires within { place < length new_places.old.items }
    ensures moved { MovesKey keys.old keys.new packed.old packed.new table.old.rows table.new.rows
        new_places.old.items new_places.new.items place }
    ensures rooms { KeepsKeyRoom packed.old packed.new table.old table.new }
{
    let (key, link) = keys.take_listed(place);
    let to = packed.push_reserved(key, link);
    table.insert(link.hash, to);
    new_places[place] = to;
}

/// Takes all keys to the new list in their order, and notes the new place of each.
fn move_keys<K, A: Allocator>(
    keys: &mut SlotList<K, KeyLink, A>,
    packed: &mut SlotList<K, KeyLink, A>,
    table: &mut KeyTable<A>,
    new_places: &mut Vec<usize, A>,
)
    requires no_key { IsEmpty packed.old }
    requires no_row { table.old.rows ≡ empty }
    requires key_room { length keys.old.order ≤ packed.old.capacity }
    requires row_room { length keys.old.order ≤ table.old.capacity }
    requires within { (q : ℕ) → IsIn q keys.old.order → q < length new_places.old.items }
    ensures gone { HaveNewPlaces (AreMoved keys.old) (new_place_in new_places.new.items)
        keys.old.order packed.new }
    ensures rows { HasRows packed.new table.new.rows }
    ensures sound { IsSound packed.new }
    ensures new_places { length new_places.new.items ≡ length new_places.old.items }
    ensures rooms { KeepsKeyRoom packed.old packed.new table.old table.new }
{
    // The lengths tell the proof that the lists are sound.
    let _len = keys.len();
    while let Some(place) = keys.front_place() {
        move_key(keys, place, packed, table, new_places);
    }
    let _packed = packed.len();
}

/// Takes all values to the new tape in their order, with the new places of their keys. The values
/// stand without a hole, and keep their places.
fn move_values<V, A: Allocator>(
    values: &mut Tape<V, ValueLink, A, PackedLink>,
    packed: &mut Tape<V, ValueLink, A, PackedLink>,
    new_places: &Vec<usize, A>,
)
    requires dense { values.old.list.order ≡ places_below (length values.old.list.order) }
    requires no_value { IsEmpty packed.old.list }
    requires no_hole { packed.old.holes ≡ 0 }
    requires room { length values.old.list.order ≤ packed.old.list.capacity }
    requires within { (q : ℕ) (l : ValueLink) → IsIn q values.old.list.order
        → link_at values.old.list q ≡ Some l → l.key < length new_places.now.items }
    ensures come { HaveCome (new_place_in new_places.now.items) values.old.list.order
        values.old.list packed.new.list }
    ensures room { KeepsTapeRoom packed.old packed.new }
{
    for place in 0..values.len() {
        let (value, link) = values.take_listed(place);
        let key = new_places[link.key];
        packed.push_reserved(value, ValueLink { key, ..link });
    }
}

/// Takes all keys and values to the new storage, which becomes theirs. Values that a forgotten
/// drain has left are dropped.
fn pack<K: Drop, V: Drop, A: Allocator>(
    keys: &mut SlotList<K, KeyLink, A>,
    table: &mut KeyTable<A>,
    values: &mut Tape<V, ValueLink, A, PackedLink>,
    mut storage: Storage<K, V, A>,
)
    requires chains { AreChained keys.old values.old.list }
    requires empty { IsNewStorage storage.keys storage.table storage.values }
    requires key_room { length keys.old.order ≤ storage.keys.capacity }
    requires row_room { length keys.old.order ≤ storage.table.capacity }
    requires value_room { length values.old.list.order ≤ storage.values.list.capacity }
    requires new_places { (q : ℕ) → IsIn q keys.old.order → q < length storage.new_places.items }
    ensures packed { ArePacked keys.old keys.new table.new.rows values.old.list values.new.list }
    ensures unused { AreUnused (numbers_of values.new) }
    ensures rooms { KeepsRoom storage.keys keys.new storage.table table.new
        storage.values values.new }
{
    compact(keys, values);
    move_keys(
        keys,
        &mut storage.keys,
        &mut storage.table,
        &mut storage.new_places,
    );
    move_values(values, &mut storage.values, &storage.new_places);
    *keys = storage.keys;
    *table = storage.table;
    *values = storage.values;
}

impl<K: Eq + Hash, V, S: BuildHasher, A: Allocator + Copy> ListOrderedMultimap<K, V, S, A> {
    /// Moves the map to new memory with room for at least the given numbers of keys and values.
    ///
    /// Both lists stay the same, and the old memory is freed. Unlike std's `shrink_to` it can both
    /// lower and raise capacities. It also closes the holes that removals left among the slots, and
    /// drops what a leaked [`EntryValuesDrain`](super::EntryValuesDrain) left. For just the room
    /// that the map needs see [`pack_to_fit`](Self::pack_to_fit), and to raise capacities only
    /// [`reserve_keys`](Self::reserve_keys) and [`reserve_values`](Self::reserve_values).
    ///
    /// # Errors
    ///
    /// Returns [`AllocError`] if an allocation fails, or if the number of slots overflows `usize`.
    /// The map is unchanged then, since all new memory is allocated before anything is moved.
    ///
    /// # Complexity
    ///
    /// *O*(slots in use + capacity of the new hash table). No key is hashed or compared. During the
    /// call it allocates a number for each slot of a key that is in use.
    ///
    /// # Requires
    ///
    /// The map has at most `keys_minimum_capacity` keys and at most `values_minimum_capacity`
    /// values.
    ///
    /// # Examples
    ///
    /// ```
    /// use ordered_multimap::ListOrderedMultimap;
    ///
    /// let mut map = ListOrderedMultimap::with_capacity(rt.alloc(), 100, 100)?;
    /// map.append("line", 1)?;
    /// map.append("page", 8)?;
    /// map.pack_to(5, 5)?;
    /// assert!(rt; map.keys_capacity() >= 5);
    /// assert!(rt; map.values_capacity() >= 5);
    /// assert!(rt; map.iter().eq([(&"line", &1), (&"page", &8)]));
    /// ```
    pub fn pack_to(
        &mut self,
        keys_minimum_capacity: usize,
        values_minimum_capacity: usize,
    ) -> Result<(), AllocError>
    where
        K: Drop,
        V: Drop,
        requires keys { length self.old.lists.keys ≤ keys_minimum_capacity }
        requires values { length self.old.lists.pairs ≤ values_minimum_capacity }
        ensures { Packs keys_minimum_capacity values_minimum_capacity self.old self.new result }
    {
        let keys_fit = self.keys_len() <= keys_minimum_capacity;
        prove!(keys_fit);
        let values_fit = self.values_len() <= values_minimum_capacity;
        prove!(values_fit);
        let alloc = *self.keys.allocator();
        let places = self.keys.used_slots();
        let storage = new_storage(
            alloc,
            keys_minimum_capacity,
            values_minimum_capacity,
            places,
        )?;
        pack(&mut self.keys, &mut self.table, &mut self.values, storage);
        Ok(())
    }

    /// Moves the map to new memory with room for at least its own keys and values.
    ///
    /// It does what [`pack_to`](Self::pack_to) does for the numbers of keys and values that the map
    /// has. So it gives back memory that removals left unused, as std's `shrink_to_fit` does.
    ///
    /// # Errors
    ///
    /// Returns [`AllocError`] if an allocation fails, or if the number of slots overflows `usize`.
    /// The map is unchanged then.
    ///
    /// # Complexity
    ///
    /// Same as [`pack_to`](Self::pack_to).
    ///
    /// # Examples
    ///
    /// ```
    /// use ordered_multimap::ListOrderedMultimap;
    ///
    /// let mut map = ListOrderedMultimap::with_capacity(rt.alloc(), 100, 100)?;
    /// map.append("line", 1)?;
    /// map.append("page", 8)?;
    /// map.pack_to_fit()?;
    /// assert!(rt; map.values_capacity() >= 2);
    /// assert!(rt; map.iter().eq([(&"line", &1), (&"page", &8)]));
    /// ```
    pub fn pack_to_fit(&mut self) -> Result<(), AllocError>
    where
        K: Drop,
        V: Drop,
        ensures { Packs (length self.old.lists.keys) (length self.old.lists.pairs)
            self.old self.new result }
    {
        let keys = self.keys_len();
        let values = self.values_len();
        self.pack_to(keys, values)
    }
}
