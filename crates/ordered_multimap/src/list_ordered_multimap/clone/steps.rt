//! Clones of keys and values in new storage, where each link names the new places.
ghost use Rattle.std.specs.Prelude.{◌≡◌, ◌≤◌, ◌<◌, ◌+◌, ◌/◌, ◌^◌, ℕ, Some, length, min, option_map, IfOk, OnOk};
ghost use Rattle.std.specs.FinMap.{empty, len};
ghost use Rattle.multimap_slots.specs.Lists.{IsIn};
ghost use Rattle.multimap_slots.specs.Slots.{HasRoomFor, IsEmpty, IsSound, link_at};
ghost use Rattle.multimap_slots.specs.Tapes.{HasEndRoom};
ghost use Rattle.multimap_walks.specs.Packed.{HasSmallPlaces};
ghost use Rattle.ordered_multimap.specs.Agrees.{hash_of};
ghost use Rattle.ordered_multimap.specs.Private.Append.{HasListedRows, KeepsTapeRoom};
ghost use Rattle.ordered_multimap.specs.Private.Copies.{AreCopied, AreRanks, AreStored, CopiesKey, CopiesValue, HasRankedEnds, HasRankedNeighbours, IsKeyCopy, IsValueCopy};
ghost use Rattle.ordered_multimap.specs.Private.KeyRelocations.{HasRows, HaveNewPlaces, IsNewStorage, new_place_in};
ghost use Rattle.ordered_multimap.specs.Private.Remove.{KeepsKeyRoom};
ghost use Rattle.ordered_multimap.specs.Private.Relocations.{AreChained, relocated_value};
ghost use Rattle.ordered_multimap.specs.TapeNumbers.{AreUnused, numbers_of};

use super::in_place::cloned_in_place;
use super::ranks::{NoHoles, Ranks, ranks_of};
use crate::list_ordered_multimap::lookup::{slot_at, value_at};
use crate::list_ordered_multimap::storage::{Storage, new_storage};
use multimap_slots::{SlotList, Tape};
use multimap_table::KeyTable;
use multimap_walks::{KeyLink, PackedLink, ValueLink};
use std::alloc::{AllocError, Allocator};
use std::hash::{BuildHasher, Hash};

/// Puts a clone of the key at the place behind the copies, with a row of its hash, and notes its new
/// place.
#[inline(always)]
fn clone_key<K: Hash + Clone, S: BuildHasher, R: Ranks, A: Allocator>(
    keys: &SlotList<K, KeyLink, A>,
    place: usize,
    state: &S,
    ranks: &R,
    copies: &mut SlotList<K, KeyLink, A>,
    table: &mut KeyTable<A>,
    new_places: &mut Vec<usize, A>,
) -> Result<(), AllocError>
    requires listed { IsIn place keys.now.order }
    requires ranked { (l : KeyLink) → link_at keys.now place ≡ Some l
        → HasRankedEnds (R.has_rank ranks.now) l }
    requires rows { HasListedRows copies.old table.old.rows }
    requires key_room { HasRoomFor copies.old 1 }
    requires row_room { len table.old.rows < table.old.capacity }
    requires within { place < length new_places.old.items }
    ensures copied { OnOk result (CopiesKey K.is_clone
        (λ k. hash_of S.BuildHasher S.Hasher.Hasher state.now (K.hash_input k))
        (R.rank ranks.now) keys.now copies.old copies.new table.old.rows table.new.rows
        new_places.old.items new_places.new.items place) }
    ensures rooms { KeepsKeyRoom copies.old copies.new table.old table.new }
{
    let (key, link) = slot_at(keys, place);
    let copy = key.clone()?;
    let hash = state.hash_one(&copy);
    let link = ranks.ranked_key(link);
    let to = copies.push_reserved(copy, KeyLink { hash, ..link });
    table.insert(hash, to);
    new_places[place] = to;
    Ok(())
}

/// Puts clones of all keys into the new list in their order, and notes the new place of each.
fn clone_keys<K: Hash + Clone, S: BuildHasher, R: Ranks, A: Allocator>(
    keys: &SlotList<K, KeyLink, A>,
    state: &S,
    ranks: &R,
    copies: &mut SlotList<K, KeyLink, A>,
    table: &mut KeyTable<A>,
    new_places: &mut Vec<usize, A>,
) -> Result<(), AllocError>
    requires ranked { (q : ℕ) (l : KeyLink) → IsIn q keys.now.order → link_at keys.now q ≡ Some l
        → HasRankedEnds (R.has_rank ranks.now) l }
    requires no_key { IsEmpty copies.old }
    requires no_row { table.old.rows ≡ empty }
    requires room { length keys.now.order ≤ min copies.old.capacity table.old.capacity }
    requires within { (q : ℕ) → IsIn q keys.now.order → q < length new_places.old.items }
    ensures copied { OnOk result (HaveNewPlaces (IsKeyCopy K.is_clone
        (λ k. hash_of S.BuildHasher S.Hasher.Hasher state.now (K.hash_input k))
        (R.rank ranks.now) keys.now) (new_place_in new_places.new.items)
        keys.now.order copies.new) }
    ensures rows { OnOk result (HasRows copies.new table.new.rows) }
    ensures sound { OnOk result (IsSound copies.new) }
    ensures new_places { OnOk result (length new_places.new.items ≡ length new_places.old.items) }
    ensures rooms { KeepsKeyRoom copies.old copies.new table.old table.new }
{
    // The lengths tell the proof that the lists are sound.
    let _len = keys.len();
    let mut following = keys.front_place();
    while let Some(place) = following {
        following = keys.next_listed_place(place);
        clone_key(keys, place, state, ranks, copies, table, new_places)?;
    }
    let _copies = copies.len();
    Ok(())
}

/// Puts a clone of the value at the place behind the copies.
#[inline(always)]
fn clone_value<V: Clone, R: Ranks, A: Allocator>(
    values: &Tape<V, ValueLink, A, PackedLink>,
    place: usize,
    new_places: &Vec<usize, A>,
    ranks: &R,
    copies: &mut Tape<V, ValueLink, A, PackedLink>,
) -> Result<(), AllocError>
    requires listed { IsIn place values.now.list.order }
    requires ranked { (l : ValueLink) → link_at values.now.list place ≡ Some l
        → HasRankedNeighbours (R.has_rank ranks.now) l }
    requires small { (l : ValueLink) → link_at values.now.list place ≡ Some l
        → HasSmallPlaces (relocated_value (R.rank ranks.now) l) }
    requires named { (l : ValueLink) → link_at values.now.list place ≡ Some l
        → l.key < length new_places.now.items }
    requires end_room { HasEndRoom copies.old }
    ensures copied { OnOk result (CopiesValue V.is_clone (new_place_in new_places.now.items)
        (R.rank ranks.now) values.now.list copies.old.list copies.new.list place
        (length copies.old.list.order + copies.old.holes)) }
    ensures room { KeepsTapeRoom copies.old copies.new }
{
    let (value, link) = value_at(values, place);
    let copy = value.clone()?;
    let key = new_places[link.key];
    let link = ranks.ranked_value(link);
    copies.push_reserved(copy, ValueLink { key, ..link });
    Ok(())
}

/// Puts clones of all values on the new tape in their order, with the new places of their keys. They
/// stand there without a hole, each at the place of its rank.
fn clone_values<V: Clone, R: Ranks, A: Allocator>(
    values: &Tape<V, ValueLink, A, PackedLink>,
    new_places: &Vec<usize, A>,
    ranks: &R,
    copies: &mut Tape<V, ValueLink, A, PackedLink>,
) -> Result<(), AllocError>
    requires ranks { AreRanks values.now.list.order (R.has_rank ranks.now) (R.rank ranks.now) }
    requires ranked { (q : ℕ) (l : ValueLink) → IsIn q values.now.list.order
        → link_at values.now.list q ≡ Some l
        → HasRankedNeighbours (R.has_rank ranks.now) l }
    requires small { (q : ℕ) (l : ValueLink) → IsIn q values.now.list.order
        → link_at values.now.list q ≡ Some l
        → HasSmallPlaces (relocated_value (R.rank ranks.now) l) }
    requires named { (q : ℕ) (l : ValueLink) → IsIn q values.now.list.order
        → link_at values.now.list q ≡ Some l → l.key < length new_places.now.items }
    requires no_value { IsEmpty copies.old.list }
    requires no_hole { copies.old.holes ≡ 0 }
    requires room { length values.now.list.order ≤ copies.old.list.capacity }
    ensures copied { OnOk result (HaveNewPlaces
        (IsValueCopy V.is_clone (new_place_in new_places.now.items)
        (R.rank ranks.now) values.now.list)
        (R.rank ranks.now) values.now.list.order copies.new.list) }
    ensures sound { OnOk result (IsSound copies.new.list) }
    ensures room { KeepsTapeRoom copies.old copies.new }
{
    // The lengths tell the proof that the lists are sound.
    let _len = values.len();
    let mut following = ranks.front(values);
    while let Some(place) = following {
        following = ranks.next(values, place);
        clone_value(values, place, new_places, ranks, copies)?;
    }
    let _copies = copies.len();
    Ok(())
}

/// Puts clones of all keys and values into the new storage.
fn clone_into<K: Hash + Clone, V: Clone, S: BuildHasher, R: Ranks, A: Allocator>(
    keys: &SlotList<K, KeyLink, A>,
    values: &Tape<V, ValueLink, A, PackedLink>,
    state: &S,
    ranks: &R,
    storage: &mut Storage<K, V, A>,
) -> Result<(), AllocError>
    requires chains { AreChained keys.now values.now.list }
    requires ranks { AreRanks values.now.list.order (R.has_rank ranks.now) (R.rank ranks.now) }
    requires counted { length values.now.list.order < 2 ^ 64 }
    requires empty { IsNewStorage storage.old.keys storage.old.table storage.old.values }
    requires key_room { length keys.now.order ≤ storage.old.keys.capacity }
    requires row_room { length keys.now.order ≤ storage.old.table.capacity }
    requires value_room { length values.now.list.order ≤ storage.old.values.list.capacity }
    requires new_places { (q : ℕ) → IsIn q keys.now.order
        → q < length storage.old.new_places.items }
    ensures copied { OnOk result (AreCopied K.is_clone V.is_clone
        (λ k. hash_of S.BuildHasher S.Hasher.Hasher state.now (K.hash_input k))
        keys.now storage.new.keys storage.new.table.rows values.now.list storage.new.values.list) }
    ensures rooms { KeepsKeyRoom storage.old.keys storage.new.keys
        storage.old.table storage.new.table }
    ensures room { KeepsTapeRoom storage.old.values storage.new.values }
{
    clone_keys(
        keys,
        state,
        ranks,
        &mut storage.keys,
        &mut storage.table,
        &mut storage.new_places,
    )?;
    clone_values(values, &storage.new_places, ranks, &mut storage.values)
}

/// New storage with clones of all keys and values by these ranks, and with room for all.
fn cloned_by_ranks<K: Hash + Clone, V: Clone, S: BuildHasher, R: Ranks, A: Allocator + Copy>(
    keys: &SlotList<K, KeyLink, A>,
    values: &Tape<V, ValueLink, A, PackedLink>,
    state: &S,
    ranks: &R,
) -> Result<Storage<K, V, A>, AllocError>
    requires chains { AreChained keys.now values.now.list }
    requires ranks { AreRanks values.now.list.order (R.has_rank ranks.now) (R.rank ranks.now) }
    ensures { IfOk result (λ s. AreStored K.is_clone V.is_clone
        (λ k. hash_of S.BuildHasher S.Hasher.Hasher state.now (K.hash_input k))
        keys.now s.keys s.table values.now.list s.values) }
{
    let alloc = *keys.allocator();
    let mut storage = new_storage(alloc, keys.len(), values.len(), keys.used_slots())?;
    clone_into(keys, values, state, ranks, &mut storage)?;
    Ok(storage)
}

/// New storage with clones of all keys and values, and with room for all. Where no slot of a value is
/// a hole and the keys fill the first slots in order, each clone has the place of its original. Where
/// there are holes among the values, it allocates their ranks for that time.
pub(super) fn cloned_storage<K: Hash + Clone, V: Clone, S: BuildHasher, A: Allocator + Copy>(
    keys: &SlotList<K, KeyLink, A>,
    values: &Tape<V, ValueLink, A, PackedLink>,
    state: &S,
) -> Result<Storage<K, V, A>, AllocError>
    requires { AreChained keys.now values.now.list }
    ensures { IfOk result (λ s. AreStored K.is_clone V.is_clone
        (λ k. hash_of S.BuildHasher S.Hasher.Hasher state.now (K.hash_input k))
        keys.now s.keys s.table values.now.list s.values) }
{
    if values.push_place() == values.len() {
        if keys.is_dense() {
            return cloned_in_place(keys, values, state);
        }
        return cloned_by_ranks(keys, values, state, &NoHoles);
    }
    let ranks = ranks_of(values, *keys.allocator())?;
    cloned_by_ranks(keys, values, state, &ranks)
}
