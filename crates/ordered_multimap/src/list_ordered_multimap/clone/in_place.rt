//! Clones of keys and values that fill the first slots in order. Each clone has the place of its
//! original, so links are copied as they are.
ghost use Rattle.std.specs.Prelude.{◌≡◌, ◌≤◌, ◌<◌, ◌+◌, ◌/◌, ℕ, Some, length, min, IfOk, OnOk};
ghost use Rattle.std.specs.FinMap.{empty, len};
ghost use Rattle.multimap_slots.specs.Lists.{IsIn, places_below};
ghost use Rattle.multimap_slots.specs.Slots.{HasNoHole, HasRoomFor, IsEmpty, IsSound};
ghost use Rattle.multimap_slots.specs.Tapes.{HasEndRoom};
ghost use Rattle.ordered_multimap.specs.Agrees.{hash_of};
ghost use Rattle.ordered_multimap.specs.Private.Append.{HasListedRows, KeepsTapeRoom};
ghost use Rattle.ordered_multimap.specs.Private.Copies.{AddsKeyCopy, AreCopied, AreStored, CopiesValue, IsKeyCopy, IsValueCopy};
ghost use Rattle.ordered_multimap.specs.Private.KeyRelocations.{HasRows, HaveNewPlaces, IsNewStorage};
ghost use Rattle.ordered_multimap.specs.Private.Remove.{KeepsKeyRoom};
ghost use Rattle.ordered_multimap.specs.TapeNumbers.{AreUnused, numbers_of};

use crate::list_ordered_multimap::lookup::{slot_at, value_at};
use crate::list_ordered_multimap::storage::{Storage, new_storage};
use multimap_slots::{SlotList, Tape};
use multimap_table::KeyTable;
use multimap_walks::{KeyLink, PackedLink, ValueLink};
use std::alloc::{AllocError, Allocator};
use std::hash::{BuildHasher, Hash};

/// Puts a clone of the key at the place behind the copies, among which there is no hole, with a row of
/// its hash.
#[inline(always)]
fn clone_key_in_place<K: Hash + Clone, S: BuildHasher, A: Allocator>(
    keys: &SlotList<K, KeyLink, A>,
    place: usize,
    state: &S,
    copies: &mut SlotList<K, KeyLink, A>,
    table: &mut KeyTable<A>,
) -> Result<(), AllocError>
    requires listed { IsIn place keys.now.order }
    requires rows { HasListedRows copies.old table.old.rows }
    requires key_room { HasRoomFor copies.old 1 }
    requires row_room { len table.old.rows < table.old.capacity }
    requires no_hole { HasNoHole copies.old }
    ensures copied { OnOk result (AddsKeyCopy K.is_clone
        (λ k. hash_of S.BuildHasher S.Hasher.Hasher state.now (K.hash_input k))
        (λ p. p) keys.now copies.old copies.new table.old.rows table.new.rows place
        (length copies.old.order)) }
    ensures no_hole { OnOk result (HasNoHole copies.new) }
    ensures rooms { KeepsKeyRoom copies.old copies.new table.old table.new }
{
    let (key, link) = slot_at(keys, place);
    let copy = key.clone()?;
    let hash = state.hash_one(&copy);
    let to = copies.push_reserved(copy, KeyLink { hash, ..link });
    table.insert(hash, to);
    Ok(())
}

/// Puts clones of all keys into the new list, at the same places.
fn clone_keys_in_place<K: Hash + Clone, S: BuildHasher, A: Allocator>(
    keys: &SlotList<K, KeyLink, A>,
    state: &S,
    copies: &mut SlotList<K, KeyLink, A>,
    table: &mut KeyTable<A>,
) -> Result<(), AllocError>
    requires dense { keys.now.order ≡ places_below (length keys.now.order) }
    requires no_key { IsEmpty copies.old }
    requires no_row { table.old.rows ≡ empty }
    requires room { length keys.now.order ≤ min copies.old.capacity table.old.capacity }
    ensures copied { OnOk result (HaveNewPlaces (IsKeyCopy K.is_clone
        (λ k. hash_of S.BuildHasher S.Hasher.Hasher state.now (K.hash_input k))
        (λ p. p) keys.now) (λ p. p) keys.now.order copies.new) }
    ensures rows { OnOk result (HasRows copies.new table.new.rows) }
    ensures sound { OnOk result (IsSound copies.new) }
    ensures rooms { KeepsKeyRoom copies.old copies.new table.old table.new }
{
    for place in 0..keys.len() {
        clone_key_in_place(keys, place, state, copies, table)?;
    }
    // The length tells the proof that the list is sound.
    let _copies = copies.len();
    Ok(())
}

/// Puts a clone of the value at the place behind the copies, with the same link.
#[inline(always)]
fn clone_value_in_place<V: Clone, A: Allocator>(
    values: &Tape<V, ValueLink, A, PackedLink>,
    place: usize,
    copies: &mut Tape<V, ValueLink, A, PackedLink>,
) -> Result<(), AllocError>
    requires listed { IsIn place values.now.list.order }
    requires end_room { HasEndRoom copies.old }
    ensures copied { OnOk result (CopiesValue V.is_clone (λ p. p) (λ p. p) values.now.list
        copies.old.list copies.new.list place
        (length copies.old.list.order + copies.old.holes)) }
    ensures room { KeepsTapeRoom copies.old copies.new }
{
    let (value, _link) = value_at(values, place);
    let copy = value.clone()?;
    let _to = copies.push_linked(copy, values, place);
    Ok(())
}

/// Puts clones of all values on the new tape, at the same places and with the same links.
fn clone_values_in_place<V: Clone, A: Allocator>(
    values: &Tape<V, ValueLink, A, PackedLink>,
    copies: &mut Tape<V, ValueLink, A, PackedLink>,
) -> Result<(), AllocError>
    requires dense { values.now.list.order ≡ places_below (length values.now.list.order) }
    requires no_value { IsEmpty copies.old.list }
    requires no_hole { copies.old.holes ≡ 0 }
    requires room { length values.now.list.order ≤ copies.old.list.capacity }
    ensures copied { OnOk result (HaveNewPlaces
        (IsValueCopy V.is_clone (λ p. p) (λ p. p) values.now.list)
        (λ p. p) values.now.list.order copies.new.list) }
    ensures sound { OnOk result (IsSound copies.new.list) }
    ensures room { KeepsTapeRoom copies.old copies.new }
{
    for place in 0..values.len() {
        clone_value_in_place(values, place, copies)?;
    }
    // The length tells the proof that the list is sound.
    let _copies = copies.len();
    Ok(())
}

/// Puts clones of all keys and values into the new storage, at the same places.
#[inline(always)]
fn clone_into_places<K: Hash + Clone, V: Clone, S: BuildHasher, A: Allocator>(
    keys: &SlotList<K, KeyLink, A>,
    values: &Tape<V, ValueLink, A, PackedLink>,
    state: &S,
    storage: &mut Storage<K, V, A>,
) -> Result<(), AllocError>
    requires keys_dense { keys.now.order ≡ places_below (length keys.now.order) }
    requires values_dense { values.now.list.order ≡ places_below (length values.now.list.order) }
    requires empty { IsNewStorage storage.old.keys storage.old.table storage.old.values }
    requires key_room { length keys.now.order ≤ storage.old.keys.capacity }
    requires row_room { length keys.now.order ≤ storage.old.table.capacity }
    requires value_room { length values.now.list.order ≤ storage.old.values.list.capacity }
    ensures copied { OnOk result (AreCopied K.is_clone V.is_clone
        (λ k. hash_of S.BuildHasher S.Hasher.Hasher state.now (K.hash_input k))
        keys.now storage.new.keys storage.new.table.rows values.now.list storage.new.values.list) }
    ensures rooms { KeepsKeyRoom storage.old.keys storage.new.keys
        storage.old.table storage.new.table }
    ensures room { KeepsTapeRoom storage.old.values storage.new.values }
{
    clone_keys_in_place(keys, state, &mut storage.keys, &mut storage.table)?;
    clone_values_in_place(values, &mut storage.values)
}

/// New storage with clones of all keys and values at the same places, and with room for all.
pub(super) fn cloned_in_place<K: Hash + Clone, V: Clone, S: BuildHasher, A: Allocator + Copy>(
    keys: &SlotList<K, KeyLink, A>,
    values: &Tape<V, ValueLink, A, PackedLink>,
    state: &S,
) -> Result<Storage<K, V, A>, AllocError>
    requires keys_dense { keys.now.order ≡ places_below (length keys.now.order) }
    requires values_dense { values.now.list.order ≡ places_below (length values.now.list.order) }
    ensures { IfOk result (λ s. AreStored K.is_clone V.is_clone
        (λ k. hash_of S.BuildHasher S.Hasher.Hasher state.now (K.hash_input k))
        keys.now s.keys s.table values.now.list s.values) }
{
    let alloc = *keys.allocator();
    // No new place of a key has to be noted.
    let mut storage = new_storage(alloc, keys.len(), values.len(), 0)?;
    clone_into_places(keys, values, state, &mut storage)?;
    Ok(storage)
}
