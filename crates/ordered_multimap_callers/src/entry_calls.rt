//! Callers of entries that are proved for every key and value type, one for each call that
//! `entered.rt` has none for: each knows what the map is afterwards, and what the call returned.
ghost use Rattle.std.specs.Prelude.{◌≡◌, true, false, length, option_map, slice_get, Some, IfErr, IfOk, IfSome, IsOk, OnErr, OnOk};
ghost use Rattle.std.specs.Map.Calls.{MayWrite};
ghost use Rattle.std.specs.Option.{UnwrapsOrElse};
ghost use Rattle.ordered_multimap.specs.AppendMany.{under_key};
ghost use Rattle.ordered_multimap.specs.Changes.{all_appended, appended, first_written, inserted, removed};
ghost use Rattle.ordered_multimap.specs.Drains.{DrainsEntry};
ghost use Rattle.ordered_multimap.specs.Entries.{IsOccupiedBy};
ghost use Rattle.ordered_multimap.specs.Keys.{stored_key};
ghost use Rattle.ordered_multimap.specs.Pairs.{all_values, is_present, values_of};
ghost use Rattle.ordered_multimap_callers.specs.Present.{ChangesPresent};

use crate::entered::leave_absent;
use ordered_multimap::ListOrderedMultimap;
use ordered_multimap::list_ordered_multimap::{
    Entry, EntryValuesDrain, OccupiedEntry, OrInsertFault, Refused, RefusedValue,
};
use std::alloc::Allocator;
use std::hash::{BuildHasher, Hash};
use std::mem;

/// Puts the pair in the place of all of its key, if there are any, and returns their first value.
pub fn replace_if_present<K: Eq + Hash + Drop, V: Drop, S: BuildHasher, A: Allocator + Copy>(
    map: &mut ListOrderedMultimap<K, V, S, A>,
    key: K,
    value: V,
) -> Result<Option<V>, RefusedValue<V>>
    ensures present { is_present K.eq map.old.lists.pairs key ≡ true
        → OnOk result (map.new.lists ≡ inserted K.eq map.old.lists key value) }
    ensures absent { is_present K.eq map.old.lists.pairs key ≡ false
        → map.new.lists ≡ map.old.lists }
    ensures first { IfOk result (λ first.
        first ≡ slice_get (values_of K.eq map.old.lists.pairs key) 0) }
    ensures unchanged { OnErr result (map.new.lists ≡ map.old.lists) }
    ensures refused { IfErr result (λ r. r.value ≡ value) }
    ensures vacant { is_present K.eq map.old.lists.pairs key ≡ false → IsOk result }
{
    match map.entry(key) {
        Entry::Occupied(entry) => {
            let mut drain = entry.insert_all(value)?;
            Ok(drain.next())
        }
        Entry::Vacant(entry) => Ok(leave_absent(entry)),
    }
}

/// Writes the value in place of the first one of the key, if there is one, and returns that.
pub fn swap_first<K: Eq + Hash + Drop, V: Drop, S: BuildHasher, A: Allocator>(
    map: &mut ListOrderedMultimap<K, V, S, A>,
    key: K,
    value: V,
) -> Option<V>
    ensures lists { ChangesPresent K.eq map.old.lists map.new.lists key
        (first_written K.eq map.old.lists key value) }
    ensures first { result ≡ slice_get (values_of K.eq map.old.lists.pairs key) 0 }
{
    match map.entry(key) {
        Entry::Occupied(entry) => Some(mem::replace(entry.into_mut(), value)),
        Entry::Vacant(entry) => leave_absent(entry),
    }
}

/// Takes the key out, if it is present, and returns the stored key with its first value.
pub fn take_pair_out<K: Eq + Hash + Drop, V: Drop, S: BuildHasher, A: Allocator>(
    map: &mut ListOrderedMultimap<K, V, S, A>,
    key: K,
) -> Option<(K, V)>
    ensures lists { ChangesPresent K.eq map.old.lists map.new.lists key
        (removed K.eq map.old.lists key) }
    ensures pair { result ≡ option_map (λ v. (stored_key K.eq map.old.lists.keys key, v))
        (slice_get (values_of K.eq map.old.lists.pairs key) 0) }
{
    match map.entry(key) {
        Entry::Occupied(entry) => Some(entry.remove_entry()),
        Entry::Vacant(entry) => leave_absent(entry),
    }
}

/// Takes the key of the entry out with all its values, puts the stored key into the place that is
/// lent for it, and hands the values out. A proved caller learns nothing of the map where the
/// answer is a pair of the key and the drain, and where it is the drain alone all that is said.
pub fn remove_entry_with_all<'map, K, V, S, A>(
    entry: OccupiedEntry<'map, K, V, S, A>,
    stored: &mut Option<K>,
) -> EntryValuesDrain<'map, K, V, S, A>
where
    K: Eq + Hash + Drop,
    V: Drop,
    S: BuildHasher,
    A: Allocator,
    ensures key { (k : K) → IsOccupiedBy entry.entry k
        → stored.new ≡ Some (stored_key K.eq entry.entry.map.now.lists.keys k) }
    ensures drain { (k : K) → IsOccupiedBy entry.entry k
        → DrainsEntry K.eq entry.entry.map.now k result }
    ensures same_map { result.map.ghost_name ≡ entry.entry.map.ghost_name }
{
    let (key, drain) = entry.remove_entry_all();
    *stored = Some(key);
    drain
}

/// Takes the key out, if it is present, and returns the stored key with the number of its values.
pub fn take_key_out<K: Eq + Hash + Drop, V: Drop, S: BuildHasher, A: Allocator>(
    map: &mut ListOrderedMultimap<K, V, S, A>,
    key: K,
) -> Option<(K, usize)>
    ensures lists { ChangesPresent K.eq map.old.lists map.new.lists key
        (removed K.eq map.old.lists key) }
    ensures key { option_map (λ r. r.0) result
        ≡ option_map (λ _. stored_key K.eq map.old.lists.keys key)
        (slice_get (values_of K.eq map.old.lists.pairs key) 0) }
    ensures count { IfSome result (λ r. r.1 ≡ length (values_of K.eq map.old.lists.pairs key)) }
{
    match map.entry(key) {
        Entry::Occupied(entry) => {
            let mut stored = None;
            let count = remove_entry_with_all(entry, &mut stored).len();
            stored.map(|key| (key, count))
        }
        Entry::Vacant(entry) => leave_absent(entry),
    }
}

/// Puts the pair last if the key is absent, and returns how many values the key has then.
pub fn count_inserted<K: Eq + Hash + Drop, V: Drop, S: BuildHasher, A: Allocator + Copy>(
    map: &mut ListOrderedMultimap<K, V, S, A>,
    key: K,
    value: V,
) -> Result<usize, Refused<K, V>>
    ensures present { is_present K.eq map.old.lists.pairs key ≡ true
        → map.new.lists ≡ map.old.lists }
    ensures absent { is_present K.eq map.old.lists.pairs key ≡ false
        → OnOk result (map.new.lists ≡ appended K.eq map.old.lists key value) }
    ensures count { IfOk result (λ n. n ≡ length (values_of K.eq map.new.lists.pairs key)) }
    ensures unchanged { OnErr result (map.new.lists ≡ map.old.lists) }
    ensures occupied { is_present K.eq map.old.lists.pairs key ≡ true → IsOk result }
    ensures refused { IfErr result (λ pair. pair ≡ record { key = key; value = value }) }
{
    match map.entry(key) {
        Entry::Occupied(entry) => Ok(entry.len()),
        Entry::Vacant(entry) => {
            let entry = entry.insert_entry(value)?;
            Ok(entry.len())
        }
    }
}

/// Calls the function on the key's first value, if the key is present. Returns whether it is.
pub fn modify_by<K, V, S, A, F>(
    map: &mut ListOrderedMultimap<K, V, S, A>,
    key: K,
    change: F,
) -> bool
where
    K: Eq + Hash + Drop,
    V: Drop,
    S: BuildHasher,
    A: Allocator,
    F: FnOnce(&mut V),
    requires { F.IsAlwaysCallable change }
    ensures present { is_present K.eq map.old.lists.pairs key ≡ true
        → (was : V) × (left : V) × MayWrite F.FnOnce change was left
        × (slice_get (values_of K.eq map.old.lists.pairs key) 0 ≡ Some was)
        × (map.new.lists ≡ first_written K.eq map.old.lists key left) }
    ensures absent { is_present K.eq map.old.lists.pairs key ≡ false
        → map.new.lists ≡ map.old.lists }
    ensures answer { result ≡ is_present K.eq map.old.lists.pairs key }
{
    match map.entry(key).and_modify(change) {
        Entry::Occupied(_entry) => true,
        Entry::Vacant(entry) => {
            drop(entry.into_key());
            false
        }
    }
}

/// The key's first value, which is what the function returns where the key is absent.
pub fn first_or_made<K, V, S, A, F>(
    map: &mut ListOrderedMultimap<K, V, S, A>,
    key: K,
    make: F,
) -> Result<V, Refused<K, V>>
where
    K: Eq + Hash + Drop,
    V: Copy,
    S: BuildHasher,
    A: Allocator + Copy,
    F: FnOnce() -> V,
    requires { is_present K.eq map.old.lists.pairs key ≡ false → F.pre make }
    ensures present { is_present K.eq map.old.lists.pairs key ≡ true
        → map.new.lists ≡ map.old.lists }
    ensures absent { is_present K.eq map.old.lists.pairs key ≡ false
        → IfOk result (λ v. map.new.lists ≡ appended K.eq map.old.lists key v) }
    ensures first { IfOk result (λ v.
        UnwrapsOrElse (slice_get (values_of K.eq map.old.lists.pairs key) 0) (F.post make) v) }
    ensures unchanged { OnErr result (map.new.lists ≡ map.old.lists) }
    ensures occupied { is_present K.eq map.old.lists.pairs key ≡ true → IsOk result }
    ensures refused { IfErr result (λ pair. (pair.key ≡ key) × F.post make pair.value) }
{
    let first = map.entry(key).or_insert_with(make)?;
    Ok(*first)
}

/// Puts the pair with what is returned last if the key is absent, and counts its values then.
pub fn count_made<K, V, S, A, F>(
    map: &mut ListOrderedMultimap<K, V, S, A>,
    key: K,
    make: F,
) -> Result<usize, Refused<K, V>>
where
    K: Eq + Hash + Drop,
    V: Drop,
    S: BuildHasher,
    A: Allocator + Copy,
    F: FnOnce() -> V,
    requires { is_present K.eq map.old.lists.pairs key ≡ false → F.pre make }
    ensures present { is_present K.eq map.old.lists.pairs key ≡ true
        → map.new.lists ≡ map.old.lists }
    ensures absent { is_present K.eq map.old.lists.pairs key ≡ false
        → OnOk result ((v : V) × F.post make v
        × (map.new.lists ≡ appended K.eq map.old.lists key v)) }
    ensures count { IfOk result (λ n. n ≡ length (values_of K.eq map.new.lists.pairs key)) }
    ensures unchanged { OnErr result (map.new.lists ≡ map.old.lists) }
    ensures occupied { is_present K.eq map.old.lists.pairs key ≡ true → IsOk result }
    ensures refused { IfErr result (λ pair. (pair.key ≡ key) × F.post make pair.value) }
{
    let entry = map.entry(key).or_insert_with_entry(make)?;
    Ok(entry.len())
}

/// The key's first value, which is what the function returns where the key is absent, if it doesn't
/// fail.
pub fn first_or_tried<K, V, S, A, F, E>(
    map: &mut ListOrderedMultimap<K, V, S, A>,
    key: K,
    make: F,
) -> Result<V, OrInsertFault<K, V, E>>
where
    K: Eq + Hash + Drop,
    V: Copy,
    S: BuildHasher,
    A: Allocator + Copy,
    F: FnOnce() -> Result<V, E>,
    requires { is_present K.eq map.old.lists.pairs key ≡ false → F.pre make }
    ensures present { is_present K.eq map.old.lists.pairs key ≡ true
        → map.new.lists ≡ map.old.lists }
    ensures absent { is_present K.eq map.old.lists.pairs key ≡ false
        → IfOk result (λ v. map.new.lists ≡ appended K.eq map.old.lists key v) }
    ensures unchanged { OnErr result (map.new.lists ≡ map.old.lists) }
    ensures occupied { is_present K.eq map.old.lists.pairs key ≡ true → IsOk result }
{
    let first = map.entry(key).or_try_insert_with(make)?;
    Ok(*first)
}

/// Appends all values of another map under the entry's key, and returns how many they are.
pub fn append_values_to<K, V, S, A>(
    entry: &mut OccupiedEntry<'_, K, V, S, A>,
    other: ListOrderedMultimap<K, V, S, A>,
) -> Result<usize, RefusedValue<V>>
where
    K: Eq + Hash + Drop,
    V: Drop,
    S: BuildHasher + Drop,
    A: Allocator + Copy,
    ensures lists { (k : K) → IsOccupiedBy entry.old k → OnOk result (entry.new.map.now.lists
        ≡ all_appended K.eq entry.old.map.now.lists
        (under_key k (all_values other.lists.pairs))) }
    ensures count { IfOk result (λ n. n ≡ length (all_values other.lists.pairs)) }
{
    entry.append_many(other.into_values())
}
