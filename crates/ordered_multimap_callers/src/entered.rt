//! Callers of entries that are proved for every key type: each knows what the map is afterwards.
ghost use Rattle.std.specs.Prelude.{◌≡◌, true, false, length, slice_get, None, Some, IfNone, IfOk, IfSome, OnSome, OnErr, OnOk};
ghost use Rattle.ordered_multimap.specs.Changes.{appended, first_written, inserted, removed};
ghost use Rattle.ordered_multimap.specs.Pairs.{is_present, values_of};
ghost use Rattle.ordered_multimap.specs.RemovedAt.{removed_at, removable_value_at};
ghost use Rattle.ordered_multimap_callers.specs.Present.{ChangesPresent};

use ordered_multimap::ListOrderedMultimap;
use ordered_multimap::list_ordered_multimap::{Entry, Refused, VacantEntry};
use std::alloc::{AllocError, Allocator};
use std::hash::{BuildHasher, Hash};

/// Ends the entry of an absent key, so that a proved caller knows that the map is as it was, and
/// returns none.
pub(crate) fn leave_absent<K: Eq + Hash + Drop, V, S: BuildHasher, A: Allocator, T>(
    entry: VacantEntry<'_, K, V, S, A>,
) -> Option<T>
    ensures none { result ≡ None }
    ensures unchanged { entry.exit.0.now ≡ entry.entry.map.now }
{
    drop(entry.into_key());
    None
}

/// Writes the value in place of the first one of the key, or puts it last.
pub fn set_or_append<K: Eq + Hash + Drop, V: Copy, S: BuildHasher, A: Allocator + Copy>(
    map: &mut ListOrderedMultimap<K, V, S, A>,
    key: K,
    value: V,
) -> Result<(), Refused<K, V>>
    ensures present { OnOk result (is_present K.eq map.old.lists.pairs key ≡ true
        → map.new.lists ≡ first_written K.eq map.old.lists key value) }
    ensures absent { OnOk result (is_present K.eq map.old.lists.pairs key ≡ false
        → map.new.lists ≡ appended K.eq map.old.lists key value) }
    ensures unchanged { OnErr result (map.new.lists ≡ map.old.lists) }
{
    let first = map.entry(key).or_insert(value)?;
    *first = value;
    Ok(())
}

/// Takes the key out by its entry, if it is present, and returns its first value.
pub fn take_out<K: Eq + Hash + Drop, V: Drop, S: BuildHasher, A: Allocator>(
    map: &mut ListOrderedMultimap<K, V, S, A>,
    key: K,
) -> Option<V>
    ensures present { OnSome result (map.new.lists ≡ removed K.eq map.old.lists key) }
    ensures value { IfSome result (λ v.
        slice_get (values_of K.eq map.old.lists.pairs key) 0 ≡ Some v) }
    ensures absent { IfNone result (map.new.lists ≡ map.old.lists) }
{
    match map.entry(key) {
        Entry::Occupied(entry) => Some(entry.remove()),
        Entry::Vacant(entry) => leave_absent(entry),
    }
}

/// Takes the value at an index among the key's values out, if the key has others, and returns it.
pub fn take_value_out<K: Eq + Hash + Drop, V: Drop, S: BuildHasher, A: Allocator>(
    map: &mut ListOrderedMultimap<K, V, S, A>,
    key: K,
    index: usize,
) -> Option<V>
    ensures lists { ChangesPresent K.eq map.old.lists map.new.lists key
        (removed_at K.eq map.old.lists key index) }
    ensures value { result ≡ removable_value_at K.eq map.old.lists.pairs key index }
{
    match map.entry(key) {
        Entry::Occupied(mut entry) => entry.remove_at(index),
        Entry::Vacant(entry) => leave_absent(entry),
    }
}

/// Takes the key out by its entry, if it is present, and reads the last of its values alone.
pub fn take_last_out<K: Eq + Hash + Drop, V: Drop, S: BuildHasher, A: Allocator>(
    map: &mut ListOrderedMultimap<K, V, S, A>,
    key: K,
) -> Option<V>
    ensures lists { ChangesPresent K.eq map.old.lists map.new.lists key
        (removed K.eq map.old.lists key) }
{
    match map.entry(key) {
        Entry::Occupied(entry) => {
            let mut drain = entry.remove_all();
            drain.next_back()
        }
        Entry::Vacant(entry) => leave_absent(entry),
    }
}

/// Puts the pair last if the key is absent, and returns how many values the key has then.
pub fn count_entered<K: Eq + Hash + Drop, V: Drop, S: BuildHasher, A: Allocator + Copy>(
    map: &mut ListOrderedMultimap<K, V, S, A>,
    key: K,
    value: V,
) -> Result<usize, Refused<K, V>>
    ensures present { OnOk result (is_present K.eq map.old.lists.pairs key ≡ true
        → map.new.lists ≡ map.old.lists) }
    ensures absent { OnOk result (is_present K.eq map.old.lists.pairs key ≡ false
        → map.new.lists ≡ appended K.eq map.old.lists key value) }
    ensures count { IfOk result (λ n. n ≡ length (values_of K.eq map.new.lists.pairs key)) }
    ensures unchanged { OnErr result (map.new.lists ≡ map.old.lists) }
{
    let entry = map.entry(key).or_insert_entry(value)?;
    Ok(entry.len())
}

/// Puts a pair of the key last by its entry, whether or not the key is present.
pub fn append_by_entry<K: Eq + Hash + Drop, V: Drop, S: BuildHasher, A: Allocator + Copy>(
    map: &mut ListOrderedMultimap<K, V, S, A>,
    key: K,
    value: V,
) -> Result<(), AllocError>
    ensures ok { OnOk result (map.new.lists ≡ appended K.eq map.old.lists key value) }
    ensures unchanged { OnErr result (map.new.lists ≡ map.old.lists) }
{
    match map.entry(key) {
        Entry::Occupied(mut entry) => Ok(entry.append(value)?),
        Entry::Vacant(entry) => {
            entry.insert(value)?;
            Ok(())
        }
    }
}

/// Writes the value in place of the first one of the key, if the key is present.
pub fn set_if_present<K: Eq + Hash + Drop, V: Drop, S: BuildHasher, A: Allocator>(
    map: &mut ListOrderedMultimap<K, V, S, A>,
    key: K,
    value: V,
)
    ensures lists { ChangesPresent K.eq map.old.lists map.new.lists key
        (first_written K.eq map.old.lists key value) }
{
    match map.entry(key) {
        Entry::Occupied(mut entry) => *entry.get_mut() = value,
        Entry::Vacant(entry) => drop(entry.into_key()),
    }
}

/// Puts the pair in the place of all others of its key, or last, and returns the first old value.
pub fn replace_or_append<K: Eq + Hash + Drop, V: Drop, S: BuildHasher, A: Allocator + Copy>(
    map: &mut ListOrderedMultimap<K, V, S, A>,
    key: K,
    value: V,
) -> Result<Option<V>, Refused<K, V>>
    ensures present { is_present K.eq map.old.lists.pairs key ≡ true
        → OnOk result (map.new.lists ≡ inserted K.eq map.old.lists key value) }
    ensures absent { is_present K.eq map.old.lists.pairs key ≡ false
        → OnOk result (map.new.lists ≡ appended K.eq map.old.lists key value) }
    ensures unchanged { OnErr result (map.new.lists ≡ map.old.lists) }
{
    match map.entry(key) {
        Entry::Occupied(mut entry) => Ok(Some(entry.insert(value))),
        Entry::Vacant(entry) => {
            entry.insert(value)?;
            Ok(None)
        }
    }
}
