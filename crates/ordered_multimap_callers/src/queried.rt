//! Callers with queries, and of one value of a key, proved for every key, value and query: each
//! says what it found, or what the map is afterwards, of the keys that the query stands for.
ghost use Rattle.std.specs.Prelude.{◌≡◌, find, slice_get, ◌&&◌, IfOk, filter, not};
ghost use Rattle.std.specs.Str.{bytes_eq};
ghost use Rattle.std.specs.String.{string_bytes};
ghost use Rattle.ordered_multimap.specs.Changes.{first_written_where, removed_where, kept};
ghost use Rattle.ordered_multimap.specs.Pairs.{values_of, values_where};
ghost use Rattle.std.specs.List.{list_any};
ghost use Rattle.ordered_multimap.specs.OneValue.{first_removed, index_removed, only_written};
ghost use Rattle.ordered_multimap.specs.Sets.{SetsValue};
ghost use Rattle.ordered_multimap.specs.Walk.{end_item};
ghost use Rattle.ordered_multimap.specs.End.TheVariants.{Back};
ghost use Rattle.ordered_multimap_callers.specs.Present.{ChangesPresent};

use crate::entered::leave_absent;
use ordered_multimap::list_ordered_multimap::{Entry, Refused};
use ordered_multimap::{KeyByPart, KeyQuery, ListOrderedMultimap, Part};
use std::alloc::Allocator;
use std::hash::{BuildHasher, Hash};
use std::mem;

/// The first value of a key, looked up by a reference to an equal one.
pub fn first_of<K: Eq + Hash, V: Copy, S: BuildHasher, A: Allocator>(
    map: &ListOrderedMultimap<K, V, S, A>,
    key: &K,
) -> Option<V>
    ensures { result ≡ slice_get (values_of K.eq map.now.lists.pairs key.now) 0 }
{
    map.get(key).copied()
}

/// The first value of the key that a query stands for.
pub fn first_by<K: Eq + Hash, V: Copy, Q: KeyQuery<K>, S: BuildHasher, A: Allocator>(
    map: &ListOrderedMultimap<K, V, S, A>,
    query: Q,
) -> Option<V>
    ensures { result ≡ slice_get (values_where (Q.equivalent query) map.now.lists.pairs) 0 }
{
    map.get(query).copied()
}

/// The first value of the text with the bytes of a name.
pub fn first_of_text<V: Copy, S: BuildHasher, A: Allocator, B: Allocator>(
    map: &ListOrderedMultimap<String<B>, V, S, A>,
    name: &str,
) -> Option<V>
    ensures { result ≡ slice_get
        (values_where (λ k. bytes_eq name.now (string_bytes k)) map.now.lists.pairs) 0 }
{
    map.get(name).copied()
}

/// The first value of the key for whose part a query stands.
pub fn first_by_part<K: KeyByPart, V: Copy, Q: KeyQuery<K::Part>, S: BuildHasher, A: Allocator>(
    map: &ListOrderedMultimap<K, V, S, A>,
    query: Q,
) -> Option<V>
    ensures { result ≡ slice_get
        (values_where (λ k. Q.equivalent query (K.part_of k)) map.now.lists.pairs) 0 }
{
    map.get(Part(query)).copied()
}

/// Takes out the key that a query stands for, with all its values, and returns it.
pub fn take_key_by<K: Eq + Hash + Drop, V: Drop, Q: KeyQuery<K>, S: BuildHasher, A: Allocator>(
    map: &mut ListOrderedMultimap<K, V, S, A>,
    query: Q,
) -> Option<K>
    ensures lists { map.new.lists ≡ removed_where K.eq (Q.equivalent query) map.old.lists }
    ensures key { result ≡ find (Q.equivalent query) map.old.lists.keys }
{
    let mut stored = None;
    drop(map.remove_entry_with_all(query, &mut stored));
    stored
}

/// Takes out the key that a query stands for, with all its values, and returns the first of these.
pub fn take_first_by<K: Eq + Hash + Drop, V: Drop, Q: KeyQuery<K>, S: BuildHasher, A: Allocator>(
    map: &mut ListOrderedMultimap<K, V, S, A>,
    query: Q,
) -> Option<V>
    ensures lists { map.new.lists ≡ removed_where K.eq (Q.equivalent query) map.old.lists }
    ensures value { result ≡ slice_get (values_where (Q.equivalent query) map.old.lists.pairs) 0 }
{
    map.remove(query)
}

/// Sets the first value of the key that a query stands for, and returns the old one.
pub fn set_first_by<K: Eq + Hash, V: Drop, Q: KeyQuery<K>, S: BuildHasher, A: Allocator>(
    map: &mut ListOrderedMultimap<K, V, S, A>,
    query: Q,
    value: V,
) -> Option<V>
    ensures lists { map.new.lists ≡ first_written_where (Q.equivalent query) map.old.lists value }
    ensures value { result ≡ slice_get (values_where (Q.equivalent query) map.old.lists.pairs) 0 }
{
    match map.get_mut(query) {
        Some(first) => Some(mem::replace(first, value)),
        None => None,
    }
}

/// The last value of the key that a query stands for.
pub fn last_by<K: Eq + Hash, V: Copy, Q: KeyQuery<K>, S: BuildHasher, A: Allocator>(
    map: &ListOrderedMultimap<K, V, S, A>,
    query: Q,
) -> Option<V>
    ensures { result ≡ end_item Back (values_where (Q.equivalent query) map.now.lists.pairs) }
{
    map.get_last(query).copied()
}

/// The stored key that a query stands for.
pub fn stored_by<K: Eq + Hash + Copy, V, Q: KeyQuery<K>, S: BuildHasher, A: Allocator>(
    map: &ListOrderedMultimap<K, V, S, A>,
    query: Q,
) -> Option<K>
    ensures { result ≡ find (Q.equivalent query) map.now.lists.keys }
{
    match map.get_key_value(query) {
        Some((key, _)) => Some(*key),
        None => None,
    }
}

/// Takes a value out if the key that a query stands for has it, and returns whether it was there.
pub fn take_if_there<
    K: Eq + Hash + Drop,
    V: Eq + Drop,
    Q: KeyQuery<K>,
    S: BuildHasher,
    A: Allocator,
>(map: &mut ListOrderedMultimap<K, V, S, A>, query: Q, value: &V) -> bool
    ensures there { result ≡ list_any (V.eq value.now)
        (values_where (Q.equivalent query) map.old.lists.pairs) }
    ensures lists { map.new.lists
        ≡ first_removed K.eq (Q.equivalent query) (V.eq value.now) map.old.lists }
{
    let there = map.contains(query, value);
    drop(map.remove_value(query, value));
    there
}

/// Takes the second value of the key that a query stands for out, and returns it.
pub fn take_second_by<K: Eq + Hash + Drop, V, Q: KeyQuery<K>, S: BuildHasher, A: Allocator>(
    map: &mut ListOrderedMultimap<K, V, S, A>,
    query: Q,
) -> Option<V>
    ensures lists { map.new.lists ≡ index_removed K.eq (Q.equivalent query) map.old.lists 1 }
    ensures value { result ≡ slice_get (values_where (Q.equivalent query) map.old.lists.pairs) 1 }
{
    map.remove_index(query, 1)
}

/// Sets the value of a key, and returns the first of the old ones.
pub fn set_value<K: Eq + Hash + Drop, V: Drop, S: BuildHasher, A: Allocator + Copy>(
    map: &mut ListOrderedMultimap<K, V, S, A>,
    key: K,
    value: V,
) -> Result<Option<V>, Refused<K, V>>
    ensures set { IfOk result (SetsValue K.eq key value map.old map.new) }
    ensures first { IfOk result (λ first. first
        ≡ slice_get (values_of K.eq map.old.lists.pairs key) 0) }
{
    map.set(key, value)
}

/// Takes all values out of the key that a query stands for that are equal to one.
pub fn take_equal_by<
    K: Eq + Hash + Drop,
    V: Eq + Drop,
    Q: KeyQuery<K>,
    S: BuildHasher,
    A: Allocator,
>(map: &mut ListOrderedMultimap<K, V, S, A>, query: Q, value: &V)
    ensures { map.new.lists ≡ kept K.eq map.old.lists
        (filter (λ p. not (Q.equivalent query p.0 && V.eq value.now p.1)) map.old.lists.pairs) }
{
    map.retain_all(query, |other| *value != *other);
}

/// Sets the value of a key by its entry, if the key is present, and returns the first old one.
pub fn set_if_present<K: Eq + Hash + Drop, V: Drop, S: BuildHasher, A: Allocator>(
    map: &mut ListOrderedMultimap<K, V, S, A>,
    key: K,
    value: V,
) -> Option<V>
    ensures first { result ≡ slice_get (values_of K.eq map.old.lists.pairs key) 0 }
    ensures lists { ChangesPresent K.eq map.old.lists map.new.lists key
        (only_written (K.eq key) map.old.lists value) }
{
    match map.entry(key) {
        Entry::Occupied(mut entry) => Some(entry.set(value)),
        Entry::Vacant(entry) => leave_absent(entry),
    }
}
