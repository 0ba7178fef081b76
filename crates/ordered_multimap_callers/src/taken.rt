//! Callers that own a map and take its keys or its values out, and callers of `allocator` and of
//! `or_default`, proved for every key and value type.
ghost use Rattle.std.specs.Prelude.{◌≡◌, ◌++◌, true, false, length, option_map, slice_get};
ghost use Rattle.std.specs.Prelude.{IfErr, IfNone, IfOk, IfSome, IsOk, OnErr, OnOk};
ghost use Rattle.std.specs.Option.{UnwrapsOrElse};
ghost use Rattle.ordered_multimap.specs.AppendMany.{under_key};
ghost use Rattle.ordered_multimap.specs.Changes.{all_appended, appended, removed};
ghost use Rattle.ordered_multimap.specs.Pairs.{all_values, is_present, values_of};
ghost use Rattle.ordered_multimap.specs.End.TheVariants.{Front, Back};
ghost use Rattle.ordered_multimap.specs.Rooms.{IsNewMap};
ghost use Rattle.ordered_multimap.specs.Walk.{end_item, end_rest};

use ordered_multimap::ListOrderedMultimap;
use ordered_multimap::list_ordered_multimap::{IntoKeys, IntoValues, Refused};
use std::alloc::{AllocError, Allocator};
use std::default::MadeWith;
use std::hash::{BuildHasher, Hash};

/// Moves the keys of a map into a vector by the map's allocator, in order, and drops the values.
pub fn keys_of<K: Eq + Hash + Drop, V: Drop, S: BuildHasher + Drop, A: Allocator + Copy>(
    map: ListOrderedMultimap<K, V, S, A>,
) -> Result<Vec<K, A>, AllocError>
    ensures keys { IfOk result (λ keys. keys.items ≡ map.lists.keys) }
{
    let alloc = *map.allocator();
    map.into_keys().collect(alloc)
}

/// Moves the values of a map into a vector by the map's allocator, in order, and drops the keys.
pub fn values_in_order<K, V, S, A>(
    map: ListOrderedMultimap<K, V, S, A>,
) -> Result<Vec<V, A>, AllocError>
where
    K: Eq + Hash + Drop,
    V: Drop,
    S: BuildHasher + Drop,
    A: Allocator + Copy,
    ensures values { IfOk result (λ values. values.items ≡ all_values map.lists.pairs) }
{
    let alloc = *map.allocator();
    map.into_values().collect(alloc)
}

/// The first key of a map and the last of the others.
pub fn keys_at_ends<K: Eq + Hash + Drop, V: Drop, S: BuildHasher + Drop, A: Allocator>(
    map: ListOrderedMultimap<K, V, S, A>,
) -> (Option<K>, Option<K>)
    ensures first { result.0 ≡ end_item Front map.lists.keys }
    ensures last { result.1 ≡ end_item Back (end_rest Front map.lists.keys) }
{
    let mut keys = map.into_keys();
    let first = keys.next();
    let last = keys.next_back();
    (first, last)
}

/// The last value of a map, and the first of the others.
pub fn values_at_ends<K: Eq + Hash + Drop, V: Drop, S: BuildHasher + Drop, A: Allocator>(
    map: ListOrderedMultimap<K, V, S, A>,
) -> (Option<V>, Option<V>)
    ensures last { result.0 ≡ end_item Back (all_values map.lists.pairs) }
    ensures first { result.1 ≡ end_item Front (end_rest Back (all_values map.lists.pairs)) }
{
    let mut values = map.into_values();
    let last = values.next_back();
    let first = values.next();
    (last, first)
}

/// Appends all values of another map under the key, in their order, and returns how many they are.
pub fn append_values_of<K, V, S, A>(
    map: &mut ListOrderedMultimap<K, V, S, A>,
    key: K,
    other: ListOrderedMultimap<K, V, S, A>,
) -> Result<usize, Refused<Option<K>, V>>
where
    K: Eq + Hash + Drop,
    V: Drop,
    S: BuildHasher + Drop,
    A: Allocator + Copy,
    ensures lists { OnOk result (map.new.lists ≡ all_appended K.eq map.old.lists
        (under_key key (all_values other.lists.pairs))) }
    ensures count { IfOk result (λ n. n ≡ length (all_values other.lists.pairs)) }
{
    map.append_many(key, other.into_values())
}

/// Takes the first key of a map out, and returns it with the number of its values.
pub fn take_first_key<K: Eq + Hash + Drop, V: Drop, S: BuildHasher, A: Allocator>(
    map: &mut ListOrderedMultimap<K, V, S, A>,
) -> Option<(K, usize)>
    ensures key { option_map (λ r. r.0) result ≡ end_item Front map.old.lists.keys }
    ensures count { IfSome result (λ r. r.1 ≡ length (values_of K.eq map.old.lists.pairs r.0)) }
    ensures lists { IfSome result (λ r. map.new.lists ≡ removed K.eq map.old.lists r.0) }
    ensures unchanged { IfNone result (map.new.lists ≡ map.old.lists) }
{
    let mut stored = None;
    let count = map.pop_front_key_with_all(&mut stored).len();
    stored.map(|key| (key, count))
}

/// An empty map with the allocator of another one, and its type of hash builder.
pub fn empty_like<K: Eq + Hash, V, S: BuildHasher, A: Allocator + Copy>(
    map: &ListOrderedMultimap<K, V, S, A>,
    state: S,
) -> ListOrderedMultimap<K, V, S, A>
    ensures empty { IsNewMap result }
    ensures hasher { result.hasher ≡ state }
{
    ListOrderedMultimap::with_hasher(*map.allocator(), state)
}

/// The key's first value, where it is absent after the pair with a default value was put last.
pub fn first_or_default<K, V, S, A>(
    map: &mut ListOrderedMultimap<K, V, S, A>,
    key: K,
) -> Result<V, Refused<K, V>>
where
    K: Eq + Hash + Drop,
    V: Copy + MadeWith<A>,
    S: BuildHasher,
    A: Allocator + Copy,
    ensures present { is_present K.eq map.old.lists.pairs key ≡ true
        → map.new.lists ≡ map.old.lists }
    ensures absent { is_present K.eq map.old.lists.pairs key ≡ false
        → IfOk result (λ v. map.new.lists ≡ appended K.eq map.old.lists key v) }
    ensures first { IfOk result (λ v.
        UnwrapsOrElse (slice_get (values_of K.eq map.old.lists.pairs key) 0) V.is_made_with v) }
    ensures unchanged { OnErr result (map.new.lists ≡ map.old.lists) }
    ensures occupied { is_present K.eq map.old.lists.pairs key ≡ true → IsOk result }
    ensures refused { IfErr result (λ pair. (pair.key ≡ key) × V.is_made_with pair.value) }
{
    let first = map.entry(key).or_default()?;
    Ok(*first)
}
