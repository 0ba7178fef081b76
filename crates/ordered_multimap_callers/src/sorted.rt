//! Callers that sort, rename or bring forward keys, proved for every key and value type.
ghost use Rattle.std.specs.Prelude.{◌≡◌, OnOk, IsSorted, ◌&&◌, false, find, not, true};
ghost use Rattle.ordered_multimap.specs.Pairs.{values_of};
ghost use Rattle.ordered_multimap_callers.specs.Totals.{DescendByTotals, total};
ghost use Rattle.std.specs.List.{list_any};
ghost use Rattle.ordered_multimap.specs.KeyMoves.{moved_to_front_where};
ghost use Rattle.ordered_multimap.specs.Renames.{is_taken, renamed_where};

use ordered_multimap::list_ordered_multimap::EntryValues;
use ordered_multimap::{KeyQuery, ListOrderedMultimap};
use std::alloc::{AllocError, Allocator};
use std::cmp::{Ordering, Reverse};
use std::hash::{BuildHasher, Hash};

/// Sorts the keys, the greatest first. Each key keeps its values.
pub fn sort_descending<K: Ord + Hash, V, S: BuildHasher, A: Allocator + Copy>(
    map: &mut ListOrderedMultimap<K, V, S, A>,
) -> Result<(), AllocError>
    ensures sorted { OnOk result (IsSorted (λ j k. K.cmp k j) map.new.lists.keys) }
    ensures values { (k : K) → values_of K.eq map.new.lists.pairs k
        ≡ values_of K.eq map.old.lists.pairs k }
{
    map.sort_keys_by(
        |a: &K, b: &K| -> Ordering
            ensures { result ≡ K.cmp b.now a.now }
        { b.cmp(a) },
    )
}

/// The sum of the values, or the largest `u64` where that is less.
fn total_of<K>(values: EntryValues<'_, K, u64>) -> u64
    ensures { result ≡ total values.entry.left }
{
    let mut sum = 0u64;
    for value in values {
        sum = sum.saturating_add(*value);
    }
    sum
}

/// Sorts the keys by the totals of their values, the greatest first. Each key keeps its values.
pub fn sort_by_totals<K: Eq + Hash, S: BuildHasher>(
    map: &mut ListOrderedMultimap<K, u64, S>,
) -> Result<(), AllocError>
    ensures sorted { OnOk result (DescendByTotals K.eq map.new.lists) }
    ensures values { (k : K) → values_of K.eq map.new.lists.pairs k
        ≡ values_of K.eq map.old.lists.pairs k }
{
    map.sort_keys_by_cached_key(
        |_key: &K, values: EntryValues<'_, K, u64>| -> Reverse<u64>
            ensures { result.0 ≡ total values.entry.left }
        { Reverse(total_of(values)) },
    )
}

/// Renames the key that a query stands for, and returns whether it did.
pub fn rename_by<K: Eq + Hash + Drop, V, Q: KeyQuery<K>, S: BuildHasher, A: Allocator>(
    map: &mut ListOrderedMultimap<K, V, S, A>,
    query: Q,
    new_key: K,
) -> bool
    ensures renamed { result ≡ true
        → map.new.lists ≡ renamed_where (Q.equivalent query) new_key map.old.lists }
    ensures refused { result ≡ false → map.new ≡ map.old }
    ensures done { result ≡ (list_any (Q.equivalent query) map.old.lists.keys
        && not (is_taken K.eq (Q.equivalent query) new_key map.old.lists.keys)) }
{
    match map.rename_key(query, new_key) {
        Ok(old) => {
            drop(old);
            true
        }
        Err(fault) => {
            drop(fault.into_key());
            false
        }
    }
}

/// Brings the key that a query stands for to the front, and returns it as the first key then.
pub fn bring_to_front<K: Eq + Hash + Copy, V, Q: KeyQuery<K>, S: BuildHasher, A: Allocator>(
    map: &mut ListOrderedMultimap<K, V, S, A>,
    query: Q,
) -> Option<K>
    ensures lists { map.new.lists ≡ moved_to_front_where (Q.equivalent query) map.old.lists }
    ensures first { result ≡ find (Q.equivalent query) map.old.lists.keys }
{
    // It tells the proof that each key has a pair.
    let _len = map.keys_len();
    if map.move_key_to_front(query) {
        map.keys().next().copied()
    } else {
        None
    }
}
