//! Keys in an `Option`, a pair or a triple, looked up by queries that are made so. GUIDE's examples
//! have texts in them.
use ordered_multimap::{KeyQuery, ListOrderedMultimap};
use ordered_multimap_callers::maps::test_on_empty;
use std::hash::Hash;
use test_helpers::{Failed, Test};

// Whether the key has this value, and no other.
fn has<K: Eq + Hash, Q: KeyQuery<K>>(
    map: &ListOrderedMultimap<K, u32>,
    query: Q,
    value: u32,
) -> bool {
    map.get(query).copied() == Some(value) && map.entry_len(query) == 1
}

fn options_are_found(test: &Test, map: &mut ListOrderedMultimap<Option<u32>, u32>) {
    test.expect(map.append(Some(5), 1).is_ok() && map.append(None, 2).is_ok());
    test.expect(has(map, Some(&5), 1) && has(map, None::<&u32>, 2));
    test.expect(!map.contains_key(Some(&6)));
    test.expect(map.remove(None::<&u32>) == Some(2));
    test.expect(!map.contains_key(None::<&u32>));
}

fn pairs_are_found(test: &Test, map: &mut ListOrderedMultimap<(Option<u32>, u32), u32>) {
    test.expect(map.append((Some(5), 7), 1).is_ok() && map.append((None, 7), 2).is_ok());
    test.expect(has(map, (Some(&5), &7), 1) && has(map, (None::<&u32>, &7), 2));
    test.expect(!map.contains_key((Some(&5), &8)));
    test.expect(!map.contains_key((Some(&6), &7)));
}

fn triples_are_found(test: &Test, map: &mut ListOrderedMultimap<(u32, u32, u32), u32>) {
    test.expect(map.append((1, 5, 7), 1).is_ok());
    test.expect(has(map, (&1, &5, &7), 1));
    test.expect(!map.contains_key((&2, &5, &7)));
    test.expect(!map.contains_key((&1, &6, &7)));
    test.expect(!map.contains_key((&1, &5, &8)));
}

#[test]
fn joined_keys_are_found_by_joined_queries(rt: HostRuntime) -> Result<(), Failed> {
    test_on_empty(rt.alloc(), options_are_found)?;
    test_on_empty(rt.alloc(), pairs_are_found)?;
    test_on_empty(rt.alloc(), triples_are_found)
}
