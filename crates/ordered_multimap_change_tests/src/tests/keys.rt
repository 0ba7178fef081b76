//! Keys that are sorted, moved and renamed, by any hash builder; `map_calls` has more rows.
use ordered_multimap::RenameFault;
use ordered_multimap_callers::maps::{
    MapBy, Numbers, appends, collided, has_lists, refill, test_on_empty,
};
use ordered_multimap_callers::sorted::sort_descending;
use std::hash::BuildHasher;
use test_helpers::{B, F, Failed, Test, test_on_new, walk_difference};

// Pairs of which two keys have two values each.
const PAIRS: &[(u32, u32)] = &[(5, 1), (3, 2), (1, 3), (5, 4), (2, 5), (3, 6)];

// Each key with its first and its last value.
const CHAINS: &[(u32, u32, u32)] = &[(5, 1, 4), (3, 2, 6), (1, 3, 3), (2, 5, 5)];

// Both lists, and the values of each key, from the front and from the back.
fn is_sorted(test: &Test, map: &Numbers, keys: &[u32]) {
    test.expect(has_lists(map, PAIRS, keys));
    for (row, (key, first, last)) in CHAINS.iter().enumerate() {
        test.expect_at(row, map.get(key) == Some(first));
        test.expect_at(row, map.get_last(key) == Some(last));
    }
    let both = [(B, 6), (F, 2)];
    test.expect_same(walk_difference(&mut map.get_all(&3), &both));
}

// By the number of values 1 and 2 have one each, and 5 and 3 have two.
fn sort_keys(test: &Test, map: &mut Numbers) {
    let sorted = map.sort_keys_by_cached_key(|_key, values| values.len());
    test.expect(sorted.is_ok());
    is_sorted(test, map, &[1, 2, 5, 3]);
    test.expect(sort_descending(map).is_ok());
    is_sorted(test, map, &[5, 3, 2, 1]);
    test.expect(map.sort_keys().is_ok());
    is_sorted(test, map, &[1, 2, 3, 5]);
}

// A new key goes last then, and one that was removed and comes again, too.
fn sort_and_change(test: &Test, map: &mut Numbers) {
    refill(test, map, PAIRS);
    sort_keys(test, map);
    test.expect(map.remove(&1) == Some(3));
    test.expect(appends(map, 4, 7, false) && appends(map, 1, 8, false));
    let pairs = [(5, 1), (3, 2), (5, 4), (2, 5), (3, 6), (4, 7), (1, 8)];
    test.expect(has_lists(map, &pairs, &[2, 3, 5, 4, 1]));
}

#[test]
fn keys_are_sorted(rt: HostRuntime) -> Result<(), Failed> {
    test_on_empty(rt.alloc(), sort_and_change)
}

const THREE: &[(u32, u32)] = &[(1, 11), (2, 12), (1, 13), (3, 14)];

// The pairs once the key 1 is the key 5.
const RENAMED: &[(u32, u32)] = &[(5, 11), (2, 12), (5, 13), (3, 14)];

// Each key's values, from the front and from the back: the key 1 of the pairs has these two.
fn has_both<S: BuildHasher>(map: &MapBy<S>, key: u32) -> bool {
    map.get_all(&key).eq(&[11, 13]) && map.get_all(&key).rev().eq(&[13, 11])
}

// The keys are found by their hashes.
fn move_keys<S: BuildHasher>(test: &Test, map: &mut MapBy<S>) {
    refill(test, map, THREE);
    test.expect(map.move_key_to_back(&1) && !map.move_key_to_back(&4));
    test.expect(has_lists(map, THREE, &[2, 3, 1]));
    test.expect(map.move_key_to_front(&3) && !map.move_key_to_front(&4));
    test.expect(has_lists(map, THREE, &[3, 2, 1]) && has_both(map, 1));
}

fn rename_keys<S: BuildHasher>(test: &Test, map: &mut MapBy<S>) {
    refill(test, map, THREE);
    test.expect(map.rename_key(&1, 5) == Ok(1));
    test.expect(map.rename_key(&5, 2) == Err(RenameFault::Taken(2)));
    test.expect(map.rename_key(&1, 6) == Err(RenameFault::Absent(6)));
    test.expect(map.rename_key(&5, 5) == Ok(5));
    test.expect(has_lists(map, RENAMED, &[5, 2, 3]));
    test.expect(has_both(map, 5) && !map.contains_key(&1));
}

fn keys_change<S: BuildHasher>(test: &Test, map: &mut MapBy<S>) {
    move_keys(test, map);
    rename_keys(test, map);
}

#[test]
fn keys_change_their_places_by_any_builder(rt: HostRuntime) -> Result<(), Failed> {
    test_on_empty(rt.alloc(), keys_change)?;
    test_on_new(rt.alloc(), collided, keys_change)
}
