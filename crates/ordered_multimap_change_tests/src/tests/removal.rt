//! One value of a key, `retain`, and keys that leave by one hash; the programs have more rows.
use ordered_multimap::list_ordered_multimap::{Entry, KeyWrapper};
use ordered_multimap_callers::maps::{
    MapBy, Numbers, appends, collided, has_lists, refill, test_on_empty,
};
use ordered_multimap_callers::test_on_numbers;
use test_helpers::{B, Constant, F, Failed, Test, test_on_new, walk_difference};

#[test]
fn pairs_of_numbers_leave(rt: HostRuntime) -> Result<(), Failed> {
    test_on_numbers!(rt.alloc(); values_are_found, values_change, values_are_retained, pairs_stay,
        written_pairs_stay)
}

// Three values of the key 1, two of them equal, two of the key 2, one of the key 3.
const PAIRS: &[(u32, u32)] = &[(1, 5), (2, 6), (1, 7), (3, 8), (1, 5), (2, 6)];

// The last value of a key, its stored key with the first, and whether it has one.
fn values_are_found(test: &Test, map: &mut Numbers) {
    refill(test, map, &[(1, 5), (2, 6), (1, 7)]);
    test.expect(map.get_last(&1) == Some(&7) && map.get_last(&4).is_none());
    test.expect(map.get_key_value(&1) == Some((&1, &5)));
    test.expect(map.contains(&1, &7) && !map.contains(&2, &7));
}

fn entry_set(map: &mut Numbers, key: u32, value: u32) -> Option<u32> {
    match map.entry(key) {
        Entry::Occupied(mut entry) => Some(entry.set(value)),
        Entry::Vacant(_) => None,
    }
}

// A value is set at the place of the first one, or taken out, and then the others go.
fn values_change(test: &Test, map: &mut Numbers) {
    refill(test, map, PAIRS);
    test.expect(map.set(1, 9).ok() == Some(Some(5)));
    test.expect(entry_set(map, 2, 4) == Some(6));
    test.expect(has_lists(map, &[(1, 9), (2, 4), (3, 8)], &[1, 2, 3]));
    test.expect(map.remove_index(&1, 0) == Some(9));
    test.expect(map.remove_value(&2, &4) == Some(4));
    test.expect(has_lists(map, &[(3, 8)], &[3]));
}

// A function is called on the values of one key, in order, and says which stay.
fn values_are_retained(test: &Test, map: &mut Numbers) {
    refill(test, map, PAIRS);
    let mut seen: u32 = 0;
    map.retain_all(&1, |value| {
        seen = seen.saturating_mul(10).saturating_add(*value);
        *value != 5
    });
    test.expect(seen == 575);
    let pairs = [(2, 6), (1, 7), (3, 8), (2, 6)];
    test.expect(has_lists(map, &pairs, &[1, 2, 3]));
}

fn ones_are_left(test: &Test, map: &Numbers) {
    let both = [(B, 5), (B, 1)];
    test.expect_same(walk_difference(&mut map.get_all(&1), &both));
    test.expect(map.entry_len(&1) == 2);
}

// The function is called once on each pair. Neighbours of one key leave.
fn pairs_stay(test: &Test, map: &mut Numbers) {
    refill(test, map, &[(1, 1), (1, 2), (2, 3), (1, 4), (1, 5)]);
    let mut calls = 0usize;
    map.retain(|_key, value| {
        calls = calls.saturating_add(1);
        *value % 2 == 1
    });
    test.expect(calls == 5);
    test.expect(has_lists(map, &[(1, 1), (2, 3), (1, 5)], &[1, 2]));
    ones_are_left(test, map);
}

// A pair stays with the value that the function leaves.
fn written_pairs_stay(test: &Test, map: &mut Numbers) {
    refill(test, map, &[(1, 1), (1, 2), (1, 3)]);
    map.retain(|_key, value| {
        *value = value.saturating_add(1);
        *value % 2 == 0
    });
    test.expect(has_lists(map, &[(1, 2), (1, 4)], &[1]) && map.entry_len(&1) == 2);
    refill(test, map, &[(1, 1), (1, 2), (1, 3)]);
    map.retain(|_key, value| {
        let is_above = *value > 1;
        *value = 0;
        is_above
    });
    test.expect(has_lists(map, &[(1, 0), (1, 0)], &[1]) && map.entry_len(&1) == 2);
}

fn append_two_each(test: &Test, map: &mut MapBy<Constant>) {
    for key in 0..200u32 {
        test.expect(appends(map, key, key, false));
    }
    for key in 0..200u32 {
        test.expect(appends(map, key, key.saturating_add(1000), true));
    }
}

fn half_leave(test: &Test, map: &mut MapBy<Constant>) {
    for half in 0..100u32 {
        test.expect(map.remove(&(half * 2)) == Some(half * 2));
    }
}

fn half_is_left(test: &Test, map: &mut MapBy<Constant>) {
    test.expect(map.keys_len() == 100 && map.values_len() == 200);
    let both = [(F, 1), (F, 1001)];
    test.expect_same(walk_difference(&mut map.get_all(&1), &both));
    test.expect(map.pop_front() == Some((KeyWrapper::Borrowed(&1), 1)));
}

// Where all hashes are equal, half of the keys leave, and then the first pair of the others.
fn collided_keys_leave(test: &Test, map: &mut MapBy<Constant>) {
    append_two_each(test, map);
    half_leave(test, map);
    half_is_left(test, map);
}

#[test]
fn keys_of_one_hash_leave(rt: HostRuntime) -> Result<(), Failed> {
    test_on_new(rt.alloc(), collided, collided_keys_leave)
}
