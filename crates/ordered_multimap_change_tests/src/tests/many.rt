//! Many values that are appended under one key.
use ordered_multimap::list_ordered_multimap::Entry;
use ordered_multimap_callers::maps::{Numbers, has_lists, refill, test_on_empty};
use ordered_multimap_callers::test_on_numbers;
use test_helpers::{Failed, Test};

#[test]
fn values_are_appended(rt: HostRuntime) -> Result<(), Failed> {
    test_on_numbers!(rt.alloc(); values_come_last, no_value_changes_nothing, values_are_counted)
}

#[test]
fn values_are_appended_by_entries(rt: HostRuntime) -> Result<(), Failed> {
    test_on_numbers!(rt.alloc(); values_of_entries_come_last, first_value_is_found)
}

fn values_come_last(test: &Test, map: &mut Numbers) {
    map.clear();
    test.expect(map.append(2, 20) == Ok(false));
    test.expect(map.append_many(1, [10, 11]) == Ok(2));
    test.expect(map.append_many(2, [21]) == Ok(1));
    test.expect(has_lists(map, &[(2, 20), (1, 10), (1, 11), (2, 21)], &[2, 1]));
}

fn no_value_changes_nothing(test: &Test, map: &mut Numbers) {
    map.clear();
    test.expect(map.append_many(1, []) == Ok(0));
    test.expect(map.is_empty());
    test.expect(map.append_many(1, [10]) == Ok(1));
    test.expect(map.append_many(1, []) == Ok(0));
    test.expect(has_lists(map, &[(1, 10)], &[1]));
}

// Of an iterator that doesn't say how many values it has.
fn values_are_counted(test: &Test, map: &mut Numbers) {
    map.clear();
    let odd = [1, 2, 3, 4, 5].into_iter().filter(|value| *value % 2 == 1);
    test.expect(map.append_many(3, odd) == Ok(3));
    test.expect(has_lists(map, &[(3, 1), (3, 3), (3, 5)], &[3]));
}

// How many values the entry of a present key says that it appended.
fn appended(map: &mut Numbers, key: u32, values: &[u32]) -> Option<usize> {
    match map.entry(key) {
        Entry::Occupied(mut entry) => entry.append_many(values.iter().copied()).ok(),
        Entry::Vacant(_) => None,
    }
}

fn values_of_entries_come_last(test: &Test, map: &mut Numbers) {
    refill(test, map, &[(2, 20), (1, 10)]);
    test.expect(appended(map, 2, &[21, 22]) == Some(2));
    test.expect(appended(map, 1, &[11]) == Some(1));
    test.expect(appended(map, 1, &[]) == Some(0));
    test.expect(appended(map, 3, &[30]) == None);
    test.expect(has_lists(map, &[(2, 20), (1, 10), (2, 21), (2, 22), (1, 11)], &[2, 1]));
}

// Values are moved for the new ones, into the slot that a removal left.
fn first_value_is_found(test: &Test, map: &mut Numbers) {
    refill(test, map, &[(1, 10), (2, 20)]);
    test.expect(map.remove(&1) == Some(10));
    match map.entry(2) {
        Entry::Occupied(mut entry) => {
            test.expect(entry.append_many([21, 22, 23, 24, 25, 26, 27]) == Ok(7));
            test.expect(*entry.get() == 20);
            test.expect(entry.len() == 8);
        }
        Entry::Vacant(_) => test.fail(),
    }
}
