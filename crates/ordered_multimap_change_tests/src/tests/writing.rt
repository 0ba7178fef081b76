//! Walks that lend values for writing; `map_calls` has what each step gives.
use crate::tests::lending::{keys_of, values_of_key};
use crate::tests::written::{
    held_walks_end, values_are_updated, walks_have_left, walks_leave_values,
};
use ordered_multimap::list_ordered_multimap::{EntryValuesMut, KeyValuesMut};
use ordered_multimap_callers::changed::{fill_all, fill_by_reference};
use ordered_multimap_callers::maps::{MIXED, Numbers, has_lists, has_pairs, refill, test_on_empty};
use ordered_multimap_callers::test_on_numbers;
use test_helpers::{B, F, Failed, Step, Test, walk_difference};

#[test]
fn values_are_written_by_walks(rt: HostRuntime) -> Result<(), Failed> {
    test_on_numbers!(rt.alloc(); values_are_lent_once, keys_lend_their_values, walks_have_left,
        values_are_updated, walks_leave_values, held_walks_end)
}

// Whether these steps take all that is left.
fn are_left(walk: &EntryValuesMut<'_, u32, u32>, steps: &[Step<u32>]) -> bool {
    walk_difference(&mut walk.iter(), steps).is_none()
}

// Writes the first and the last value of the key 1 while both references live, where they are the
// old ones and those between are left.
fn write_both(map: &mut Numbers, old: (u32, u32), between: &[Step<u32>], new: (u32, u32)) -> bool {
    let mut walk = values_of_key(map, 1);
    match (walk.next(), walk.next_back()) {
        (Some(first), Some(last)) => {
            let held = (*first, *last) == old && are_left(&walk, between);
            *first = new.0;
            *last = new.1;
            held
        }
        _ => false,
    }
}

fn both_are_written(test: &Test, map: &mut Numbers) {
    refill(test, map, &[(1, 1), (2, 7), (1, 2), (1, 3)]);
    test.expect(write_both(map, (1, 3), &[(F, 2)], (10, 30)));
    let written = has_lists(map, &[(1, 10), (2, 7), (1, 2), (1, 30)], &[1, 2]);
    test.expect(written);
}

fn equal_values_are_told_apart(test: &Test, map: &mut Numbers) {
    refill(test, map, &[(1, 5), (2, 0), (1, 5)]);
    test.expect(write_both(map, (5, 5), &[], (6, 7)));
    test.expect(has_lists(map, &[(1, 6), (2, 0), (1, 7)], &[1, 2]));
}

// Loops over a walk, and over the reference to the map itself.
fn loops_write(test: &Test, map: &mut Numbers) {
    fill_all(map, 7);
    test.expect(has_pairs(map, &[(1, 7), (2, 7), (1, 7), (1, 7)]));
    fill_by_reference(map, 6);
    test.expect(has_pairs(map, &[(1, 6), (2, 6), (1, 6), (1, 6)]));
}

// Each value is lent once, and is written.
fn values_are_lent_once(test: &Test, map: &mut Numbers) {
    equal_values_are_told_apart(test, map);
    both_are_written(test, map);
    loops_write(test, map);
}

type Keys<'a> = KeyValuesMut<'a, u32, u32>;

type Lent<'a> = Option<(&'a u32, EntryValuesMut<'a, u32, u32>)>;

fn has_left(keys: &Keys<'_>, left: usize) -> bool {
    keys.size_hint() == (left, Some(left)) && keys.iter().len() == left
}

// Expects this key with these values.
fn is_lent(test: &Test, lent: Lent<'_>, wanted: u32, steps: &[Step<u32>]) {
    match lent {
        Some((key, mut values)) => {
            test.expect(*key == wanted);
            test.expect_same(walk_difference(&mut values, steps));
        }
        None => test.fail(),
    }
}

fn none_is_left(test: &Test, keys: &mut Keys<'_>) {
    for _ in 0..3 {
        test.expect(has_left(keys, 0));
        test.expect(keys.next_back().is_none());
        test.expect(keys.next().is_none());
    }
}

fn both_are_lent(test: &Test, keys: &mut Keys<'_>) {
    test.expect(has_left(keys, 2));
    is_lent(test, keys.next(), 1, &[(F, 11), (F, 14)]);
    test.expect(has_left(keys, 1));
    is_lent(test, keys.next_back(), 2, &[(F, 12), (B, 13)]);
    none_is_left(test, keys);
}

fn one_is_lent(test: &Test, keys: &mut Keys<'_>) {
    test.expect(has_left(keys, 1));
    is_lent(test, keys.next(), 1, &[(F, 11)]);
    none_is_left(test, keys);
}

// The last key isn't read.
fn one_is_written(test: &Test, keys: &mut Keys<'_>) {
    test.expect(has_left(keys, 2));
    is_lent(test, keys.next(), 1, &[(F, 1), (F, 3)]);
    match keys.next_back() {
        Some((key, _values)) => test.expect(*key == 2),
        None => test.fail(),
    }
    test.expect(keys.next().is_none());
}

// Each key lends its values, each of which is multiplied by 10 where it is taken.
fn keys_lend_their_values(test: &Test, map: &mut Numbers) {
    map.clear();
    none_is_left(test, &mut keys_of(map));
    refill(test, map, &[(1, 11)]);
    one_is_lent(test, &mut keys_of(map));
    refill(test, map, MIXED);
    both_are_lent(test, &mut keys_of(map));
    test.expect(has_pairs(map, &[(1, 110), (2, 120), (2, 130), (1, 140)]));
    refill(test, map, &[(1, 1), (2, 2), (1, 3)]);
    one_is_written(test, &mut keys_of(map));
    test.expect(has_lists(map, &[(1, 10), (2, 2), (1, 30)], &[1, 2]));
}
