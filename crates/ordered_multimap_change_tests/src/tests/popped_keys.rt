//! Keys that leave at an end of the keys, with all their values.
use crate::tests::drained::lend_drain;
use crate::tests::lending::{first_key_of, last_key_of};
use ordered_multimap_callers::maps::{Numbers, has_lists, refill, test_on_empty};
use ordered_multimap_callers::test_on_numbers;
use std::mem;
use test_helpers::{B, F, Failed, Test, walk_difference};

#[test]
fn keys_leave_at_ends(rt: HostRuntime) -> Result<(), Failed> {
    test_on_numbers!(
        rt.alloc();
        keys_leave_in_their_order, keys_leave_from_the_back, no_key_changes_nothing,
        forgotten_values_are_gone
    )
}

#[test]
fn keys_leave_into_an_option(rt: HostRuntime) -> Result<(), Failed> {
    test_on_numbers!(rt.alloc(); keys_are_put_into_it, nothing_is_left_without_a_key)
}

const PAIRS: &[(u32, u32)] = &[(1, 1), (2, 7), (1, 2), (3, 5)];

// The key of the first pair is the last one then.
fn refill_and_move(test: &Test, map: &mut Numbers) {
    refill(test, map, PAIRS);
    test.expect(map.move_key_to_back(&1));
}

// Expects this key, with a drain of these values.
macro_rules! is_popped {
    ($test:ident, $popped:expr, $key:expr, $steps:expr) => {
        $test.expect(lend_drain($popped, false, |entry| {
            $test.expect(entry.0 == $key);
            $test.expect_same(walk_difference(&mut entry.1, $steps));
        }))
    };
}

fn keys_leave_in_their_order(test: &Test, map: &mut Numbers) {
    refill_and_move(test, map);
    is_popped!(test, first_key_of(map), 2, &[(F, 7)]);
    test.expect(has_lists(map, &[(1, 1), (1, 2), (3, 5)], &[3, 1]));
    is_popped!(test, first_key_of(map), 3, &[(B, 5)]);
    is_popped!(test, first_key_of(map), 1, &[(F, 1), (F, 2)]);
    test.expect(map.is_empty());
}

fn keys_leave_from_the_back(test: &Test, map: &mut Numbers) {
    refill_and_move(test, map);
    is_popped!(test, last_key_of(map), 1, &[(B, 2), (B, 1)]);
    test.expect(has_lists(map, &[(2, 7), (3, 5)], &[2, 3]));
    is_popped!(test, last_key_of(map), 3, &[(F, 5)]);
    test.expect(has_lists(map, &[(2, 7)], &[2]));
}

fn no_key_changes_nothing(test: &Test, map: &mut Numbers) {
    map.clear();
    test.expect(first_key_of(map).is_none());
    test.expect(last_key_of(map).is_none());
    test.expect(map.append(4, 9) == Ok(false));
    test.expect(has_lists(map, &[(4, 9)], &[4]));
}

fn forgotten_values_are_gone(test: &Test, map: &mut Numbers) {
    refill_and_move(test, map);
    mem::forget(last_key_of(map));
    test.expect(has_lists(map, &[(2, 7), (3, 5)], &[2, 3]));
    test.expect(map.append(1, 8) == Ok(false));
    test.expect(has_lists(map, &[(2, 7), (3, 5), (1, 8)], &[2, 3, 1]));
}

fn keys_are_put_into_it(test: &Test, map: &mut Numbers) {
    refill_and_move(test, map);
    let mut stored = Some(9);
    let popped = walk_difference(&mut map.pop_front_key_with_all(&mut stored), &[(F, 7)]);
    test.expect_same(popped);
    test.expect(stored == Some(2));
    let popped = walk_difference(
        &mut map.pop_back_key_with_all(&mut stored),
        &[(F, 1), (B, 2)],
    );
    test.expect_same(popped);
    test.expect(stored == Some(1));
    test.expect(has_lists(map, &[(3, 5)], &[3]));
}

// The values of a forgotten drain stand in their slots, and are of no key any more.
fn nothing_is_left_without_a_key(test: &Test, map: &mut Numbers) {
    refill(test, map, &[(1, 1), (1, 2)]);
    mem::forget(first_key_of(map));
    let mut stored = Some(9);
    test.expect(map.pop_front_key_with_all(&mut stored).next() == None);
    test.expect(stored == None);
    test.expect(map.pop_back_key_with_all(&mut stored).next() == None);
    test.expect(map.is_empty());
}
