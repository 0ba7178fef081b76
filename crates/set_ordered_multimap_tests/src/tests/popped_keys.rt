//! Keys of a set that leave at an end of the keys, with all their values.
use crate::tests::sets::{SetBy, has_lists, refill};
use set_ordered_multimap::SetOrderedMultimap;
use test_helpers::{B, F, Failed, Test, test_on_new, walk_difference};

// The key of the first pair is the last one then.
fn refill_and_move(test: &Test, set: &mut SetBy) {
    refill(test, set, &[(1, 1), (2, 7), (1, 2), (3, 5)]);
    test.expect(set.move_key_to_back(&1));
}

fn the_first_key_leaves(test: &Test, set: &mut SetBy) {
    match set.pop_front_key() {
        Some((key, mut values)) => {
            test.expect(key == 2);
            test.expect_same(walk_difference(&mut values, &[(F, 7)]));
        }
        None => test.fail(),
    }
    test.expect(has_lists(set, &[(1, 1), (1, 2), (3, 5)], &[3, 1]));
}

fn the_last_key_leaves(test: &Test, set: &mut SetBy) {
    match set.pop_back_key() {
        Some((key, mut values)) => {
            test.expect(key == 1);
            test.expect_same(walk_difference(&mut values, &[(B, 2), (F, 1)]));
        }
        None => test.fail(),
    }
    test.expect(has_lists(set, &[(3, 5)], &[3]));
}

fn keys_are_put_into_an_option(test: &Test, set: &mut SetBy) {
    refill_and_move(test, set);
    let mut stored = Some(9);
    let first = walk_difference(&mut set.pop_front_key_with_all(&mut stored), &[(F, 7)]);
    test.expect_same(first);
    test.expect(stored == Some(2));
    let last = walk_difference(
        &mut set.pop_back_key_with_all(&mut stored),
        &[(F, 1), (F, 2)],
    );
    test.expect_same(last);
    test.expect(stored == Some(1) && has_lists(set, &[(3, 5)], &[3]));
}

fn no_key_leaves(test: &Test, set: &mut SetBy) {
    test.expect(set.pop_front_key().is_none() && set.pop_back_key().is_none());
    let mut stored = Some(9);
    test.expect(set.pop_front_key_with_all(&mut stored).next() == None && stored == None);
    stored = Some(9);
    test.expect(set.pop_back_key_with_all(&mut stored).next() == None && stored == None);
}

fn without_a_key_nothing_leaves(test: &Test, set: &mut SetBy) {
    set.clear();
    no_key_leaves(test, set);
    refill(test, set, &[(4, 9)]);
    test.expect(has_lists(set, &[(4, 9)], &[4]));
}

fn keys_leave(test: &Test, set: &mut SetBy) {
    refill_and_move(test, set);
    the_first_key_leaves(test, set);
    the_last_key_leaves(test, set);
    keys_are_put_into_an_option(test, set);
    without_a_key_nothing_leaves(test, set);
}

#[test]
fn keys_leave_at_ends(rt: HostRuntime) -> Result<(), Failed> {
    test_on_new(rt.alloc(), SetOrderedMultimap::new, keys_leave)
}
