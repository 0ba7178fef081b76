//! Runs of calls on numbers, with both lists and two keys' values after each call.
use crate::tests::callers::keep_values_below;
use crate::tests::sets::{SetBy, collided, has_lists, refill};
use ordered_multimap::list_ordered_multimap::{KeyWrapper, RenameFault};
use set_ordered_multimap::SetOrderedMultimap;
use std::hash::BuildHasher;
use test_helpers::{Failed, Test, copied, test_on_new};

#[derive(Clone, Copy)]
enum Call {
    // A pair, and whether it is new, or whether it is there.
    Insert(u32, u32, bool),
    RemoveValue(u32, u32, bool),
    // A key, an index, and the value that leaves.
    RemoveIndex(u32, usize, Option<u32>),
    // A key, of whose values those below this one stay.
    RetainBelow(u32, u32),
    // The pair that leaves, whose key goes with it.
    PopFront(u32, u32),
    SortKeys,
    // By half of the key: 4 and 5 tie.
    SortKeysByHalf,
    // By the value, by half of it, and by the key, the greatest first.
    SortByValue,
    SortByHalf,
    SortByKey,
    // By the number of values.
    SortKeysByLen,
    // A key that moves, and whether it is there.
    ToBack(u32, bool),
    ToFront(u32, bool),
    // A key, the one to take its place, and what becomes of it.
    Rename(u32, u32, Renamed),
}

#[derive(Clone, Copy)]
enum Renamed {
    Done,
    Taken,
    Absent,
}

type Pairs = &'static [(u32, u32)];

// A call, and the pairs and the keys after it.
type Row = (Call, Pairs, &'static [u32]);

const RUN: &[Row] = &[
    (Call::Insert(1, 5, true), &[(1, 5)], &[1]),
    (Call::Insert(1, 5, false), &[(1, 5)], &[1]),
    (Call::Insert(2, 5, true), &[(1, 5), (2, 5)], &[1, 2]),
    (Call::Insert(1, 6, true), &[(1, 5), (2, 5), (1, 6)], &[1, 2]),
    (Call::RemoveValue(1, 5, true), &[(2, 5), (1, 6)], &[1, 2]),
    (Call::RemoveValue(1, 6, true), &[(2, 5)], &[2]),
    (Call::RemoveValue(1, 6, false), &[(2, 5)], &[2]),
    (Call::Insert(1, 5, true), &[(2, 5), (1, 5)], &[2, 1]),
    (Call::PopFront(2, 5), &[(1, 5)], &[1]),
];

// Pairs of which two keys have two values each.
const PAIRS: Pairs = &[(5, 4), (4, 2), (1, 3), (5, 1), (2, 5), (4, 0)];

// Values with the same half keep their order: 1 stood before 0.
const BY_HALF: Pairs = &[(5, 1), (4, 0), (4, 2), (1, 3), (5, 4), (2, 5)];

const BY_VALUE: Pairs = &[(4, 0), (5, 1), (4, 2), (1, 3), (5, 4), (2, 5)];

// The values of a key keep their order.
const BY_KEY: Pairs = &[(5, 1), (5, 4), (4, 0), (4, 2), (2, 5), (1, 3)];

const WITH_NEW: Pairs = &[(5, 1), (5, 4), (4, 0), (4, 2), (2, 5), (1, 3), (3, 4)];

// The run begins with the pairs, whose keys are 5, 4, 1 and 2.
const SORTS: &[Row] = &[
    (Call::SortKeysByHalf, PAIRS, &[1, 2, 5, 4]),
    (Call::ToFront(4, true), PAIRS, &[4, 1, 2, 5]),
    (Call::ToFront(3, false), PAIRS, &[4, 1, 2, 5]),
    // Now 4 stands before 5.
    (Call::SortKeysByHalf, PAIRS, &[1, 2, 4, 5]),
    (Call::ToBack(1, true), PAIRS, &[2, 4, 5, 1]),
    (Call::ToBack(3, false), PAIRS, &[2, 4, 5, 1]),
    (Call::SortByHalf, BY_HALF, &[2, 4, 5, 1]),
    (Call::SortKeys, BY_HALF, &[1, 2, 4, 5]),
    (Call::SortByValue, BY_VALUE, &[1, 2, 4, 5]),
    (Call::SortByKey, BY_KEY, &[1, 2, 4, 5]),
    (Call::Insert(5, 4, false), BY_KEY, &[1, 2, 4, 5]),
    (Call::Insert(3, 4, true), WITH_NEW, &[1, 2, 4, 5, 3]),
    (Call::SortKeysByLen, WITH_NEW, &[1, 2, 3, 4, 5]),
];

// The pairs once the key 4 is the key 3.
const RENAMED: Pairs = &[(5, 4), (3, 2), (1, 3), (5, 1), (2, 5), (3, 0)];

// The run begins with the pairs, as that of the sorts.
const RENAMES: &[Row] = &[
    (Call::Rename(4, 3, Renamed::Done), RENAMED, &[5, 3, 1, 2]),
    (Call::Rename(4, 6, Renamed::Absent), RENAMED, &[5, 3, 1, 2]),
    (Call::Rename(4, 5, Renamed::Absent), RENAMED, &[5, 3, 1, 2]),
    (Call::Rename(3, 5, Renamed::Taken), RENAMED, &[5, 3, 1, 2]),
    (Call::Rename(3, 3, Renamed::Done), RENAMED, &[5, 3, 1, 2]),
    (Call::Insert(3, 2, false), RENAMED, &[5, 3, 1, 2]),
    (Call::Rename(3, 4, Renamed::Done), PAIRS, &[5, 4, 1, 2]),
];

const THREE_LEFT: Pairs = &[(1, 3), (2, 5), (4, 0)];

// The run begins with the pairs, as that of the sorts.
const REMOVALS: &[Row] = &[
    (Call::RemoveIndex(4, 2, None), PAIRS, &[5, 4, 1, 2]),
    (Call::RemoveIndex(3, 0, None), PAIRS, &[5, 4, 1, 2]),
    (Call::RetainBelow(3, 0), PAIRS, &[5, 4, 1, 2]),
    (Call::RetainBelow(5, 5), PAIRS, &[5, 4, 1, 2]),
    (
        Call::RemoveIndex(5, 1, Some(1)),
        &[(5, 4), (4, 2), (1, 3), (2, 5), (4, 0)],
        &[5, 4, 1, 2],
    ),
    (
        Call::RetainBelow(4, 2),
        &[(5, 4), (1, 3), (2, 5), (4, 0)],
        &[5, 4, 1, 2],
    ),
    (Call::RemoveIndex(5, 0, Some(4)), THREE_LEFT, &[4, 1, 2]),
    (Call::RetainBelow(2, 5), &[(1, 3), (4, 0)], &[4, 1]),
    (
        Call::Insert(5, 4, true),
        &[(1, 3), (4, 0), (5, 4)],
        &[4, 1, 5],
    ),
    (Call::RetainBelow(5, 0), &[(1, 3), (4, 0)], &[4, 1]),
];

fn sorts_keys<S: BuildHasher>(set: &mut SetBy<S>, by_half: bool) -> bool {
    if by_half {
        return set.sort_keys_by(|a, b| (*a / 2).cmp(&(*b / 2))).is_ok();
    }
    set.sort_keys().is_ok()
}

fn sorts_by_len<S: BuildHasher>(set: &mut SetBy<S>) -> bool {
    set.sort_keys_by_cached_key(|_key, values| values.len())
        .is_ok()
}

fn sorts_by_value<S: BuildHasher>(set: &mut SetBy<S>, by_half: bool) -> bool {
    let divisor = if by_half { 2 } else { 1 };
    set.sort_by(|_, value, _, other| (*value / divisor).cmp(&(*other / divisor)))
        .is_ok()
}

fn renames<S: BuildHasher>(set: &mut SetBy<S>, key: u32, new_key: u32, renamed: Renamed) -> bool {
    let answer = set.rename_key(&key, new_key);
    answer
        == match renamed {
            Renamed::Done => Ok(key),
            Renamed::Taken => Err(RenameFault::Taken(new_key)),
            Renamed::Absent => Err(RenameFault::Absent(new_key)),
        }
}

fn retains_below<S: BuildHasher>(set: &mut SetBy<S>, key: u32, limit: u32) -> bool {
    keep_values_below(set, key, limit);
    set.get_all(&key).all(|value| *value < limit)
}

// Whether the call returns what is said.
fn is_called<S: BuildHasher>(set: &mut SetBy<S>, call: Call) -> bool {
    match call {
        Call::SortKeys => sorts_keys(set, false),
        Call::SortKeysByHalf => sorts_keys(set, true),
        Call::SortKeysByLen => sorts_by_len(set),
        Call::SortByValue => sorts_by_value(set, false),
        Call::SortByHalf => sorts_by_value(set, true),
        Call::SortByKey => set.sort_by(|key, _, other, _| other.cmp(key)).is_ok(),
        Call::ToBack(key, there) => set.move_key_to_back(&key) == there,
        Call::ToFront(key, there) => set.move_key_to_front(&key) == there,
        Call::Rename(key, new_key, renamed) => renames(set, key, new_key, renamed),
        Call::Insert(key, value, new) => set.insert(key, value) == Ok(new),
        Call::RemoveValue(key, value, there) => set.remove_value(&key, &value) == there,
        Call::RemoveIndex(key, index, value) => set.remove_index(&key, index) == value,
        Call::RetainBelow(key, limit) => retains_below(set, key, limit),
        Call::PopFront(key, value) => set.pop_front() == Some((KeyWrapper::Owned(key), value)),
    }
}

// Whether the key has the values that it has in these pairs, in their order.
fn has_values<S: BuildHasher>(set: &SetBy<S>, key: u32, pairs: &[(u32, u32)]) -> bool {
    let mut values = set.get_all(&key);
    let mut same = true;
    for (other, value) in pairs {
        same = same && (*other != key || copied(values.next()) == Some(*value));
    }
    same && values.next().is_none()
}

fn row_holds<S: BuildHasher>(test: &Test, set: &mut SetBy<S>, at: usize, row: &Row) {
    let (call, pairs, keys) = *row;
    test.expect_at(at, is_called(set, call));
    test.expect_at(at, has_lists(set, pairs, keys));
    test.expect_at(at, has_values(set, 4, pairs) && has_values(set, 5, pairs));
}

fn rows_hold<S: BuildHasher>(test: &Test, set: &mut SetBy<S>, rows: &[Row]) {
    for (at, row) in rows.iter().enumerate() {
        row_holds(test, set, at, row);
    }
}

fn pairs_come_and_go<S: BuildHasher>(test: &Test, set: &mut SetBy<S>) {
    rows_hold(test, set, RUN);
}

#[test]
fn no_pair_stands_twice(rt: HostRuntime) -> Result<(), Failed> {
    test_on_new(rt.alloc(), SetOrderedMultimap::new, pairs_come_and_go)?;
    test_on_new(rt.alloc(), collided, pairs_come_and_go)
}

fn sorts_hold(test: &Test, set: &mut SetBy) {
    refill(test, set, PAIRS);
    rows_hold(test, set, SORTS);
}

#[test]
fn keys_and_pairs_are_sorted(rt: HostRuntime) -> Result<(), Failed> {
    test_on_new(rt.alloc(), SetOrderedMultimap::new, sorts_hold)
}

fn renames_hold<S: BuildHasher>(test: &Test, set: &mut SetBy<S>) {
    refill(test, set, PAIRS);
    rows_hold(test, set, RENAMES);
}

#[test]
fn keys_are_renamed(rt: HostRuntime) -> Result<(), Failed> {
    test_on_new(rt.alloc(), SetOrderedMultimap::new, renames_hold)?;
    test_on_new(rt.alloc(), collided, renames_hold)
}

fn removals_hold<S: BuildHasher>(test: &Test, set: &mut SetBy<S>) {
    refill(test, set, PAIRS);
    rows_hold(test, set, REMOVALS);
}

#[test]
fn values_of_a_key_leave(rt: HostRuntime) -> Result<(), Failed> {
    test_on_new(rt.alloc(), SetOrderedMultimap::new, removals_hold)?;
    test_on_new(rt.alloc(), collided, removals_hold)
}
