//! Pairs of a set that all go to another one. Those that this one has are dropped, or all that it has
//! of their keys.
use crate::tests::callers::{join, join_in_room};
use crate::tests::sets::{Refusing, SetBy, collided, has_lists, refill};
use refusing_allocator::RefusingAllocator;
use set_ordered_multimap::SetOrderedMultimap;
use std::alloc::Allocator;
use std::hash::BuildHasher;
use test_helpers::{Failed, Test, lend, requests_until_enough, test_all, test_on_new, try_on_new};

type Pairs = &'static [(u32, u32)];

// The pairs of a set and of the other one, whose first key is 1; the pairs then, where those that
// were there stay, and where those of the other's keys go; and the keys.
type Row = (Pairs, Pairs, Pairs, Pairs, &'static [u32]);

const THREE: Pairs = &[(1, 1), (2, 2), (1, 3)];

const ROWS: &[Row] = &[
    (&[], &[], &[], &[], &[]),
    (THREE, &[], THREE, THREE, &[1, 2]),
    (&[], THREE, THREE, THREE, &[1, 2]),
    // Some pairs of a key are in both sets.
    (
        THREE,
        &[(3, 2), (1, 3), (2, 3), (1, 2), (2, 2)],
        &[(1, 1), (2, 2), (1, 3), (3, 2), (2, 3), (1, 2)],
        &[(3, 2), (1, 3), (2, 3), (1, 2), (2, 2)],
        &[1, 2, 3],
    ),
    // All are, in another order.
    (
        THREE,
        &[(1, 3), (2, 2), (1, 1)],
        THREE,
        &[(1, 3), (2, 2), (1, 1)],
        &[1, 2],
    ),
    // The keys have other values.
    (
        &[(1, 1), (2, 2)],
        &[(2, 1), (1, 2)],
        &[(1, 1), (2, 2), (2, 1), (1, 2)],
        &[(2, 1), (1, 2)],
        &[1, 2],
    ),
    // The other set has the keys in the order 1, 2, 3, and pairs that first name 2, 3 and then 1.
    (
        &[(4, 1), (3, 3)],
        &[(2, 2), (3, 3), (3, 4), (1, 5), (1, 1)],
        &[(4, 1), (3, 3), (2, 2), (3, 4), (1, 5), (1, 1)],
        &[(4, 1), (2, 2), (3, 3), (3, 4), (1, 5), (1, 1)],
        &[4, 3, 2, 1],
    ),
];

// Whether the lists are these, and look-ups find each of the pairs.
fn has_all<S: BuildHasher>(set: &SetBy<S>, pairs: &[(u32, u32)], keys: &[u32]) -> bool {
    let mut found = has_lists(set, pairs, keys);
    for (key, value) in pairs {
        found = found && set.contains(key, value);
    }
    found
}

fn rooms<S: BuildHasher, A: Allocator>(set: &SetBy<S, A>) -> (usize, usize) {
    (set.keys_capacity(), set.values_capacity())
}

fn fill_other<S: BuildHasher>(test: &Test, other: &mut SetBy<S>, pairs: &[(u32, u32)]) {
    refill(test, other, pairs);
    other.move_key_to_front(&1);
}

fn join_row<S: BuildHasher, T: BuildHasher>(
    test: &Test,
    set: &mut SetBy<S>,
    other: &mut SetBy<T>,
    at: usize,
    row: &Row,
) {
    refill(test, set, row.0);
    fill_other(test, other, row.1);
    let room = rooms(other);
    test.expect_at(at, set.append_set(other).is_ok());
    test.expect_at(at, has_all(set, row.2, row.4));
    test.expect_at(at, other.is_empty() && rooms(other) == room);
}

fn merge_row<S: BuildHasher, T: BuildHasher>(
    test: &Test,
    set: &mut SetBy<S>,
    other: &mut SetBy<T>,
    at: usize,
    row: &Row,
) {
    refill(test, set, row.0);
    fill_other(test, other, row.1);
    let room = rooms(other);
    test.expect_at(at, set.insert_set(other).is_ok());
    test.expect_at(at, has_all(set, row.3, row.4));
    test.expect_at(at, other.is_empty() && rooms(other) == room);
}

fn join_all<S: BuildHasher, T: BuildHasher>(test: &Test, set: &mut SetBy<S>, other: &mut SetBy<T>) {
    for (at, row) in ROWS.iter().enumerate() {
        join_row(test, set, other, at, row);
        merge_row(test, set, other, at, row);
    }
}

// Proved callers make the calls: with memory, and where there is room.
fn callers<S: BuildHasher, T: BuildHasher>(test: &Test, set: &mut SetBy<S>, other: &mut SetBy<T>) {
    refill(test, set, &[(1, 11), (2, 12)]);
    refill(test, other, &[(3, 13), (2, 12)]);
    test.expect(join(set, other).is_ok() && other.insert(1, 11) == Ok(true));
    test.expect(join_in_room(set, other) && other.is_empty());
    test.expect(has_lists(set, &[(1, 11), (2, 12), (3, 13)], &[1, 2, 3]));
}

fn join_other_builders(test: &Test, set: &mut SetBy) {
    lend(collided(test.alloc()), |other| {
        join_all(test, set, other);
        join_all(test, other, set);
        callers(test, set, other);
    });
}

#[test]
fn all_pairs_go_to_another_set(rt: HostRuntime) -> Result<(), Failed> {
    test_on_new(rt.alloc(), SetOrderedMultimap::new, join_other_builders)
}

// Pairs that fill the first value slots, and others, one of them the same.
const FULL: Pairs = &[(1, 1), (2, 2), (1, 3), (2, 4)];

const OTHER: Pairs = &[(3, 3), (1, 3), (4, 5), (1, 6)];

const JOINED: Pairs = &[(1, 1), (2, 2), (1, 3), (2, 4), (3, 3), (4, 5), (1, 6)];

const MERGED: Pairs = &[(2, 2), (2, 4), (3, 3), (1, 3), (4, 5), (1, 6)];

// A set, and the other one.
type Both<A> = (Refusing<A>, Refusing<A>);

fn both_new<A: Allocator + Copy>(alloc: A) -> Both<A> {
    (Refusing::new(alloc), Refusing::new(alloc))
}

fn fill_both<A: Allocator + Copy>(test: &Test, both: &mut Both<A>) {
    refill(test, &mut both.0, FULL);
    test.expect(both.0.pack_to_fit().is_ok());
    refill(test, &mut both.1, OTHER);
}

// Takes the pairs again, in the room that it has.
fn take_again<A: Allocator + Copy>(test: &Test, set: &mut Refusing<A>, other: &mut Refusing<A>) {
    refill(test, other, OTHER);
    set.retain(|_key, value| *value == 3);
    let room = rooms(set);
    test.expect(set.append_set(other).is_ok() && rooms(set) == room);
    let pairs = [(1, 3), (3, 3), (4, 5), (1, 6)];
    test.expect(has_lists(set, &pairs, &[1, 3, 4]));
}

// It returns whether there was memory enough, with none left. Where there was not, both sets are as
// before.
fn moved<A: Allocator + Copy>(test: &Test, both: &mut Both<A>) -> bool {
    let (set, other) = both;
    let room = rooms(other);
    let enough = set.append_set(other).is_ok();
    if enough {
        test.expect(has_lists(set, JOINED, &[1, 2, 3, 4]) && has_lists(other, &[], &[]));
        take_again(test, set, other);
    } else {
        test.expect(has_lists(set, FULL, &[1, 2]) && has_lists(other, OTHER, &[3, 1, 4]));
    }
    test.expect(rooms(other) == room);
    enough
}

fn joins_with(test: &Test, granted: u64) -> bool {
    try_on_new!(test, granted; both_new; fill_both; moved)
}

// The same where the pairs replace those of their keys.
fn merged<A: Allocator + Copy>(test: &Test, both: &mut Both<A>) -> bool {
    let (set, other) = both;
    let room = rooms(other);
    let enough = set.insert_set(other).is_ok();
    if enough {
        test.expect(has_lists(set, MERGED, &[1, 2, 3, 4]) && has_lists(other, &[], &[]));
    } else {
        test.expect(has_lists(set, FULL, &[1, 2]) && has_lists(other, OTHER, &[3, 1, 4]));
    }
    test.expect(rooms(other) == room);
    enough
}

fn merges_with(test: &Test, granted: u64) -> bool {
    try_on_new!(test, granted; both_new; fill_both; merged)
}

fn each_request_is_refused(test: &Test) {
    let enough = requests_until_enough(|granted| joins_with(test, granted));
    test.expect(enough.unwrap_or(0) >= 2);
    let merging = requests_until_enough(|granted| merges_with(test, granted));
    test.expect(merging == enough);
}

#[test]
fn a_refused_request_changes_neither_set(rt: HostRuntime) -> Result<(), Failed> {
    test_all!(rt.alloc(); each_request_is_refused)
}
