//! Pairs of a map that all go to another one, behind the values of their keys or in the place of
//! these; `map_calls` has the rows.
use ordered_multimap::ListOrderedMultimap;
use ordered_multimap_callers::maps::{
    MapBy, Numbers, Refusing, collided, fill, has_lists, refill, test_on_empty,
};
use refusing_allocator::RefusingAllocator;
use std::alloc::Allocator;
use std::hash::BuildHasher;
use test_helpers::{Failed, Test, lend, requests_until_enough, try_on_new};

const PAIRS: &[(u32, u32)] = &[(1, 1), (2, 2), (1, 3)];

const OTHER: &[(u32, u32)] = &[(3, 4), (1, 5), (4, 6), (3, 7)];

const JOINED: &[(u32, u32)] = &[(1, 1), (2, 2), (1, 3), (3, 4), (1, 5), (4, 6), (3, 7)];

// The same where the pairs of the other map replace those of their keys.
const MERGED: &[(u32, u32)] = &[(2, 2), (3, 4), (1, 5), (4, 6), (3, 7)];

/// Which of the two calls moves the pairs, and what it makes of them.
#[derive(Clone, Copy)]
struct Call {
    inserts: bool,
    pairs: &'static [(u32, u32)],
}

const APPEND: Call = Call {
    inserts: false,
    pairs: JOINED,
};

const INSERT: Call = Call {
    inserts: true,
    pairs: MERGED,
};

fn move_all<S: BuildHasher, T: BuildHasher, A: Allocator + Copy>(
    call: Call,
    map: &mut ListOrderedMultimap<u32, u32, S, A>,
    other: &mut ListOrderedMultimap<u32, u32, T, A>,
) -> bool {
    if call.inserts {
        map.insert_map(other).is_ok()
    } else {
        map.append_map(other).is_ok()
    }
}

// The keys are found by their hashes.
fn join<S: BuildHasher, T: BuildHasher>(
    test: &Test,
    call: Call,
    map: &mut MapBy<S>,
    other: &mut MapBy<T>,
) {
    refill(test, map, PAIRS);
    refill(test, other, OTHER);
    let room = (other.keys_capacity(), other.values_capacity());
    test.expect(move_all(call, map, other));
    test.expect(has_lists(map, call.pairs, &[1, 2, 3, 4]) && has_lists(other, &[], &[]));
    test.expect(map.entry_len(&1) == if call.inserts { 1 } else { 3 });
    test.expect(map.entry_len(&3) == 2);
    test.expect((other.keys_capacity(), other.values_capacity()) == room);
}

fn join_builders(test: &Test, map: &mut Numbers) {
    lend(collided(test.alloc()), |other| {
        for call in [APPEND, INSERT] {
            join(test, call, map, other);
            join(test, call, other, map);
        }
    });
}

#[test]
fn all_pairs_go_to_another_map(rt: HostRuntime) -> Result<(), Failed> {
    test_on_empty(rt.alloc(), join_builders)
}

// A map, and the other one.
type Both<A> = (Refusing<A>, Refusing<A>);

fn both_new<A: Allocator + Copy>(alloc: A) -> Both<A> {
    (Refusing::new(alloc), Refusing::new(alloc))
}

// Takes the pairs again, in the room that it has: behind one of its own, or in the place of three.
fn take_again<A: Allocator + Copy>(
    test: &Test,
    call: Call,
    map: &mut Refusing<A>,
    other: &mut Refusing<A>,
) {
    fill(test, other, OTHER);
    let inserts = call.inserts;
    map.retain(|_key, value| if inserts { *value != 7 } else { *value == 2 });
    let room = (map.keys_capacity(), map.values_capacity());
    test.expect(move_all(call, map, other));
    test.expect((map.keys_capacity(), map.values_capacity()) == room);
    test.expect(has_lists(
        map,
        MERGED,
        if call.inserts {
            &[1, 2, 3, 4]
        } else {
            &[2, 3, 1, 4]
        },
    ));
}

// Once the map has taken the pairs it needs no more memory, however often its slots are used up.
fn take_often<A: Allocator + Copy>(
    test: &Test,
    call: Call,
    map: &mut Refusing<A>,
    other: &mut Refusing<A>,
) {
    for _round in 0..8u32 {
        take_again(test, call, map, other);
    }
}

// It returns whether there was memory enough, with none left. Where there was not, both maps are as
// before.
fn moved<A: Allocator + Copy>(test: &Test, call: Call, both: &mut Both<A>) -> bool {
    let (map, other) = both;
    if !move_all(call, map, other) {
        test.expect(has_lists(map, PAIRS, &[1, 2]) && has_lists(other, OTHER, &[3, 1, 4]));
        return false;
    }
    test.expect(has_lists(map, call.pairs, &[1, 2, 3, 4]) && has_lists(other, &[], &[]));
    take_often(test, call, map, other);
    true
}

fn append_all<A: Allocator + Copy>(test: &Test, both: &mut Both<A>) -> bool {
    moved(test, APPEND, both)
}

fn insert_all<A: Allocator + Copy>(test: &Test, both: &mut Both<A>) -> bool {
    moved(test, INSERT, both)
}

fn fill_both<A: Allocator + Copy>(test: &Test, both: &mut Both<A>) {
    fill(test, &mut both.0, PAIRS);
    test.expect(both.0.pack_to_fit().is_ok());
    fill(test, &mut both.1, OTHER);
}

fn appends_with(test: &Test, granted: u64) -> bool {
    try_on_new!(test, granted; both_new; fill_both; append_all)
}

fn inserts_with(test: &Test, granted: u64) -> bool {
    try_on_new!(test, granted; both_new; fill_both; insert_all)
}

#[test]
fn a_refused_request_changes_neither_map(rt: HostRuntime) -> Result<(), Failed> {
    let test = Test::new(rt.alloc());
    // Two for the slots of keys, and three for those of values, also for those that replace others.
    test.expect(requests_until_enough(|granted| appends_with(&test, granted)) == Some(5));
    test.expect(requests_until_enough(|granted| inserts_with(&test, granted)) == Some(5));
    test.end()
}
