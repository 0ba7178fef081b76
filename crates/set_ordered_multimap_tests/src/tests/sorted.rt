//! Keys, and pairs, of a set that are sorted where memory is refused.
use crate::tests::sets::{Refusing, has_lists, refill};
use refusing_allocator::RefusingAllocator;
use set_ordered_multimap::SetOrderedMultimap;
use std::alloc::Allocator;
use test_helpers::{
    ASCENDING, Failed, SHUFFLED, Test, copied, gives, requests_until_enough, try_on_new,
};

#[derive(Clone, Copy)]
enum Sort {
    Keys,
    // The greatest first.
    KeysBy,
    // By the value.
    Pairs,
}

// A sort, the keys of the pairs and the keys then, and its requests: for places, sort and tape.
const SORTS: &[(Sort, &[u32], &[u32], u64)] = &[
    (Sort::Keys, KEYS, ASCENDING, 2),
    (Sort::KeysBy, KEYS, DESCENDING, 2),
    (Sort::Pairs, DESCENDING, KEYS, 5),
];

// The keys of the tests. Each has one value, by which the greatest key comes first.
const KEYS: &[u32] = SHUFFLED;

const DESCENDING: &[u32] = &[
    21, 20, 19, 18, 17, 16, 15, 14, 13, 12, 11, 10, 9, 8, 7, 6, 5, 4, 3, 2, 1,
];

fn pair_of(key: u32) -> (u32, u32) {
    (key, 122u32.saturating_sub(key))
}

// Whether the pairs are those of the first keys, and the keys the others.
fn stand<A: Allocator>(set: &Refusing<A>, of_pairs: &[u32], keys: &[u32]) -> bool {
    let mut walk = set.iter();
    let mut same = true;
    for key in of_pairs {
        same = same && copied(walk.next()) == Some(pair_of(*key));
    }
    same && walk.next().is_none() && gives(&mut set.keys(), keys)
}

// Returns whether there was memory enough.
fn is_sorted<A: Allocator + Copy>(set: &mut Refusing<A>, sort: Sort) -> bool {
    match sort {
        Sort::Keys => set.sort_keys().is_ok(),
        Sort::KeysBy => set.sort_keys_by(|a, b| b.cmp(a)).is_ok(),
        Sort::Pairs => set.sort_by(|_, value, _, other| value.cmp(other)).is_ok(),
    }
}

fn insert_pairs<A: Allocator + Copy>(test: &Test, set: &mut Refusing<A>) {
    for key in KEYS {
        let (key, value) = pair_of(*key);
        test.expect(set.insert(key, value) == Ok(true));
    }
}

// Sorts a set of the pairs. Where there is not enough memory, both lists are as before.
fn sorts<A: Allocator + Copy>(
    test: &Test,
    set: &mut Refusing<A>,
    sort: Sort,
    sorted: (&[u32], &[u32]),
) -> bool {
    let enough = is_sorted(set, sort);
    let (of_pairs, keys) = if enough { sorted } else { (KEYS, KEYS) };
    test.expect(stand(set, of_pairs, keys));
    enough
}

fn sorts_with(test: &Test, granted: u64, sort: Sort, sorted: (&[u32], &[u32])) -> bool {
    try_on_new!(test, granted; SetOrderedMultimap::new; insert_pairs; sorts, sort, sorted)
}

fn row_is_sorted(test: &Test, row: usize, sort: Sort, sorted: (&[u32], &[u32]), requests: u64) {
    let enough = requests_until_enough(|granted| sorts_with(test, granted, sort, sorted));
    test.expect_at(row, enough == Some(requests));
}

fn sorts_in_place<A: Allocator + Copy>(
    test: &Test,
    set: &mut Refusing<A>,
    pairs: &[(u32, u32)],
    keys: &[u32],
) -> bool {
    for (row, (sort, _, _, _)) in SORTS.iter().enumerate() {
        test.expect_at(row, is_sorted(set, *sort));
    }
    has_lists(set, pairs, keys)
}

// No memory is granted.
fn stays_sorted(test: &Test, pairs: &[(u32, u32)], keys: &[u32]) -> bool {
    try_on_new!(test, 0; SetOrderedMultimap::new; refill, pairs; sorts_in_place, pairs, keys)
}

#[test]
fn a_refused_sort_changes_neither_list(rt: HostRuntime) -> Result<(), Failed> {
    let test = Test::new(rt.alloc());
    for (row, (sort, pairs, keys, requests)) in SORTS.iter().enumerate() {
        row_is_sorted(&test, row, *sort, (pairs, keys), *requests);
    }
    test.expect(stays_sorted(&test, &[], &[]));
    test.expect(stays_sorted(&test, &[(1, 11)], &[1]));
    test.end()
}
