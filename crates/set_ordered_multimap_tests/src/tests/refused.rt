//! Each call that grows is refused each request in turn; what needs no memory is refused all.
use crate::tests::sets::{Refusing, has_lists, refill};
use ordered_multimap::ListOrderedMultimap;
use ordered_multimap::list_ordered_multimap::{DefaultState, Refused};
use refusing_allocator::RefusingAllocator;
use set_ordered_multimap::SetOrderedMultimap;
use std::alloc::{AllocError, Allocator};
use test_helpers::{
    Failed, Test, copied, lend_made, requests_until_enough, test_on_new, try_on_new,
};

type Pairs = &'static [(u32, u32)];

#[derive(Clone, Copy)]
enum Try {
    // Of a new pair of the key 1, where the set has these pairs, of these keys, and no more room.
    Insert(Pairs, &'static [u32]),
    Extend,
    // By std's trait.
    ExtendByTrait,
    Clone,
    // Calls that make no request.
    NeedNone,
    // Pairs that a full set has.
    ExtendByPresent,
}

// A call, and how many requests it makes at least. A new set makes key slots, a table and value
// slots.
const TRIES: &[(Try, u64)] = &[
    (Try::Insert(&[], &[]), 3),
    (Try::Insert(FULL, &[1]), 1),
    (Try::Insert(&[(2, 1), (2, 2), (2, 3), (2, 4)], &[2]), 1),
    (Try::Extend, 3),
    (Try::ExtendByTrait, 3),
    (Try::Clone, 3),
];

const NEW: (u32, u32) = (1, 5);

// Pairs of which one comes twice, the set of them, and how many are left behind the one that comes
// next to so many of the set.
const PAIRS: &[(u32, u32)] = &[(1, 1), (2, 2), (1, 1), (3, 3)];

// Pairs of a set that has no more room.
const FULL: &[(u32, u32)] = &[(1, 1), (1, 2), (1, 3), (1, 4)];

const FIRST: &[(u32, u32)] = &[(1, 1), (2, 2), (3, 3)];

const LEFT: &[usize] = &[3, 2, 0, 0];

const KEYS: &[u32] = &[1, 2, 3];

// Whether the set has all of the pairs, each once.
fn has_all<A: Allocator>(set: &Refusing<A>) -> bool {
    has_lists(set, FIRST, KEYS)
}

// Whether the new pair stands last, once.
fn stands_last<A: Allocator + Copy>(set: &Refusing<A>, before: Pairs) -> bool {
    set.values_len() == before.len().saturating_add(1)
        && copied(set.iter().next_back()) == Some(NEW)
        && set.contains(&NEW.0, &NEW.1)
}

fn refused_pair(refused: Refused<u32, u32>) -> (u32, u32) {
    (refused.key, refused.value)
}

fn put<A: Allocator + Copy>(
    test: &Test,
    set: &mut Refusing<A>,
    before: Pairs,
    keys: &[u32],
) -> bool {
    let given = set.insert(NEW.0, NEW.1).map_err(refused_pair);
    test.expect(match given {
        Ok(new) => new && stands_last(set, before),
        Err(pair) => pair == NEW && has_lists(set, before, keys),
    });
    given.is_ok()
}

// The pair that was refused, if one was, and how many are left in the iterator.
fn extended<A: Allocator + Copy>(
    set: &mut Refusing<A>,
    pairs: &[(u32, u32)],
) -> (Result<(), (u32, u32)>, usize) {
    let mut pairs = pairs.iter().copied();
    let given = set.extend(&mut pairs).map_err(refused_pair);
    (given, pairs.len())
}

// How many of the pairs the set has, of which the one behind these was the last that was read.
fn stopped<A: Allocator>(test: &Test, set: &Refusing<A>, left: usize) -> usize {
    let count = set.values_len().min(3);
    test.expect(has_lists(set, &FIRST[..count], &KEYS[..count]));
    test.expect(LEFT.get(count).copied() == Some(left));
    count
}

// Inserts all pairs. The refused one is the one behind those that the set has then.
fn extend<A: Allocator + Copy>(test: &Test, set: &mut Refusing<A>) -> bool {
    let (given, left) = extended(set, PAIRS);
    let count = stopped(test, set, left);
    test.expect(FIRST.get(count).copied() == given.err());
    given.is_ok()
}

// The same by the trait, whose error has no pair.
fn extend_by_trait<A: Allocator + Copy>(test: &Test, set: &mut Refusing<A>) -> bool {
    let mut pairs = PAIRS.iter().copied();
    let enough = Extend::extend(set, &mut pairs).is_ok();
    test.expect(enough == (stopped(test, set, pairs.len()) == 3));
    enough
}

// Inserts pairs that a full set has. There is no room for one that it doesn't have.
fn extend_by_present<A: Allocator + Copy>(test: &Test, set: &mut Refusing<A>) -> bool {
    test.expect(set.values_len() == set.values_capacity());
    let given = extended(set, &[(1, 2), (1, 4)]);
    test.expect(given == (Ok(()), 0));
    test.expect(has_lists(set, FULL, &[1]));
    true
}

fn clone_of<A: Allocator + Copy>(test: &Test, set: &Refusing<A>) -> bool {
    let is_copy = |copy: &mut Refusing<A>| test.expect(has_all(copy));
    let cloned = lend_made(set.clone(), is_copy, |_refused| {});
    test.expect(has_all(set));
    cloned
}

// The calls that make no request. They take all pairs out.
fn need_none<A: Allocator + Copy>(test: &Test, set: &mut Refusing<A>) -> bool {
    test.expect(set.insert(2, 2) == Ok(false));
    test.expect(set.remove_value(&2, &2));
    test.expect(set.insert(2, 7) == Ok(true));
    set.retain(|_key, value| *value != 7);
    values_leave(test, set);
    ends_leave(test, set);
    test.expect(has_lists(set, &[], &[]));
    true
}

fn values_leave<A: Allocator + Copy>(test: &Test, set: &mut Refusing<A>) {
    test.expect(set.insert(1, 5) == Ok(true) && set.insert(3, 5) == Ok(true));
    test.expect(set.remove_index(&1, 1) == Some(5));
    set.retain_all(&3, |value| *value != 5);
    test.expect(has_lists(set, &[(1, 1), (3, 3)], &[1, 3]));
}

fn ends_leave<A: Allocator + Copy>(test: &Test, set: &mut Refusing<A>) {
    test.expect(set.pop_back_with(|popped| popped.is_some()));
    test.expect(set.remove_all(&1).next() == Some(1));
}

fn pairs_before(call: Try) -> &'static [(u32, u32)] {
    match call {
        Try::Insert(pairs, _) => pairs,
        Try::ExtendByPresent => FULL,
        Try::Extend | Try::ExtendByTrait => &[],
        Try::Clone | Try::NeedNone => FIRST,
    }
}

fn fill<A: Allocator + Copy>(test: &Test, set: &mut Refusing<A>, call: Try) {
    refill(test, set, pairs_before(call));
    match call {
        Try::Insert(..) | Try::ExtendByPresent => test.expect(set.pack_to_fit().is_ok()),
        _ => {}
    }
}

fn tries<A: Allocator + Copy>(test: &Test, set: &mut Refusing<A>, call: Try) -> bool {
    match call {
        Try::Insert(before, keys) => put(test, set, before, keys),
        Try::Extend => extend(test, set),
        Try::ExtendByTrait => extend_by_trait(test, set),
        Try::Clone => clone_of(test, set),
        Try::NeedNone => need_none(test, set),
        Try::ExtendByPresent => extend_by_present(test, set),
    }
}

fn tries_with(test: &Test, granted: u64, call: Try) -> bool {
    try_on_new!(test, granted; SetOrderedMultimap::new; fill, call; tries, call)
}

fn from_iter_with(test: &Test, granted: u64) -> bool {
    let allocator = RefusingAllocator::new(test.alloc(), granted);
    lend_made(
        SetOrderedMultimap::from_iter(&allocator, DefaultState::new(), PAIRS.iter().copied()),
        |set| test.expect(has_all(set)),
        |refused| test.expect(FIRST.contains(&refused_pair(refused))),
    )
}

fn collect_with(test: &Test, granted: u64) -> bool {
    let allocator = RefusingAllocator::new(test.alloc(), granted);
    lend_made(
        PAIRS.iter().copied().collect(&allocator),
        |set: &mut Refusing<_>| test.expect(has_all(set)),
        |_refused: AllocError| {},
    )
}

#[test]
fn a_refused_request_changes_nothing(rt: HostRuntime) -> Result<(), Failed> {
    let test = Test::new(rt.alloc());
    for (row, (call, least)) in TRIES.iter().enumerate() {
        let enough = requests_until_enough(|granted| tries_with(&test, granted, *call));
        test.expect_at(row, enough.unwrap_or(0) >= *least);
    }
    let made = requests_until_enough(|granted| from_iter_with(&test, granted));
    let collected = requests_until_enough(|granted| collect_with(&test, granted));
    test.expect(made.unwrap_or(0) >= 3 && collected == made);
    test.expect(tries_with(&test, 0, Try::NeedNone));
    test.expect(tries_with(&test, 0, Try::ExtendByPresent));
    test.end()
}

// A map of the pairs, of which one comes twice.
type Lender = ListOrderedMultimap<u32, u32>;

// Inserts copies of all pairs. The refused one is the one behind those that the set has then.
fn extend_copied<A: Allocator + Copy>(test: &Test, set: &mut Refusing<A>, lender: &Lender) -> bool {
    let mut pairs = lender.iter();
    let given = set.extend_copied(&mut pairs).map_err(refused_pair);
    let count = stopped(test, set, pairs.len());
    test.expect(FIRST.get(count).copied() == given.err());
    given.is_ok()
}

fn copies_with(test: &Test, granted: u64, lender: &Lender) -> bool {
    try_on_new!(test, granted; SetOrderedMultimap::new; refill, &[]; extend_copied, lender)
}

fn each_copy_is_refused(test: &Test, lender: &mut Lender) {
    test.expect(lender.extend(PAIRS.iter().copied()).is_ok());
    let enough = requests_until_enough(|granted| copies_with(test, granted, lender));
    test.expect(enough.unwrap_or(0) >= 3);
}

#[test]
fn a_refused_copy_comes_back(rt: HostRuntime) -> Result<(), Failed> {
    test_on_new(rt.alloc(), ListOrderedMultimap::new, each_copy_is_refused)
}
