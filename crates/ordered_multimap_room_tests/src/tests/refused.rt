//! Each request of each call is refused in turn. Some additions are cases of the program.
use crate::tests::additions::{Call, fill_up, first, puts};
use crate::tests::room::pack_to;
use ordered_multimap::ListOrderedMultimap;
use ordered_multimap::list_ordered_multimap::{DefaultState, Entry, Refused, RefusedValue};
use ordered_multimap_callers::maps::{Numbers, Refusing, appends, has_lists, has_room, map_of};
use refusing_allocator::RefusingAllocator;
use std::alloc::{AllocError, Allocator};
use test_helpers::{Failed, Test, lend, lend_made, requests_until_enough, try_on_new};

#[derive(Clone, Copy)]
enum Try {
    PutIntoNew(Call),
    PutIntoFull(Call),
    Room(Room),
    Extend,
    ExtendCopied,
    ExtendByTrait,
    ExtendCopiedByTrait,
    AppendMany,
    EntryAppendMany,
}

// A call, and how many requests it makes at least. Key slots, table and value slots each ask for a
// block, and a packing for one more, which notes the new places.
const TRIES: &[(Try, u64)] = &[
    (Try::PutIntoNew(Call::Append), 3),
    (Try::PutIntoNew(Call::Insert), 3),
    (Try::PutIntoNew(Call::InsertAll), 3),
    (Try::PutIntoNew(Call::Set), 3),
    (Try::PutIntoNew(Call::OrInsert), 3),
    (Try::PutIntoNew(Call::OrInsertWith), 3),
    (Try::PutIntoNew(Call::OrInsertEntry), 3),
    (Try::PutIntoNew(Call::OrInsertWithEntry), 3),
    (Try::PutIntoNew(Call::OrTryInsertWith), 3),
    (Try::PutIntoNew(Call::OrTryInsertWithEntry), 3),
    (Try::PutIntoNew(Call::VacantInsert), 3),
    (Try::PutIntoNew(Call::VacantInsertEntry), 3),
    (Try::PutIntoFull(Call::Append), 1),
    (Try::PutIntoFull(Call::InsertAll), 1),
    (Try::PutIntoFull(Call::OccupiedAppend), 1),
    (Try::PutIntoFull(Call::OccupiedInsertAll), 1),
    (Try::Room(Room::ReserveKeys), 2),
    (Try::Room(Room::ReserveValues), 1),
    (Try::Room(Room::PackTo), 4),
    (Try::Room(Room::PackToFit), 4),
    (Try::Extend, 3),
    (Try::ExtendCopied, 3),
    (Try::ExtendByTrait, 3),
    (Try::ExtendCopiedByTrait, 3),
    (Try::AppendMany, 4),
    (Try::EntryAppendMany, 1),
];

fn prepare<A: Allocator + Copy>(test: &Test, map: &mut Refusing<A>, call: Try) {
    match call {
        Try::PutIntoFull(_) => fill_up(test, map),
        Try::Room(_) => keep_three(test, map),
        Try::EntryAppendMany => test.expect(map.append(5, 1) == Ok(false)),
        _ => {}
    }
}

fn tries<A: Allocator + Copy>(
    test: &Test,
    map: &mut Refusing<A>,
    call: Try,
    copy: &Numbers,
) -> bool {
    match call {
        Try::PutIntoNew(call) | Try::PutIntoFull(call) => puts(test, map, call),
        Try::Room(call) => is_made(test, map, call),
        _ => add(test, map, call, copy),
    }
}

fn add<A: Allocator + Copy>(test: &Test, map: &mut Refusing<A>, call: Try, copy: &Numbers) -> bool {
    match call {
        Try::ExtendCopied => {
            let answer = map.extend_copied(copy.iter());
            is_extended_or_refused(test, map, answer)
        }
        // By std's trait, which code over any collection calls, and which drops a refused pair.
        Try::ExtendByTrait => {
            let enough = Extend::extend(map, PAIRS.iter().copied()).is_ok();
            is_extended(test, map, enough)
        }
        Try::ExtendCopiedByTrait => {
            let enough = Extend::extend(map, copy.iter()).is_ok();
            is_extended(test, map, enough)
        }
        Try::AppendMany => append_many(test, map),
        Try::EntryAppendMany => entry_append_many(test, map),
        _ => extend(test, map),
    }
}

// Values of one key, for which the slots grow twice.
const MANY: &[(u32, u32)] = &[
    (5, 1),
    (5, 2),
    (5, 3),
    (5, 4),
    (5, 5),
    (5, 6),
    (5, 7),
    (5, 8),
    (5, 9),
    (5, 10),
    (5, 11),
    (5, 12),
    (5, 13),
    (5, 14),
    (5, 15),
    (5, 16),
    (5, 17),
];

const VALUES: &[u32] = &[1, 2, 3, 4, 5, 6, 7, 8, 9, 10, 11, 12, 13, 14, 15, 16, 17];

// It returns whether there was memory for all values. The key comes back with the first one alone.
fn append_many<A: Allocator + Copy>(test: &Test, map: &mut Refusing<A>) -> bool {
    let mut values = VALUES.iter().copied();
    let answer = map.append_many(5, &mut values);
    let count = map.values_len();
    let left = values.len();
    test.expect(has_lists(map, first(MANY, count), first(&[5], count)));
    match answer {
        Ok(all) => {
            test.expect((all, count, left) == (17, 17, 0));
            true
        }
        Err(Refused { key, value }) => {
            test.expect(key == if count == 0 { Some(5) } else { None });
            test.expect(MANY.get(count).copied() == Some((5, value)));
            test.expect(left == MANY.len().saturating_sub(count.saturating_add(1)));
            false
        }
    }
}

// The same by the entry of the key, which has the first value. The entry hands no key back.
fn entry_append_many<A: Allocator + Copy>(test: &Test, map: &mut Refusing<A>) -> bool {
    let mut values = VALUES.iter().copied();
    test.expect(values.next() == Some(1));
    let answer = match map.entry(5) {
        Entry::Occupied(mut entry) => entry.append_many(&mut values),
        Entry::Vacant(_) => Ok(0),
    };
    let count = map.values_len();
    let left = values.len();
    test.expect(has_lists(map, first(MANY, count), &[5]));
    match answer {
        Ok(all) => {
            test.expect((all, count, left) == (16, 17, 0));
            true
        }
        Err(RefusedValue { value }) => {
            test.expect(MANY.get(count).copied() == Some((5, value)));
            test.expect(left == MANY.len().saturating_sub(count.saturating_add(1)));
            false
        }
    }
}

fn tries_with(test: &Test, granted: u64, call: Try, copy: &Numbers) -> bool {
    try_on_new!(test, granted; ListOrderedMultimap::new; prepare, call; tries, call, copy)
}

fn all_are_tried(test: &Test, copy: &Numbers) {
    for (row, (call, least)) in TRIES.iter().enumerate() {
        let enough = requests_until_enough(|granted| tries_with(test, granted, *call, copy));
        test.expect_at(row, enough.unwrap_or(0) >= *least);
    }
    let enough = requests_until_enough(|granted| from_iter_with(test, granted));
    test.expect(enough.unwrap_or(0) >= 3);
    let enough = requests_until_enough(|granted| collect_with(test, granted));
    test.expect(enough.unwrap_or(0) >= 3);
}

#[test]
fn a_refused_request_changes_nothing(rt: HostRuntime) -> Result<(), Failed> {
    let test = Test::new(rt.alloc());
    lend(map_of(&test, PAIRS), |copy| all_are_tried(&test, copy));
    test.end()
}

const PAIRS: &[(u32, u32)] = &[(1, 1), (2, 2), (3, 3)];

const KEYS: &[u32] = &[1, 2, 3];

// The refused pair is the one behind the first so many.
fn comes_back(test: &Test, count: usize, refused: Refused<u32, u32>) {
    let pair = (refused.key, refused.value);
    test.expect(PAIRS.get(count).copied() == Some(pair));
}

// What an extension leaves. It returns whether there was memory for all pairs.
fn is_extended<A: Allocator + Copy>(test: &Test, map: &Refusing<A>, enough: bool) -> bool {
    let count = map.values_len();
    let lists = has_lists(map, first(PAIRS, count), first(KEYS, count));
    test.expect(lists && (!enough || count == 3));
    enough
}

// The same where a refused pair comes back.
fn is_extended_or_refused<A: Allocator + Copy>(
    test: &Test,
    map: &Refusing<A>,
    answer: Result<(), Refused<u32, u32>>,
) -> bool {
    let enough = is_extended(test, map, answer.is_ok());
    if let Err(refused) = answer {
        comes_back(test, map.values_len(), refused);
    }
    enough
}

// It returns whether there was memory for all pairs. Those behind a refused one are left.
fn extend<A: Allocator + Copy>(test: &Test, map: &mut Refusing<A>) -> bool {
    let mut pairs = PAIRS.iter().copied();
    let answer = map.extend(&mut pairs);
    let given = PAIRS.len().saturating_sub(pairs.len());
    test.expect(given == map.values_len().saturating_add(1).min(PAIRS.len()));
    is_extended_or_refused(test, map, answer)
}

fn collect_with(test: &Test, granted: u64) -> bool {
    let allocator = RefusingAllocator::new(test.alloc(), granted);
    lend_made(
        PAIRS.iter().copied().collect(&allocator),
        |map: &mut Refusing<_>| test.expect(has_lists(map, PAIRS, KEYS)),
        |_refused: AllocError| {},
    )
}

// Makes a map. A refused pair comes back, and those behind it are left in the iterator.
fn from_iter_with(test: &Test, granted: u64) -> bool {
    let allocator = RefusingAllocator::new(test.alloc(), granted);
    let mut pairs = PAIRS.iter().copied();
    let made = ListOrderedMultimap::from_iter(&allocator, DefaultState::new(), &mut pairs);
    let given = PAIRS.len().saturating_sub(pairs.len());
    lend_made(
        made,
        |map| test.expect(has_lists(map, PAIRS, KEYS)),
        |refused| comes_back(test, given.saturating_sub(1), refused),
    )
}

#[derive(Clone, Copy)]
enum Room {
    ReserveKeys,
    ReserveValues,
    PackTo,
    PackToFit,
}

fn makes_room<A: Allocator + Copy>(test: &Test, map: &mut Refusing<A>, call: Room) -> bool {
    match call {
        Room::ReserveKeys => map.reserve_keys(100).is_ok(),
        Room::ReserveValues => map.reserve_values(100).is_ok(),
        Room::PackTo => pack_to(test, map, 5, 5),
        Room::PackToFit => map.pack_to_fit().is_ok(),
    }
}

// Leaves three pairs, with a hole among the keys and one among the values.
fn keep_three<A: Allocator + Copy>(test: &Test, map: &mut Refusing<A>) {
    test.expect(appends(map, 1, 11, false));
    test.expect(appends(map, 2, 12, false));
    test.expect(appends(map, 3, 13, false));
    test.expect(appends(map, 1, 14, true));
    test.expect(map.remove(&2) == Some(12));
}

fn room_of(call: Room) -> (usize, usize) {
    match call {
        Room::ReserveKeys => (102, 3),
        Room::ReserveValues => (2, 103),
        Room::PackTo => (5, 5),
        Room::PackToFit => (2, 3),
    }
}

fn is_made<A: Allocator + Copy>(test: &Test, map: &mut Refusing<A>, call: Room) -> bool {
    let made = makes_room(test, map, call);
    let room = room_of(call);
    test.expect(!made || has_room(map, room.0, room.1));
    let lists = has_lists(map, &[(1, 11), (3, 13), (1, 14)], &[1, 3]);
    test.expect(lists);
    made
}
