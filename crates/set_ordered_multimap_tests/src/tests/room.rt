//! Room that a set is made with, reserves or gives up, with each request refused in turn.
use crate::tests::sets::{Refusing, SetBy, has_lists, refill};
use ordered_multimap::list_ordered_multimap::DefaultState;
use refusing_allocator::RefusingAllocator;
use set_ordered_multimap::SetOrderedMultimap;
use std::alloc::{AllocError, Allocator};
use std::hash::BuildHasher;
use test_helpers::{Constant, Failed, Test, ZERO, lend_made, requests_until_enough, try_on_new};

// Room for keys and pairs.
type Room = (usize, usize);

#[derive(Clone, Copy)]
enum Call {
    ReserveKeys,
    ReserveValues,
    PackTo,
    PackToFit,
}

// A call, the room that there is then, and how many requests it makes at least. Before it there is
// room for a hundred more keys and pairs.
const CALLS: &[(Call, Room, u64)] = &[
    (Call::ReserveKeys, (202, 3), 2),
    (Call::ReserveValues, (2, 203), 1),
    (Call::PackTo, (5, 6), 4),
    (Call::PackToFit, (2, 3), 4),
];

const PAIRS: &[(u32, u32)] = &[(1, 11), (3, 13), (1, 14)];

fn has_room<S: BuildHasher, A: Allocator>(set: &SetBy<S, A>, room: Room) -> bool {
    set.keys_capacity() >= room.0 && set.values_capacity() >= room.1
}

// Packs a set that has no more keys and pairs than these.
fn packs_to<A: Allocator + Copy>(test: &Test, set: &mut Refusing<A>, room: Room) -> bool {
    if set.keys_len() > room.0 || set.values_len() > room.1 {
        test.fail();
        return false;
    }
    set.pack_to(room.0, room.1).is_ok()
}

fn makes_room<A: Allocator + Copy>(test: &Test, set: &mut Refusing<A>, call: Call) -> bool {
    match call {
        Call::ReserveKeys => set.reserve_keys(200).is_ok(),
        Call::ReserveValues => set.reserve_values(200).is_ok(),
        Call::PackTo => packs_to(test, set, (5, 6)),
        Call::PackToFit => set.pack_to_fit().is_ok(),
    }
}

// Leaves three pairs in a set with room, and holes where others were.
fn leave_three<A: Allocator + Copy>(test: &Test, set: &mut Refusing<A>) {
    refill(test, set, &[(1, 11), (2, 12), (3, 13), (1, 14)]);
    test.expect(set.reserve_keys(100).is_ok() && set.reserve_values(100).is_ok());
    test.expect(set.remove_value(&2, &12));
}

// Returns whether there was memory enough. The lists are as before, and so is the room if not.
fn is_made<A: Allocator + Copy>(
    test: &Test,
    set: &mut Refusing<A>,
    call: Call,
    room: Room,
) -> bool {
    let made = makes_room(test, set, call);
    test.expect(has_room(set, if made { room } else { (102, 103) }));
    let packed = matches!(call, Call::PackTo | Call::PackToFit);
    test.expect(has_room(set, (102, 103)) != (made && packed));
    test.expect(has_lists(set, PAIRS, &[1, 3]));
    made
}

fn makes_with(test: &Test, granted: u64, call: Call, room: Room) -> bool {
    try_on_new!(test, granted; SetOrderedMultimap::new; leave_three; is_made, call, room)
}

#[test]
fn refused_room_leaves_both_lists(rt: HostRuntime) -> Result<(), Failed> {
    let test = Test::new(rt.alloc());
    for (row, (call, room, least)) in CALLS.iter().enumerate() {
        let enough = requests_until_enough(|granted| makes_with(&test, granted, *call, *room));
        test.expect_at(row, enough.unwrap_or(0) >= *least);
    }
    test.end()
}

// Whether a set was made; where it was, it has the room and no pair.
fn is_new<S: BuildHasher + Drop, A: Allocator + Copy>(
    test: &Test,
    made: Result<SetBy<S, A>, AllocError>,
    room: Room,
) -> bool {
    lend_made(
        made,
        |set: &mut SetBy<S, A>| test.expect(has_room(set, room) && set.is_empty()),
        |_refused| {},
    )
}

fn new_with(test: &Test, granted: u64, room: Room) -> bool {
    let allocator = RefusingAllocator::new(test.alloc(), granted);
    let made = SetOrderedMultimap::with_capacity(&allocator, room.0, room.1);
    is_new::<DefaultState, _>(test, made, room)
}

fn new_with_hasher(test: &Test, granted: u64, room: Room) -> bool {
    let allocator = RefusingAllocator::new(test.alloc(), granted);
    let made = SetOrderedMultimap::with_capacity_and_hasher(&allocator, room.0, room.1, ZERO);
    is_new::<Constant, _>(test, made, room)
}

// Room, and how many requests it takes at least.
const ROOMS: &[(Room, u64)] = &[((0, 0), 0), ((0, 5), 1), ((5, 0), 2), ((1, 2), 3)];

fn room_is_made(test: &Test, row: usize, room: Room, least: u64) {
    let enough = requests_until_enough(|granted| new_with(test, granted, room));
    test.expect_at(row, enough.unwrap_or(0) >= least);
    test.expect_at(row, least > 0 || enough == Some(0));
    let alike = requests_until_enough(|granted| new_with_hasher(test, granted, room));
    test.expect_at(row, alike == enough);
}

#[test]
fn each_request_of_a_new_set_is_refused(rt: HostRuntime) -> Result<(), Failed> {
    let test = Test::new(rt.alloc());
    for (row, (room, least)) in ROOMS.iter().enumerate() {
        room_is_made(&test, row, *room, *least);
    }
    test.end()
}
