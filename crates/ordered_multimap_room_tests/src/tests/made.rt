//! Maps that are made with room, or cloned, with each request refused, and room that no memory has.
use ordered_multimap::ListOrderedMultimap;
use ordered_multimap::list_ordered_multimap::DefaultState;
use ordered_multimap_callers::maps::{Numbers, appends, has_lists, has_room};
use refusing_allocator::RefusingAllocator;
use std::alloc::{AllocError, Allocator};
use std::hash::BuildHasher;
use test_helpers::{
    Constant, Failed, Test, ZERO, is_shown, lend_made, requests_until_enough, try_on_new,
};

// Whether a map was made; where it was, it has the room and no pair.
fn is_made<S: BuildHasher + Drop, A: Allocator + Copy>(
    test: &Test,
    made: Result<ListOrderedMultimap<u32, u32, S, A>, AllocError>,
    room: (usize, usize),
) -> bool {
    lend_made(
        made,
        |map: &mut ListOrderedMultimap<u32, u32, S, A>| {
            test.expect(has_room(map, room.0, room.1) && map.is_empty())
        },
        |_refused| {},
    )
}

fn makes(test: &Test, granted: u64, room: (usize, usize)) -> bool {
    let allocator = RefusingAllocator::new(test.alloc(), granted);
    let made = ListOrderedMultimap::with_capacity(&allocator, room.0, room.1);
    is_made::<DefaultState, _>(test, made, room)
}

fn makes_with_hasher(test: &Test, granted: u64, room: (usize, usize)) -> bool {
    let allocator = RefusingAllocator::new(test.alloc(), granted);
    let made = ListOrderedMultimap::with_capacity_and_hasher(&allocator, room.0, room.1, ZERO);
    is_made::<Constant, _>(test, made, room)
}

/// Room for keys and values, and how many requests it takes at least.
const ROOMS: &[((usize, usize), u64)] = &[((0, 0), 0), ((0, 5), 1), ((5, 0), 2), ((1, 2), 3)];

fn room_is_made(test: &Test, at: usize, room: (usize, usize), least: u64) {
    let enough = requests_until_enough(|granted| makes(test, granted, room));
    test.expect_at(at, enough.unwrap_or(0) >= least);
    test.expect_at(at, least > 0 || enough == Some(0));
    let alike = requests_until_enough(|granted| makes_with_hasher(test, granted, room));
    test.expect_at(at, alike == enough);
}

#[test]
fn each_request_of_a_new_map_is_refused(rt: HostRuntime) -> Result<(), Failed> {
    let test = Test::new(rt.alloc());
    for (at, (room, least)) in ROOMS.iter().enumerate() {
        room_is_made(&test, at, *room, *least);
    }
    test.end()
}

const TOO_MUCH: &[(usize, usize)] = &[(usize::MAX, 0), (0, usize::MAX), (0, usize::MAX / 2)];

/// Room for more than there can be is refused, and the map is as before.
pub fn room_is_refused(test: &Test, map: &mut Numbers) {
    map.clear();
    test.expect(appends(map, 7, 70, false));
    test.expect(map.reserve_keys(usize::MAX).is_err());
    test.expect(map.reserve_values(usize::MAX).is_err());
    let half = usize::MAX / 2;
    test.expect(map.reserve_values(half).is_err());
    test.expect(has_lists(map, &[(7, 70)], &[7]));
}

#[test]
fn more_than_there_can_be_is_refused(rt: HostRuntime) -> Result<(), Failed> {
    let test = Test::new(rt.alloc());
    for (at, room) in TOO_MUCH.iter().enumerate() {
        test.expect_at(at, !makes(&test, u64::MAX, *room));
        let made = makes_with_hasher(&test, u64::MAX, *room);
        test.expect_at(at, !made);
    }
    test.end()
}

type Texts<A> = ListOrderedMultimap<String<A>, String<A>, DefaultState, A>;

fn text<A: Allocator + Copy>(test: &Test, allocator: A, letter: char) -> String<A> {
    let mut text = String::new(allocator);
    test.expect(text.push(letter).is_ok());
    text
}

fn insert<A: Allocator + Copy>(test: &Test, map: &mut Texts<A>, pair: (char, char)) {
    let key = text(test, *map.allocator(), pair.0);
    let value = text(test, *map.allocator(), pair.1);
    test.expect(map.insert(key, value).is_ok());
}

/// What a map is made of, and what it is then: the pairs that are inserted, a key that is removed then,
/// one that becomes the last key, and the keys and the pairs as they are shown.
struct Made {
    pairs: &'static [(char, char)],
    removed: &'static str,
    last: &'static str,
    keys: &'static str,
    shown: &'static str,
}

fn has_lists_of<A: Allocator + Copy>(test: &Test, map: &Texts<A>, made: &Made) {
    test.expect(is_shown(test.alloc(), &map.keys(), made.keys));
    test.expect(is_shown(test.alloc(), map, made.shown));
}

/// How maps are made, and how many requests their clones take.
const CLONED: &[(Made, u64)] = &[
    // Two each for keys and table, three for values, four for texts.
    (
        Made {
            pairs: &[('a', 'z'), ('b', 'y')],
            removed: "",
            last: "",
            keys: r#"Keys(["a", "b"])"#,
            shown: r#"{"a": "z", "b": "y"}"#,
        },
        11,
    ),
    // And one for the keys' new places, since the first key comes last.
    (
        Made {
            pairs: &[('a', 'z'), ('b', 'y')],
            removed: "",
            last: "a",
            keys: r#"Keys(["b", "a"])"#,
            shown: r#"{"a": "z", "b": "y"}"#,
        },
        12,
    ),
    // And one for the values' ranks: the second pair replaces the first, which leaves a hole.
    (
        Made {
            pairs: &[('a', 'x'), ('a', 'z'), ('b', 'y')],
            removed: "",
            last: "",
            keys: r#"Keys(["a", "b"])"#,
            shown: r#"{"a": "z", "b": "y"}"#,
        },
        13,
    ),
    // A key that goes leaves a hole among the keys too.
    (
        Made {
            pairs: &[('c', 'x'), ('a', 'z'), ('b', 'y')],
            removed: "c",
            last: "",
            keys: r#"Keys(["a", "b"])"#,
            shown: r#"{"a": "z", "b": "y"}"#,
        },
        13,
    ),
];

fn make<A: Allocator + Copy>(test: &Test, map: &mut Texts<A>, made: &Made) {
    for pair in made.pairs {
        insert(test, map, *pair);
    }
    let _removed = map.remove(made.removed);
    let _moved = map.move_key_to_back(made.last);
}

// The map is as it was. It returns whether there was memory for a clone.
fn clones<A: Allocator + Copy>(test: &Test, map: &mut Texts<A>, made: &Made) -> bool {
    let is_copy = |copy: &mut Texts<A>| has_lists_of(test, copy, made);
    let cloned = lend_made(map.clone(), is_copy, |_refused| {});
    has_lists_of(test, map, made);
    cloned
}

fn clone_with(test: &Test, granted: u64, made: &Made) -> bool {
    try_on_new!(test, granted; ListOrderedMultimap::new; make, made; clones, made)
}

fn clone_needs(test: &Test, at: usize, made: &Made, requests: u64) {
    let enough = requests_until_enough(|granted| clone_with(test, granted, made));
    test.expect_at(at, enough == Some(requests));
}

#[test]
fn a_refused_clone_leaves_the_map(rt: HostRuntime) -> Result<(), Failed> {
    let test = Test::new(rt.alloc());
    for (at, (made, requests)) in CLONED.iter().enumerate() {
        clone_needs(&test, at, made, *requests);
    }
    test.end()
}
