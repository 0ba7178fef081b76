//! Room that is asked for ahead, packing, full keys, and what a drain has left, dropped once.
use ordered_multimap::ListOrderedMultimap;
use ordered_multimap::list_ordered_multimap::{KeyWrapper, Refused};
use ordered_multimap_callers::maps::{
    MIXED, Numbers, Refusing, Shares, append_shares, appends, fill, fill_with_shares, has_lists,
    has_room, inserts, reserve, reserve_anew,
};
use ordered_multimap_callers::{run_in_room, test_with_room};
use refusing_allocator::RefusingAllocator;
use std::alloc::Allocator;
use std::hash::{BuildHasher, Hash};
use std::mem;
use std::rc::Rc;
use test_helpers::{Failed, Test, test_on_share};

/// Packs a map that has no more keys and values than these, and returns whether there was memory.
pub fn pack_to<K: Eq + Hash + Drop, V: Drop, S: BuildHasher, A: Allocator + Copy>(
    test: &Test,
    map: &mut ListOrderedMultimap<K, V, S, A>,
    keys: usize,
    values: usize,
) -> bool {
    if map.keys_len() > keys || map.values_len() > values {
        test.fail();
        return false;
    }
    map.pack_to(keys, values).is_ok()
}

fn is_mixed_in(map: &Numbers, keys: usize, values: usize) -> bool {
    has_room(map, keys, values) && has_lists(map, MIXED, &[1, 2])
}

pub fn pairs_are_packed(test: &Test, map: &mut Numbers) {
    fill(test, map, MIXED);
    test.expect(is_mixed_in(map, 10, 10));
    test.expect(pack_to(test, map, 5, 5));
    test.expect(is_mixed_in(map, 5, 5));
    test.expect(map.pack_to_fit().is_ok());
    test.expect(is_mixed_in(map, 2, 4));
}

fn three_are_added<A: Allocator + Copy>(test: &Test, map: &mut Refusing<A>) {
    for number in 1..4u32 {
        test.expect(appends(map, number, number, false));
    }
    test.expect(inserts(map, 2, 9, &Some(2)));
    test.expect(map.pop_front() == Some((KeyWrapper::Owned(1), 1)));
    map.retain(|_key, value| *value < 9);
    test.expect(has_lists(map, &[(3, 3)], &[3]));
}

// Whether the key's first value leaves, and is this one.
fn leaves<A: Allocator + Copy>(map: &mut Refusing<A>, value: u32) -> bool {
    match map.pop_front() {
        Some((KeyWrapper::Borrowed(key), first)) => *key == 1 && first == value,
        _ => false,
    }
}

// A key whose oldest value leaves as each new one comes.
fn values_pass_through<A: Allocator + Copy>(test: &Test, map: &mut Refusing<A>) {
    test.expect(appends(map, 1, 0, false));
    for number in 1..101u32 {
        test.expect(appends(map, 1, number, true));
        test.expect(leaves(map, number - 1));
    }
    test.expect(has_lists(map, &[(1, 100)], &[1]));
}

// Room that is there already is never refused, and nothing grows.
fn needs_none<A: Allocator + Copy>(test: &Test, memory: &RefusingAllocator, map: &mut Refusing<A>) {
    let room = (map.keys_capacity(), map.values_capacity());
    reserve(test, memory, map, 2, 5);
    test.expect(!memory.refused());
    let left = (map.keys_capacity(), map.values_capacity());
    test.expect(left == room);
}

// Room is used without memory. There is room for five at first.
fn use_room<A: Allocator + Copy>(test: &Test, memory: &RefusingAllocator, map: &mut Refusing<A>) {
    memory.refuse_all();
    needs_none(test, memory, map);
    run_in_room!(test, memory, map; 3, 3 => three_are_added, 1, 2 => values_pass_through)
}

#[test]
fn room_is_used_without_memory(rt: HostRuntime) -> Result<(), Failed> {
    test_with_room!(rt.alloc(); 5, 5; use_room)
}

/// Room comes with a pair, and with a call that asks for it.
pub fn room_grows(test: &Test, map: &mut Numbers) {
    map.clear();
    test.expect(map.pack_to_fit().is_ok());
    test.expect(inserts(map, 1, 11, &None));
    test.expect(has_room(map, 1, 1));
    map.clear();
    test.expect(map.reserve_keys(5).is_ok());
    test.expect(map.reserve_values(5).is_ok());
    test.expect(has_room(map, 5, 5));
}

// Appends pairs of new keys, each with the value 0, until no new key fits. It returns how many.
fn fill_keys<A: Allocator + Copy>(test: &Test, map: &mut Refusing<A>) -> usize {
    for key in 0..64u32 {
        if map.keys_len() < map.keys_capacity() {
            test.expect(appends(map, key, 0, false));
        }
    }
    test.expect(map.keys_len() == map.keys_capacity());
    map.keys_len()
}

// The pair that is refused, if one is, and how many are left behind it.
fn extended<A: Allocator + Copy>(
    map: &mut Refusing<A>,
    pairs: &[(u32, u32)],
) -> (Option<(u32, u32)>, usize) {
    let mut left = pairs.iter().copied();
    let refused = match map.extend(&mut left) {
        Ok(()) => None,
        Err(Refused { key, value }) => Some((key, value)),
    };
    (refused, left.len())
}

// The numbers of keys and of pairs, the last value of the key 0, and of the key 2.
fn told<A: Allocator + Copy>(map: &Refusing<A>) -> (usize, usize, Option<u32>, Option<u32>) {
    let first = map.get_all(&0).next_back().copied();
    let third = map.get_all(&2).next_back().copied();
    (map.keys_len(), map.values_len(), first, third)
}

// Pairs of present keys find room where no new key does.
fn present_keys_find_room<A: Allocator + Copy>(
    test: &Test,
    memory: &RefusingAllocator,
    map: &mut Refusing<A>,
) {
    reserve_anew(test, memory, map, 3, 70);
    let keys = fill_keys(test, map);
    let pairs = extended(map, &[(0, 1), (1, 1), (0, 2)]);
    test.expect(pairs == (None, 0) && !memory.refused());
    test.expect(told(map) == (keys, keys.saturating_add(3), Some(2), Some(0)));
    let pairs = extended(map, &[(2, 1), (99, 1), (2, 2)]);
    test.expect(pairs == (Some((99, 1)), 1) && memory.refused());
    test.expect(told(map) == (keys, keys.saturating_add(4), Some(2), Some(1)));
}

#[test]
fn full_keys_refuse_only_new_ones(rt: HostRuntime) -> Result<(), Failed> {
    test_with_room!(rt.alloc(); 3, 70; present_keys_find_room)
}

fn the_rest_is_dropped(test: &Test, map: &mut Shares, shared: &Rc<u8>) {
    append_shares(test, map, &[1, 1, 1], shared);
    drop(map.remove_all(&1));
    test.expect(Rc::strong_count(shared) == 1);
    append_shares(test, map, &[1, 1, 1], shared);
    let given = map.remove_all(&1).next();
    test.expect(Rc::strong_count(shared) == 2);
    drop(given);
}

fn pop_share(test: &Test, map: &mut Shares) {
    match map.pop_front() {
        Some((_key, share)) => drop(share),
        None => test.fail(),
    }
}

// The values of the key 1 stay where a drain is forgotten, and the first of the key 2 goes.
fn packed_ones_are_dropped(test: &Test, map: &mut Shares, shared: &Rc<u8>) {
    fill_with_shares(test, map, shared);
    pop_share(test, map);
    test.expect(Rc::strong_count(shared) == 5);
    test.expect(map.pack_to_fit().is_ok());
    test.expect(Rc::strong_count(shared) == 3);
    test.expect(pack_to(test, map, 5, 5));
    test.expect(Rc::strong_count(shared) == 3);
}

// The map ends here.
fn all_are_dropped(test: &Test, mut map: Shares, shared: &Rc<u8>) {
    the_rest_is_dropped(test, &mut map, shared);
    packed_ones_are_dropped(test, &mut map, shared);
    mem::forget(map.remove_all(&2));
    test.expect(Rc::strong_count(shared) == 3);
}

fn shares_are_dropped(test: &Test, shared: &Rc<u8>) {
    all_are_dropped(test, ListOrderedMultimap::new(test.alloc()), shared);
    test.expect(Rc::strong_count(shared) == 1);
}

#[test]
fn what_a_drain_left_is_dropped_once(rt: HostRuntime) -> Result<(), Failed> {
    test_on_share(rt.alloc(), shares_are_dropped)
}
