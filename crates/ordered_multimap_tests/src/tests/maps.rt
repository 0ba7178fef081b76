//! Both ends, equality, hash builders, and what a program meets first.
use crate::tests::defaults::{is_shared, keys_are_counted};
use ordered_multimap::ListOrderedMultimap;
use ordered_multimap::list_ordered_multimap::{DefaultState, Entry, RandomState};
use ordered_multimap_callers::maps::{
    MIXED, MapBy, Numbers, Refusing, appends, collided, has_lists, has_pairs, inserts, refill,
    test_on_empty,
};
use ordered_multimap_callers::{test_on_numbers, test_with_room};
use refusing_allocator::RefusingAllocator;
use std::alloc::Allocator;
use std::collections::HashMap;
use std::hash::BuildHasher;
use std::{io, mem};
use test_helpers::{F, Failed, Test, copied, lend, test_on_new, walk_difference};

#[test]
fn both_ends_answer(rt: HostRuntime) -> Result<(), Failed> {
    test_on_numbers!(rt.alloc(); ends_are_read, ends_are_written, the_first_is_written,
        the_last_is_written, ends_are_popped)
}

#[test]
fn maps_are_compared_and_count(rt: HostRuntime) -> Result<(), Failed> {
    test_on_numbers!(rt.alloc(); are_compared, keys_are_counted)
}

// The pairs at both ends are read, and then written, and taken out by the parts behind.
fn ends_are_read(test: &Test, map: &mut Numbers) {
    refill(test, map, MIXED);
    test.expect(copied(map.front()) == Some((1, 11)));
    test.expect(copied(map.back()) == Some((1, 14)));
    test.expect(map.hasher().hash_one(&1u32) == DefaultState::new().hash_one(&1u32));
}

fn ends_are_written(test: &Test, map: &mut Numbers) {
    if let Some((_, value)) = map.front_mut() {
        *value = 21;
    }
    if let Some((_, value)) = map.back_mut() {
        *value = 24;
    }
    let both = has_pairs(map, &[(1, 21), (2, 12), (2, 13), (1, 24)]);
    test.expect(both);
}

fn the_first_is_written(test: &Test, map: &mut Numbers) {
    if map.values_len() > 0 {
        *map.first_mut().1 = 31;
    }
    test.expect(copied(map.front()) == Some((1, 31)));
}

fn the_last_is_written(test: &Test, map: &mut Numbers) {
    if map.values_len() > 0 {
        *map.last_mut().1 = 34;
    }
    test.expect(copied(map.back()) == Some((1, 34)));
}

fn ends_are_popped(test: &Test, map: &mut Numbers) {
    let front = map.pop_front_with(|popped| popped.is_some());
    let back = map.pop_back_with(|popped| popped.is_some());
    test.expect(front && back);
    test.expect(has_lists(map, &[(2, 12), (2, 13)], &[2]));
}

fn are_equal(map: &Numbers, other: &Numbers) -> bool {
    *map == *other
}

fn last_pair_goes_and_comes(test: &Test, map: &Numbers, copy: &mut Numbers) {
    test.expect(copy.pop_back().is_some());
    test.expect(!are_equal(map, copy));
    test.expect(copy.append(1, 14) == Ok(true));
    test.expect(are_equal(map, copy));
}

fn insert_three(test: &Test, map: &mut Numbers) {
    map.clear();
    test.expect(inserts(map, 1, 10, &None));
    test.expect(inserts(map, 2, 20, &None));
    test.expect(inserts(map, 1, 30, &Some(10)));
}

const TWO: &[(u32, u32)] = &[(2, 20), (1, 30)];

// The order of the keys counts for nothing.
fn keys_in_another_order(test: &Test, map: &mut Numbers, other: &mut Numbers) {
    insert_three(test, map);
    refill(test, other, TWO);
    test.expect(are_equal(map, other));
    test.expect(has_lists(map, TWO, &[1, 2]));
    test.expect(has_lists(other, TWO, &[2, 1]));
}

fn clone_is_changed(test: &Test, map: &mut Numbers, copy: &mut Numbers) {
    last_pair_goes_and_comes(test, map, copy);
    keys_in_another_order(test, map, copy);
}

fn are_compared(test: &Test, map: &mut Numbers) {
    refill(test, map, MIXED);
    match map.clone() {
        Ok(mut copy) => clone_is_changed(test, map, &mut copy),
        Err(_) => test.fail(),
    }
}

fn expect_value<S: BuildHasher>(test: &Test, map: &MapBy<S>, key: u32, value: u32) {
    test.expect(map.get(&key).copied() == Some(value));
}

fn keys_are_inserted<S: BuildHasher>(test: &Test, map: &mut MapBy<S>) {
    test.expect(inserts(map, 1, 11, &None));
    expect_value(test, map, 1, 11);
    test.expect(inserts(map, 2, 12, &None));
    expect_value(test, map, 2, 12);
    expect_value(test, map, 1, 11);
}

fn values_are_appended<S: BuildHasher>(test: &Test, map: &mut MapBy<S>) {
    map.clear();
    test.expect(appends(map, 1, 11, false));
    test.expect(appends(map, 2, 12, false));
    test.expect(appends(map, 1, 13, true));
    let both = [(F, 11), (F, 13)];
    test.expect_same(walk_difference(&mut map.get_all(&1), &both));
    expect_value(test, map, 2, 12);
}

fn keys_are_found<S: BuildHasher>(test: &Test, map: &mut MapBy<S>) {
    keys_are_inserted(test, map);
    values_are_appended(test, map);
}

#[test]
fn keys_of_one_hash_are_apart(rt: HostRuntime) -> Result<(), Failed> {
    test_on_new(rt.alloc(), collided, keys_are_found)
}

fn a_builder_serves(test: &Test, state: Option<RandomState>) {
    match state {
        Some(state) => {
            let map = ListOrderedMultimap::with_hasher(test.alloc(), state);
            lend(map, |map| keys_are_found(test, map));
        }
        None => test.fail(),
    }
}

#[test]
fn a_random_builder_serves(rt: HostRuntime) -> Result<(), Failed> {
    let test = Test::new(rt.alloc());
    a_builder_serves(&test, RandomState::new(&rt).ok());
    test.end()
}

fn append_two<S: BuildHasher, A: Allocator + Copy>(
    map: &mut ListOrderedMultimap<u32, u32, S, A>,
) -> io::Result<()> {
    map.append(1, 10)?;
    if let Entry::Occupied(mut entry) = map.entry(1) {
        entry.append(11)?;
    }
    Ok(())
}

fn is_out_of_memory(answer: io::Result<()>) -> bool {
    match answer {
        Ok(()) => false,
        Err(error) => error.kind() == io::ErrorKind::OutOfMemory,
    }
}

// The map is lent with an allocator that refuses all memory from the first part on.
fn memory_is_refused<A: Allocator + Copy>(
    test: &Test,
    allocator: &RefusingAllocator,
    map: &mut Refusing<A>,
) {
    is_shared(test, allocator, map);
    test.expect(is_out_of_memory(append_two(map)));
    test.expect(map.is_empty());
}

fn has_two(map: &Numbers) -> bool {
    map.keys_len() == 1 && map.values_len() == 2 && map.get(&1).copied() == Some(10)
}

fn both_are_taken(test: &Test, map: &mut Numbers) {
    match mem::try_take(map) {
        Ok(taken) => test.expect(has_two(&taken)),
        Err(_) => test.fail(),
    }
}

fn a_map_is_taken(test: &Test, map: &mut Numbers) {
    test.expect(append_two(map).is_ok());
    both_are_taken(test, map);
    test.expect(map.is_empty());
    test.expect(append_two(map).is_ok() && has_two(map));
}

type Sections = HashMap<u32, Numbers>;

fn append_in_section(sections: &mut Sections, section: u32) -> io::Result<()> {
    append_two(sections.entry(section)?.or_default())
}

fn maps_are_values(test: &Test, sections: &mut Sections) {
    test.expect(append_in_section(sections, 7).is_ok());
    test.expect(sections.get(&7).is_some_and(has_two));
}

#[test]
fn an_empty_map_stands_in(rt: HostRuntime) -> Result<(), Failed> {
    test_on_empty(rt.alloc(), a_map_is_taken)
}

#[test]
fn a_refusal_is_an_io_error(rt: HostRuntime) -> Result<(), Failed> {
    test_with_room!(rt.alloc(); 0, 0; memory_is_refused)
}

#[test]
fn maps_are_values_of_a_map(rt: HostRuntime) -> Result<(), Failed> {
    test_on_new(rt.alloc(), HashMap::new, maps_are_values)
}
