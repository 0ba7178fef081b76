//! Room that is used again where all memory is refused; and keys of pops, lent or handed out.
use ordered_multimap::ListOrderedMultimap;
use ordered_multimap::list_ordered_multimap::{DefaultState, KeyWrapper};
use ordered_multimap_callers::maps::{Refusing, appends, has_lists, inserts, reserve_anew};
use ordered_multimap_callers::{run_in_room, test_with_room};
use refusing_allocator::RefusingAllocator;
use std::alloc::Allocator;
use std::hash::BuildHasher;
use std::mem;
use test_helpers::{Failed, Test, is_compared, is_copied, is_shown};

// Two values come and leave by a drain that is dropped after one step.
fn two_come_and_leave<A: Allocator + Copy>(test: &Test, map: &mut Refusing<A>) {
    test.expect(appends(map, 1, 1, false));
    test.expect(appends(map, 1, 2, true));
    test.expect(map.remove_all(&1).next() == Some(1));
}

fn drains_are_dropped<A: Allocator + Copy>(test: &Test, map: &mut Refusing<A>) {
    for _ in 0..50 {
        two_come_and_leave(test, map);
    }
    test.expect(map.is_empty());
}

fn two_come_behind_forgotten_ones<A: Allocator + Copy>(test: &Test, map: &mut Refusing<A>) {
    mem::forget(map.remove_all(&1));
    test.expect(appends(map, 1, 1, false));
    test.expect(appends(map, 1, 2, true));
}

fn drains_are_forgotten<A: Allocator + Copy>(test: &Test, map: &mut Refusing<A>) {
    test.expect(appends(map, 1, 1, false));
    test.expect(appends(map, 1, 2, true));
    test.expect(appends(map, 2, 3, false));
    for _ in 0..30 {
        two_come_behind_forgotten_ones(test, map);
    }
    test.expect(has_lists(map, &[(2, 3), (1, 1), (1, 2)], &[2, 1]));
}

// A pair comes, and an older one of its key goes.
fn one_goes_for_one<A: Allocator + Copy>(test: &Test, map: &mut Refusing<A>, number: u32) {
    test.expect(appends(map, 1, number, true));
    let gone = number.saturating_sub(2);
    map.retain(|key, value| *key != 1 || *value != gone);
}

fn pairs_come_and_go<A: Allocator + Copy>(test: &Test, map: &mut Refusing<A>) {
    test.expect(appends(map, 1, 0, false));
    test.expect(appends(map, 2, 0, false));
    test.expect(appends(map, 1, 1, true));
    for number in 2..=60u32 {
        one_goes_for_one(test, map, number);
    }
    test.expect(has_lists(map, &[(2, 0), (1, 59), (1, 60)], &[1, 2]));
    test.expect(map.get_all(&1).rev().eq(&[60, 59]));
}

fn both_are_replaced<A: Allocator + Copy>(test: &Test, map: &mut Refusing<A>, number: u32) {
    let old = Some(number.saturating_sub(1));
    test.expect(inserts(map, 1, number, &old));
    test.expect(inserts(map, 2, number, &old));
}

fn values_are_replaced<A: Allocator + Copy>(test: &Test, map: &mut Refusing<A>) {
    test.expect(appends(map, 1, 0, false));
    test.expect(appends(map, 2, 0, false));
    for number in 1..=50u32 {
        both_are_replaced(test, map, number);
    }
    test.expect(has_lists(map, &[(1, 50), (2, 50)], &[1, 2]));
}

fn use_room<A: Allocator + Copy>(test: &Test, memory: &RefusingAllocator, map: &mut Refusing<A>) {
    memory.refuse_all();
    drains_are_dropped(test, map);
    run_in_room!(test, memory, map;
        2, 4 => drains_are_forgotten, 2, 4 => pairs_come_and_go, 2, 2 => values_are_replaced)
}

#[test]
fn room_is_used_without_memory(rt: HostRuntime) -> Result<(), Failed> {
    test_with_room!(rt.alloc(); 1, 2; use_room)
}

fn wrappers_tell(test: &Test, lent: KeyWrapper<'_, usize>, owned: KeyWrapper<'_, usize>) {
    test.expect(lent.is_borrowed() && !lent.is_owned());
    test.expect(owned.is_owned() && !owned.is_borrowed());
    test.expect(lent.into_owned() == Ok(5));
    test.expect(owned.into_owned() == Ok(5));
}

fn wrappers_are_compared(test: &Test, key: &usize, like: &usize, other: &usize) {
    let lent = KeyWrapper::Borrowed(key);
    let owned = KeyWrapper::Owned(5);
    test.expect(is_compared(
        &lent,
        &KeyWrapper::Borrowed(like),
        &KeyWrapper::Borrowed(other),
    ));
    test.expect(is_compared(&owned, &KeyWrapper::Owned(5), &KeyWrapper::Owned(6)));
    test.expect(is_compared(&lent, &lent, &owned));
    test.expect(is_copied(&lent) && is_copied(&owned));
}

// Equal wrappers have equal hashes, and the two kinds are told apart.
fn wrappers_are_shown(test: &Test, lent: &KeyWrapper<'_, usize>, owned: &KeyWrapper<'_, usize>) {
    test.expect(is_shown(test.alloc(), lent, "Borrowed(5)"));
    test.expect(is_shown(test.alloc(), owned, "Owned(5)"));
    let state = DefaultState::new();
    test.expect(state.hash_one(lent) == state.hash_one(&KeyWrapper::Borrowed(&5usize)));
    test.expect(state.hash_one(owned) == state.hash_one(&KeyWrapper::Owned(5usize)));
    test.expect(state.hash_one(lent) != state.hash_one(owned));
}

type Text<'a> = String<&'a RefusingAllocator>;

// A lent key is cloned, which may be refused; an owned one is handed on.
fn clones_are_refused(test: &Test, allocator: &RefusingAllocator, text: Text<'_>) {
    test.expect(KeyWrapper::Borrowed(&text).into_owned().is_ok());
    allocator.refuse_all();
    test.expect(KeyWrapper::Borrowed(&text).into_owned().is_err());
    test.expect(KeyWrapper::Borrowed(&text).clone().is_ok());
    let owned = KeyWrapper::Owned(text);
    test.expect(owned.clone().is_err());
    test.expect(owned.into_owned().is_ok());
}

fn clones_are_told(test: &Test) {
    let allocator = RefusingAllocator::unlimited(test.alloc());
    let mut text = String::new(&allocator);
    test.expect(text.push('a').is_ok());
    clones_are_refused(test, &allocator, text);
}

#[test]
fn wrappers_tell_whose_the_key_is(rt: HostRuntime) -> Result<(), Failed> {
    let test = Test::new(rt.alloc());
    wrappers_tell(&test, KeyWrapper::Borrowed(&5), KeyWrapper::Owned(5));
    wrappers_are_compared(&test, &5, &5, &6);
    wrappers_are_shown(&test, &KeyWrapper::Borrowed(&5), &KeyWrapper::Owned(5));
    clones_are_told(&test);
    test.end()
}
