//! References for writing and entries: what each call returns, what the map is then, and Debug.
use crate::tests::lending::entered;
use ordered_multimap::ListOrderedMultimap;
use ordered_multimap::list_ordered_multimap::{Entry, KeyWrapper, OccupiedEntry};
use ordered_multimap_callers::maps::{
    Numbers, ONE_KEY, Refusing, fill, has_lists, has_pairs, refill, test_on_empty,
};
use ordered_multimap_callers::{test_on_numbers, test_with_room};
use refusing_allocator::RefusingAllocator;
use std::alloc::Allocator;
use std::cell::Cell;
use test_helpers::{Failed, Test, is_shown};

#[test]
fn numbers_are_entered(rt: HostRuntime) -> Result<(), Failed> {
    test_on_numbers!(rt.alloc(); first_values_stay, values_are_counted, entries_are_shown,
        entries_are_filled, functions_are_called_once, entries_answer)
}

// The first value that a call gives which puts one under the key 1, unless one is there.
macro_rules! first_value {
    ($given:expr, $made:ident => $first:expr) => {
        match $given {
            Ok($made) => Some($first),
            Err(_) => None,
        }
    };
}

fn insert(map: &mut Numbers, value: u32) -> Option<u32> {
    first_value!(map.entry(1).or_insert(value), first => *first)
}

fn insert_with(map: &mut Numbers, value: u32) -> Option<u32> {
    first_value!(map.entry(1).or_insert_with(|| value), first => *first)
}

fn insert_entry(map: &mut Numbers, value: u32) -> Option<u32> {
    first_value!(map.entry(1).or_insert_entry(value), entry => *entry.get())
}

fn insert_with_entry(map: &mut Numbers, value: u32) -> Option<u32> {
    first_value!(map.entry(1).or_insert_with_entry(|| value), entry => *entry.get())
}

fn first_stays<F: Fn(&mut Numbers, u32) -> Option<u32> + Drop>(
    test: &Test,
    map: &mut Numbers,
    put: F,
)
    requires { F.IsAlwaysCallable put }
{
    map.clear();
    test.expect(put(map, 11) == Some(11));
    test.expect(put(map, 12) == Some(11));
    test.expect(map.values_len() == 1);
}

fn first_values_stay(test: &Test, map: &mut Numbers) {
    first_stays(test, map, insert);
    first_stays(test, map, insert_with);
    first_stays(test, map, insert_entry);
    first_stays(test, map, insert_with_entry);
}

// The value counts how often its key came. That of an absent key isn't modified.
fn count(test: &Test, map: &mut Numbers, wanted: u32) {
    match map
        .entry(1)
        .and_modify(|value| *value = value.saturating_add(1))
        .or_insert(42)
    {
        Ok(value) => test.expect(*value == wanted),
        Err(_) => test.fail(),
    }
    test.expect(map.get(&1).copied() == Some(wanted));
}

fn values_are_counted(test: &Test, map: &mut Numbers) {
    map.clear();
    let _ = map.entry(1).and_modify(|value| *value = 12);
    test.expect(map.is_empty());
    count(test, map, 42);
    count(test, map, 43);
    let _ = map.entry(1).and_modify(|value| *value = 12);
    test.expect(map.get(&1).copied() == Some(12));
}

const OCCUPIED: &str = "OccupiedEntry { key: 1, values: EntryValues([11, 12, 13, 14]) }";

fn is_shown_as(test: &Test, map: &mut Numbers, wanted: &str) {
    let entry = map.entry(1);
    test.expect(is_shown(test.alloc(), &entry, wanted));
    let shown = match entry {
        Entry::Occupied(entry) => is_shown(test.alloc(), &entry, wanted),
        Entry::Vacant(entry) => is_shown(test.alloc(), &entry, wanted),
    };
    test.expect(shown);
}

fn entries_are_shown(test: &Test, map: &mut Numbers) {
    map.clear();
    is_shown_as(test, map, "VacantEntry(1)");
    refill(test, map, ONE_KEY);
    is_shown_as(test, map, OCCUPIED);
}

fn value_is_inserted<A: Allocator + Copy>(test: &Test, map: &mut Refusing<A>) {
    match map.entry(1) {
        Entry::Occupied(mut entry) => {
            test.expect(entry.len() == 2);
            test.expect(entry.insert(9) == 1);
            test.expect(*entry.get() == 9);
            test.expect(entry.len() == 1);
        }
        Entry::Vacant(_) => test.fail(),
    }
}

// An occupied entry replaces its values without memory.
fn values_are_replaced<A: Allocator + Copy>(
    test: &Test,
    allocator: &RefusingAllocator,
    map: &mut Refusing<A>,
) {
    fill(test, map, &[(1, 1), (1, 2), (2, 3)]);
    allocator.refuse_all();
    value_is_inserted(test, map);
    test.expect(!allocator.refused());
    test.expect(has_lists(map, &[(2, 3), (1, 9)], &[1, 2]));
}

#[test]
fn an_occupied_entry_takes_no_memory(rt: HostRuntime) -> Result<(), Failed> {
    test_with_room!(rt.alloc(); 0, 0; values_are_replaced)
}

fn key_comes_back(test: &Test, map: &mut Numbers) {
    match map.entry(5) {
        Entry::Vacant(entry) => test.expect(entry.into_key() == 5),
        Entry::Occupied(_) => test.fail(),
    }
    test.expect(map.is_empty());
}

fn value_comes(test: &Test, map: &mut Numbers) {
    match map.entry(1) {
        Entry::Vacant(entry) => match entry.insert(5) {
            Ok(value) => test.expect(*value == 5),
            Err(_) => test.fail(),
        },
        Entry::Occupied(_) => test.fail(),
    }
}

fn entry_comes(test: &Test, map: &mut Numbers) {
    match entered(map, 2, 6) {
        Some(mut entry) => test.expect(entry.append(7) == Ok(())),
        None => test.fail(),
    }
}

fn they_are_popped(test: &Test, map: &mut Numbers) {
    let popped = map.pop_front();
    test.expect(popped == Some((KeyWrapper::Owned(1), 5)));
    match map.pop_front() {
        Some((key, value)) => {
            test.expect(key == KeyWrapper::Borrowed(&2) && value == 6);
            test.expect(key.into_owned() == Ok(2));
        }
        None => test.fail(),
    }
}

// Vacant entries are filled.
fn entries_are_filled(test: &Test, map: &mut Numbers) {
    map.clear();
    key_comes_back(test, map);
    value_comes(test, map);
    entry_comes(test, map);
    they_are_popped(test, map);
}

fn counted(calls: &Cell<u32>) -> u32 {
    calls.set(calls.get().saturating_add(1));
    40
}

fn or_inserted(map: &mut Numbers, calls: &Cell<u32>) -> Option<u32> {
    first_value!(map.entry(1).or_insert_with(|| counted(calls)), first => *first)
}

// A function is called for a vacant entry alone.
fn functions_are_called_once(test: &Test, map: &mut Numbers) {
    map.clear();
    let calls = Cell::new(0);
    test.expect(or_inserted(map, &calls) == Some(40));
    test.expect(calls.get() == 1);
    test.expect(or_inserted(map, &calls) == Some(40));
    test.expect(calls.get() == 1);
}

const THREE: &[(u32, u32)] = &[(1, 11), (2, 12), (1, 13)];

fn an_entry_is_read(test: &Test, entry: &OccupiedEntry<'_, u32, u32>) {
    test.expect(*entry.key() == 1);
    test.expect(entry.iter().next_back() == Some(&13));
}

fn all_are_raised(test: &Test, map: &mut Numbers) {
    if let Entry::Occupied(mut entry) = map.entry(1) {
        an_entry_is_read(test, &entry);
        for value in entry.iter_mut() {
            *value = value.saturating_add(10);
        }
    }
    test.expect(has_pairs(map, &[(1, 21), (2, 12), (1, 23)]));
}

fn the_first_is_written(test: &Test, map: &mut Numbers) {
    if let Entry::Occupied(mut entry) = map.entry(1) {
        *entry.get_mut() = 5;
    }
    test.expect(map.get(&1).copied() == Some(5));
    if let Entry::Occupied(entry) = map.entry(1) {
        *entry.into_mut() = 6;
    }
    test.expect(has_pairs(map, &[(1, 6), (2, 12), (1, 23)]));
}

fn one_value_leaves(test: &Test, map: &mut Numbers) {
    if let Entry::Occupied(mut entry) = map.entry(1) {
        test.expect(entry.remove_at(1) == Some(23));
    }
    test.expect(has_lists(map, &[(1, 6), (2, 12)], &[1, 2]));
}

fn keys_leave(test: &Test, map: &mut Numbers) {
    if let Entry::Occupied(entry) = map.entry(1) {
        test.expect(entry.remove_entry() == (1, 6));
    }
    if let Entry::Occupied(entry) = map.entry(2) {
        test.expect(entry.remove() == 12);
    }
    test.expect(map.is_empty());
    if let Entry::Vacant(entry) = map.entry(2) {
        test.expect(*entry.key() == 2);
    }
}

// Entries of a map of three pairs are read and written, and their pairs leave.
fn entries_answer(test: &Test, map: &mut Numbers) {
    refill(test, map, THREE);
    all_are_raised(test, map);
    the_first_is_written(test, map);
    one_value_leaves(test, map);
    keys_leave(test, map);
}
