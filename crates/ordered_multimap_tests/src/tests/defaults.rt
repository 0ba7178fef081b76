//! Default values for absent keys, and maps by another's allocator; `map_calls` has more rows.
use ordered_multimap::ListOrderedMultimap;
use ordered_multimap::list_ordered_multimap::DefaultState;
use ordered_multimap_callers::maps::{Numbers, Refusing, fill, has_lists};
use ordered_multimap_callers::taken::{empty_like, first_or_default};
use refusing_allocator::RefusingAllocator;
use std::alloc::Allocator;
use test_helpers::{Failed, Test, lend, requests_until_enough, try_on_new};

fn count(test: &Test, map: &mut Numbers, key: u32) {
    match map.entry(key).or_default() {
        Ok(count) => *count = count.saturating_add(1),
        Err(_) => test.fail(),
    }
}

/// A default value is put last, and written.
pub fn keys_are_counted(test: &Test, map: &mut Numbers) {
    map.clear();
    for key in [2, 1, 2, 2] {
        count(test, map, key);
    }
    test.expect(has_lists(map, &[(2, 3), (1, 1)], &[2, 1]));
}

// Two keys with no room for a third.
const FULL: &[(u32, u32)] = &[(1, 11), (2, 12)];

// A key, its first value then, and both lists.
type Row = (u32, u32, &'static [(u32, u32)], &'static [u32]);

const ABSENT: Row = (3, 0, &[(1, 11), (2, 12), (3, 0)], &[1, 2, 3]);

// A key that is present needs no memory.
const PRESENT: Row = (2, 12, FULL, &[1, 2]);

fn fill_up<A: Allocator + Copy>(test: &Test, map: &mut Refusing<A>) {
    fill(test, map, FULL);
    test.expect(map.pack_to_fit().is_ok());
}

fn gives<A: Allocator + Copy>(test: &Test, map: &mut Refusing<A>, row: &Row) -> bool {
    match first_or_default(map, row.0) {
        Ok(first) => {
            test.expect(first == row.1 && has_lists(map, row.2, row.3));
            true
        }
        Err(refused) => {
            test.expect(refused.key == row.0 && refused.value == 0);
            test.expect(has_lists(map, FULL, &[1, 2]));
            false
        }
    }
}

fn gives_with(test: &Test, granted: u64, row: &Row) -> bool {
    try_on_new!(test, granted; ListOrderedMultimap::new; fill_up; gives, row)
}

// Key slots, table and value slots each ask for a block.
#[test]
fn a_refused_default_changes_nothing(rt: HostRuntime) -> Result<(), Failed> {
    let test = Test::new(rt.alloc());
    let enough = requests_until_enough(|granted| gives_with(&test, granted, &ABSENT));
    test.expect(enough.unwrap_or(0) >= 3);
    test.expect(gives_with(&test, 0, &PRESENT));
    test.end()
}

fn takes_memory<A: Allocator + Copy>(map: &Refusing<A>) -> bool {
    lend(empty_like(map, DefaultState::new()), |other| {
        other.append(1, 11).is_ok()
    })
}

/// A map made with the allocator of another one asks the same allocator, which then refuses all.
pub fn is_shared<A: Allocator + Copy>(
    test: &Test,
    memory: &RefusingAllocator,
    map: &mut Refusing<A>,
) {
    test.expect(takes_memory(map));
    memory.refuse_all();
    test.expect(!takes_memory(map));
    test.expect(memory.refused());
    test.expect(map.is_empty());
}
