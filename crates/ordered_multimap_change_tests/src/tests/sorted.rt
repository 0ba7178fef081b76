//! Pairs that are sorted, and sorts whose memory is refused; `map_calls` has more rows.
use ordered_multimap::ListOrderedMultimap;
use ordered_multimap_callers::maps::{
    Numbers, Refusing, appends, has_lists, refill, test_on_empty,
};
use ordered_multimap_callers::{test_on_numbers, test_with_room};
use refusing_allocator::RefusingAllocator;
use std::alloc::Allocator;
use std::cmp::Ordering;
use test_helpers::{
    ASCENDING, Failed, SHUFFLED, Test, copied, gives, requests_until_enough, try_on_new,
};

// Pairs of which two keys have two values each.
const PAIRS: &[(u32, u32)] = &[(5, 14), (3, 12), (1, 13), (5, 11), (2, 15), (3, 10)];

const KEYS: &[u32] = &[5, 3, 1, 2];

const BY_VALUE: &[(u32, u32)] = &[(3, 10), (5, 11), (3, 12), (1, 13), (5, 14), (2, 15)];

// Values with the same half keep their order: 11 stood before 10.
const BY_HALF: &[(u32, u32)] = &[(5, 11), (3, 10), (3, 12), (1, 13), (5, 14), (2, 15)];

// By key, the greatest first: the values of a key keep their order.
const BY_KEY: &[(u32, u32)] = &[(5, 14), (5, 11), (3, 12), (3, 10), (2, 15), (1, 13)];

// The values of the keys 3 and 5 as they were, and once they ascend.
const OLD_CHAINS: (&[u32], &[u32]) = (&[12, 10], &[14, 11]);

const NEW_CHAINS: (&[u32], &[u32]) = (&[10, 12], &[11, 14]);

fn has_chain(test: &Test, map: &Numbers, key: u32, values: &[u32]) {
    test.expect(map.get_all(&key).eq(values));
    test.expect(map.get_all(&key).rev().eq(values.iter().rev()));
    test.expect(map.get_last(&key) == values.last() && map.entry_len(&key) == values.len());
}

fn is_sorted(test: &Test, map: &Numbers, pairs: &[(u32, u32)], chains: (&[u32], &[u32])) {
    test.expect(has_lists(map, pairs, KEYS));
    has_chain(test, map, 3, chains.0);
    has_chain(test, map, 5, chains.1);
}

fn sort_by_key(test: &Test, map: &mut Numbers) {
    refill(test, map, PAIRS);
    test.expect(map.sort_by(|key, _, other, _| other.cmp(key)).is_ok());
    is_sorted(test, map, BY_KEY, OLD_CHAINS);
}

fn sort_by_half(test: &Test, map: &mut Numbers) {
    refill(test, map, PAIRS);
    let sorted = map.sort_by(|_, value, _, other| (*value / 2).cmp(&(*other / 2)));
    test.expect(sorted.is_ok());
    is_sorted(test, map, BY_HALF, NEW_CHAINS);
}

// A function that is no order leaves each pair in the map, and the keys as they were.
fn sort_by_no_order(test: &Test, map: &mut Numbers) {
    refill(test, map, PAIRS);
    test.expect(map.sort_by(|_, _, _, _| Ordering::Less).is_ok());
    test.expect(map.values_len() == 6 && map.keys().eq(KEYS));
    for (row, (key, value)) in PAIRS.iter().enumerate() {
        test.expect_at(row, map.contains(key, value));
    }
}

// Once the pairs are sorted, a new one goes last, and a key's values leave together.
fn sort_by_value(test: &Test, map: &mut Numbers) {
    refill(test, map, PAIRS);
    test.expect(map.sort_by(|_, value, _, other| value.cmp(other)).is_ok());
    is_sorted(test, map, BY_VALUE, NEW_CHAINS);
    test.expect(map.remove(&3) == Some(10));
    test.expect(appends(map, 5, 9, true) && appends(map, 3, 8, false));
    let pairs = [(5, 11), (1, 13), (5, 14), (2, 15), (5, 9), (3, 8)];
    test.expect(has_lists(map, &pairs, &[5, 1, 2, 3]));
    has_chain(test, map, 5, &[11, 14, 9]);
}

#[test]
fn pairs_are_sorted(rt: HostRuntime) -> Result<(), Failed> {
    test_on_numbers!(rt.alloc(); sort_by_key, sort_by_half, sort_by_no_order, sort_by_value)
}

// Whether the pairs are those of the first keys, and the keys the others. Each key has one value,
// which is greater by 100.
fn stand<A: Allocator>(map: &Refusing<A>, of_pairs: &[u32], keys: &[u32]) -> bool {
    let mut walk = map.iter();
    let mut same = true;
    for key in of_pairs {
        same = same && copied(walk.next()) == Some((*key, key.saturating_add(100)));
    }
    same && walk.next().is_none() && gives(&mut map.keys(), keys)
}

fn sorts_by_value<A: Allocator + Copy>(map: &mut Refusing<A>) -> bool {
    map.sort_by(|_, value, _, other| value.cmp(other)).is_ok()
}

fn append_many<A: Allocator + Copy>(test: &Test, map: &mut Refusing<A>) {
    for key in SHUFFLED {
        test.expect(appends(map, *key, key.saturating_add(100), false));
    }
}

// It returns whether there was memory enough. Where there was not, both lists are as before.
fn sorts<A: Allocator + Copy>(test: &Test, map: &mut Refusing<A>, is_of_pairs: bool) -> bool {
    if is_of_pairs {
        let enough = sorts_by_value(map);
        test.expect(stand(map, if enough { ASCENDING } else { SHUFFLED }, SHUFFLED));
        return enough;
    }
    let enough = map.sort_keys().is_ok();
    test.expect(stand(map, SHUFFLED, if enough { ASCENDING } else { SHUFFLED }));
    enough
}

fn sorts_with(test: &Test, granted: u64, is_of_pairs: bool) -> bool {
    try_on_new!(test, granted; ListOrderedMultimap::new; append_many; sorts, is_of_pairs)
}

#[test]
fn a_refused_sort_changes_neither_list(rt: HostRuntime) -> Result<(), Failed> {
    let test = Test::new(rt.alloc());
    let enough = requests_until_enough(|granted| sorts_with(&test, granted, false));
    // One for the places, and one for the sort.
    test.expect(enough == Some(2));
    let enough = requests_until_enough(|granted| sorts_with(&test, granted, true));
    // Three more for the new tape.
    test.expect(enough == Some(5));
    test.end()
}

fn sorts_one<A: Allocator + Copy>(test: &Test, memory: &RefusingAllocator, map: &mut Refusing<A>) {
    memory.refuse_all();
    test.expect(map.sort_keys().is_ok() && sorts_by_value(map));
    test.expect(appends(map, 1, 11, false) && sorts_by_value(map));
    test.expect(appends(map, 1, 12, true));
    test.expect(map.sort_keys().is_ok() && !memory.refused());
    test.expect(has_lists(map, &[(1, 11), (1, 12)], &[1]));
}

#[test]
fn one_key_and_one_pair_are_sorted_without_memory(rt: HostRuntime) -> Result<(), Failed> {
    test_with_room!(rt.alloc(); 1, 2; sorts_one)
}
