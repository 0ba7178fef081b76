//! Walks for reading, clones, and a map that is shown; `map_calls` has what each step gives.
use ordered_multimap::ListOrderedMultimap;
use ordered_multimap::list_ordered_multimap::{EntryValues, IntoIter, KeyValues};
use ordered_multimap_callers::maps::{
    MIXED, MIXED_TEXTS, Numbers, Texts, goes_on, refill, test_on_empty,
};
use ordered_multimap_callers::test_on_numbers;
use test_helpers::{B, F, Failed, Step, Test, is_shown, taken, walk_difference};

#[test]
fn walks_of_numbers_answer(rt: HostRuntime) -> Result<(), Failed> {
    test_on_numbers!(rt.alloc(); keys_are_walked, walks_are_taken)
}

// Walks from both ends, and their clones.
fn walks_are_taken(test: &Test, map: &mut Numbers) {
    refill(test, map, MIXED);
    let pairs = &[(B, (1, 14)), (F, (2, 12)), (F, (2, 13))];
    test.expect(goes_on(&mut map.iter(), pairs));
    test.expect(goes_on(&mut map.values(), &[(B, 14), (F, 12), (F, 13)]));
    test.expect(goes_on(&mut map.keys(), &[(F, 2)]));
    test.expect(goes_on(&mut map.get_all(&1), &[(B, 14)]));
}

fn is_lent(item: Option<(&u32, EntryValues<'_, u32, u32>)>, key: u32, steps: &[Step<u32>]) -> bool {
    match item {
        Some((it, mut values)) => { *it == key && walk_difference(&mut values, steps).is_none() }
        None => false,
    }
}

// Two keys with two values each. A clone goes on from where the walk is.
fn keys_are_lent(test: &Test, walk: &mut KeyValues<'_, u32, u32>) {
    test.expect(walk.len() == 2 && is_lent(walk.next(), 1, &[(F, 11), (F, 14)]));
    match walk.clone() {
        Ok(mut copy) => test.expect(is_lent(copy.next(), 2, &[(F, 12), (B, 13)])),
        Err(_) => test.fail(),
    }
    test.expect(walk.len() == 1 && is_lent(walk.next_back(), 2, &[(B, 13), (F, 12)]));
    test.expect(walk.next().is_none());
}

fn keys_are_walked(test: &Test, map: &mut Numbers) {
    refill(test, map, MIXED);
    keys_are_lent(test, &mut map.pairs());
}

const MAP: &str = r#"{"key1": "value1", "key2": "value2", "key2": "value3", "key1": "value4"}"#;

// The text of a map of texts.
fn map_is_shown(test: &Test, map: &mut Texts) {
    refill(test, map, MIXED_TEXTS);
    test.expect(is_shown(test.alloc(), map, MAP));
}

#[test]
fn maps_of_texts_are_shown(rt: HostRuntime) -> Result<(), Failed> {
    test_on_empty(rt.alloc(), map_is_shown)
}

// What is left of the pairs (1, 1), (2, 2) and (1, 3) is walked.
fn rest_is_walked(test: &Test, walk: &mut IntoIter<u32, u32>) {
    test.expect(taken(walk, F) == Some(Some((1, 1))));
    test.expect(taken(walk, B) == Some(Some((1, 3))));
    test.expect_same(walk_difference(&mut walk.iter(), &[(F, (2, 2))]));
    test.expect_same(walk_difference(walk, &[(F, Some((2, 2)))]));
}

// The sum of each key times its value. A loop over a reference to a map is a walk of `iter`.
fn sum_of(map: &Numbers) -> u32 {
    let mut sum: u32 = 0;
    for (key, value) in map {
        sum = sum.wrapping_add(key.wrapping_mul(*value));
    }
    sum
}

// The map of numbers is looped over, and then taken apart.
fn numbers_are_taken(test: &Test, mut map: Numbers) {
    refill(test, &mut map, MIXED);
    test.expect(sum_of(&map) == 75);
    refill(test, &mut map, &[(1, 1), (2, 2), (1, 3)]);
    rest_is_walked(test, &mut map.into_iter());
}

#[test]
fn maps_are_taken_apart(rt: HostRuntime) -> Result<(), Failed> {
    let test = Test::new(rt.alloc());
    numbers_are_taken(&test, ListOrderedMultimap::new(test.alloc()));
    test.end()
}
