//! What a map has once a walk for writing has ended, what the walk had left, and updates.
use crate::tests::lending::{keys_of, pairs_of, values_of, values_of_key};
use ordered_multimap::list_ordered_multimap::{EntryValuesMut, IterMut, KeyValuesMut, ValuesMut};
use ordered_multimap_callers::maps::{
    MIXED, Numbers, ONE_KEY, goes_on, has_lists, has_pairs, refill,
};
use test_helpers::{B, F, Test, is_shown};

// Writes the last value and then the first, while both references live.
fn write_ends(map: &mut Numbers) -> bool {
    let mut walk = pairs_of(map);
    match (walk.next_back(), walk.next()) {
        (Some((_, last)), Some((_, first))) => {
            *last = 30;
            *first = 10;
            true
        }
        _ => false,
    }
}

fn raise_all(map: &mut Numbers) {
    for value in values_of(map) {
        *value = value.saturating_add(1);
    }
}

fn ends_are_written(test: &Test, map: &mut Numbers) {
    refill(test, map, &[(1, 1), (2, 2), (1, 3)]);
    test.expect(write_ends(map));
    let ends = has_lists(map, &[(1, 10), (2, 2), (1, 30)], &[1, 2]);
    test.expect(ends);
    raise_all(map);
    let all = has_lists(map, &[(1, 11), (2, 3), (1, 31)], &[1, 2]);
    test.expect(all);
}

// Writes an item that a walk gave, and ends the walk by its right to the others.
macro_rules! end_by_cells {
    ($walk:ident.$step:ident(), $given:pat => $place:ident = $value:expr) => {
        match $walk.$step() {
            Some($given) => {
                *$place = $value;
                $walk.into_cells().end();
                true
            }
            None => false,
        }
    };
}

fn end_pairs(map: &mut Numbers) -> bool {
    let mut walk = pairs_of(map);
    end_by_cells!(walk.next_back(), (_, last) => last = 30)
}

fn end_values(map: &mut Numbers) -> bool {
    let mut walk = values_of(map);
    end_by_cells!(walk.next(), first => first = 10)
}

fn end_values_of_a_key(map: &mut Numbers) -> bool {
    let mut walk = values_of_key(map, 2);
    end_by_cells!(walk.next_back(), last => last = 20)
}

fn walks_are_ended(test: &Test, map: &mut Numbers) {
    refill(test, map, &[(1, 1), (2, 2), (1, 3)]);
    test.expect(end_pairs(map));
    test.expect(end_values(map));
    test.expect(end_values_of_a_key(map));
    let ended = has_lists(map, &[(1, 10), (2, 20), (1, 30)], &[1, 2]);
    test.expect(ended);
}

/// Walks that are let go leave each value where it belongs.
pub fn walks_leave_values(test: &Test, map: &mut Numbers) {
    ends_are_written(test, map);
    walks_are_ended(test, map);
}

// A held walk blocks its map, unless a block, `drop`, or a `let` before an `if let` ends it.
fn write(value: Option<&mut u32>, written: u32) {
    if let Some(value) = value {
        *value = written;
    }
}

/// The map is used again in the function that held the walk.
pub fn held_walks_end(test: &Test, map: &mut Numbers) {
    refill(test, map, &[(1, 1), (2, 2), (3, 4), (1, 3)]);
    {
        let mut walk = values_of(map);
        write(walk.next(), 10);
        write(walk.next_back(), 30);
    }
    let mut walk = values_of_key(map, 2);
    write(walk.next(), 20);
    drop(walk);
    let first = values_of_key(map, 3).next();
    if let Some(first) = first {
        *first = 40;
    }
    let written = has_lists(map, &[(1, 10), (2, 20), (3, 40), (1, 30)], &[1, 2, 3]);
    test.expect(written);
}

// Expects what Debug shows of a walk and of its rest, and what that gives behind one item.
macro_rules! expect_rest {
    ($test:expr, $walk:expr; $shown:expr, $rest:expr, $behind:expr) => {{
        $test.expect(is_shown($test.alloc(), $walk, $shown));
        $test.expect($walk.next_back().is_some());
        $test.expect(is_shown($test.alloc(), &$walk.iter(), $rest));
        $test.expect(goes_on(&mut $walk.iter(), $behind));
    }};
}

const PAIRS_SHOWN: &str = "IterMut([(1, 11), (2, 12), (2, 13), (1, 14)])";

fn pairs_are_left(test: &Test, walk: &mut IterMut<'_, u32, u32>) {
    expect_rest!(test, walk; PAIRS_SHOWN, "IterRest([(1, 11), (2, 12), (2, 13)])",
        &[(B, (2, 13)), (F, (2, 12))])
}

fn values_are_left(test: &Test, walk: &mut ValuesMut<'_, u32, u32>) {
    expect_rest!(test, walk; "ValuesMut([11, 12, 13, 14])", "ValuesRest([11, 12, 13])",
        &[(F, 12), (F, 13)])
}

fn values_of_a_key_are_left(test: &Test, walk: &mut EntryValuesMut<'_, u32, u32>) {
    expect_rest!(test, walk; "EntryValuesMut([11, 12, 13, 14])", "EntryValuesRest([11, 12, 13])",
        &[(F, 12), (F, 13)])
}

const KEYS_SHOWN: &str = "KeyValuesMut([(1, EntryValues([11, 14])), (2, EntryValues([12, 13]))])";

const KEY_LEFT: &str = "KeyValuesMut([(2, EntryValues([12, 13]))])";

fn keys_are_left(test: &Test, walk: &mut KeyValuesMut<'_, u32, u32>) {
    test.expect(is_shown(test.alloc(), walk, KEYS_SHOWN));
    test.expect(walk.next().is_some());
    test.expect(is_shown(test.alloc(), walk, KEY_LEFT));
}

/// What is left is walked and cloned, and all walks are shown.
pub fn walks_have_left(test: &Test, map: &mut Numbers) {
    refill(test, map, MIXED);
    pairs_are_left(test, &mut pairs_of(map));
    values_are_left(test, &mut values_of(map));
    keys_are_left(test, &mut keys_of(map));
    refill(test, map, ONE_KEY);
    values_of_a_key_are_left(test, &mut values_of_key(map, 1));
}

/// Functions write values: each call its number, once on each value, in order, and on no other.
pub fn values_are_updated(test: &Test, map: &mut Numbers) {
    refill(test, map, &[(1, 5), (2, 5), (1, 5), (3, 5), (1, 5)]);
    let mut calls = 0_u32;
    map.update_all(&1, |value| {
        calls = calls.saturating_add(1);
        *value = calls;
    });
    test.expect(calls == 3);
    let counted = has_pairs(map, &[(1, 1), (2, 5), (1, 2), (3, 5), (1, 3)]);
    test.expect(counted);
    map.update_all(&4, |_value| calls = calls.saturating_add(1));
    test.expect(calls == 3);
    map.update_values(|_key, value| {
        calls = calls.saturating_add(1);
        *value = calls;
    });
    test.expect(calls == 8);
    let counted = has_pairs(map, &[(1, 4), (2, 5), (1, 6), (3, 7), (1, 8)]);
    test.expect(counted);
}
