//! Look-ups by queries. None makes a text.
mod joined;
mod names;
mod parts;

use ordered_multimap::{KeyQuery, ListOrderedMultimap};
use ordered_multimap_callers::maps::{collided, test_on_empty};
use std::borrow::{CowSlice, CowStr};
use std::boxed::{BoxedSlice, BoxedStr};
use std::hash::{BuildHasher, Hash};
use std::rc::RcStr;
use test_helpers::{
    B, Constant, F, Failed, Test, is_shown, test_all, test_on_new, walk_difference,
};

#[test]
fn owned_texts_are_found_by_lent_ones(rt: HostRuntime) -> Result<(), Failed> {
    test_on_empty(rt.alloc(), texts_are_queries)?;
    test_on_new(rt.alloc(), collided, texts_are_queries)
}

// A map whose keys own their text.
type Owned<S> = ListOrderedMultimap<String, u32, S>;

const PAIRS: &[(&str, u32)] = &[("line", 1), ("page", 8), ("line", 2)];

// A name, the first of its values, and how many it has.
type Found = (&'static str, Option<u32>, usize);

const FOUND: &[Found] = &[
    ("line", Some(1), 2),
    ("page", Some(8), 1),
    ("none", None, 0),
    ("lin", None, 0),
    ("line ", None, 0),
    ("", None, 0),
];

fn append_text<S: BuildHasher>(test: &Test, map: &mut Owned<S>, name: &str, value: u32) {
    match String::from_str(test.alloc(), name) {
        Ok(key) => test.expect(map.append(key, value).is_ok()),
        Err(_) => test.fail(),
    }
}

fn refill<S: BuildHasher>(test: &Test, map: &mut Owned<S>) {
    map.clear();
    for (name, value) in PAIRS {
        append_text(test, map, name, *value);
    }
}

fn row_is_found<S: BuildHasher>(test: &Test, map: &Owned<S>, at: usize, row: &Found) {
    let (name, first, count) = *row;
    test.expect_at(at, map.get(name).copied() == first);
    test.expect_at(at, map.contains_key(name) == (count > 0));
    test.expect_at(at, map.entry_len(name) == count);
    test.expect_at(at, map.get_all(name).len() == count);
}

// What stands under a name is written, the first value alone and then all.
fn values_are_written<S: BuildHasher>(test: &Test, map: &mut Owned<S>) {
    if let Some(value) = map.get_mut("line") {
        *value = 3;
    }
    test.expect(map.get_mut("none").is_none());
    test.expect_same(walk_difference(&mut map.get_all("line"), &[(F, 3), (B, 2)]));
    for value in map.get_all_mut("line") {
        *value = 9;
    }
    is_shown_as(test, map, r#"{"line": 9, "page": 8, "line": 9}"#);
}

fn is_shown_as<S: BuildHasher>(test: &Test, map: &Owned<S>, wanted: &str) {
    test.expect(is_shown(test.alloc(), map, wanted));
}

const PAGE: &str = r#"{"page": 8}"#;

// What a removal hands out, and how long the key is.
fn entry_of<S: BuildHasher>(map: &mut Owned<S>, name: &str) -> Option<(usize, u32)> {
    match map.remove_entry(name) {
        Some((key, value)) => Some((key.len(), value)),
        None => None,
    }
}

// The first value that a removal hands out, and how long the key is.
fn drained<S: BuildHasher>(map: &mut Owned<S>, name: &str) -> (Option<u32>, Option<usize>) {
    let mut stored = None;
    let first = map.remove_entry_with_all(name, &mut stored).next();
    (first, stored.map(|key| key.len()))
}

// The name's values are taken out by one call after another.
fn names_leave<S: BuildHasher>(test: &Test, map: &mut Owned<S>) {
    test.expect(map.remove("line") == Some(1) && map.remove("line").is_none());
    refill(test, map);
    test.expect(entry_of(map, "line") == Some((4, 1)) && entry_of(map, "line").is_none());
    refill(test, map);
    test.expect(map.remove_all("line").next_back() == Some(2));
    test.expect(map.remove_all("none").len() == 0);
    is_shown_as(test, map, PAGE);
}

fn names_leave_with_keys<S: BuildHasher>(test: &Test, map: &mut Owned<S>) {
    test.expect(drained(map, "line") == (Some(1), Some(4)));
    test.expect(drained(map, "none") == (None, None));
    is_shown_as(test, map, PAGE);
}

// What each call finds, writes and takes out by a text.
fn texts_are_queries<S: BuildHasher>(test: &Test, map: &mut Owned<S>) {
    refill(test, map);
    for (at, row) in FOUND.iter().enumerate() {
        row_is_found(test, map, at, row);
    }
    values_are_written(test, map);
    refill(test, map);
    names_leave(test, map);
    refill(test, map);
    names_leave_with_keys(test, map);
}

fn is_found<K: Eq + Hash + Drop, Q: KeyQuery<K>>(
    test: &Test,
    map: &mut ListOrderedMultimap<K, u32, Constant>,
    key: K,
    query: Q,
    other: Q,
) {
    test.expect(map.append(key, 7).is_ok());
    test.expect(map.get(query).copied() == Some(7));
    test.expect(map.get(other).is_none());
}

fn finds<K: Eq + Hash + Drop, Q: KeyQuery<K>, E: Drop>(
    test: &Test,
    key: Result<K, E>,
    query: Q,
    other: Q,
) {
    match key {
        Ok(key) => is_found(test, &mut collided(test.alloc()), key, query, other),
        Err(_) => test.fail(),
    }
}

fn texts_are_found(test: &Test) {
    let alloc = test.alloc();
    finds(test, String::from_str(alloc, "line"), "line", "lime");
    finds(test, BoxedStr::from_str(alloc, "line"), "line", "lime");
    finds(test, RcStr::from_str(alloc, "line"), "line", "lime");
}

fn lent_texts_are_found(test: &Test) {
    let lent: Result<&str, ()> = Ok("line");
    finds(test, lent, "line", "lime");
    let lent: Result<CowStr<'_>, ()> = Ok(CowStr::Borrowed("line"));
    finds(test, lent, "line", "lime");
}

const ITEMS: &[u8] = &[1, 2, 3];

const OTHERS: &[u8] = &[1, 2];

fn lists_are_found(test: &Test) {
    let alloc = test.alloc();
    finds(test, Vec::from_slice(alloc, ITEMS), ITEMS, OTHERS);
    finds(test, BoxedSlice::from_slice(alloc, ITEMS), ITEMS, OTHERS);
}

fn lent_lists_are_found(test: &Test) {
    let lent: Result<&[u8], ()> = Ok(ITEMS);
    finds(test, lent, ITEMS, OTHERS);
    let lent: Result<CowSlice<'_, u8>, ()> = Ok(CowSlice::Borrowed(ITEMS));
    finds(test, lent, ITEMS, OTHERS);
}

#[test]
fn each_kind_of_key_is_found(rt: HostRuntime) -> Result<(), Failed> {
    test_all!(rt.alloc();
        texts_are_found, lent_texts_are_found, lists_are_found, lent_lists_are_found)
}
