//! Keys that own their text, looked up by texts that are lent, also where all hashes are equal.
use crate::tests::callers::has_only;
use crate::tests::sets::collided;
use set_ordered_multimap::SetOrderedMultimap;
use std::hash::BuildHasher;
use test_helpers::{Failed, Test, copied, gives, is_shown, test_on_new};

type Owned<S> = SetOrderedMultimap<String, u32, S>;

const PAIRS: &[(&str, u32)] = &[("ab", 1), ("b", 8), ("ab", 2), ("", 2)];

const ALL: &str = r#"{"ab": 1, "b": 8, "ab": 2, "": 2}"#;

const NAMED: &str = r#"{"ab": 1, "b": 8, "ab": 2}"#;

// A name and its values, and the pairs once its value 2 has left, and once all have.
type Row = (&'static str, &'static [u32], &'static str, &'static str);

const ROWS: &[Row] = &[
    (
        "ab",
        &[1, 2],
        r#"{"ab": 1, "b": 8, "": 2}"#,
        r#"{"b": 8, "": 2}"#,
    ),
    ("b", &[8], ALL, r#"{"ab": 1, "ab": 2, "": 2}"#),
    ("", &[2], NAMED, NAMED),
    ("a", &[], ALL, ALL),
    ("abc", &[], ALL, ALL),
    ("none", &[], ALL, ALL),
];

fn insert_text<S: BuildHasher>(test: &Test, set: &mut Owned<S>, name: &str, value: u32) {
    let key = String::from_str(test.alloc(), name);
    test.expect(key.is_ok_and(|key| set.insert(key, value).is_ok()));
}

fn refill<S: BuildHasher>(test: &Test, set: &mut Owned<S>) {
    set.clear();
    for (name, value) in PAIRS {
        insert_text(test, set, name, *value);
    }
}

// Whether look-ups find the first and the last of these values of a name.
fn ends_are_found<S: BuildHasher>(set: &Owned<S>, name: &str, values: &[u32]) -> bool {
    copied(set.get(name)) == copied(values.first())
        && copied(set.get_last(name)) == copied(values.last())
}

// Whether a look-up finds the name with the first of these values.
fn entry_is_found<S: BuildHasher>(set: &Owned<S>, name: &str, values: &[u32]) -> bool {
    match set.get_key_value(name) {
        Some((key, value)) => key.as_str() == name && Some(*value) == copied(values.first()),
        None => values.is_empty(),
    }
}

// Whether look-ups find these values of a name.
fn is_found<S: BuildHasher>(set: &Owned<S>, name: &str, values: &[u32]) -> bool {
    set.contains_key(name) != values.is_empty()
        && set.entry_len(name) == values.len()
        && ends_are_found(set, name, values)
        && entry_is_found(set, name, values)
        && gives(&mut set.get_all(name), values)
}

// Whether look-ups find the pairs of the name with these values, and no other pair.
fn pairs_are_found<S: BuildHasher>(set: &Owned<S>, name: &str, values: &[u32]) -> bool {
    let mut same = has_only(set, name, &8) == (name == "b");
    for value in [1, 2, 8] {
        same = same && set.contains(name, &value) == values.contains(&value);
    }
    same
}

// The last value of the name that was handed out.
fn hand_out<S: BuildHasher>(set: &mut Owned<S>, name: &str) -> Option<u32> {
    let mut last = None;
    set.remove_all_with(name, |value| last = Some(value));
    last
}

fn value_leaves<S: BuildHasher>(test: &Test, set: &mut Owned<S>, row: &Row) {
    refill(test, set);
    test.expect(set.remove_value(row.0, &2) == row.1.contains(&2));
    test.expect(is_shown(test.alloc(), set, row.2));
}

// Takes the value 2 of the name out by its index, which is out of bounds where there is none.
fn index_leaves<S: BuildHasher>(test: &Test, set: &mut Owned<S>, row: &Row) {
    refill(test, set);
    let index = row.1.iter().position(|value| *value == 2);
    let gone = set.remove_index(row.0, index.unwrap_or(row.1.len()));
    test.expect(gone == index.map(|_index| 2));
    test.expect(is_shown(test.alloc(), set, row.2));
}

fn others_stay<S: BuildHasher>(test: &Test, set: &mut Owned<S>, row: &Row) {
    refill(test, set);
    set.retain_all(row.0, |value| *value != 2);
    test.expect(is_shown(test.alloc(), set, row.2));
}

fn values_leave<S: BuildHasher>(test: &Test, set: &mut Owned<S>, row: &Row) {
    refill(test, set);
    test.expect(gives(&mut set.remove_all(row.0), row.1));
    test.expect(is_shown(test.alloc(), set, row.3));
    test.expect(is_found(set, row.0, &[]));
}

fn values_are_handed_out<S: BuildHasher>(test: &Test, set: &mut Owned<S>, row: &Row) {
    refill(test, set);
    test.expect(hand_out(set, row.0) == copied(row.1.last()));
    test.expect(is_shown(test.alloc(), set, row.3));
}

fn a_text_is_a_query<S: BuildHasher>(test: &Test, set: &mut Owned<S>, at: usize, row: &Row) {
    refill(test, set);
    test.expect_at(
        at,
        is_found(set, row.0, row.1) && pairs_are_found(set, row.0, row.1),
    );
    value_leaves(test, set, row);
    index_leaves(test, set, row);
    others_stay(test, set, row);
    values_leave(test, set, row);
    values_are_handed_out(test, set, row);
}

fn texts_are_queries<S: BuildHasher>(test: &Test, set: &mut Owned<S>) {
    for (at, row) in ROWS.iter().enumerate() {
        a_text_is_a_query(test, set, at, row);
    }
}

#[test]
fn owned_texts_are_found_by_lent_ones(rt: HostRuntime) -> Result<(), Failed> {
    test_on_new(rt.alloc(), SetOrderedMultimap::new, texts_are_queries)?;
    test_on_new(rt.alloc(), collided, texts_are_queries)
}
