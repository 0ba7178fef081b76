//! Maps of texts, owned and borrowed, that are written as JSON values and read as equal ones.
use crate::tests::parts::has_text;
use multimap_tool::json::{from_value, to_value, to_value_2};
use ordered_multimap::{DefaultState, ListOrderedMultimap};
use serde_json::Value;
use std::alloc::{AllocError, Global};
use test_helpers::{Failed, Test, is_shown};

// A text; what Debug shows of keys as the pairs first name them, as they stand, and of the map.
type Row = [&'static str; 4];

const MAPS: &[Row] = &[
    [r#"{"keys":[],"pairs":[]}"#, "Keys([])", "Keys([])", "{}"],
    [
        r#"{"keys":["b","a",""],"pairs":[["a","x"],["","y"],["b","x"],["a","x"],["b",""]]}"#,
        r#"Keys(["a", "", "b"])"#,
        r#"Keys(["b", "a", ""])"#,
        r#"{"a": "x", "": "y", "b": "x", "a": "x", "b": ""}"#,
    ],
    [
        r#"[["é\"","1"],["e","2"],["é\"","3"]]"#,
        r#"Keys(["é\"", "e"])"#,
        r#"Keys(["é\"", "e"])"#,
        r#"{"é\"": "1", "e": "2", "é\"": "3"}"#,
    ],
];

// Whether the value is read as a map with these keys and pairs, in order.
fn is_read(alloc: Global, value: &Value, keys: &str, pairs: &str) -> bool {
    match from_value::<String, String, _, _>(alloc, alloc, DefaultState::new(), value) {
        Ok(map) => is_shown(alloc, &map.keys(), keys) && is_shown(alloc, &map, pairs),
        Err(_) => false,
    }
}

// Whether the map is written and read as these lists, by its pairs alone with the first keys.
fn is_read_again(alloc: Global, map: &ListOrderedMultimap<String, String>, row: &Row) -> bool {
    to_value(alloc, map).is_ok_and(|value| is_read(alloc, &value, row[1], row[3]))
        && to_value_2(alloc, map).is_ok_and(|value| is_read(alloc, &value, row[2], row[3]))
}

fn value_is_kept(alloc: Global, value: &Value, row: &Row) -> bool {
    match from_value(alloc, alloc, DefaultState::new(), value) {
        Ok(map) => is_read_again(alloc, &map, row),
        Err(_) => false,
    }
}

// Whether the text gives a map that is written and read again as the lists of the row.
fn is_kept(alloc: Global, row: &Row) -> bool {
    match Value::from_str(alloc, row[0]) {
        Ok(value) => value_is_kept(alloc, &value, row),
        Err(_) => false,
    }
}

fn is_text(alloc: Global, written: Result<Value, AllocError>, text: &str) -> bool {
    written.is_ok_and(|value| has_text(alloc, &value, text))
}

type Lent = ListOrderedMultimap<&'static str, &'static str>;

// How many pairs are read, with owned keys and values.
fn read_len(alloc: Global, map: &Lent) -> Option<usize> {
    let value = to_value(alloc, map).ok()?;
    match from_value::<String, String, _, _>(alloc, alloc, DefaultState::new(), &value) {
        Ok(read) => Some(read.values_len()),
        Err(_) => None,
    }
}

fn texts_are_written(test: &Test, map: &mut Lent) {
    test.expect(map.append("b", "").is_ok());
    test.expect(map.append("a\"", "x").is_ok());
    let pairs = r#"[["b",""],["a\"","x"]]"#;
    let lists = r#"{"keys":["b","a\""],"pairs":[["b",""],["a\"","x"]]}"#;
    test.expect(is_text(test.alloc(), to_value(test.alloc(), map), pairs));
    test.expect(is_text(test.alloc(), to_value_2(test.alloc(), map), lists));
    test.expect(read_len(test.alloc(), map) == Some(2));
}

#[test]
fn texts_are_written_and_read_again(rt: HostRuntime) -> Result<(), Failed> {
    let test = Test::new(rt.alloc());
    for (row, map) in MAPS.iter().enumerate() {
        test.expect_at(row, is_kept(test.alloc(), map));
    }
    texts_are_written(&test, &mut ListOrderedMultimap::new(test.alloc()));
    test.end()
}
