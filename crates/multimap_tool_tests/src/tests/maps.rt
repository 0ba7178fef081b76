//! Maps that are written as JSON values, their pairs or both lists, and read of both forms.
use crate::tests::parts::has_text;
use multimap_tool::json::ReadFault::{
    BadKey, BadListedKey, BadValue, NotArray, NotPair, NotVersion2, RepeatedKey, UnlistedKey,
    UnusedKey,
};
use multimap_tool::json::{JsonPart, ReadFault, from_value, to_value, to_value_2};
use ordered_multimap::ListOrderedMultimap;
use ordered_multimap::list_ordered_multimap::DefaultState;
use serde_json::Value;
use std::alloc::Global;
use std::hash::Hash;
use test_helpers::{Failed, Test};

// Whether the value is read as a map that is equal to this one.
fn is_read_as<K: JsonPart + Eq + Hash + Copy, V: JsonPart + Eq + Copy>(
    alloc: Global,
    value: &Value,
    map: &ListOrderedMultimap<K, V>,
) -> bool {
    match from_value(alloc, alloc, DefaultState::new(), value) {
        Ok(read) => read == *map,
        Err(_) => false,
    }
}

// Whether the map is written as the text, in one of both forms, and read of it as an equal map.
fn is_written<K: JsonPart + Eq + Hash + Copy, V: JsonPart + Eq + Copy>(
    alloc: Global,
    map: &ListOrderedMultimap<K, V>,
    text: &str,
) -> bool {
    let written = if text.starts_with('{') {
        to_value_2(alloc, map)
    } else {
        to_value(alloc, map)
    };
    match written {
        Ok(value) => has_text(alloc, &value, text) && is_read_as(alloc, &value, map),
        Err(_) => false,
    }
}

// Whether the map of a text has these keys and is written as the other text; or the fault.
fn read<K: JsonPart + Eq + Hash + Copy, V: JsonPart + Eq + Copy>(
    alloc: Global,
    text: &str,
    keys: &[K],
    written: &str,
) -> Result<bool, ReadFault> {
    let Ok(value) = Value::from_str(alloc, text) else {
        return Ok(false);
    };
    match from_value::<K, V, _, _>(alloc, alloc, DefaultState::new(), &value) {
        Ok(map) => {
            let same = map.keys().copied().eq(keys.iter().copied());
            Ok(same && is_written(alloc, &map, written))
        }
        Err(fault) => Err(fault),
    }
}

// Texts of maps of numbers, with the keys, and the text as which each is written.
const NUMBERS: &[(&str, &[u32], &str)] = &[
    ("[]", &[], "[]"),
    (PAIRS, &[1, 2], PAIRS),
    (EMPTY, &[], EMPTY),
    (MIXED, &[2, 1], MIXED),
    // A file of the first version, and one of the second, as they are stored.
    (
        "[\n  [7, -1],\n  [3, 0],\n  [7, 2]\n]\n",
        &[7, 3],
        r#"{"keys":[7,3],"pairs":[[7,-1],[3,0],[7,2]]}"#,
    ),
    (
        "{\n  \"pairs\": [\n    [7, -1],\n    [3, 0],\n    [7, 2]\n  ],\n  \"keys\": [3, 7]\n}\n",
        &[3, 7],
        r#"{"keys":[3,7],"pairs":[[7,-1],[3,0],[7,2]]}"#,
    ),
];

const PAIRS: &str = "[[1,5],[2,6],[1,7]]";

const EMPTY: &str = r#"{"keys":[],"pairs":[]}"#;

const MIXED: &str = r#"{"keys":[2,1],"pairs":[[1,5],[2,6],[1,7]]}"#;

// Texts of no map. The first bad item decides, and in it the shape comes before the key.
const BAD: &[(ReadFault, &str)] = &[
    (NotArray, "null"),
    (NotArray, "7"),
    (NotArray, "\"x\""),
    (NotPair(1), "[[1,2],[3]]"),
    (NotPair(0), "[[1,2,3]]"),
    (NotPair(0), "[null]"),
    (NotPair(0), "[[]]"),
    (NotPair(0), "[1,2]"),
    (NotPair(0), r#"[{"0":1,"1":2}]"#),
    (NotPair(1), "[[1,2],null,[3]]"),
    (BadKey(1), r#"[[1,2],["x",4]]"#),
    (BadKey(0), "[[-1,2]]"),
    (BadKey(0), "[[[1],2]]"),
    (BadKey(0), "[[4294967296,1]]"),
    (BadValue(0), "[[1,2.5]]"),
    (BadKey(0), r#"[["x",2.5],7]"#),
    (BadValue(2), "[[1,2],[3,4],[5,true],[true,6],[]]"),
    (NotPair(0), r#"[["x",2,3]]"#),
    (NotVersion2, "{}"),
    (NotVersion2, r#"{"keys":[1]}"#),
    (NotVersion2, r#"{"keys":[1],"pairs":[[1,2]],"v":2}"#),
    (NotVersion2, r#"{"keys":["x"],"pairs":7}"#),
    (NotVersion2, r#"{"keys":{},"pairs":[]}"#),
    (NotVersion2, r#"{"keys":[1],"values":[[1,2]]}"#),
    (BadListedKey(0), r#"{"keys":["x"],"pairs":[[1]]}"#),
    (RepeatedKey(1), r#"{"keys":[1,1,"x"],"pairs":[[1,2]]}"#),
    (RepeatedKey(1), r#"{"keys":[1,1],"pairs":[[1,2]]}"#),
    (RepeatedKey(1), r#"{"keys":[1,1],"pairs":[]}"#),
    (RepeatedKey(2), r#"{"keys":[2,1,2],"pairs":[[1]]}"#),
    (NotPair(0), r#"{"keys":[1],"pairs":[7]}"#),
    (NotPair(1), r#"{"keys":[1],"pairs":[[1,5],[3]]}"#),
    (BadKey(0), r#"{"keys":[1],"pairs":[["x",2.5]]}"#),
    (BadKey(1), r#"{"keys":[1],"pairs":[[1,5],[-1,6]]}"#),
    (UnlistedKey(0), r#"{"keys":[1],"pairs":[[2,2.5]]}"#),
    (UnlistedKey(0), r#"{"keys":[],"pairs":[[1,5]]}"#),
    (UnlistedKey(1), r#"{"keys":[1],"pairs":[[1,5],[2,true]]}"#),
    (UnlistedKey(1), r#"{"keys":[1],"pairs":[[1,5],[2,6],[3]]}"#),
    (BadValue(0), r#"{"keys":[1,2],"pairs":[[1,2.5],7]}"#),
    (BadValue(1), r#"{"keys":[1,2],"pairs":[[1,5],[1,true]]}"#),
    (UnusedKey(0), r#"{"keys":[1],"pairs":[]}"#),
    (UnusedKey(1), r#"{"keys":[1,2],"pairs":[[1,5]]}"#),
];

// The same of a map of characters and numbers.
const BAD_LETTERS: &[(ReadFault, &str)] = &[
    (BadKey(0), r#"[["bb",1]]"#),
    (BadKey(0), r#"[["",1]]"#),
    (BadValue(0), r#"[["b",-1]]"#),
    (BadValue(0), r#"[["b",4294967296]]"#),
    (NotPair(0), "[true]"),
];

fn numbers_are_read(test: &Test) {
    for (row, (text, keys, written)) in NUMBERS.iter().enumerate() {
        let told = read::<u32, i64>(test.alloc(), text, keys, written);
        test.expect_at(row, told == Ok(true));
    }
}

fn faults_are_found<K: JsonPart + Eq + Hash + Copy, V: JsonPart + Eq + Copy>(
    test: &Test,
    bad: &[(ReadFault, &str)],
) {
    for (row, (fault, text)) in bad.iter().enumerate() {
        let told = read::<K, V>(test.alloc(), text, &[], "");
        test.expect_at(row, told == Err(*fault));
    }
}

fn letters_are_written(test: &Test, map: &mut ListOrderedMultimap<char, u32>) {
    test.expect(is_written(test.alloc(), map, "[]"));
    for (key, value) in [('b', 20), ('a', 10), ('c', 30), ('b', 30)] {
        test.expect(map.append(key, value).is_ok());
    }
    let wanted = r#"[["b",20],["a",10],["c",30],["b",30]]"#;
    test.expect(is_written(test.alloc(), map, wanted));
    let read = read::<char, u32>(test.alloc(), LETTERS, &['b', 'c'], LETTERS);
    test.expect(read == Ok(true));
}

const LETTERS: &str = r#"[["b",1],["c",2]]"#;

fn numbers_are_written(test: &Test, map: &mut ListOrderedMultimap<u32, i64>) {
    test.expect(is_written(test.alloc(), map, EMPTY));
    for (key, value) in [(1, 10), (2, 20), (1, 30)] {
        test.expect(map.insert(key, value).is_ok());
    }
    let wanted = r#"{"keys":[1,2],"pairs":[[2,20],[1,30]]}"#;
    test.expect(is_written(test.alloc(), map, wanted));
    test.expect(is_written(test.alloc(), map, "[[2,20],[1,30]]"));
}

#[test]
fn maps_are_written_and_read(rt: HostRuntime) -> Result<(), Failed> {
    let test = Test::new(rt.alloc());
    numbers_are_read(&test);
    faults_are_found::<u32, i64>(&test, BAD);
    faults_are_found::<char, u32>(&test, BAD_LETTERS);
    letters_are_written(&test, &mut ListOrderedMultimap::new(test.alloc()));
    numbers_are_written(&test, &mut ListOrderedMultimap::new(test.alloc()));
    test.end()
}
