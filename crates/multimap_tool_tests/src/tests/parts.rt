//! What each type reads, with its limits, and what it refuses.
use multimap_tool::json::{JsonPart, PartFault};
use serde_json::Value;
use std::alloc::Global;
use test_helpers::{Failed, Test};

pub fn has_text(alloc: Global, value: &Value, text: &str) -> bool {
    value
        .to_string(alloc)
        .is_ok_and(|written| written.as_str() == text)
}

/// Whether the part is written as this text, and what was written is read as the part.
fn is_text_of<T: JsonPart + PartialEq + Drop>(alloc: Global, part: &T, text: &str) -> bool {
    let Ok(value) = part.to_part(alloc) else {
        return false;
    };
    let is_read = match T::from_part(alloc, &value) {
        Ok(read) => read == *part,
        Err(_) => false,
    };
    is_read && has_text(alloc, &value, text)
}

fn is_refused<T: JsonPart + Drop>(alloc: Global, text: &str) -> bool {
    match Value::from_str(alloc, text) {
        Ok(value) => matches!(T::from_part(alloc, &value), Err(PartFault::Refused)),
        Err(_) => false,
    }
}

fn are_read<T: JsonPart + PartialEq + Drop>(test: &Test, good: &[(T, &str)], bad: &[&str]) {
    for (row, (part, text)) in good.iter().enumerate() {
        test.expect_at(row, is_text_of(test.alloc(), part, text));
    }
    for (row, text) in bad.iter().enumerate() {
        test.expect_at(row, is_refused::<T>(test.alloc(), text));
    }
}

fn numbers_are_read(test: &Test) {
    let bad = ["-1", "4294967296", "1.0", "1e2", "-0", "\"1\"", "[1]"];
    are_read(test, &[(0u32, "0"), (u32::MAX, "4294967295")], &bad);
    let bad = ["-1", "18446744073709551616", "1.5", "\"1\"", "null"];
    are_read(test, &[(u64::MAX, "18446744073709551615")], &bad);
    let bad = ["9223372036854775808", "-9223372036854775809", "2.5", "true"];
    let good = [
        (-1i64, "-1"),
        (i64::MAX, "9223372036854775807"),
        (i64::MIN, "-9223372036854775808"),
    ];
    are_read(test, &good, &bad);
}

fn short_numbers_are_read(test: &Test) {
    are_read(test, &[(0u8, "0"), (u8::MAX, "255")], &["256", "-1", "1.0"]);
    are_read(test, &[(u16::MAX, "65535")], &["65536", "-1", "\"1\""]);
    are_read(
        test,
        &[(i8::MIN, "-128"), (i8::MAX, "127")],
        &["-129", "128", "0.5"],
    );
    let good = [(i16::MIN, "-32768"), (i16::MAX, "32767")];
    are_read(test, &good, &["-32769", "32768"]);
    let good = [
        (i32::MIN, "-2147483648"),
        (0, "0"),
        (i32::MAX, "2147483647"),
    ];
    are_read(test, &good, &["-2147483649", "2147483648", "null"]);
}

fn truths_and_characters_are_read(test: &Test) {
    let bad = ["0", "1", "\"true\"", "null", "[true]"];
    are_read(test, &[(true, "true"), (false, "false")], &bad);
    let bad = ["\"\"", "\"ab\"", "\"éa\"", "\"aé\"", "1"];
    let good = [
        ('b', "\"b\""),
        ('é', "\"é\""),
        ('€', "\"€\""),
        ('🦀', "\"🦀\""),
        ('"', "\"\\\"\""),
    ];
    are_read(test, &good, &bad);
}

const TEXTS: &[(&str, &str)] = &[("", "\"\""), ("ab", "\"ab\""), ("a\"é", "\"a\\\"é\"")];

fn texts_are_read(test: &Test) {
    for (row, (text, written)) in TEXTS.iter().enumerate() {
        let is_read = match String::from_str(test.alloc(), text) {
            Ok(text) => is_text_of(test.alloc(), &text, written),
            Err(_) => false,
        };
        test.expect_at(row, is_read);
    }
    are_read::<String>(test, &[], &["1", "true", "null", "[\"a\"]", "{}"]);
}

#[test]
fn parts_are_written_and_read(rt: HostRuntime) -> Result<(), Failed> {
    let test = Test::new(rt.alloc());
    numbers_are_read(&test);
    short_numbers_are_read(&test);
    truths_and_characters_are_read(&test);
    texts_are_read(&test);
    test.end()
}
