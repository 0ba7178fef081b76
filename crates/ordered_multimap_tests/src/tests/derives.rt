//! What derives give the types beside the map: refusals, ends, and links.
use ordered_multimap::End;
use ordered_multimap::list_ordered_multimap::{
    KeyLink, Refused, RefusedValue, UnclonedKey, ValueLink,
};
use std::error::Error;
use std::fmt;
use test_helpers::{Failed, Test, expect_text, is_compared, is_copied, is_shown};

// A value that has no Debug.
#[derive(PartialEq, Eq, Drop)]
struct Hidden(u32);

const fn pair(key: &'static str, value: u32) -> Refused<&'static str, Hidden> {
    Refused {
        key,
        value: Hidden(value),
    }
}

const fn value(value: u32) -> RefusedValue<Hidden> {
    RefusedValue {
        value: Hidden(value),
    }
}

const fn uncloned(value: u32) -> UnclonedKey<Hidden> {
    UnclonedKey {
        value: Hidden(value),
    }
}

fn told<T: PartialEq + Error>(test: &Test, refused: &T, other: &T, shown: &str) {
    test.expect(is_compared(refused, refused, other));
    test.expect(is_shown(test.alloc(), refused, shown));
    let text = format!(in test.alloc(); "{refused}");
    expect_text(test, text, "memory allocation failed");
}

#[test]
fn refusals_are_shown_and_compared(rt: HostRuntime) -> Result<(), Failed> {
    let test = Test::new(rt.alloc());
    told(&test, &pair("a", 1), &pair("a", 2), "Refused { .. }");
    told(&test, &pair("a", 1), &pair("", 1), "Refused { .. }");
    told(&test, &value(5), &value(6), "RefusedValue { .. }");
    told(&test, &uncloned(5), &uncloned(6), "UnclonedKey { .. }");
    test.end()
}

const KEY_LINK: KeyLink = KeyLink {
    hash: 1,
    head: 2,
    tail: 3,
    length: 4,
};

const VALUE_LINK: ValueLink = ValueLink {
    key: 1,
    previous: Some(2),
    next: None,
};

fn plain<T: PartialEq + Clone + Copy + fmt::Debug>(test: &Test, value: T, other: T, shown: &str) {
    test.expect(is_compared(&value, &value, &other) && is_copied(&value));
    test.expect(is_shown(test.alloc(), &value, shown));
}

#[test]
fn ends_and_links_are_shown_and_compared(rt: HostRuntime) -> Result<(), Failed> {
    let test = Test::new(rt.alloc());
    plain(&test, End::Front, End::Back, "Front");
    plain(&test, End::Back, End::Front, "Back");
    let shown = "KeyLink { hash: 1, head: 2, tail: 3, length: 4 }";
    let other = KeyLink {
        length: 0,
        ..KEY_LINK
    };
    plain(&test, KEY_LINK, other, shown);
    let shown = "ValueLink { key: 1, previous: Some(2), next: None }";
    let other = ValueLink {
        next: Some(0),
        ..VALUE_LINK
    };
    plain(&test, VALUE_LINK, other, shown);
    test.end()
}
