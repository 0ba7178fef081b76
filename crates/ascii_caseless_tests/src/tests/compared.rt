//! Which texts are equal: the same rows for each type that a text is in.
use crate::tests::owned::{bytes_of, text_of};
use ascii_caseless::AsciiCaseless;
use ordered_multimap::{DefaultState, KeyQuery};
use std::convert::AsSlice;
use std::hash::BuildHasher;
use test_helpers::{Failed, Test};

/// Two texts, and whether they are equal.
type Row = (&'static str, &'static str, bool);

// `@` and a backquote, `[` and `{` and so on differ in the bit in which the cases of a letter
// differ, and so do U+00C4 and U+00E4, Ä and ä. U+212A is the Kelvin sign, whose lower case is k.
const ROWS: &[Row] = &[
    ("", "", true),
    ("", "a", false),
    ("accept", "ACCEPT", true),
    ("Accept", "aCCEPT", true),
    ("accept", "accepts", false),
    ("accept", "accepu", false),
    ("az", "AZ", true),
    ("@", "`", false),
    ("[", "{", false),
    ("\\", "|", false),
    ("]", "}", false),
    ("^", "~", false),
    ("_", "\u{7f}", false),
    ("0", "\u{10}", false),
    ("x-09", "X-09", true),
    (" ", "\u{0}", false),
    ("\u{c4}", "\u{e4}", false),
    ("\u{e4}x", "\u{e4}X", true),
    ("k", "\u{212a}", false),
];

// Whether two texts are as equal as they should be.
fn are_as<T: AsSlice<u8>>(one: &AsciiCaseless<T>, other: &AsciiCaseless<T>, equal: bool) -> bool {
    (*one == *other) == equal && (*other == *one) == equal && *one == *one
}

// Whether a text is found by a query as it should be, and has its hash where it is.
fn stands_for<T: AsSlice<u8>>(query: &str, text: &AsciiCaseless<T>, equal: bool) -> bool {
    let state = DefaultState::new();
    let bytes = AsciiCaseless(query.as_bytes());
    let query = AsciiCaseless(query);
    query.equivalent(text) == equal
        && bytes.equivalent(text) == equal
        && (!equal || state.hash_one(query) == state.hash_one(text))
}

fn lent_are_compared(test: &Test, at: usize, row: &Row) {
    let (one, other, equal) = *row;
    let (text, bytes) = (AsciiCaseless(other), AsciiCaseless(other.as_bytes()));
    test.expect_at(at, are_as(&AsciiCaseless(one), &text, equal));
    test.expect_at(at, stands_for(one, &text, equal));
    test.expect_at(at, are_as(&AsciiCaseless(one.as_bytes()), &bytes, equal));
    test.expect_at(at, stands_for(one, &bytes, equal));
}

fn strings_are_compared(test: &Test, at: usize, row: &Row) {
    let (one, other, equal) = *row;
    let (one, other) = (text_of(test, one), text_of(test, other));
    test.expect_at(at, are_as(&one, &other, equal));
    test.expect_at(at, stands_for(row.0, &other, equal));
}

fn vectors_are_compared(test: &Test, at: usize, row: &Row) {
    let (one, other, equal) = *row;
    let (one, other) = (bytes_of(test, one), bytes_of(test, other));
    test.expect_at(at, are_as(&one, &other, equal));
    test.expect_at(at, stands_for(row.0, &other, equal));
}

#[test]
fn texts_are_compared_without_case(rt: HostRuntime) -> Result<(), Failed> {
    let test = Test::new(rt.alloc());
    for (at, row) in ROWS.iter().enumerate() {
        lent_are_compared(&test, at, row);
        strings_are_compared(&test, at, row);
        vectors_are_compared(&test, at, row);
    }
    test.end()
}
