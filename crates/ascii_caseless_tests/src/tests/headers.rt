//! A store of headers, whose names own their text and are looked up in any case.
use crate::callers::{append_and_find, first_of_both_spellings, values_of_any_spelling};
use crate::tests::owned::text_of;
use ascii_caseless::AsciiCaseless;
use ordered_multimap::ListOrderedMultimap;
use test_helpers::{End, Failed, Test, run_parts, test_on_new, walk_difference};

type Headers = ListOrderedMultimap<AsciiCaseless<String>, u32>;

const SENT: &[(&str, u32)] = &[("Accept", 1), ("Cookie", 2), ("ACCEPT", 3), ("Origin", 4)];

// Each name is spelled as it first was.
const STORED: &[(&str, u32)] = &[("Accept", 1), ("Cookie", 2), ("Accept", 3), ("Origin", 4)];

fn stored(pair: Option<(&AsciiCaseless<String>, &u32)>, wanted: &(&str, u32)) -> bool {
    match pair {
        Some((name, value)) => name.as_str() == wanted.0 && *value == wanted.1,
        None => false,
    }
}

fn are_stored(test: &Test, headers: &Headers, wanted: &[(&str, u32)]) {
    let mut walk = headers.iter();
    for (row, pair) in wanted.iter().enumerate() {
        test.expect_at(row, stored(walk.next(), pair));
    }
    test.expect(walk.next().is_none());
}

fn headers_are_sent(test: &Test, headers: &mut Headers) {
    headers.clear();
    for (name, value) in SENT {
        test.expect(headers.append(text_of(test, name), *value).is_ok());
    }
    are_stored(test, headers, STORED);
    test.expect(headers.keys_len() == 3);
}

fn names_are_found(test: &Test, headers: &Headers) {
    test.expect(headers.get(AsciiCaseless("ACCEPT")).copied() == Some(1));
    test.expect(headers.get(AsciiCaseless(b"cOOKIE".as_slice())).copied() == Some(2));
    test.expect(!headers.contains_key(AsciiCaseless("accep")));
}

fn values_are_found(test: &Test, headers: &Headers) {
    let both = [(End::Front, 1), (End::Front, 3)];
    let mut values = headers.get_all(AsciiCaseless("accept"));
    test.expect_same(walk_difference(&mut values, &both));
}

fn one_is_set(test: &Test, headers: &mut Headers) {
    let old = headers.set(text_of(test, "accept"), 5);
    test.expect(old.ok() == Some(Some(1)));
    are_stored(
        test,
        headers,
        &[("Accept", 5), ("Cookie", 2), ("Origin", 4)],
    );
}

fn one_is_removed(test: &Test, headers: &mut Headers) {
    test.expect(headers.remove(AsciiCaseless("COOKIE")) == Some(2));
    test.expect(headers.remove(AsciiCaseless("cookie")).is_none());
    are_stored(test, headers, &[("Accept", 5), ("Origin", 4)]);
}

fn names_answer(test: &Test, headers: &mut Headers) {
    headers_are_sent(test, headers);
    names_are_found(test, headers);
    values_are_found(test, headers);
    one_is_set(test, headers);
    one_is_removed(test, headers);
}

fn is_spelled(removed: Option<(AsciiCaseless<String>, u32)>, name: &str, value: u32) -> bool {
    match removed {
        Some((stored, first)) => stored.as_str() == name && first == value,
        None => false,
    }
}

// A name that is replaced stays as it was, and one that comes again is new.
fn first_spelling_stays(test: &Test, headers: &mut Headers) {
    headers.clear();
    test.expect(headers.append(text_of(test, "Key"), 1).ok() == Some(false));
    test.expect(headers.insert(text_of(test, "KEY"), 2).ok() == Some(Some(1)));
    test.expect(is_spelled(headers.remove_entry(&text_of(test, "key")), "Key", 2));
    test.expect(headers.append(text_of(test, "kEY"), 3).ok() == Some(false));
    are_stored(test, headers, &[("kEY", 3)]);
}

fn callers_find_any_spelling(test: &Test, headers: &mut Headers) {
    headers_are_sent(test, headers);
    let both = [(End::Back, 3), (End::Back, 1)];
    let mut values = values_of_any_spelling(headers, "aCCept");
    test.expect_same(walk_difference(&mut values, &both));
    let first = first_of_both_spellings(headers, "ORIGIN", "origin");
    test.expect(first == (Some(4), Some(4)));
}

fn caller_finds_what_it_appended(test: &Test, headers: &mut Headers) {
    headers_are_sent(test, headers);
    let name = text_of(test, "ORIGIN").into_inner();
    let last = append_and_find(headers, name, 7, "origin").ok();
    test.expect(last == Some(Some(7)));
}

fn headers_are_kept(test: &Test, headers: &mut Headers) {
    run_parts!(
        test, headers;
        names_answer, first_spelling_stays, callers_find_any_spelling, caller_finds_what_it_appended
    )
}

#[test]
fn headers_are_found_in_any_case(rt: HostRuntime) -> Result<(), Failed> {
    test_on_new(rt.alloc(), ListOrderedMultimap::new, headers_are_kept)
}
