//! How a text is shown, lent and taken out: as it is spelled.
use crate::tests::owned::{bytes_of, text_of};
use ascii_caseless::AsciiCaseless;
use std::fmt::Display;
use test_helpers::{Failed, Test, expect_text, is_copied, is_shown, test_all};

fn is_displayed<T: Display>(test: &Test, text: &T, wanted: &str) {
    expect_text(test, format!(in test.alloc(); "{text}"), wanted);
    expect_text(test, format!(in test.alloc(); "{text:>4}"), "  Ok");
}

fn texts_are_shown(test: &Test) {
    is_displayed(test, &AsciiCaseless("Ok"), "Ok");
    is_displayed(test, &text_of(test, "Ok"), "Ok");
    let quoted = r#""Ok""#;
    test.expect(is_shown(test.alloc(), &AsciiCaseless("Ok"), quoted));
    test.expect(is_shown(test.alloc(), &text_of(test, "Ok"), quoted));
}

fn bytes_are_shown(test: &Test) {
    let numbers = "[79, 107]";
    test.expect(is_shown(test.alloc(), &AsciiCaseless(b"Ok".as_slice()), numbers));
    test.expect(is_shown(test.alloc(), &bytes_of(test, "Ok"), numbers));
}

fn texts_are_lent(test: &Test) {
    let text = AsciiCaseless("Ok");
    test.expect(text.as_str() == "Ok" && text.as_bytes() == b"Ok".as_slice());
    test.expect(text.into_inner() == "Ok");
}

fn texts_are_copied(test: &Test) {
    test.expect(is_copied(&AsciiCaseless("Ok")));
    test.expect(AsciiCaseless::from("Ok").as_str() == "Ok");
}

fn strings_are_lent(test: &Test) {
    let text = text_of(test, "Ok");
    test.expect(text.as_str() == "Ok" && text.as_bytes() == b"Ok".as_slice());
    test.expect(text.clone().is_ok_and(|clone| clone.as_str() == "Ok"));
    test.expect(text.into_inner().as_str() == "Ok");
}

fn bytes_are_lent(test: &Test) {
    let ok = b"Ok".as_slice();
    test.expect(AsciiCaseless(ok).as_bytes() == ok && AsciiCaseless(ok).into_inner() == ok);
    let bytes = bytes_of(test, "Ok");
    test.expect(bytes.as_bytes() == ok);
    test.expect(bytes.into_inner().as_slice() == ok);
}

#[test]
fn texts_are_shown_as_they_are_spelled(rt: HostRuntime) -> Result<(), Failed> {
    test_all!(rt.alloc(); texts_are_shown, bytes_are_shown)
}

#[test]
fn texts_are_lent_as_they_are_spelled(rt: HostRuntime) -> Result<(), Failed> {
    test_all!(rt.alloc(); texts_are_lent, texts_are_copied, strings_are_lent, bytes_are_lent)
}
