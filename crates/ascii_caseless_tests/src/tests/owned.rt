//! Texts that own their memory.
use ascii_caseless::AsciiCaseless;
use test_helpers::Test;

/// The text in a string of its own.
pub fn text_of(test: &Test, text: &str) -> AsciiCaseless<String> {
    let text = String::from_str(test.alloc(), text);
    test.expect(text.is_ok());
    AsciiCaseless(text.unwrap_or(String::new(test.alloc())))
}

/// The text in a vector of its own.
pub fn bytes_of(test: &Test, text: &str) -> AsciiCaseless<Vec<u8>> {
    let bytes = Vec::from_slice(test.alloc(), text.as_bytes());
    test.expect(bytes.is_ok());
    AsciiCaseless(bytes.unwrap_or(Vec::new(test.alloc())))
}
