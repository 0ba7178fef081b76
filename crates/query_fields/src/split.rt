//! What stands before and behind a byte.
ghost use Rattle.std.specs.List.{after_first, before_first, position_or_len};
ghost use Rattle.std.specs.Prelude.{◌≡◌, ◌<◌, ◌==◌, drop, length, position};

/// What stands before the first such byte, and what stands behind it; the whole text and nothing
/// where there is none.
pub fn split_at_byte(text: &[u8], separator: u8) -> (&[u8], &[u8])
    ensures before { result.0.now ≡ before_first (λ byte. byte == separator) text.now }
    ensures behind { result.1.now ≡ after_first (λ byte. byte == separator) text.now }
    ensures shorter { 0 < length text.now → length result.1.now < length text.now }
{
    match place_of(text, separator) {
        Some(place) => (&text[..place], &text[place + 1..]),
        None => (text, b""),
    }
}

/// What stands before the first such byte, and what stands from it on.
pub fn split_before_byte(text: &[u8], separator: u8) -> (&[u8], &[u8])
    ensures before { result.0.now ≡ before_first (λ byte. byte == separator) text.now }
    ensures behind { result.1.now
        ≡ drop (position_or_len (λ byte. byte == separator) text.now) text.now }
{
    match place_of(text, separator) {
        Some(place) => (&text[..place], &text[place..]),
        None => (text, b""),
    }
}

// Where the first such byte stands.
fn place_of(text: &[u8], byte: u8) -> Option<usize>
    ensures { result ≡ position (λ other. other == byte) text.now }
{
    text.iter().position(|other| *other == byte)
}
