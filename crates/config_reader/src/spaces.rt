//! Blanks in the names of sections, and around them.
ghost use Rattle.std.specs.List.{list_any};
ghost use Rattle.std.specs.Prelude.{◌≡◌};
ghost use Rattle.config_reader.specs.Sections.{ends_in_blank, is_front, is_outside_unquoted, is_space};
ghost use Rattle.config_reader.specs.Values.{is_blank};

/// Whether the byte is a blank of ASCII other than a line feed.
pub fn is_space(byte: u8) -> bool
    ensures { result ≡ is_space byte }
{
    matches!(byte, b' ' | b'\t' | 11 | 12 | b'\r')
}

/// Whether a blank ends the text, and none begins it.
pub fn is_front(text: &str) -> bool
    ensures { result ≡ is_front text.now }
{
    match text.as_bytes().split_first() {
        Some((first, _)) => !is_space(*first) && ends_in_blank(text.as_bytes()),
        None => false,
    }
}

fn ends_in_blank(text: &[u8]) -> bool
    ensures { result ≡ ends_in_blank text.now }
{
    match text.split_last() {
        Some((last, _)) => is_blank(*last),
        None => false,
    }
}

fn is_blank(byte: u8) -> bool
    ensures { result ≡ is_blank byte }
{
    matches!(byte, b' ' | b'\t' | b'\n' | b'\r')
}

/// Whether the text has a byte that no name without quotes has.
pub fn has_outside_unquoted(text: &str) -> bool
    ensures { result ≡ list_any is_outside_unquoted text.now }
{
    text.as_bytes()
        .iter()
        .any(|byte| is_outside_unquoted(*byte))
}

fn is_outside_unquoted(byte: u8) -> bool
    ensures { result ≡ is_outside_unquoted byte }
{
    is_space(byte) || byte == b'['
}
