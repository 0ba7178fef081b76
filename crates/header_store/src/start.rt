//! Request and status lines. Neither is a header: a name has no slash, and no space behind it.
ghost use Rattle.std.specs.Char.{is_ascii_digit};
ghost use Rattle.std.specs.List.{list_all};
ghost use Rattle.std.specs.Prelude.{◌≡◌, ◌&&◌};
ghost use Rattle.ordered_multimap.specs.Pairs.{has_items};
ghost use Rattle.header_store.specs.Fields.{is_token_byte, is_value_byte};
ghost use Rattle.header_store.specs.Message.{is_code, is_number, is_request_line, is_start_line};
ghost use Rattle.header_store.specs.Message.{is_status_line, is_token, is_version};

use crate::field::{is_value_byte, split_at_byte};
use crate::name::is_token_byte;

/// Whether the line is a status line, as `HTTP/1.1 200 OK`, or a request line, as
/// `GET / HTTP/1.1`.
pub fn is_start_line(line: &[u8]) -> bool
    ensures { result ≡ is_start_line line.now }
{
    (is_status_line(line) || is_request_line(line)) && are_value_bytes(line)
}

fn is_status_line(line: &[u8]) -> bool
    ensures { result ≡ is_status_line line.now }
{
    let (version, behind) = split_at_byte(line, b' ');
    let (code, _) = split_at_byte(behind, b' ');
    is_version(version) && is_code(code)
}

/// Whether these are three digits.
fn is_code(word: &[u8]) -> bool
    ensures { result ≡ is_code word.now }
{
    word.len() == 3 && are_digits(word)
}

fn is_request_line(line: &[u8]) -> bool
    ensures { result ≡ is_request_line line.now }
{
    let (method, behind) = split_at_byte(line, b' ');
    let (target, version) = split_at_byte(behind, b' ');
    are_method_and_target(method, target) && is_version(version)
}

fn are_method_and_target(method: &[u8], target: &[u8]) -> bool
    ensures { result ≡ (is_token method.now && has_items target.now) }
{
    is_token(method) && !target.is_empty()
}

/// Whether the word is a token, as names are.
fn is_token(word: &[u8]) -> bool
    ensures { result ≡ is_token word.now }
{
    !word.is_empty() && are_token_bytes(word)
}

/// Whether the word is a version, as `HTTP/1.1` or `HTTP/2`.
fn is_version(word: &[u8]) -> bool
    ensures { result ≡ is_version word.now }
{
    match word.strip_prefix(b"HTTP/") {
        Some(number) => is_number(number),
        None => false,
    }
}

/// Whether this is a digit, or two with a point between them.
fn is_number(word: &[u8]) -> bool
    ensures { result ≡ is_number word.now }
{
    match word {
        [major] => major.is_ascii_digit(),
        [major, point, minor] => {
            major.is_ascii_digit() && *point == b'.' && minor.is_ascii_digit()
        }
        _ => false,
    }
}

fn are_digits(word: &[u8]) -> bool
    ensures { result ≡ list_all is_ascii_digit word.now }
{
    word.iter().all(|byte| byte.is_ascii_digit())
}

fn are_token_bytes(word: &[u8]) -> bool
    ensures { result ≡ list_all is_token_byte word.now }
{
    word.iter().all(|byte| is_token_byte(*byte))
}

fn are_value_bytes(line: &[u8]) -> bool
    ensures { result ≡ list_all is_value_byte line.now }
{
    line.iter().all(|byte| is_value_byte(*byte))
}
