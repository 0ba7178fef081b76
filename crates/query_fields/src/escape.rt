//! The names and values of a query, and the texts that they stand for: `+` stands for a space, `%`
//! and two hexadecimal digits for a byte, and any other byte for itself. Read leniently, as the URL
//! standard has it, another `%` stands for itself, and what is no UTF-8 for U+FFFD.
ghost use Rattle.std.specs.Prelude.{◌≡◌, ◌<◌, ◌≤◌, ◌∷◌, ◌++◌, length, IsUtf8, None, Some};
ghost use Rattle.std.specs.Prelude.{IfErr, IfNone, IfOk, IfSome, OnOk};
ghost use Rattle.std.specs.Cow.{cow_str_bytes};
ghost use Rattle.std.specs.IoError.{error_kind};
ghost use Rattle.std.specs.declared.io.ErrorKind.TheVariants.{InvalidData};
ghost use Rattle.std.specs.String.{string_bytes};
ghost use Rattle.std.specs.Str.Lossy.{utf8_lossy};
ghost use Rattle.query_fields.specs.Escape.{is_plain, written_byte, written, read, before, behind};
ghost use Rattle.query_fields.specs.Escape.{read_any};

use program_parts::bad;
use std::alloc::{AllocError, Global};
use std::borrow::CowStr;
use std::fmt::Write;
use std::io;

/// The text that a name or a value stands for, which is borrowed where it stands there as it is.
#[tactic(auto, using(crate::proofs::ReadingAny::any_read))]
pub fn decoded(alloc: Global, encoded: &[u8]) -> Result<CowStr<'_>, AllocError>
    ensures text { IfOk result (λ text. cow_str_bytes text ≡ utf8_lossy (read_any encoded.now)) }
{
    if let Some(text) = plain_text(encoded) {
        return Ok(CowStr::Borrowed(text));
    }
    let mut bytes = Vec::new(alloc);
    let mut rest = encoded;
    while let Some((byte, behind)) = first_of_any(rest) {
        bytes.push(byte)?;
        rest = behind;
    }
    Ok(CowStr::Owned(String::from_utf8_lossy(alloc, &bytes)?))
}

/// The text that stands there as it is, if it is one without escapes.
fn plain_text(encoded: &[u8]) -> Option<&str>
    ensures text { IfSome result (λ text. text.now ≡ utf8_lossy (read_any encoded.now)) }
{
    if encoded.contains(&b'%') || encoded.contains(&b'+') {
        return None;
    }
    match str::from_utf8(encoded) {
        Ok(text) => Some(text),
        Err(_) => None,
    }
}

/// The first byte that `encoded` stands for, and what stands behind it. None at the end.
#[tactic(auto, using(crate::proofs::ReadingAny::first_of_any_steps))]
fn first_of_any(encoded: &[u8]) -> Option<(u8, &[u8])>
    ensures some { IfSome result (λ r. read_any encoded.now ≡ r.0 ∷ read_any r.1.now) }
    ensures none { IfNone result (length encoded.now ≡ 0) }
    ensures shorter { IfSome result (λ r. length r.1.now < length encoded.now) }
{
    let (first, rest) = encoded.split_first()?;
    match first {
        b'%' => Some(escaped_byte(rest).unwrap_or((b'%', rest))),
        b'+' => Some((b' ', rest)),
        byte => Some((*byte, rest)),
    }
}

/// The text that a name or a value stands for, which is borrowed where it has no escape. A fault
/// tells the byte of the first escape that stands for no text, where `position` is that of the first
/// byte of `encoded`.
#[tactic(auto, using(crate::proofs::Reading::reading))]
pub fn strictly_decoded(alloc: Global, encoded: &str, position: usize) -> io::Result<CowStr<'_>>
    ensures text { IfOk result (λ text. read encoded.now ≡ Some (cow_str_bytes text)) }
    ensures utf8 { IfOk result (λ text. IsUtf8 (cow_str_bytes text)) }
    ensures bad { IfErr result (λ error. error_kind error ≡ InvalidData
        → IfSome (read encoded.now) (λ bytes. ¬ IsUtf8 bytes)) }
{
    let whole = encoded.as_bytes();
    if !whole.contains(&b'%') && !whole.contains(&b'+') {
        return Ok(CowStr::Borrowed(encoded));
    }
    let (bytes, rest) = good_bytes(alloc, whole)?;
    if !rest.is_empty() {
        return Err(bad_escape(alloc, position, whole.len() - rest.len()));
    }
    match String::from_utf8(bytes) {
        Ok(text) => Ok(CowStr::Owned(text)),
        Err(error) => Err(bad_escape(
            alloc,
            position,
            place_of(whole, error.utf8_error().valid_up_to()),
        )),
    }
}

/// The bytes that `encoded` stands for up to its first bad escape, and what stands from there on.
#[tactic(auto, using(crate::proofs::Reading::reading))]
fn good_bytes(alloc: Global, mut encoded: &[u8]) -> Result<(Vec<u8>, &[u8]), AllocError>
    ensures read { IfOk result (λ r. read encoded.now ≡ behind r.0.items (read r.1.now)) }
    ensures stop { IfOk result (λ r. 0 < length r.1.now → read r.1.now ≡ None) }
    ensures within { IfOk result (λ r. length r.1.now ≤ length encoded.now) }
{
    let mut bytes = Vec::new(alloc);
    while let Some((byte, behind)) = first_byte(encoded) {
        bytes.push(byte)?;
        encoded = behind;
    }
    Ok((bytes, encoded))
}

fn bad_escape(alloc: Global, position: usize, place: usize) -> io::Error {
    match format!(in alloc; "bad escape at byte {}", position.saturating_add(place)) {
        Ok(reason) => bad(&reason),
        Err(error) => io::Error::from(error),
    }
}

/// The place of the escape or the byte that stands for the byte of this number, from 0.
fn place_of(encoded: &[u8], number: usize) -> usize {
    let mut rest = encoded;
    for _ in 0..number {
        if let Some((_, behind)) = first_byte(rest) {
            rest = behind;
        }
    }
    encoded.len() - rest.len()
}

/// The first byte that `encoded` stands for, and what stands behind it. None at the end and at a
/// bad escape.
#[tactic(auto, using(crate::proofs::Reading::first_steps))]
fn first_byte(encoded: &[u8]) -> Option<(u8, &[u8])>
    ensures some { IfSome result (λ r. read encoded.now ≡ before r.0 (read r.1.now)) }
    ensures none { IfNone result (0 < length encoded.now → read encoded.now ≡ None) }
    ensures shorter { IfSome result (λ r. length r.1.now < length encoded.now) }
{
    let (first, behind) = encoded.split_first()?;
    match first {
        b'%' => escaped_byte(behind),
        b'+' => Some((b' ', behind)),
        byte => Some((*byte, behind)),
    }
}

#[tactic(auto, using(crate::proofs::ReadingAny::escape_steps))]
fn escaped_byte(digits: &[u8]) -> Option<(u8, &[u8])>
    ensures any { IfSome result (λ r. read_any (37 ∷ digits.now) ≡ r.0 ∷ read_any r.1.now) }
    ensures itself { IfNone result (read_any (37 ∷ digits.now) ≡ 37 ∷ read_any digits.now) }
    ensures some { IfSome result (λ r. read (37 ∷ digits.now) ≡ before r.0 (read r.1.now)) }
    ensures none { IfNone result (read (37 ∷ digits.now) ≡ None) }
    ensures shorter { IfSome result (λ r. length r.1.now < length digits.now) }
{
    let (high, behind) = digits.split_first()?;
    let (low, behind) = behind.split_first()?;
    let high = char::from(*high).to_digit(16)?;
    let low = char::from(*low).to_digit(16)?;
    Some(((16 * high + low) as u8, behind))
}

/// Adds a text as it stands in a query: letters, digits and `*-._` as they are, a space as `+`, and
/// each other byte as `%` and two digits.
pub fn add_encoded(text: &str, query: &mut String) -> Result<(), AllocError>
    ensures written { OnOk result (string_bytes query.new
        ≡ string_bytes query.old ++ written text.now) }
    ensures read_again { read (written text.now) ≡ Some text.now }
{
    let bytes = text.as_bytes();
    for byte in bytes {
        add_byte(*byte, query)?;
    }
    Ok(())
}

#[tactic(auto, using(crate::proofs::Reading::forms))]
fn add_byte(byte: u8, query: &mut String) -> Result<(), AllocError>
    ensures { OnOk result (string_bytes query.new ≡ string_bytes query.old ++ written_byte byte) }
{
    if is_plain(byte) {
        query.push(char::from(byte))
    } else if byte == b' ' {
        query.push('+')
    } else {
        write!(query, "%{byte:02X}")
    }
}

fn is_plain(byte: u8) -> bool
    ensures { result ≡ is_plain byte }
{
    matches!(byte, b'A'..=b'Z' | b'a'..=b'z' | b'0'..=b'9' | b'*' | b'-' | b'.' | b'_')
}
