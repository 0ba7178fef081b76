//! Headers and their parts, read from their texts.
ghost use Rattle.std.specs.Prelude.{◌≡◌, ◌↔◌, ◌==◌, IsOk, IsSome, IfErr, IfOk, IfSome, position};
ghost use Rattle.std.specs.Str.{IsTrimAscii};
ghost use Rattle.std.specs.IoError.{error_kind};
ghost use Rattle.std.specs.declared.io.ErrorKind.TheVariants.{InvalidData};
ghost use Rattle.header_store.specs.Fields as rfc;

use crate::name::Name;
use program_parts::bad;
use std::io;

/// What a name has in a message.
#[derive(Clone, Copy)]
pub enum Field<'t> {
    /// The lines on which the header stands, with what ends them, and its value within them, without
    /// the blanks around it.
    Read(&'t [u8], &'t [u8]),
    /// A value that a command gave it.
    Written(&'t [u8]),
}

/// The name and the value that stand before and behind the first separator, the value without the
/// blanks around it. Without a separator the whole text is the name, and the value is empty. It
/// fails exactly if RFC 9110 forbids what stands before the separator as a name, or what stands
/// behind it as a value.
pub fn field_of(text: &[u8], separator: u8) -> io::Result<(Name<'_>, &[u8])>
    ensures allowed { IsOk result ↔ rfc.IsToken (rfc.before_byte separator text.now)
        × rfc.IsValue (rfc.behind_byte separator text.now) }
    ensures named { IfOk result (λ field.
        field.0.text.0.now ≡ rfc.before_byte separator text.now) }
    ensures trimmed { IfOk result (λ field.
        IsTrimAscii (rfc.behind_byte separator text.now) field.1.now) }
    ensures fault { IfErr result (λ error. error_kind error ≡ InvalidData) }
{
    let (name, value) = split_at_byte(text, separator);
    let name = name_of(name)?;
    match value_of(value) {
        Some(value) => Ok((name, value)),
        None => Err(bad("forbidden value")),
    }
}

/// The name that the text is.
pub fn name_of(text: &[u8]) -> io::Result<Name<'_>>
    ensures token { IsOk result ↔ rfc.IsToken text.now }
    ensures named { IfOk result (λ name. name.text.0.now ≡ text.now) }
    ensures fault { IfErr result (λ error. error_kind error ≡ InvalidData) }
{
    match Name::new(text) {
        Some(name) => Ok(name),
        None => Err(bad("forbidden name")),
    }
}

/// The value that the text is, without the blanks around it, or none if RFC 9110 forbids it.
pub fn value_of(text: &[u8]) -> Option<&[u8]>
    ensures allowed { IsSome result ↔ rfc.IsValue text.now }
    ensures trimmed { IfSome result (λ value. IsTrimAscii text.now value.now) }
{
    let is_value = text.iter().all(|byte| is_value_byte(*byte));
    is_value.then_some(text.trim_ascii())
}

/// Whether the byte may stand in a value: a tab, or what is no control character. Bytes above 127
/// have no meaning of their own.
pub fn is_value_byte(byte: u8) -> bool
    ensures { result ≡ rfc.is_value_byte byte }
{
    byte == b'\t' || !byte.is_ascii_control()
}

/// What stands before the first such byte, and what stands behind it; the whole text and nothing
/// where there is none.
pub fn split_at_byte(text: &[u8], separator: u8) -> (&[u8], &[u8])
    ensures before { result.0.now ≡ rfc.before_byte separator text.now }
    ensures behind { result.1.now ≡ rfc.behind_byte separator text.now }
{
    match place_of(text, separator) {
        Some(place) => (&text[..place], &text[place + 1..]),
        None => (text, b""),
    }
}

// Where the first such byte stands.
fn place_of(text: &[u8], byte: u8) -> Option<usize>
    ensures { result ≡ position (λ other. other == byte) text.now }
{
    text.iter().position(|other| *other == byte)
}

/// Whether the byte is a space or a tab.
pub fn is_blank(byte: u8) -> bool
    ensures { result ≡ rfc.is_blank byte }
{
    byte == b' ' || byte == b'\t'
}

/// Whether the byte ends a line.
pub fn is_line_end(byte: u8) -> bool
    ensures { result ≡ rfc.is_line_end byte }
{
    byte == b'\n' || byte == b'\r'
}
