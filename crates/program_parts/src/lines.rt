//! The lines of an input. A byte order mark at its start is no part of the first line, and a carriage
//! return at the end of a line no part of that. The last line needs no line feed.
ghost use Rattle.std.specs.IoError.{error_kind};
ghost use Rattle.std.specs.Prelude.{◌≡◌, IfErr, IfOk};
ghost use Rattle.std.specs.declared.io.ErrorKind.TheVariants.{InvalidData};
ghost use Rattle.program_parts.specs.Lines.{mark_of, without_mark, without_return};

use crate::fault::bad;
use std::{fmt, io};

/// The input without a byte order mark at its start.
pub fn without_mark(input: &[u8]) -> &[u8]
    ensures { result.now ≡ without_mark input.now }
{
    input.strip_prefix(b"\xef\xbb\xbf").unwrap_or(input)
}

/// The byte order mark at the input's start, or nothing.
pub fn mark_of(input: &[u8]) -> &'static [u8]
    ensures { result.now ≡ mark_of input.now }
{
    match input.strip_prefix(b"\xef\xbb\xbf") {
        Some(_) => b"\xef\xbb\xbf",
        None => b"",
    }
}

/// The line without a carriage return at its end.
pub fn without_return(line: &[u8]) -> &[u8]
    ensures { result.now ≡ without_return line.now }
{
    line.strip_suffix(b"\r").unwrap_or(line)
}

/// The line as a text, without a carriage return at its end.
pub fn text_of(line: &[u8]) -> io::Result<&str>
    ensures text { IfOk result (λ text. text.now ≡ without_return line.now) }
    ensures bad { IfErr result (λ error. error_kind error ≡ InvalidData) }
{
    match str::from_utf8(without_return(line)) {
        Ok(text) => Ok(text),
        Err(_) => Err(bad("not UTF-8")),
    }
}

/// A text for a message, which has one line: control characters are escaped.
#[derive(Clone, Copy)]
pub struct OneLine<'t>(pub &'t str);

impl fmt::Display for OneLine<'_> {
    fn fmt<W: fmt::Write>(&self, f: &mut fmt::Formatter<W>) -> fmt::Result {
        for character in self.0.chars() {
            if character.is_control() {
                write!(f, "{}", character.escape_default())?;
            } else {
                write!(f, "{character}")?;
            }
        }
        Ok(())
    }
}
