//! Values, as they stand behind `=`.
//!
//! A value goes to the end of its line. A backslash at the end joins the next line. Blanks around it
//! count for nothing, and neither does a comment: `#` or `;` with a blank in front, and all behind.
//! Between quotes blanks, `#` and `;` belong to the value. There and elsewhere `\"`, `\\`, `\n`, `\t`
//! and `\b` stand for a quote, a backslash, a line feed, a tab and a backspace.
ghost use Rattle.std.specs.IoError.{error_kind};
ghost use Rattle.std.specs.Prelude.{◌≡◌, ◌==◌, ◌&&◌, ◌<◌, ◌∷◌, ◌++◌, [], ℕ, List, None, Some};
ghost use Rattle.std.specs.Prelude.{length, IfErr, IfNone, IfOk, IfSome, IsUtf8, OnOk};
ghost use Rattle.std.specs.Char.{encode_utf8};
ghost use Rattle.std.specs.List.{flat_map};
ghost use Rattle.std.specs.String.{string_bytes};
ghost use Rattle.std.specs.declared.io.ErrorKind.TheVariants.{InvalidData};
ghost use Rattle.config_reader.specs.Faults.{IsBadOrRefused};
ghost use Rattle.config_reader.specs.Values.{affected, ended, ends_value, is_mark, is_plain, is_special, quoted_byte, read_on};
ghost use Rattle.config_reader.specs.Values.{step_in_escape, step_in_plain, step_in_quotes, stepped, value_read, written};

use program_parts::bad;
use std::alloc::{AllocError, Global};
use std::io;

/// The value at the start of `text`, and what stands behind its last line.
///
/// # Errors
///
/// A quote without an end, any other backslash, and `#` or `;` within a word.
pub fn read_value(alloc: Global, text: &[u8]) -> io::Result<(String, &[u8])>
    ensures value { IfOk result (λ r. value_read text.now ≡ Some (string_bytes r.0, r.1.now)) }
    ensures bad { IfErr result (λ error. error_kind error ≡ InvalidData
        → IfSome (value_read text.now) (λ r. ¬ IsUtf8 r.0)) }
    ensures fault { IfErr result IsBadOrRefused }
{
    let mut reader = Reader {
        value: Vec::new(alloc),
        gap: Vec::new(alloc),
        mode: Mode::Gap,
    };
    let mut rest = text;
    while let Some(behind) = reader.read_byte(rest)? {
        rest = behind;
    }
    reader.end(rest)
}

/// What a byte of a value belongs to.
#[derive(Clone, Copy)]
enum Mode {
    /// Blanks, or the word that begins.
    Gap,
    Word,
    /// A word at the start of a line that a backslash joins.
    Joined,
    Quotes,
    Comment,
    /// Behind a backslash.
    WordEscape,
    QuotesEscape,
    /// Behind a backslash and a carriage return.
    WordJoin,
    QuotesJoin,
}

/// What a byte does to the value.
#[derive(Clone, Copy)]
enum Effect {
    Skip,
    /// It belongs to the value if more of it comes.
    Blank,
    /// The blanks in front of it belong to the value.
    Keep,
    /// So do they, and then this byte.
    Add(u8),
}

#[derive(Drop)]
struct Reader {
    value: Vec<u8>,
    /// The blanks behind the value.
    gap: Vec<u8>,
    mode: Mode,
}

impl Reader {
    /// Reads the first byte of `rest`, and returns what stands behind it. None where the value ends.
    fn read_byte<'t>(&mut self, rest: &'t [u8]) -> io::Result<Option<&'t [u8]>>
        ensures goes { IfOk result (λ next. IfSome next (λ behind.
            read_on self.old.mode self.old.value.items self.old.gap.items rest.now
            ≡ read_on self.new.mode self.new.value.items self.new.gap.items behind.now)) }
        ensures shorter { IfOk result (λ next. IfSome next (λ behind.
            length behind.now < length rest.now)) }
        ensures ends { IfOk result (λ next. IfNone next (
            read_on self.old.mode self.old.value.items self.old.gap.items rest.now
            ≡ ended self.new.mode self.new.value.items rest.now)) }
        ensures bad { IfErr result (λ error. error_kind error ≡ InvalidData
            → read_on self.old.mode self.old.value.items self.old.gap.items rest.now ≡ None) }
        ensures fault { IfErr result IsBadOrRefused }
    {
        let Some((byte, behind)) = rest.split_first() else {
            return Ok(None);
        };
        if is_end(self.mode, *byte) {
            return Ok(None);
        }
        let (mode, effect) = step(self.mode, *byte)?;
        self.apply(effect, *byte)?;
        self.mode = mode;
        Ok(Some(behind))
    }

    fn apply(&mut self, effect: Effect, byte: u8) -> Result<(), AllocError>
        ensures value { IfOk result (λ _. self.new.value.items
            ≡ (affected effect byte self.old.value.items self.old.gap.items).0) }
        ensures gap { IfOk result (λ _. self.new.gap.items
            ≡ (affected effect byte self.old.value.items self.old.gap.items).1) }
        ensures mode { self.new.mode ≡ self.old.mode }
    {
        match effect {
            Effect::Skip => {}
            Effect::Blank if self.value.is_empty() => {}
            Effect::Blank => self.gap.push(byte)?,
            Effect::Keep => self.keep_gap()?,
            Effect::Add(byte) => {
                self.keep_gap()?;
                self.value.push(byte)?;
            }
        }
        Ok(())
    }

    fn keep_gap(&mut self) -> Result<(), AllocError>
        ensures value { IfOk result (λ _. self.new.value.items
            ≡ self.old.value.items ++ self.old.gap.items) }
        ensures gap { IfOk result (λ _. self.new.gap.items ≡ []) }
        ensures mode { self.new.mode ≡ self.old.mode }
    {
        self.value.extend_from_slice(&self.gap)?;
        self.gap.clear();
        Ok(())
    }

    /// The value, if it may end here, and what stands behind its last line.
    fn end(self, rest: &[u8]) -> io::Result<(String, &[u8])>
        ensures value { IfOk result (λ r. ended self.mode self.value.items rest.now
            ≡ Some (string_bytes r.0, r.1.now)) }
        ensures bad { IfErr result (λ error. error_kind error ≡ InvalidData
            → IfSome (ended self.mode self.value.items rest.now) (λ r. ¬ IsUtf8 r.0)) }
        ensures fault { IfErr result IsBadOrRefused }
    {
        match self.mode {
            Mode::Quotes | Mode::QuotesEscape | Mode::QuotesJoin => {
                return Err(bad("a quote has no end"));
            }
            Mode::WordEscape | Mode::WordJoin => return Err(bad("no line behind a backslash")),
            Mode::Joined if rest.is_empty() => return Err(bad("no line behind a backslash")),
            Mode::Gap | Mode::Word | Mode::Joined | Mode::Comment => {}
        }
        let Ok(value) = String::from_utf8(self.value) else {
            return Err(bad("not UTF-8"));
        };
        let behind = match rest.split_first() {
            Some((_, behind)) => behind,
            None => rest,
        };
        Ok((value, behind))
    }
}

/// Whether the byte is a line feed that ends the value.
fn is_end(mode: Mode, byte: u8) -> bool
    ensures { result ≡ (byte == 10 && ends_value mode) }
{
    let is_joined = match mode {
        Mode::WordEscape | Mode::WordJoin | Mode::QuotesEscape | Mode::QuotesJoin => true,
        Mode::Gap | Mode::Word | Mode::Joined | Mode::Quotes | Mode::Comment => false,
    };
    byte == b'\n' && !is_joined
}

/// What a byte does, and what the next one belongs to.
fn step(mode: Mode, byte: u8) -> io::Result<(Mode, Effect)>
    ensures step { IfOk result (λ step. stepped mode byte ≡ Some step) }
    ensures bad { IfErr result (λ error. stepped mode byte ≡ None) }
    ensures fault { IfErr result IsBadOrRefused }
{
    match mode {
        Mode::Comment => Ok((Mode::Comment, Effect::Skip)),
        Mode::Gap if is_mark(byte) => Ok((Mode::Comment, Effect::Skip)),
        Mode::Word | Mode::Joined if is_mark(byte) => Err(bad("# or ; in a word without quotes")),
        Mode::Gap | Mode::Word | Mode::Joined => Ok(step_in_plain(byte)),
        Mode::Quotes => Ok(step_in_quotes(byte)),
        Mode::WordEscape if byte == b'\r' => Ok((Mode::WordJoin, Effect::Skip)),
        Mode::WordEscape | Mode::WordJoin if byte == b'\n' => Ok((Mode::Joined, Effect::Skip)),
        Mode::WordEscape => step_in_escape(Mode::Word, byte),
        Mode::WordJoin => Err(bad("unknown escape")),
        Mode::QuotesEscape if byte == b'\r' => Ok((Mode::QuotesJoin, Effect::Skip)),
        Mode::QuotesEscape if byte == b'\n' => Ok((Mode::Quotes, Effect::Skip)),
        Mode::QuotesEscape => step_in_escape(Mode::Quotes, byte),
        Mode::QuotesJoin if byte == b'\n' => Ok((Mode::Quotes, Effect::Skip)),
        Mode::QuotesJoin => Err(bad("unknown escape")),
    }
}

/// Whether a byte begins a comment.
pub fn is_mark(byte: u8) -> bool
    ensures { result ≡ is_mark byte }
{
    byte == b'#' || byte == b';'
}

fn step_in_plain(byte: u8) -> (Mode, Effect)
    ensures { result ≡ step_in_plain byte }
{
    match byte {
        b'"' => (Mode::Quotes, Effect::Keep),
        b'\\' => (Mode::WordEscape, Effect::Keep),
        b' ' | b'\t' | b'\n' | b'\r' => (Mode::Gap, Effect::Blank),
        _ => (Mode::Word, Effect::Add(byte)),
    }
}

fn step_in_quotes(byte: u8) -> (Mode, Effect)
    ensures { result ≡ step_in_quotes byte }
{
    match byte {
        b'"' => (Mode::Word, Effect::Skip),
        b'\\' => (Mode::QuotesEscape, Effect::Skip),
        _ => (Mode::Quotes, Effect::Add(byte)),
    }
}

/// The step behind a backslash, which stands in a word or in quotes.
fn step_in_escape(within: Mode, byte: u8) -> io::Result<(Mode, Effect)>
    ensures step { IfOk result (λ step. step_in_escape within byte ≡ Some step) }
    ensures bad { IfErr result (λ error. step_in_escape within byte ≡ None) }
    ensures fault { IfErr result IsBadOrRefused }
{
    match byte {
        b'"' | b'\\' => Ok((within, Effect::Add(byte))),
        b'n' => Ok((within, Effect::Add(b'\n'))),
        b't' => Ok((within, Effect::Add(b'\t'))),
        b'b' => Ok((within, Effect::Add(8))),
        _ => Err(bad("unknown escape")),
    }
}

/// Adds a value as it can be read again: between quotes where it has to stand there.
pub fn add_value(value: &str, text: &mut String) -> Result<(), AllocError>
    ensures written { OnOk result (string_bytes text.new ≡ string_bytes text.old
        ++ written value.now) }
    ensures read_again { (rest : List ℕ) → value_read (32 ∷ (written value.now ++ 10 ∷ rest))
        ≡ Some (value.now, rest) }
{
    if is_plain(value) {
        return text.push_str(value);
    }
    text.push('"')?;
    add_characters(value, text)?;
    text.push('"')
}

/// Adds the characters of a value as they stand between quotes.
fn add_characters(value: &str, text: &mut String) -> Result<(), AllocError>
    ensures { OnOk result (string_bytes text.new ≡ string_bytes text.old
        ++ flat_map quoted_byte value.now) }
{
    for character in value.chars() {
        add_character(character, text)?;
    }
    Ok(())
}

fn add_character(character: char, text: &mut String) -> Result<(), AllocError>
    ensures { OnOk result (string_bytes text.new ≡ string_bytes text.old
        ++ flat_map quoted_byte (encode_utf8 character)) }
{
    match character {
        '"' => text.push_str("\\\""),
        '\\' => text.push_str("\\\\"),
        '\n' => text.push_str("\\n"),
        '\t' => text.push_str("\\t"),
        _ => text.push(character),
    }
}

/// Whether a value can stand without quotes.
fn is_plain(value: &str) -> bool
    ensures { result ≡ is_plain value.now }
{
    if value.starts_with(' ') || value.ends_with(' ') {
        return false;
    }
    !value.as_bytes().iter().any(|byte| is_special(*byte))
}

/// Whether a byte has a meaning of its own outside of quotes, or is a blank other than a space.
fn is_special(byte: u8) -> bool
    ensures { result ≡ is_special byte }
{
    is_mark(byte) || matches!(byte, b'"' | b'\\' | b'\t' | b'\n' | b'\r' | 12)
}
