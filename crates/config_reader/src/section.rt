//! Names of sections.
ghost use Rattle.std.specs.IoError.{error_kind};
ghost use Rattle.std.specs.Prelude.{◌≡◌, ◌++◌, [], None, Some, false, true};
ghost use Rattle.std.specs.Prelude.{IfErr, IfOk, OnOk};
ghost use Rattle.std.specs.Char.{is_ascii_uppercase};
ghost use Rattle.std.specs.List.{list_any};
ghost use Rattle.std.specs.Str.{chars, str_to_ascii_lowercase};
ghost use Rattle.std.specs.String.{string_bytes};
ghost use Rattle.std.specs.declared.io.ErrorKind.TheVariants.{InvalidData};
ghost use Rattle.config_reader.specs.Blocks.{IsWritten, OpensSection};
ghost use Rattle.config_reader.specs.Names.{IsCalledBy, IsCalledByDot, IsOpenAs, Lacks};
ghost use Rattle.config_reader.specs.Sections.{IsTrimmed, has_capital_behind_dot, is_outside_sub, is_sub, is_word, needs_quotes};
ghost use Rattle.config_reader.specs.Sections.{of_dotted, of_parts, opened, opened_in_quotes};
ghost use Rattle.config_reader.specs.Sections.{of_unquoted, opened_without_quotes, spelled};
ghost use Rattle.config_reader.specs.Listed.{listed_section};
ghost use Rattle.config_reader.specs.Written.{behind_dot, in_quotes, section_line, section_name};

use crate::lines::says_nothing;
use crate::spaces::{has_outside_unquoted, is_front, is_space};
use ascii_caseless::AsciiCaseless;
use program_parts::bad;
use std::alloc::{AllocError, Global};
use std::io;

/// The name of a section: a word without case, and behind it perhaps a name with case.
#[derive(Clone, Copy, PartialEq, Eq, Hash)]
pub struct Section<'t> {
    word: AsciiCaseless<&'t str>,
    sub: &'t str,
}

/// Above the first section.
pub const NO_SECTION: Section<'static> = Section {
    word: AsciiCaseless(""),
    sub: "",
};

impl<'t> Section<'t> {
    /// The section `word`, `word.sub` or `word "sub"`.
    ///
    /// # Errors
    ///
    /// An empty word, nothing behind the dot or between the quotes, a bracket in the word, a dot in the
    /// word in front of a quoted name, a quote at another place, a backslash, or a line feed.
    pub fn parse(text: &'t str) -> io::Result<Section<'t>>
        ensures called { IfOk result (λ section. IsCalledBy text.now section) }
        ensures written { IfOk result (λ section.
            OpensSection (section_line section) (spelled section)) }
        ensures bad { IfErr result (λ error. error_kind error ≡ InvalidData) }
    {
        // Blanks behind a dot belong to the name, but none behind quotes.
        let Some((word, quoted)) = text.trim_end().split_once('"') else {
            return Section::of_dotted(text);
        };
        match quoted.strip_suffix('"') {
            Some(sub) => Section::of_parts(word.trim(), sub),
            None => Err(bad("not the name of a section")),
        }
    }

    /// The section of this name; the empty one stands above the first section.
    pub fn parse_or_none(text: &'t str) -> io::Result<Section<'t>>
        ensures open { IfOk result (λ section. IsOpenAs text.now section) }
        ensures written { IfOk result (λ section. IsWritten section) }
        ensures bad { IfErr result (λ error. error_kind error ≡ InvalidData) }
    {
        if text.is_empty() {
            return Ok(NO_SECTION);
        }
        Section::parse(text)
    }

    /// The section `word` or `word.sub`.
    fn of_dotted(text: &'t str) -> io::Result<Section<'t>>
        ensures called { IfOk result (λ section. IsCalledByDot text.now section) }
        ensures dotted { IfOk result (λ section. of_dotted text.now ≡ Some (spelled section)) }
        ensures refused { IfErr result (λ _. of_dotted text.now ≡ None) }
        ensures written { IfOk result (λ section.
            OpensSection (section_line section) (spelled section)) }
        ensures bad { IfErr result (λ error. error_kind error ≡ InvalidData) }
    {
        match text.split_once('.') {
            Some((word, sub)) => Section::of_parts(word.trim(), sub),
            None => Section::of_word(text.trim()),
        }
    }

    /// The section that a line opens, whose text behind the bracket this is. A comment may stand
    /// behind it.
    pub fn of_line(inside: &'t str) -> io::Result<Section<'t>>
        ensures opened { IfOk result (λ section. opened inside.now ≡ Some (spelled section)) }
        ensures refused { IfErr result (λ _. opened inside.now ≡ None) }
        ensures bad { IfErr result (λ error. error_kind error ≡ InvalidData) }
    {
        match inside.split_once('"') {
            Some((word, quoted)) if !word.contains(']') => Section::of_quoted(word, quoted),
            _ => Section::of_unquoted(inside),
        }
    }

    // The section of a line that has these parts in front of its first quote and behind it.
    fn of_quoted(word: &'t str, quoted: &'t str) -> io::Result<Section<'t>>
        ensures opened { IfOk result (λ section.
            opened_in_quotes word.now quoted.now ≡ Some (spelled section)) }
        ensures refused { IfErr result (λ _. opened_in_quotes word.now quoted.now ≡ None) }
        ensures bad { IfErr result (λ error. error_kind error ≡ InvalidData) }
    {
        if !is_front(word) {
            return Err(bad("not the name of a section"));
        }
        let Some((sub, behind)) = quoted.split_once('"') else {
            return Err(bad("not a section or a setting"));
        };
        match behind.strip_prefix(']') {
            Some(behind) if says_nothing(behind) => Section::of_parts(word.trim(), sub),
            _ => Err(bad("not a section or a setting")),
        }
    }

    // The section of a line without quotes.
    fn of_unquoted(inside: &'t str) -> io::Result<Section<'t>>
        ensures opened { IfOk result (λ section.
            opened_without_quotes inside.now ≡ Some (spelled section)) }
        ensures refused { IfErr result (λ _. opened_without_quotes inside.now ≡ None) }
        ensures bad { IfErr result (λ error. error_kind error ≡ InvalidData) }
    {
        match inside.split_once(']') {
            Some((name, behind)) if says_nothing(behind) => Section::of_name(name),
            _ => Err(bad("not a section or a setting")),
        }
    }

    // The section of the name on a line without quotes. There git reads what stands behind the dot in
    // small letters, and others read it as it is spelled.
    fn of_name(name: &'t str) -> io::Result<Section<'t>>
        ensures unquoted { IfOk result (λ section. of_unquoted name.now ≡ Some (spelled section)) }
        ensures refused { IfErr result (λ _. of_unquoted name.now ≡ None) }
        ensures bad { IfErr result (λ error. error_kind error ≡ InvalidData) }
    {
        if has_outside_unquoted(name) {
            return Err(bad("not the name of a section"));
        }
        if has_capital_behind_dot(name) {
            return Err(bad("capital behind the dot of a section; put the name between quotes"));
        }
        Section::of_dotted(name)
    }

    fn of_word(word: &'t str) -> io::Result<Section<'t>>
        ensures word { IfOk result (λ section. section.word.0.now ≡ word.now) }
        ensures sub { IfOk result (λ section. section.sub.now ≡ []) }
        ensures allowed { IfOk result (λ section. is_word word.now ≡ true) }
        ensures refused { IfErr result (λ _. is_word word.now ≡ false) }
        ensures written { IsTrimmed (chars word.now) → Lacks 46 word.now → IfOk result (λ section.
            OpensSection (section_line section) (spelled section)) }
        ensures bad { IfErr result (λ error. error_kind error ≡ InvalidData) }
    {
        if !is_word(word) {
            return Err(bad("not the name of a section"));
        }
        let word = AsciiCaseless(word);
        Ok(Section { word, sub: "" })
    }

    fn of_parts(word: &'t str, sub: &'t str) -> io::Result<Section<'t>>
        ensures word { IfOk result (λ section. section.word.0.now ≡ word.now) }
        ensures sub { IfOk result (λ section. section.sub.now ≡ sub.now) }
        ensures allowed { IfOk result (λ section. (is_word word.now ≡ true) × (is_sub sub.now ≡ true)) }
        ensures refused { IfErr result (λ _. of_parts word.now sub.now ≡ None) }
        ensures written { IsTrimmed (chars word.now) → IfOk result (λ section.
            OpensSection (section_line section) (spelled section)) }
        ensures bad { IfErr result (λ error. error_kind error ≡ InvalidData) }
    {
        if !is_word(word) || !is_sub(sub) {
            return Err(bad("not the name of a section"));
        }
        let word = AsciiCaseless(word);
        Ok(Section { word, sub })
    }

    /// Adds the name as a question has it.
    pub fn add_name(&self, text: &mut String) -> Result<(), AllocError>
        ensures { OnOk result (string_bytes text.new ≡ string_bytes text.old
            ++ section_name self.now) }
    {
        text.push_str(self.word.as_str())?;
        add_behind_dot(self.sub, text)
    }

    /// Adds the name as `list` has it, with the word in small letters.
    pub fn add_listed(&self, alloc: Global, text: &mut String) -> Result<(), AllocError>
        ensures { OnOk result (string_bytes text.new ≡ string_bytes text.old
            ++ listed_section self.now) }
    {
        add_lowercase(alloc, self.word.as_str(), text)?;
        add_behind_dot(self.sub, text)
    }

    /// Adds the line that opens the section.
    pub fn add_line(&self, text: &mut String) -> Result<(), AllocError>
        ensures { OnOk result (string_bytes text.new ≡ string_bytes text.old
            ++ section_line self.now) }
    {
        text.push('[')?;
        text.push_str(self.word.as_str())?;
        add_in_quotes(self.sub, text)?;
        text.push_str("]\n")
    }
}

// Whether a section can have this word.
fn is_word(text: &str) -> bool
    ensures { result ≡ is_word text.now }
{
    is_sub(text) && !text.as_bytes().iter().any(|byte| needs_quotes(*byte))
}

// Whether only a name between quotes can have the byte.
fn needs_quotes(byte: u8) -> bool
    ensures { result ≡ needs_quotes byte }
{
    matches!(byte, b'.' | b'[' | b']') || is_space(byte)
}

// Whether a letter behind the first dot is a capital.
fn has_capital_behind_dot(name: &str) -> bool
    ensures { result ≡ has_capital_behind_dot name.now }
{
    match name.split_once('.') {
        Some((_, sub)) => has_capital(sub),
        None => false,
    }
}

fn has_capital(text: &str) -> bool
    ensures { result ≡ list_any is_ascii_uppercase text.now }
{
    text.as_bytes().iter().any(|byte| byte.is_ascii_uppercase())
}

// Whether a section can have this name between quotes.
fn is_sub(text: &str) -> bool
    ensures { result ≡ is_sub text.now }
{
    if text.is_empty() {
        return false;
    }
    !text.as_bytes().iter().any(|byte| is_outside_sub(*byte))
}

// Whether no name between quotes has the byte. A line feed would end its line.
fn is_outside_sub(byte: u8) -> bool
    ensures { result ≡ is_outside_sub byte }
{
    matches!(byte, b'"' | b'\\' | b'\n')
}

// Adds the name behind a dot, if there is one.
fn add_behind_dot(sub: &str, text: &mut String) -> Result<(), AllocError>
    ensures { OnOk result (string_bytes text.new ≡ string_bytes text.old ++ behind_dot sub.now) }
{
    if sub.is_empty() {
        return Ok(());
    }
    text.push('.')?;
    text.push_str(sub)
}

/// Adds a word in small letters.
pub fn add_lowercase(alloc: Global, word: &str, text: &mut String) -> Result<(), AllocError>
    ensures { OnOk result (string_bytes text.new ≡ string_bytes text.old
        ++ str_to_ascii_lowercase word.now) }
{
    let word = word.to_ascii_lowercase(alloc)?;
    text.push_str(word.as_str())
}

// Adds the name between quotes and behind a blank, if there is one.
fn add_in_quotes(sub: &str, text: &mut String) -> Result<(), AllocError>
    ensures { OnOk result (string_bytes text.new ≡ string_bytes text.old ++ in_quotes sub.now) }
{
    if sub.is_empty() {
        return Ok(());
    }
    text.push_str(" \"")?;
    text.push_str(sub)?;
    text.push('"')
}
