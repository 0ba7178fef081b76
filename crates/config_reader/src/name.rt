//! Names of settings.
ghost use Rattle.std.specs.IoError.{error_kind};
ghost use Rattle.std.specs.List.{list_any};
ghost use Rattle.std.specs.Prelude.{◌≡◌, ◌==◌, ◌∷◌, ◌++◌, [], ℕ, List, not, true, false};
ghost use Rattle.std.specs.Prelude.{IfErr, IfOk, OnOk};
ghost use Rattle.std.specs.Str.{trim};
ghost use Rattle.std.specs.String.{string_bytes};
ghost use Rattle.std.specs.declared.io.ErrorKind.TheVariants.{InvalidData};
ghost use Rattle.config_reader.specs.Blocks.{IsWritten};
ghost use Rattle.config_reader.specs.Listed.{listed_name};
ghost use Rattle.config_reader.specs.Names.{has_no_key, is_key, is_named_section};
ghost use Rattle.config_reader.specs.Names.{is_git_key, is_outside_git, is_outside_key, is_setting_of};
ghost use Rattle.config_reader.specs.Names.{IsOpenAs, Lacks};

use crate::section::{NO_SECTION, Section, add_lowercase};
use ascii_caseless::AsciiCaseless;
use program_parts::bad;
use std::alloc::{AllocError, Global};
use std::io;

/// The name of a line: its section, and the key of its setting. Lines that are no setting have an
/// empty key.
#[derive(Clone, Copy, PartialEq, Eq, Hash)]
pub struct Name<'t> {
    pub section: Section<'t>,
    pub key: AsciiCaseless<&'t str>,
}

/// The key of lines that are no setting.
pub const NO_KEY: AsciiCaseless<&'static str> = AsciiCaseless("");

impl<'t> Name<'t> {
    /// The name of the lines of a section that are no setting.
    pub fn of_section(section: Section<'t>) -> Name<'t>
        ensures section { result.section ≡ section.entry }
        ensures no_key { result.key.0.now ≡ [] }
    {
        Name {
            section,
            key: NO_KEY,
        }
    }

    /// Whether it is the name of a setting.
    pub fn is_setting(&self) -> bool
        ensures { result ≡ not (has_no_key self.now) }
    {
        self.key != NO_KEY
    }

    /// Whether it is the name of a setting of the section.
    pub fn is_setting_of(&self, section: Section<'_>) -> bool
        ensures { result ≡ is_setting_of section.entry self.now }
    {
        self.section == section && self.is_setting()
    }

    /// Whether it is the name of a section, and of none of its settings.
    pub fn is_named_section(&self) -> bool
        ensures { result ≡ is_named_section self.now }
    {
        !self.is_setting() && self.section != NO_SECTION
    }

    /// Adds the name as `list` has it, with the word of the section and the key in small letters.
    pub fn add_listed(&self, alloc: Global, text: &mut String) -> Result<(), AllocError>
        ensures { OnOk result (string_bytes text.new ≡ string_bytes text.old
            ++ listed_name self.now) }
    {
        if self.section != NO_SECTION {
            self.section.add_listed(alloc, text)?;
            text.push('.')?;
        }
        add_lowercase(alloc, self.key.as_str(), text)
    }

    /// The name, for a command that writes its key.
    ///
    /// # Errors
    ///
    /// A key that git doesn't allow, which would make the file one that git can't read.
    pub fn for_git(self) -> io::Result<Name<'t>>
        ensures same { IfOk result (λ name. name ≡ self.entry) }
        ensures git_key { IfOk result (λ name. is_git_key name.key.0.now ≡ true) }
        ensures refused { IfErr result (λ _. is_git_key self.entry.key.0.now ≡ false) }
        ensures bad { IfErr result (λ error. error_kind error ≡ InvalidData) }
    {
        if !is_git_key(self.key.as_str()) {
            return Err(bad("git has keys of letters, digits and -, with a letter first"));
        }
        Ok(self)
    }

    /// The name `SECTION.KEY`, or a `KEY` above the first section.
    pub fn parse(text: &'t str) -> io::Result<Name<'t>>
        ensures key { IfOk result (λ name. is_key name.key.0.now ≡ true) }
        ensures dot { IfOk result (λ name. (section key : List ℕ)
            → text.now ≡ section ++ 46 ∷ key → Lacks 46 key
            → (name.key.0.now ≡ trim key) × IsOpenAs section name.section) }
        ensures alone { IfOk result (λ name. Lacks 46 text.now
            → (name.key.0.now ≡ trim text.now) × IsOpenAs [] name.section) }
        ensures written { IfOk result (λ name. IsWritten name.section) }
        ensures bad { IfErr result (λ error. error_kind error ≡ InvalidData) }
    {
        let (section, key) = split_at_last_dot(text);
        let key = key.trim();
        if !is_key(key) {
            return Err(bad("not the name of a setting"));
        }
        Ok(Name {
            section: Section::parse_or_none(section)?,
            key: AsciiCaseless(key),
        })
    }
}

/// What stands in front of the last dot, and what stands behind it; nothing and the whole text where
/// there is none.
fn split_at_last_dot(text: &str) -> (&str, &str)
    ensures dot { (front behind : List ℕ) → text.now ≡ front ++ 46 ∷ behind → Lacks 46 behind
        → (result.0.now ≡ front) × (result.1.now ≡ behind) }
    ensures none { Lacks 46 text.now → (result.0.now ≡ []) × (result.1.now ≡ text.now) }
{
    match text.rsplit_once('.') {
        Some(parts) => parts,
        None => ("", text),
    }
}

/// Whether a setting can have this key. A key has no dot, since a name parts section and key by the
/// last one.
pub fn is_key(text: &str) -> bool
    ensures { result ≡ is_key text.now }
{
    if text.is_empty() {
        return false;
    }
    !text.chars().any(|character| is_outside_key(character))
}

// Whether git allows the key.
fn is_git_key(text: &str) -> bool
    ensures { result ≡ is_git_key text.now }
{
    match text.as_bytes().split_first() {
        Some((first, behind)) => first.is_ascii_alphabetic() && is_of_git(behind),
        None => false,
    }
}

fn is_of_git(text: &[u8]) -> bool
    ensures { result ≡ not (list_any is_outside_git text.now) }
{
    !text.iter().any(|byte| is_outside_git(*byte))
}

// Whether git allows no such byte in a key.
fn is_outside_git(byte: u8) -> bool
    ensures { result ≡ is_outside_git byte }
{
    !(byte.is_ascii_alphanumeric() || byte == b'-')
}

// Whether no key has the character.
fn is_outside_key(character: char) -> bool
    ensures { result ≡ is_outside_key character }
{
    character.is_whitespace()
        || matches!(
            character,
            '.' | ':' | '=' | '"' | '\\' | '[' | ']' | '#' | ';'
        )
}
