//! Commands on a configuration.
ghost use Rattle.std.specs.IoError.{error_kind};
ghost use Rattle.std.specs.Prelude.{◌≡◌, IfErr, IfOk};
ghost use Rattle.std.specs.declared.io.ErrorKind.TheVariants.{InvalidData};
ghost use Rattle.program_parts.specs.Statuses.{status_of_fault};
ghost use Rattle.config_reader.specs.Changed.{IsAllowed, IsOfSetting, WritesGitKey};

use crate::name::Name;
use crate::section::{NO_SECTION, Section};
use program_parts::{Fault, bad, usage};
use std::io;

/// What is asked of a configuration.
#[derive(Clone, Copy)]
pub enum Command<'t> {
    /// The last value of the name.
    Get(Name<'t>),
    /// Each value of the name.
    All(Name<'t>),
    /// The keys of the section's settings.
    Keys(Section<'t>),
    /// The names of all sections.
    Sections,
    /// All settings.
    Settings(Form),
    /// The name's first setting gets the value, and its others go.
    Set(Name<'t>, &'t str),
    /// A setting is added at the end of its section.
    Add(Name<'t>, &'t str),
    /// The settings of the name go.
    Unset(Name<'t>),
    /// The whole text is written.
    Write,
}

/// How settings are listed.
#[derive(Clone, Copy)]
pub enum Form {
    /// `NAME=VALUE` on a line.
    Line,
    /// The name, a line feed and the value, and a zero byte behind them.
    Zero,
}

impl<'t> Command<'t> {
    /// The question on a line: a word, and behind a space what it asks for. Blanks in front of that
    /// count for nothing; those behind it may belong to the name of a section.
    pub fn of_line(line: &'t str) -> io::Result<Command<'t>>
        ensures bad { IfErr result (λ error. error_kind error ≡ InvalidData) }
    {
        let (word, operand) = line.split_once(' ').unwrap_or((line, ""));
        Command::of_operand(word, operand.trim_start())
    }

    /// The command that the words say, where settings are listed in this form.
    ///
    /// # Errors
    ///
    /// [`Fault::Usage`] if they say none, or one that lists no settings behind `-z`.
    pub fn of_words(words: &'t [String], form: Form) -> Result<Command<'t>, Fault>
        ensures allowed { IfOk result IsAllowed }
        ensures git_key { IfOk result WritesGitKey }
        ensures bad { IfErr result (λ fault. status_of_fault fault ≡ 2) }
    {
        match Command::parse(words) {
            Ok(command) => command.in_form(form),
            Err(error) => Err(Fault::Usage(error)),
        }
    }

    /// The command, where settings are listed in this form.
    fn in_form(self, form: Form) -> Result<Command<'t>, Fault>
        ensures allowed { IsAllowed self.entry → IfOk result IsAllowed }
        ensures git_key { WritesGitKey self.entry → IfOk result WritesGitKey }
        ensures bad { IfErr result (λ fault. status_of_fault fault ≡ 2) }
    {
        if let Command::Settings(_) = self {
            return Ok(Command::Settings(form));
        }
        match form {
            Form::Line => Ok(self),
            Form::Zero => Err(usage("-z is for list alone")),
        }
    }

    /// Whether the command writes the whole text.
    pub fn writes_text(self) -> bool {
        matches!(
            &self,
            Command::Set(..) | Command::Add(..) | Command::Unset(_) | Command::Write
        )
    }

    fn parse(words: &'t [String]) -> io::Result<Command<'t>>
        ensures allowed { IfOk result IsAllowed }
        ensures git_key { IfOk result WritesGitKey }
        ensures bad { IfErr result (λ error. error_kind error ≡ InvalidData) }
    {
        match words {
            [word] => Command::of_operand(word.as_str(), ""),
            [word, operand] if word.as_str() == "unset" => {
                Ok(Command::Unset(Name::parse(operand.as_str())?))
            }
            [word, operand] => Command::of_operand(word.as_str(), operand.as_str()),
            [word, name, value] => {
                Command::of_pair(word.as_str(), Name::parse(name.as_str())?, value.as_str())
            }
            [word, ..] => Err(no_command(word.as_str())),
            [] => Err(bad("no command behind the file")),
        }
    }

    fn of_pair(word: &str, name: Name<'t>, value: &'t str) -> io::Result<Command<'t>>
        ensures allowed { IsOfSetting name.entry → IfOk result IsAllowed }
        ensures git_key { IfOk result WritesGitKey }
        ensures bad { IfErr result (λ error. error_kind error ≡ InvalidData) }
    {
        match word {
            "set" => Ok(Command::Set(name.for_git()?, value)),
            "add" => Ok(Command::Add(name.for_git()?, value)),
            _ => Err(no_command(word)),
        }
    }

    fn of_operand(word: &str, operand: &'t str) -> io::Result<Command<'t>>
        ensures allowed { IfOk result IsAllowed }
        ensures git_key { IfOk result WritesGitKey }
        ensures bad { IfErr result (λ error. error_kind error ≡ InvalidData) }
    {
        match word {
            "get" if !operand.is_empty() => Ok(Command::Get(Name::parse(operand)?)),
            "all" if !operand.is_empty() => Ok(Command::All(Name::parse(operand)?)),
            "keys" if operand.is_empty() => Ok(Command::Keys(NO_SECTION)),
            "keys" => Ok(Command::Keys(Section::parse(operand)?)),
            "sections" if operand.is_empty() => Ok(Command::Sections),
            "list" if operand.is_empty() => Ok(Command::Settings(Form::Line)),
            "write" if operand.is_empty() => Ok(Command::Write),
            _ => Err(no_command(word)),
        }
    }
}

/// Why this word and what stands behind it are no command.
fn no_command(word: &str) -> io::Error
    ensures { error_kind result ≡ InvalidData }
{
    match word {
        "get" => bad("get takes SECTION.KEY"),
        "all" => bad("all takes SECTION.KEY"),
        "keys" => bad("keys takes SECTION or nothing"),
        "sections" => bad("sections takes nothing"),
        "list" => bad("list takes nothing, and -z stands in front of it"),
        "set" => bad("set takes SECTION.KEY and VALUE"),
        "add" => bad("add takes SECTION.KEY and VALUE"),
        "unset" => bad("unset takes SECTION.KEY"),
        "write" => bad("write takes nothing"),
        _ => bad("not a command"),
    }
}
