//! Commands on the headers.
ghost use Rattle.std.specs.IoError.{error_kind};
ghost use Rattle.std.specs.Prelude.{◌≡◌, IfErr};
ghost use Rattle.std.specs.declared.io.ErrorKind.TheVariants.{InvalidData};
ghost use Rattle.program_parts.specs.Statuses.{status_of_fault};

use crate::field::{field_of, name_of, split_at_byte, value_of};
use crate::name::{COOKIE, Name, SET_COOKIE};
use program_parts::{Fault, bad};
use std::io;

/// What is asked of the headers.
#[derive(Clone, Copy)]
pub enum Command<'t> {
    /// The values of the name, in this form.
    Show(Name<'t>, Form),
    /// The name's first header gets the value, and its others go.
    Set(Name<'t>, &'t [u8]),
    /// A header is added at the end.
    Add(Name<'t>, &'t [u8]),
    /// The headers of the name go.
    Remove(Name<'t>),
    /// Each name, once.
    Names,
    /// Each header, with its value on one line.
    Headers,
    /// The message is written.
    Write,
}

/// Which values of a name are shown, and how.
#[derive(Clone, Copy)]
pub enum Form {
    /// The first one.
    First,
    /// Each on a line.
    Lines,
    /// All on one line, with this between them.
    Joined(&'static [u8]),
}

impl<'t> Command<'t> {
    /// The command that a line says: a word, and behind a space what it takes.
    pub fn of_line(line: &'t [u8]) -> io::Result<Command<'t>>
        ensures bad { IfErr result (λ error. error_kind error ≡ InvalidData) }
    {
        let (word, operands) = split_at_byte(line, b' ');
        match word {
            b"set" => {
                let (name, value) = field_of(operands, b' ')?;
                Ok(Command::Set(name, value))
            }
            b"add" => {
                let (name, value) = field_of(operands, b' ')?;
                Ok(Command::Add(name, value))
            }
            _ if operands.is_empty() => Command::alone(word),
            b"get" | b"all" | b"joined" | b"remove" => Command::of_name(word, name_of(operands)?),
            _ => Err(bad("not a command")),
        }
    }

    /// The command that the words say.
    ///
    /// # Errors
    ///
    /// [`Fault::Usage`] if they say none, or if a name or a value is forbidden.
    pub fn of_words(words: &'t [String]) -> Result<Command<'t>, Fault>
        ensures bad { IfErr result (λ fault. status_of_fault fault ≡ 2) }
    {
        match Command::parse(words) {
            Ok(command) => Ok(command),
            Err(error) => Err(Fault::Usage(error)),
        }
    }

    /// Whether the command writes the whole message.
    pub fn writes_message(self) -> bool {
        matches!(
            &self,
            Command::Set(..) | Command::Add(..) | Command::Remove(_) | Command::Write
        )
    }

    fn parse(words: &'t [String]) -> io::Result<Command<'t>> {
        match words {
            [word, name] => Command::of_name(word.as_bytes(), name_of(name.as_bytes())?),
            [word, name, value] => {
                Command::of_pair(word.as_bytes(), name_of(name.as_bytes())?, value.as_bytes())
            }
            [word] => Command::alone(word.as_bytes()),
            [word, ..] => Err(no_command(word.as_bytes())),
            [] => Err(bad("no command behind the file")),
        }
    }

    fn of_pair(word: &[u8], name: Name<'t>, value: &'t [u8]) -> io::Result<Command<'t>> {
        let Some(value) = value_of(value) else {
            return Err(bad("forbidden value"));
        };
        match word {
            b"set" => Ok(Command::Set(name, value)),
            b"add" => Ok(Command::Add(name, value)),
            _ => Err(no_command(word)),
        }
    }

    /// The command of this word, where it takes nothing.
    fn alone(word: &[u8]) -> io::Result<Command<'t>>
        ensures bad { IfErr result (λ error. error_kind error ≡ InvalidData) }
    {
        match word {
            b"names" => Ok(Command::Names),
            b"list" => Ok(Command::Headers),
            b"write" => Ok(Command::Write),
            _ => Err(no_command(word)),
        }
    }

    fn of_name(word: &[u8], name: Name<'t>) -> io::Result<Command<'t>>
        ensures bad { IfErr result (λ error. error_kind error ≡ InvalidData) }
    {
        match word {
            b"get" => Ok(Command::Show(name, Form::First)),
            b"all" => Ok(Command::Show(name, Form::Lines)),
            b"joined" => Ok(Command::Show(name, joined_form(name))),
            b"remove" => Ok(Command::Remove(name)),
            _ => Err(no_command(word)),
        }
    }
}

/// Why this word and what stands behind it are no command.
fn no_command(word: &[u8]) -> io::Error
    ensures { error_kind result ≡ InvalidData }
{
    match word {
        b"get" => bad("get takes NAME"),
        b"all" => bad("all takes NAME"),
        b"joined" => bad("joined takes NAME"),
        b"set" => bad("set takes NAME and VALUE"),
        b"add" => bad("add takes NAME and VALUE"),
        b"remove" => bad("remove takes NAME"),
        b"names" => bad("names takes nothing"),
        b"list" => bad("list takes nothing"),
        b"write" => bad("write takes nothing"),
        _ => bad("not a command"),
    }
}

/// How the values of a name are joined: with a comma, those of `cookie` with a semicolon, and those
/// of `set-cookie` not at all.
fn joined_form(name: Name<'_>) -> Form {
    if name == SET_COOKIE {
        Form::Lines
    } else if name == COOKIE {
        Form::Joined(b"; ")
    } else {
        Form::Joined(b", ")
    }
}
