//! The two ways to ask: by arguments, and by lines of standard input.
ghost use Rattle.std.specs.Prelude.{◌≡◌, [], IfErr, IfOk, OnOk, Some};
ghost use Rattle.std.specs.String.{string_bytes};
ghost use Rattle.program_parts.specs.Statuses.{status_of_fault};
ghost use Rattle.query_fields.specs.Answers.{IsAbsent, IsAnswer};
ghost use Rattle.query_fields.specs.Queries.{pairs_and, query_read_by, texts_of};
ghost use Rattle.query_fields.specs.Urls.{IsAround, query_in};

use crate::command::Command;
use crate::fields::{Fields, Reading, read_query};
use crate::split::split_at_byte;
use crate::url::Url;
use program_parts::{Fault, bad, text_of, unknown, usage, without_mark, without_return};
use std::alloc::Global;
use std::io;

/// Reads the query, or that in a URL, into `fields`, which is empty, carries out the command, and
/// adds what it writes to `answers`.
///
/// # Errors
///
/// A bad query; what is asked for is absent; out of memory.
pub fn answer_command<'t>(
    alloc: Global,
    fields: &mut Fields<'t>,
    text: &'t [u8],
    reading: Reading,
    command: Command<'t>,
    answers: &mut String,
) -> Result<(), Fault>
    ensures answered { fields.old.lists.pairs ≡ [] → string_bytes answers.old ≡ []
        → OnOk result (IsAnswer command.entry reading fields.new.lists text.now
        (string_bytes answers.new)) }
    ensures absent { fields.old.lists.pairs ≡ [] → IfErr result (λ fault.
        status_of_fault fault ≡ 1
        → IsAbsent command.entry reading fields.new.lists text.now) }
{
    let url = match read_url(alloc, fields, text, reading) {
        Ok(url) => url,
        Err(error) => return Err(Fault::input(error)),
    };
    if !command.carry_out(&url, fields, answers)? {
        return Err(Fault::Absent);
    }
    if command.changes() {
        return Ok(url.add_to(fields, answers)?);
    }
    Ok(())
}

/// The parts of the text, of whose query the fields are added.
fn read_url<'t>(
    alloc: Global,
    fields: &mut Fields<'t>,
    text: &'t [u8],
    reading: Reading,
) -> io::Result<Url<'t>>
    ensures around { IfOk result (IsAround text.now) }
    ensures read { OnOk result (pairs_and (texts_of fields.old.lists.pairs)
        (query_read_by reading (query_in text.now)) ≡ Some (texts_of fields.new.lists.pairs)) }
{
    let url = Url::parse(text)?;
    read_query(alloc, url.query, url.place, reading, fields)?;
    Ok(url)
}

/// The command that the words are.
///
/// # Errors
///
/// No such command; out of memory.
pub fn command_of(alloc: Global, words: &[String]) -> Result<Command<'_>, Fault> {
    let Some((word, behind)) = words.split_first() else {
        return Err(usage("no command behind the query"));
    };
    let word = word.as_str();
    if let Some(more) = behind.get(1) {
        return Err(unknown(alloc, "one word at most behind the command", more.as_str()));
    }
    let operand = behind.first().map(|operand| operand.as_str());
    match (operand, word) {
        (None, "get") => Err(usage("get takes NAME")),
        (None, "all") => Err(usage("all takes NAME")),
        (None, "set") => Err(usage("set takes NAME=VALUE")),
        (None, "add") => Err(usage("add takes NAME=VALUE")),
        (None, "remove") => Err(usage("remove takes NAME")),
        _ => match (Command::parse(word, operand), word) {
            (Some(command), _) => Ok(command),
            (None, "names") => Err(usage("names takes nothing")),
            (None, "list") => Err(usage("list takes nothing")),
            (None, "write") => Err(usage("write takes nothing")),
            (None, _) => Err(unknown(alloc, "not a command", word)),
        },
    }
}

/// Reads the query or the URL on the first line of the input into `fields`, which is empty, and adds
/// what the commands below it answer. A bad line, also one below a command, ends this.
pub fn answer_lines<'t>(
    alloc: Global,
    fields: &mut Fields<'t>,
    input: &'t [u8],
    reading: Reading,
    answers: &mut String,
) -> Result<(), Fault> {
    let (first, behind) = split_at_byte(without_mark(input), b'\n');
    let url = match read_url(alloc, fields, without_return(first), reading) {
        Ok(url) => url,
        Err(error) => return Err(Fault::at_line(1, error)),
    };
    for (index, line) in behind.split(|byte| *byte == b'\n').enumerate() {
        if let Err(error) = answer_line(&url, fields, line, answers) {
            return Err(Fault::at_line(index.saturating_add(2), error));
        }
    }
    Ok(())
}

/// Carries out the command on a line. A name that is absent has the answer `none` to `get`.
fn answer_line<'t>(
    url: &Url<'_>,
    fields: &mut Fields<'t>,
    line: &'t [u8],
    answers: &mut String,
) -> io::Result<()> {
    let line = text_of(line)?;
    if line.is_empty() {
        return Ok(());
    }
    let Some(command) = command_on(line) else {
        return Err(bad("not a command"));
    };
    let is_there = command.carry_out(url, fields, answers)?;
    if !is_there && matches!(&command, Command::Get(_)) {
        answers.push_str("none\n")?;
    }
    Ok(())
}

fn command_on(line: &str) -> Option<Command<'_>> {
    match line.split_once(' ') {
        Some((word, operand)) => Command::parse(word, Some(operand)),
        None => Command::parse(line, None),
    }
}
