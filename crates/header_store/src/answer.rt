//! What commands do to the headers, and what they show of them.
ghost use Rattle.std.specs.Prelude.{◌≡◌, ◌++◌, ℕ, List, map, IfOk, OnOk};
ghost use Rattle.std.specs.Str.{str_eq_ignore_ascii_case, str_to_ascii_lowercase};
ghost use Rattle.ordered_multimap.specs.Pairs.{has_items, values_where};
ghost use Rattle.header_store.specs.Fields.{value_of};
ghost use Rattle.header_store.specs.Written.{all_behind, header_lines, listed, name_lines};
ghost use Rattle.header_store.specs.Written.{shown, value_lines};
ghost use Rattle.header_store.specs.Changed.{changed, is_found, label_of};
ghost use Rattle.header_store.specs.Answered.{absence, answer_of, message_of, output_of};
ghost use Rattle.header_store.specs.Answered.{values_or_absence};

use crate::command::{Command, Form};
use crate::field::Field;
use crate::message::{Frame, Headers, read_message};
use crate::name::Name;
use crate::write::{add_header, add_label, add_line, add_listed, add_start, add_value};
use ordered_multimap::EntryValues;
use program_parts::{Fault, without_return};
use std::alloc::AllocError;
use std::io;

/// Reads a message up to an empty line into `headers`, which is empty, and adds what the commands
/// below that line show, one after another.
pub fn add_answers<'t>(
    headers: &mut Headers<'t>,
    input: &'t [u8],
    answers: &mut Vec<u8>,
) -> Result<(), Fault> {
    let frame = read_message(headers, input)?;
    for (index, line) in frame.rest.split(|byte| *byte == b'\n').enumerate() {
        if let Err(error) = add_answer(headers, frame, without_return(line), answers) {
            let number = frame.lines.saturating_add(index).saturating_add(1);
            return Err(Fault::at_line(number, error));
        }
    }
    Ok(())
}

/// Does what a line commands, and adds what that shows.
fn add_answer<'t>(
    headers: &mut Headers<'t>,
    frame: Frame<'t>,
    line: &'t [u8],
    answers: &mut Vec<u8>,
) -> io::Result<()> {
    if !line.is_empty() {
        answer_to(headers, frame, Command::of_line(line)?, answers)?;
    }
    Ok(())
}

/// Does what a line's command says, and adds what that shows.
fn answer_to<'t>(
    headers: &mut Headers<'t>,
    frame: Frame<'t>,
    command: Command<'t>,
    answers: &mut Vec<u8>,
) -> Result<(), AllocError>
    ensures headers { OnOk result (headers.new.lists ≡ changed command.entry headers.old.lists) }
    ensures shown { OnOk result (answers.new.items ≡ answers.old.items
        ++ answer_of frame.entry command.entry headers.old.lists) }
{
    match command {
        Command::Show(name, form) => add_values_or_absence(answers, form, name, headers),
        Command::Names => add_names(answers, headers),
        Command::Headers => add_all_headers(answers, headers),
        Command::Write => add_message(answers, frame, headers),
        Command::Set(_, _) | Command::Add(_, _) | Command::Remove(_) => change(headers, command),
    }
}

/// Reads a message into `headers`, which is empty, and adds what the command shows of them, or the
/// whole message as the command leaves it.
///
/// # Errors
///
/// [`Fault::Absent`] if the command shows the values of a name that no header has.
pub fn add_answer_of_command<'t>(
    headers: &mut Headers<'t>,
    input: &'t [u8],
    command: Command<'t>,
    answers: &mut Vec<u8>,
) -> Result<(), Fault> {
    let frame = read_message(headers, input)?;
    if carry_out(headers, frame, command, answers)? {
        Ok(())
    } else {
        Err(Fault::Absent)
    }
}

/// Does what the command of a program's arguments says, adds what it shows, or else the whole
/// message, and returns whether there is anything.
fn carry_out<'t>(
    headers: &mut Headers<'t>,
    frame: Frame<'t>,
    command: Command<'t>,
    answers: &mut Vec<u8>,
) -> Result<bool, AllocError>
    ensures headers { OnOk result (headers.new.lists ≡ changed command.entry headers.old.lists) }
    ensures found { IfOk result (λ found. found ≡ is_found command.entry headers.old.lists) }
    ensures shown { OnOk result (answers.new.items ≡ answers.old.items
        ++ output_of frame.entry command.entry headers.new.lists) }
{
    match command {
        Command::Show(name, form) => add_values(answers, form, None, values_of(headers, name)),
        Command::Names => {
            add_names(answers, headers)?;
            Ok(headers.keys_len() > 0)
        }
        Command::Headers => {
            add_all_headers(answers, headers)?;
            Ok(headers.values_len() > 0)
        }
        _ => {
            change(headers, command)?;
            answers.extend_from_slice(frame.mark)?;
            add_message(answers, frame, headers)?;
            answers.extend_from_slice(frame.rest)?;
            Ok(true)
        }
    }
}

/// Does to the headers what the command says.
fn change<'t>(headers: &mut Headers<'t>, command: Command<'t>) -> Result<(), AllocError>
    ensures { OnOk result (headers.new.lists ≡ changed command.entry headers.old.lists) }
{
    match command {
        Command::Set(name, value) => {
            headers.set(name, Field::Written(value))?;
        }
        Command::Add(name, value) => {
            headers.append(name, Field::Written(value))?;
        }
        Command::Remove(name) => {
            headers.remove(&name);
        }
        Command::Show(_, _) | Command::Names | Command::Headers | Command::Write => {}
    }
    Ok(())
}

/// The values of the name, in order: the values of all headers whose names differ from it in the
/// case of ASCII letters alone, however it is spelled.
fn values_of<'m, 't>(
    headers: &'m Headers<'t>,
    name: Name<'t>,
) -> EntryValues<'m, Name<'t>, Field<'t>>
    ensures found { result.left ≡ values_where
        (λ stored. str_eq_ignore_ascii_case name.entry.text.0.now stored.text.0.now)
        headers.now.lists.pairs }
    ensures any_spelling { (other : List ℕ)
        → str_to_ascii_lowercase other ≡ str_to_ascii_lowercase name.entry.text.0.now
        → result.left ≡ values_where
        (λ stored. str_eq_ignore_ascii_case other stored.text.0.now)
        headers.now.lists.pairs }
{
    headers.get_all(&name)
}

/// Adds the values in this form, each line with the name in front if there is one, and returns
/// whether there is a value.
fn add_values<'t>(
    answers: &mut Vec<u8>,
    form: Form,
    name: Option<Name<'t>>,
    mut values: EntryValues<'_, Name<'t>, Field<'t>>,
) -> Result<bool, AllocError>
    ensures found { IfOk result (λ found. found ≡ has_items values.entry.left) }
    ensures shown { OnOk result (answers.new.items ≡ answers.old.items
        ++ shown form (label_of name.entry) (map value_of values.entry.left)) }
{
    let Some(first) = values.next() else {
        return Ok(false);
    };
    add_label(answers, name)?;
    add_value(answers, *first)?;
    if let Form::Joined(separator) = form {
        add_all_behind(answers, separator, values)?;
        answers.push(b'\n')?;
        return Ok(true);
    }
    answers.push(b'\n')?;
    if let Form::Lines = form {
        add_lines(answers, name, values)?;
    }
    Ok(true)
}

/// Adds each value on a line, with the name in front if there is one.
fn add_lines<'t>(
    answers: &mut Vec<u8>,
    name: Option<Name<'t>>,
    values: EntryValues<'_, Name<'t>, Field<'t>>,
) -> Result<(), AllocError>
    ensures { OnOk result (answers.new.items ≡ answers.old.items
        ++ value_lines (label_of name.entry) (map value_of values.entry.left)) }
{
    for value in values {
        add_label(answers, name)?;
        add_value(answers, *value)?;
        answers.push(b'\n')?;
    }
    Ok(())
}

/// Adds the values, each with the separator in front.
fn add_all_behind<'t>(
    answers: &mut Vec<u8>,
    separator: &[u8],
    values: EntryValues<'_, Name<'t>, Field<'t>>,
) -> Result<(), AllocError>
    ensures { OnOk result (answers.new.items ≡ answers.old.items
        ++ all_behind separator.now (map value_of values.entry.left)) }
{
    for value in values {
        answers.extend_from_slice(separator)?;
        add_value(answers, *value)?;
    }
    Ok(())
}

/// Adds the values of the name in this form, or that no header has it.
fn add_values_or_absence<'t>(
    answers: &mut Vec<u8>,
    form: Form,
    name: Name<'t>,
    headers: &Headers<'t>,
) -> Result<(), AllocError>
    ensures { OnOk result (answers.new.items ≡ answers.old.items
        ++ values_or_absence form name.entry headers.now.lists) }
{
    if !add_values(answers, form, Some(name), values_of(headers, name))? {
        add_absence(answers, name)?;
    }
    Ok(())
}

// That no header has the name, which is no header either.
fn add_absence(answers: &mut Vec<u8>, name: Name<'_>) -> Result<(), AllocError>
    ensures { OnOk result (answers.new.items ≡ answers.old.items ++ absence name.entry) }
{
    answers.extend_from_slice(b"no ")?;
    add_line(answers, name.as_bytes())
}

/// Adds the request or status line, if there is one, and all headers in order, as they stand.
fn add_message(
    answers: &mut Vec<u8>,
    frame: Frame<'_>,
    headers: &Headers<'_>,
) -> Result<(), AllocError>
    ensures { OnOk result (answers.new.items ≡ answers.old.items
        ++ message_of frame.entry.line_end.now frame.entry.start.now headers.now.lists) }
{
    add_start(answers, frame.line_end, frame.start)?;
    add_headers(answers, frame.line_end, headers)
}

/// Adds all headers in order, each as it stands.
fn add_headers(
    answers: &mut Vec<u8>,
    line_end: &[u8],
    headers: &Headers<'_>,
) -> Result<(), AllocError>
    ensures { OnOk result (answers.new.items ≡ answers.old.items
        ++ header_lines line_end.now headers.now.lists.pairs) }
{
    for (name, field) in headers {
        add_header(answers, line_end, *name, *field)?;
    }
    Ok(())
}

/// Adds each name on a line, as it was first spelled.
fn add_names(answers: &mut Vec<u8>, headers: &Headers<'_>) -> Result<(), AllocError>
    ensures { OnOk result (answers.new.items ≡ answers.old.items
        ++ name_lines headers.now.lists.keys) }
{
    for name in headers.keys() {
        add_line(answers, name.as_bytes())?;
    }
    Ok(())
}

/// Adds all headers in order, each on a line.
fn add_all_headers(answers: &mut Vec<u8>, headers: &Headers<'_>) -> Result<(), AllocError>
    ensures { OnOk result (answers.new.items ≡ answers.old.items
        ++ listed headers.now.lists.pairs) }
{
    for (name, field) in headers {
        add_listed(answers, *name, *field)?;
    }
    Ok(())
}
