//! Values, headers and lines as they are written.
ghost use Rattle.std.specs.Prelude.{◌≡◌, ◌++◌, codes, false, OnOk};
ghost use Rattle.header_store.specs.Changed.{label_of};
ghost use Rattle.header_store.specs.Fields.{unfolded, value_of};
ghost use Rattle.header_store.specs.Written.{ended, header_text, is_lined, line_of, lined};
ghost use Rattle.header_store.specs.Written.{spelled, start_text};

use crate::field::{Field, is_blank, is_line_end, split_at_byte};
use crate::name::Name;
use program_parts::without_return;
use std::alloc::AllocError;

/// Adds the value, on one line.
pub fn add_value(answers: &mut Vec<u8>, field: Field<'_>) -> Result<(), AllocError>
    ensures { OnOk result (answers.new.items ≡ answers.old.items ++ value_of field.entry) }
{
    match field {
        Field::Read(_, value) => add_unfolded(answers, value),
        Field::Written(value) => answers.extend_from_slice(value),
    }
}

/// Adds the value on one line: what ends a line within it, and the blanks behind that, are a space.
#[tactic(auto, using(crate::proofs::Folded::value_steps))]
fn add_unfolded(answers: &mut Vec<u8>, value: &[u8]) -> Result<(), AllocError>
    ensures { OnOk result (answers.new.items ≡ answers.old.items ++ unfolded false value.now) }
{
    let mut is_behind = false;
    let mut rest = value;
    while let Some((byte, behind)) = rest.split_first() {
        rest = behind;
        if is_line_end(*byte) {
            if !is_behind {
                answers.push(b' ')?;
            }
            is_behind = true;
        } else if !is_behind || !is_blank(*byte) {
            answers.push(*byte)?;
            is_behind = false;
        }
    }
    Ok(())
}

/// Adds the name as it was spelled, and a colon, if there is one.
pub fn add_label(answers: &mut Vec<u8>, name: Option<Name<'_>>) -> Result<(), AllocError>
    ensures { OnOk result (answers.new.items ≡ answers.old.items ++ label_of name.entry) }
{
    if let Some(name) = name {
        answers.extend_from_slice(name.as_bytes())?;
        answers.extend_from_slice(b": ")?;
    }
    Ok(())
}

pub fn add_line(answers: &mut Vec<u8>, text: &[u8]) -> Result<(), AllocError>
    ensures { OnOk result (answers.new.items ≡ answers.old.items ++ line_of text.now) }
{
    add_ended(answers, text, b"\n")
}

fn add_ended(answers: &mut Vec<u8>, text: &[u8], line_end: &[u8]) -> Result<(), AllocError>
    ensures { OnOk result (answers.new.items ≡ answers.old.items ++ ended line_end.now text.now) }
{
    answers.extend_from_slice(text)?;
    answers.extend_from_slice(line_end)?;
    Ok(())
}

/// Adds the request or status line as it stands, if there is one.
pub fn add_start(answers: &mut Vec<u8>, line_end: &[u8], start: &[u8]) -> Result<(), AllocError>
    ensures { OnOk result (answers.new.items ≡ answers.old.items
        ++ start_text line_end.now start.now) }
{
    if start.is_empty() {
        return Ok(());
    }
    add_lined(answers, line_end, start)
}

/// Adds lines, of which the last one ends so if nothing ends it.
fn add_lined(answers: &mut Vec<u8>, line_end: &[u8], lines: &[u8]) -> Result<(), AllocError>
    ensures { OnOk result (answers.new.items ≡ answers.old.items ++ lined line_end.now lines.now) }
{
    if is_lined(lines) {
        return answers.extend_from_slice(lines);
    }
    add_ended(answers, without_return(lines), line_end)
}

/// Whether a line feed stands last.
fn is_lined(lines: &[u8]) -> bool
    ensures { result ≡ is_lined lines.now }
{
    lines.strip_suffix(b"\n").is_some()
}

/// Adds the header as it stands in a message: on its lines, or on a line that ends so.
pub fn add_header(
    answers: &mut Vec<u8>,
    line_end: &[u8],
    name: Name<'_>,
    field: Field<'_>,
) -> Result<(), AllocError>
    ensures { OnOk result (answers.new.items ≡ answers.old.items
        ++ header_text line_end.now name.entry field.entry) }
{
    match field {
        Field::Read(lines, _) => add_lined(answers, line_end, lines),
        Field::Written(value) => {
            add_label(answers, Some(name))?;
            add_ended(answers, value, line_end)
        }
    }
}

/// Adds the header on one line, with the name as it spells it.
pub fn add_listed(answers: &mut Vec<u8>, name: Name<'_>, field: Field<'_>) -> Result<(), AllocError>
    ensures { OnOk result (answers.new.items ≡ answers.old.items
        ++ (spelled name.entry field.entry ++ (codes ": " ++ line_of (value_of field.entry)))) }
{
    answers.extend_from_slice(spelling(name, field))?;
    answers.extend_from_slice(b": ")?;
    add_value(answers, field)?;
    answers.push(b'\n')?;
    Ok(())
}

/// The name as the header spells it.
fn spelling<'t>(name: Name<'t>, field: Field<'t>) -> &'t [u8]
    ensures { result.now ≡ spelled name.entry field.entry }
{
    match field {
        Field::Read(lines, _) => split_at_byte(lines, b':').0,
        Field::Written(_) => name.as_bytes(),
    }
}
