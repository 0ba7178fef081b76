//! The group and the value on each line.
use crate::options::{Fields, Options};
use crate::summaries::{Report, add_value};
use program_parts::{Fault, bad, text_of, without_mark};
use std::io;
use std::num::IntErrorKind;

/// What the lines say beside their values.
#[derive(Clone, Copy)]
pub struct Read {
    /// The sum below which a group isn't reported again.
    pub bound: Option<i128>,
    /// How many bad lines were passed over.
    pub skipped: usize,
}

/// Takes up the values of all lines.
pub fn read_lines<'t>(
    report: &mut Report<'t>,
    options: &Options,
    input: &'t [u8],
) -> Result<Read, Fault> {
    let mut read = Read {
        bound: options.bound,
        skipped: 0,
    };
    for (index, line) in without_mark(input).split(|byte| *byte == b'\n').enumerate() {
        match entry_of(line, options) {
            Ok(None) => {}
            Ok(Some(("bound", least))) if index == 0 && options.first_line_may_bound => {
                read.bound = Some(i128::from(least));
            }
            Ok(Some((group, value))) => add_entry(report, options, group.as_bytes(), value)?,
            Err(_) if options.skips => read.skipped = read.skipped.saturating_add(1),
            Err(error) => return Err(Fault::at_line(index.saturating_add(1), error)),
        }
    }
    Ok(read)
}

fn add_entry<'t>(
    report: &mut Report<'t>,
    options: &Options,
    group: &'t [u8],
    value: i64,
) -> Result<(), Fault> {
    add_value(&mut report.summaries, group, value)?;
    if options.lists
        && let Err(refused) = report.values.append(group, value)
    {
        return Err(Fault::from(io::Error::from(refused)));
    }
    Ok(())
}

/// The group and the value on a line, if there is one. Where lines have no value, it is one.
fn entry_of<'t>(line: &'t [u8], options: &Options) -> io::Result<Option<(&'t str, i64)>> {
    let line = text_of(line)?;
    let text = line.trim_ascii();
    if text.is_empty() {
        return Ok(None);
    }
    let fields = options.fields;
    let (group, value) = match fields.key {
        Some(key) => {
            let line = if fields.separator.is_some() {
                line
            } else {
                text
            };
            (field(line, fields, key)?, value_field(line, options)?)
        }
        None if options.counts => (text, ""),
        None => group_and_value(text, fields)?,
    };
    let value = if options.counts { 1 } else { number_of(value)? };
    Ok(Some((group, value)))
}

/// What stands before the last separator, and what stands behind it.
fn group_and_value(text: &str, fields: Fields) -> io::Result<(&str, &str)> {
    let parts = match fields.separator {
        Some(separator) => text.rsplit_once(separator),
        None => text.rsplit_once(|c: char| c.is_ascii_whitespace()),
    };
    match parts {
        Some((group, value)) => Ok((group.trim_ascii(), value.trim_ascii())),
        None => Err(bad("not a group and a value")),
    }
}

/// The value's field on the line; nothing where lines have no value.
fn value_field<'t>(line: &'t str, options: &Options) -> io::Result<&'t str> {
    let fields = options.fields;
    if options.counts {
        return Ok("");
    }
    match fields.value {
        Some(value) => field(line, fields, value),
        None => Ok(group_and_value(line, fields)?.1),
    }
}

/// The field of this number, from 1.
fn field(line: &str, fields: Fields, number: usize) -> io::Result<&str> {
    let found = match fields.separator {
        Some(separator) => line.split(separator).nth(number.saturating_sub(1)),
        None => line.split_ascii_whitespace().nth(number.saturating_sub(1)),
    };
    match found {
        Some(found) => Ok(found.trim_ascii()),
        None => Err(bad("too few fields")),
    }
}

fn number_of(word: &str) -> io::Result<i64> {
    match word.parse::<i64>() {
        Ok(number) => Ok(number),
        Err(error) => Err(match error.kind() {
            IntErrorKind::PosOverflow | IntErrorKind::NegOverflow => bad("out of range"),
            _ => bad("not a number"),
        }),
    }
}
