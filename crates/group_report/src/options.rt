//! What is asked for.
use program_parts::{Arguments, Fault, unknown, usage};
use std::alloc::Global;

/// Where the group and the value stand on a line.
#[derive(Clone, Copy)]
pub struct Fields {
    /// What separates fields. Without it white space does.
    pub separator: Option<char>,
    /// The field that is the group, from 1. Without it the group is all before the last field.
    pub key: Option<usize>,
    /// The field that is the value, from 1. Without it the last one is.
    pub value: Option<usize>,
}

/// In which order the groups are reported.
#[derive(Clone, Copy)]
pub enum Order {
    /// As they first occur.
    First,
    /// By their names.
    Name,
    /// The greatest sum first.
    Total,
}

/// What is asked for.
#[derive(Clone, Copy)]
pub struct Options {
    /// Whether lines have no value.
    pub counts: bool,
    /// Whether the first line may be a bound.
    pub first_line_may_bound: bool,
    pub bound: Option<i128>,
    pub order: Order,
    /// Whether the values are listed.
    pub lists: bool,
    /// Whether the report has columns, which tabs separate.
    pub has_columns: bool,
    /// Whether bad lines are passed over.
    pub skips: bool,
    pub fields: Fields,
}

impl Options {
    /// The options that are asked for.
    ///
    /// # Errors
    ///
    /// A value that its option doesn't take, options that exclude each other, a second file; out of
    /// memory.
    pub fn parse(alloc: Global, arguments: &Arguments<'_>) -> Result<Options, Fault> {
        if let Some(word) = arguments.words.first() {
            return Err(unknown(alloc, "one file at most", word.as_str()));
        }
        let options = Options {
            counts: arguments.has("--count"),
            first_line_may_bound: arguments.are_none,
            bound: bound_of(alloc, arguments)?,
            order: order_of(alloc, arguments)?,
            lists: arguments.has("--list"),
            has_columns: arguments.has("--tsv"),
            skips: arguments.has("--skip"),
            fields: fields_of(alloc, arguments)?,
        };
        match options.conflict() {
            Some(reason) => Err(usage(reason)),
            None => Ok(options),
        }
    }

    /// Which of the options exclude each other.
    fn conflict(self) -> Option<&'static str> {
        if self.counts && self.lists {
            return Some("--count leaves no values for --list");
        }
        if self.counts && self.fields.value.is_some() {
            return Some("--count leaves no value for --value");
        }
        if self.has_columns && self.lists {
            return Some("--tsv has no lines for --list");
        }
        if self.fields.value.is_some() && self.fields.key.is_none() {
            return Some("--value wants a --key beside it");
        }
        None
    }
}

fn fields_of(alloc: Global, arguments: &Arguments<'_>) -> Result<Fields, Fault> {
    Ok(Fields {
        separator: separator_of(alloc, arguments)?,
        key: field_of(alloc, arguments, "--key")?,
        value: field_of(alloc, arguments, "--value")?,
    })
}

/// The character behind `-d`; `\t` is a tab.
fn separator_of(alloc: Global, arguments: &Arguments<'_>) -> Result<Option<char>, Fault> {
    let Some(word) = arguments.value_of("-d") else {
        return Ok(None);
    };
    if word == "\\t" {
        return Ok(Some('\t'));
    }
    let mut characters = word.chars();
    match (characters.next(), characters.next()) {
        (Some(separator), None) if separator != '\n' => Ok(Some(separator)),
        _ => Err(unknown(alloc, "-d takes one character", word)),
    }
}

/// The number of a field that the option names.
fn field_of(
    alloc: Global,
    arguments: &Arguments<'_>,
    option: &str,
) -> Result<Option<usize>, Fault> {
    let Some(word) = arguments.value_of(option) else {
        return Ok(None);
    };
    match word.parse::<usize>() {
        Ok(number) if number > 0 => Ok(Some(number)),
        _ => Err(unknown(alloc, "not the number of a field, from 1", word)),
    }
}

fn bound_of(alloc: Global, arguments: &Arguments<'_>) -> Result<Option<i128>, Fault> {
    let Some(word) = arguments.value_of("--bound") else {
        return Ok(None);
    };
    match word.parse() {
        Ok(bound) => Ok(Some(bound)),
        Err(_) => Err(unknown(alloc, "--bound takes a whole number of 128 bits", word)),
    }
}

fn order_of(alloc: Global, arguments: &Arguments<'_>) -> Result<Order, Fault> {
    match arguments.value_of("--sort") {
        None => Ok(Order::First),
        Some("name") => Ok(Order::Name),
        Some("total") => Ok(Order::Total),
        Some(word) => Err(unknown(alloc, "--sort takes name or total", word)),
    }
}
