//! Reads the query of a URL, or the fields of a form, changes it, and answers questions about it.
//!
//! A query has fields `NAME=VALUE` with `&` between them, where `+` stands for a space, and `%` and
//! two hexadecimal digits for a byte. It is read as the URL standard has it: another `%` stands for
//! itself, and what is no UTF-8 for U+FFFD. `--strict` refuses both.
//!
//! What begins with a scheme and `://` is a whole URL, whose query stands between its first `?` and
//! its first `#`; all else of it stays as it is. The first field that is added brings the `?`, and
//! the last one takes it along. What is no URL is a query alone, of which one leading `?` is cut.
//!
//! The first word is the query or the URL, and behind it stands a command. Where the word is `-`,
//! it is read from standard input, and the end of a line behind it is cut. Without words, the first
//! line of standard input is the query or the URL, and each line below it a command. Names and
//! values in commands are plain text.
//!
//! | Command | What it does |
//! |---|---|
//! | `get NAME` | writes the name's first value |
//! | `all NAME` | writes each value of the name |
//! | `names` | writes each name once, in the order in which they first stand |
//! | `list` | writes each field `NAME=VALUE` as `write` does, on a line each |
//! | `set NAME=VALUE` | gives the name's first field this value, and removes its others |
//! | `add NAME=VALUE` | adds a field at the end |
//! | `remove NAME` | removes the fields of the name |
//! | `write` | writes the URL or the query, with all fields in order |
//!
//! As an argument, a command that changes fields also does what `write` does, and a command that
//! finds nothing to write, as `get` of an absent name, ends with status 1. On a line, `get` of an
//! absent name writes `none`, and `get` or `all` alone ask for the empty name. `set` of an absent
//! name adds a field at the end. A name without `=` has the empty value. `get`, `all` and `names`
//! write a text as it is, with a line feed in it too. Empty lines among the commands are ignored.
//!
//! The exit statuses are those of `program_parts`; 4 also says that the system gave no random seed.
#![tactic(auto)]

mod answer;
mod command;
mod escape;
mod fields;
mod split;
mod url;

use crate::answer::{answer_command, answer_lines, command_of};
use crate::fields::Reading;
use ordered_multimap::ListOrderedMultimap;
use ordered_multimap::list_ordered_multimap::RandomState;
use program_parts::{
    Arguments, Fault, Program, read_input, run_program, without_mark, without_return,
};
use std::io::Read;
use std::process::ExitCode;

const PROGRAM: Program = Program {
    name: "query_fields",
    help: "\
usage: query_fields [--strict] [QUERY COMMAND]

  get NAME          prints the first value of NAME
  all NAME          prints each value of NAME
  names             prints each name once
  list              prints each field as NAME=VALUE, escaped
  set NAME=VALUE    gives NAME this value alone, and prints the query
  add NAME=VALUE    adds a field at the end, and prints the query
  remove NAME       removes the fields of NAME, and prints the query
  write             prints the query
  --strict          refuses an escape that stands for no text

QUERY may be a whole URL, which is then printed whole; - reads it from standard
input. Without QUERY, reads it from the first line of standard input, and
commands from the lines below. The status is 1 where NAME is absent, or where
there is no field to print.

Example: query_fields 'tag=a%26b&page=1' get tag
",
    flags: &["--strict"],
    valued: &[],
    text: Some("query"),
};

fn main(rt: HostRuntime) -> ExitCode {
    run_program(&rt, &PROGRAM, answers_to)
}

fn answers_to(rt: &HostRuntime, arguments: &Arguments<'_>) -> Result<Vec<u8>, Fault> {
    let command = match arguments.first {
        Some(_) => Some(command_of(rt.alloc(), arguments.words)?),
        None => None,
    };
    let reading = if arguments.has("--strict") {
        Reading::Strict
    } else {
        Reading::Lenient
    };
    let input = input_of(rt, arguments)?;
    let text = match arguments.first {
        Some("-") => line_of(&input),
        _ => &input,
    };
    // Who sends a query may choose names that share a hash, so the hash has a seed of its own.
    let fields = &mut ListOrderedMultimap::with_hasher(rt.alloc(), RandomState::new(rt)?);
    let mut answers = String::new(rt.alloc());
    match command {
        Some(command) => {
            answer_command(rt.alloc(), fields, text, reading, command, &mut answers)?
        }
        None => answer_lines(rt.alloc(), fields, text, reading, &mut answers)?,
    }
    Ok(answers.into_bytes())
}

/// The query or the URL, or what standard input has where there is no argument.
fn input_of(rt: &HostRuntime, arguments: &Arguments<'_>) -> Result<Vec<u8>, Fault> {
    match arguments.first {
        Some("-") => read_standard_input(rt),
        _ => read_input(rt, &PROGRAM, arguments),
    }
}

fn read_standard_input(rt: &HostRuntime) -> Result<Vec<u8>, Fault> {
    let mut input = Vec::new(rt.alloc());
    match rt.reader().read_to_end(&mut input) {
        Ok(_) => Ok(input),
        Err(error) => Err(Fault::input(error)),
    }
}

/// The one line that the input is.
fn line_of(input: &[u8]) -> &[u8] {
    let line = without_mark(input);
    without_return(line.strip_suffix(b"\n").unwrap_or(line))
}
