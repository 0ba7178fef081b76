//! Keeps the headers of an HTTP message, and answers questions about them.
//!
//! ```text
//! header_store FILE get NAME          the name's first value
//! header_store FILE all NAME          each of its values, on a line each
//! header_store FILE joined NAME       its values on one line
//! header_store FILE names             each name, once
//! header_store FILE list              each header on a line
//! header_store FILE set NAME VALUE    gives the name's first header this value, removes its others
//! header_store FILE add NAME VALUE    adds a header at the end
//! header_store FILE remove NAME       removes the headers of the name
//! header_store FILE write             writes the message
//! ```
//!
//! `FILE` is a message: a request or status line, if there is one, and a header `NAME: VALUE` on each
//! line, up to an empty line; `-` stands for standard input. A line that begins with a blank goes on
//! with the header above it: its value is one, and is shown on one line, with a space where the lines
//! meet. The last four commands write the whole message, with what stands behind the headers. Each
//! line that the command doesn't change stays as it is, byte for byte; what the command writes ends as
//! the first line does, with a line feed or a carriage return and a line feed. Names are
//! case-insensitive: `accept` finds what came as `Accept`. `set` keeps the place and the first spelling
//! of a name that is there, and adds a header at the end of one that isn't.
//!
//! `joined` puts a comma and a space between the values, as RFC 9110 has it, and a semicolon and a
//! space between those of `cookie`. The values of `set-cookie` can't be joined, so `joined` writes
//! them as `all` does.
//!
//! `--in-place` writes the message into `FILE` and not to standard output, by a file beside it that is
//! renamed once its data is on disk.
//!
//! Without arguments the program reads a message from standard input, up to an empty line, and then a
//! command on each line, as `get NAME`. Then `get`, `all` and `joined` write headers, `NAME: VALUE`
//! with the name as the command spells it, and of an absent name `no NAME`, which is no header.
//! `write` then writes the request or status line and the headers. Empty lines among the commands are
//! ignored.
//!
//! The exit status is 0, or 1 where there is nothing of what `get`, `all`, `joined`, `names` or `list`
//! asks for, 2 where an argument or a line is bad, as one with a name or a value that RFC 9110 forbids,
//! 3 when out of memory, or 4 where the system gave no random seed or where reading or writing failed.
//! Then nothing but a message on standard error is written, unless it is the output that failed.
#![tactic(auto)]

mod answer;
mod command;
mod field;
mod message;
mod name;
mod start;
mod write;

use crate::answer::{add_answer_of_command, add_answers};
use crate::command::Command;
use ordered_multimap::ListOrderedMultimap;
use ordered_multimap::list_ordered_multimap::RandomState;
use program_parts::{Arguments, Fault, IN_PLACE, Program, read_input, run_program};
use std::process::ExitCode;

const PROGRAM: Program = Program {
    name: "header_store",
    help: "\
usage: header_store [--in-place] FILE COMMAND
       header_store < MESSAGE_AND_COMMANDS

Keeps the headers of an HTTP message. FILE is the message; - stands for standard
input. Without arguments standard input has the message, an empty line, and then a
command on each line.

commands:
  get NAME          write the name's first value
  all NAME          write each of its values
  joined NAME       write its values on one line
  names             write each name, once
  list              write each header on a line
  set NAME VALUE    give its first header this value, and remove its others
  add NAME VALUE    add a header at the end
  remove NAME       remove the headers of the name
  write             write the message

Names are case-insensitive. Lines that a command doesn't change stay as they are;
those that it writes end as the first line of the message does. The exit status is 1
where nothing is found.

  -i, --in-place    write the message into FILE, and not to standard output;
                    > FILE would empty it before it is read

example: header_store -i request.txt set Accept text/html
",
    flags: &[IN_PLACE],
    valued: &[],
    text: None,
};

fn main(rt: HostRuntime) -> ExitCode {
    run_program(&rt, &PROGRAM, answers_to)
}

/// What the program writes.
fn answers_to(rt: &HostRuntime, arguments: &Arguments<'_>) -> Result<Vec<u8>, Fault> {
    let command = if arguments.are_none {
        None
    } else {
        let command = Command::of_words(arguments.words)?;
        arguments.is_in_place(command.writes_message())?;
        Some(command)
    };
    let input = read_input(rt, &PROGRAM, arguments)?;
    // Who sends headers may choose names that share a hash, so the hash has a seed of its own.
    let headers = &mut ListOrderedMultimap::with_hasher(rt.alloc(), RandomState::new(rt)?);
    let mut answers = Vec::new(rt.alloc());
    match command {
        None => add_answers(headers, &input, &mut answers)?,
        Some(command) => add_answer_of_command(headers, &input, command, &mut answers)?,
    }
    Ok(answers)
}
