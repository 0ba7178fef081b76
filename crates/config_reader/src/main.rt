//! Reads settings as git and others keep them in files, answers questions about them, and changes
//! them.
//!
//! ```text
//! config_reader FILE get SECTION.KEY          the key's last value
//! config_reader FILE all SECTION.KEY          each of its values, on a line each
//! config_reader FILE keys [SECTION]           the keys of the section, each once
//! config_reader FILE sections                 the names of all sections
//! config_reader FILE list                     all settings, as SECTION.KEY=VALUE on a line each
//! config_reader FILE -z list                  the same for programs: SECTION.KEY, a line feed, VALUE, a zero byte
//! config_reader FILE set SECTION.KEY VALUE    gives the key's first setting this value, removes its others
//! config_reader FILE add SECTION.KEY VALUE    adds a setting at the end of the section
//! config_reader FILE unset SECTION.KEY        removes the settings of the key
//! config_reader FILE write                    writes the text
//! ```
//!
//! A line `[SECTION]` opens a section, and `KEY = VALUE` is a setting of the section that is open, or
//! above the first one of none. `KEY` alone, and `keys` alone, ask for those. A section is a word, or
//! a word and a name between quotes, `[remote "origin"]`, which a question calls `remote.origin`. The
//! case of words and keys doesn't matter, that of the quoted name does. Sections of one name are
//! one. A question parts section and key by the last dot. It ignores blanks around the word and around
//! the key, so those have none, and takes the quoted name as it stands. A key may stand several times,
//! or alone on its line, with the empty value.
//!
//! A value goes to the end of its line, without the blanks around it. A backslash at the end joins
//! the next line. A comment is `#` or `;` at the start of a line, or with a blank in front of it.
//! Between quotes blanks, `#` and `;` belong to the value. With quotes and without, `\"`, `\\`, `\n`,
//! `\t` and `\b` stand for a quote, a backslash, a line feed, a tab and a backspace.
//!
//! What git and others read in two ways is a bad line. docs/TOOLS.md lists which lines are bad, and why.
//! No name has a line feed.
//!
//! `list` writes words and keys in small letters, and values byte for byte, as `git config --list`
//! does. Of a key alone on its line it writes neither value nor `=`.
//!
//! `set`, `add`, `unset` and `write` write the whole text. Lines that aren't touched stay as they are,
//! with comments and empty lines; a last line without a line feed gets one. `set` of an absent key
//! adds a setting. Where the section is absent, it is added at the end. Neither `set` nor `add` writes
//! a key that git doesn't allow: git has letters, digits and `-`, and a letter first. With `--in-place`
//! the text goes into the file and not to standard output, by a file beside it that is renamed once its
//! data is on disk.
//!
//! Without arguments the program reads settings from standard input, up to a line `---`, and then a
//! question on each line: `get`, `all`, `keys`, `sections`, `list` or `write`. Of an absent key `get`
//! writes `none`.
//!
//! The exit status is 0, or 1 where there is nothing of what `get`, `all`, `keys`, `sections` or `list`
//! asks for, 2 where an argument or a line is bad, 3 when out of memory, or 4 where reading or writing
//! failed. Then nothing but a message on standard error is written, unless it is the output that
//! failed. The map has the default hash builder, whose seed is fixed: for settings that somebody
//! hostile names it may become slow.
#![tactic(auto)]

mod answer;
mod change;
mod command;
mod config;
mod lines;
mod list;
mod name;
mod reader;
mod section;
mod setting;
mod spaces;
mod value;

use crate::answer::{add_answer_of_command, add_answers};
use crate::command::{Command, Form};
use crate::config::Config;
use ordered_multimap::ListOrderedMultimap;
use program_parts::{Arguments, Fault, IN_PLACE, Program, read_input, run_program};
use std::alloc::Global;
use std::process::ExitCode;

const PROGRAM: Program = Program {
    name: "config_reader",
    help: "\
usage: config_reader [--in-place | -z] FILE COMMAND
       config_reader < SETTINGS_AND_QUESTIONS

Reads and changes settings. FILE has lines [SECTION], [SECTION \"NAME\"] and
KEY = VALUE; - stands for standard input. Without arguments standard input has the
settings, a line ---, and then a question on each line.

commands:
  get SECTION.KEY          write the key's last value
  all SECTION.KEY          write each of its values
  keys [SECTION]           write the keys of the section
  sections                 write the names of all sections
  list                     write all settings, SECTION.KEY=VALUE on a line each; with -z
                           a line feed stands for the =, and a zero byte ends each
  set SECTION.KEY VALUE    give its first setting this value, and remove its others
  add SECTION.KEY VALUE    add a setting at the end of the section
  unset SECTION.KEY        remove all its settings
  write                    write the text

The last four write the whole text, and leave other lines as they are. SECTION.NAME
stands for [SECTION \"NAME\"]. The exit status is 1 where nothing is found.

  -i, --in-place           write the text into FILE, and not to standard output;
                           > FILE would empty it before it is read

examples:
  config_reader .git/config get remote.origin.url
  config_reader -z .git/config list
  config_reader -i .git/config set core.editor vim
",
    flags: &[IN_PLACE, "-z"],
    valued: &[],
    text: None,
};

fn main(rt: HostRuntime) -> ExitCode {
    run_program(&rt, &PROGRAM, answers_to)
}

/// What the program writes.
fn answers_to(rt: &HostRuntime, arguments: &Arguments<'_>) -> Result<Vec<u8>, Fault> {
    let command = if arguments.are_none {
        None
    } else {
        let form = if arguments.has("-z") {
            Form::Zero
        } else {
            Form::Line
        };
        let command = Command::of_words(arguments.words, form)?;
        arguments.is_in_place(command.writes_text())?;
        Some(command)
    };
    let input = read_input(rt, &PROGRAM, arguments)?;
    let config = &mut ListOrderedMultimap::new(rt.alloc());
    answers_of(rt.alloc(), config, &input, command)
}

/// The answers to the command, or, without one, to the questions of the input. Its settings are read
/// into `config`, which is empty.
fn answers_of<'t>(
    alloc: Global,
    config: &mut Config<'t>,
    input: &'t [u8],
    command: Option<Command<'t>>,
) -> Result<Vec<u8>, Fault> {
    let mut answers = String::new(alloc);
    match command {
        None => add_answers(alloc, config, input, &mut answers)?,
        Some(command) => add_answer_of_command(alloc, config, input, command, &mut answers)?,
    }
    Ok(answers.into_bytes())
}
