//! What the programs share: their arguments, their input, and how they end.
//!
//! A program reads a file or standard input, writes its answers at once when all of them are there, and
//! ends with one of these statuses:
//!
//! | Status | Why |
//! |---|---|
//! | 0 | the answers are written |
//! | 1 | what was asked for is absent; nothing is written |
//! | 2 | an argument or a line of the input is bad |
//! | 3 | out of memory |
//! | 4 | reading or writing failed |
//! | 141 | nobody reads the output any more |
//!
//! From 2 to 4, a line on standard error says why: `NAME: FILE: line N: REASON`, where `FILE` is
//! `standard input` if that was read, or `NAME: REASON`.
#![tactic(auto)]

ghost use Rattle.std.specs.Prelude.{◌≡◌};
ghost use Rattle.std.specs.Process.{exit_status};
ghost use Rattle.program_parts.specs.Statuses.{status_of_fault};

mod arguments;
mod fault;
mod lines;
mod replace;

pub use crate::arguments::{Arguments, IN_PLACE, Program};
pub use crate::fault::{Fault, bad, status_of, unknown, usage};
pub use crate::lines::{OneLine, mark_of, text_of, without_mark, without_return};
use crate::replace::replace_file;
use std::alloc::Global;
use std::io::{ErrorKind, Read, Write};
use std::process::ExitCode;
use std::{env, fs, io};

/// What `--version` writes behind a program's name: the newest day of the changelog.
const VERSION: &str = "2026-12-01";

/// Runs a program. `answer` is handed the arguments, reads the input once it has found them good
/// ([`read_input`]), and returns what the program writes on standard output, or, with [`IN_PLACE`],
/// into the file that the first word names.
///
/// # Requires
///
/// `answer` can be called on any arguments.
pub fn run_program<F: FnOnce(&HostRuntime, &Arguments<'_>) -> Result<Vec<u8>, Fault>>(
    rt: &HostRuntime,
    program: &Program,
    answer: F,
) -> ExitCode
    requires { F.IsAlwaysCallable answer }
{
    match read_words(rt) {
        Ok(words) => run_with_words(rt, program, words.get(1..).unwrap_or(&[]), answer),
        Err(error) => fail(rt, program, "", &Fault::System(error)),
    }
}

/// The path of the program, and its arguments.
fn read_words(rt: &HostRuntime) -> io::Result<Vec<String>> {
    Ok(env::args(rt)?.collect(rt.alloc())?)
}

fn run_with_words<F: FnOnce(&HostRuntime, &Arguments<'_>) -> Result<Vec<u8>, Fault>>(
    rt: &HostRuntime,
    program: &Program,
    words: &[String],
    answer: F,
) -> ExitCode
    requires { F.IsAlwaysCallable answer }
{
    let arguments = match Arguments::parse(rt.alloc(), program, words) {
        Ok(arguments) => arguments,
        Err(fault) => return fail(rt, program, "", &fault),
    };
    match write_answers(rt, program, &arguments, answer) {
        Ok(()) => ExitCode::SUCCESS,
        Err(fault) => fail(rt, program, program.source_of(&arguments), &fault),
    }
}

/// Writes the answers once all of them are there, or the help.
fn write_answers<F: FnOnce(&HostRuntime, &Arguments<'_>) -> Result<Vec<u8>, Fault>>(
    rt: &HostRuntime,
    program: &Program,
    arguments: &Arguments<'_>,
    answer: F,
) -> Result<(), Fault>
    requires { F.IsAlwaysCallable answer }
{
    if arguments.has("--help") {
        return Ok(write_out(rt, program.help.as_bytes())?);
    }
    if arguments.has("--version") {
        let name = program.name;
        let version = format!(in rt.alloc(); "{name} {VERSION}\n")?;
        return Ok(write_out(rt, version.as_bytes())?);
    }
    let answers = answer(rt, arguments)?;
    match arguments.first {
        Some(file) if arguments.has(IN_PLACE) => write_in_place(rt, program, file, &answers),
        _ => Ok(write_out(rt, &answers)?),
    }
}

fn write_in_place(
    rt: &HostRuntime,
    program: &Program,
    file: &str,
    content: &[u8],
) -> Result<(), Fault> {
    match replace_file(rt, file, program.name, content) {
        Ok(()) => Ok(()),
        Err(error) => Err(Fault::input(error)),
    }
}

fn write_out(rt: &HostRuntime, answers: &[u8]) -> io::Result<()> {
    let mut output = io::writer(rt);
    output.write_all(answers)?;
    output.flush()
}

/// The whole of the file that the first word names, or of standard input, or that word itself.
///
/// # Errors
///
/// [`Fault::Input`] if it can't be read; out of memory.
pub fn read_input(
    rt: &HostRuntime,
    program: &Program,
    arguments: &Arguments<'_>,
) -> Result<Vec<u8>, Fault> {
    let read = match arguments.first {
        Some(text) if program.text.is_some() => copied(rt.alloc(), text),
        Some("-") | None => read_standard_input(rt),
        Some(file) => fs::read(rt, file),
    };
    match read {
        Ok(input) => Ok(input),
        Err(error) => Err(Fault::input(error)),
    }
}

fn copied(alloc: Global, text: &str) -> io::Result<Vec<u8>> {
    let mut bytes = Vec::new(alloc);
    bytes.extend_from_slice(text.as_bytes())?;
    Ok(bytes)
}

fn read_standard_input(rt: &HostRuntime) -> io::Result<Vec<u8>> {
    let mut input = Vec::new(rt.alloc());
    rt.reader().read_to_end(&mut input)?;
    Ok(input)
}

/// Says on standard error why the program failed, unless nobody reads what it writes, and returns its
/// status.
fn fail(rt: &HostRuntime, program: &Program, source: &str, fault: &Fault) -> ExitCode
    ensures { exit_status result ≡ status_of_fault fault.now }
{
    let (name, source) = (program.name, OneLine(source));
    // Nothing is left to be told where standard error fails.
    let _ = match fault {
        Fault::Absent => Ok(()),
        Fault::Usage(reason) => eprintln!(rt; "{name}: {reason}; see {name} --help"),
        Fault::Line(number, reason) => {
            eprintln!(rt; "{name}: {source}: line {number}: {reason}")
        }
        Fault::Input(error) => eprintln!(rt; "{name}: {source}: {error}"),
        Fault::System(error) if matches!(error.kind(), ErrorKind::BrokenPipe) => Ok(()),
        Fault::System(error) => eprintln!(rt; "{name}: {error}"),
    };
    ExitCode::from(fault.status())
}
