//! The arguments of a program: options, the file or the text that it reads, and words.
ghost use Rattle.std.specs.Prelude.{◌≡◌, ◌≤◌, ◌↔◌, IfErr, IfOk, IsTrue, length};
ghost use Rattle.program_parts.specs.Statuses.{status_of_fault};

use crate::fault::{Fault, unknown, usage};
use std::alloc::Global;

/// The option by which a program writes into the file that it reads; `-i` for short.
pub const IN_PLACE: &str = "--in-place";

/// What a program is called, and what it takes.
pub struct Program {
    pub name: &'static str,
    /// What `--help` writes.
    pub help: &'static str,
    /// The options, as `--list`.
    pub flags: &'static [&'static str],
    /// The options that have a value, as `--bound N`, `--bound=N`, `-d CHAR` and `-dCHAR`.
    pub valued: &'static [&'static str],
    /// What messages call the first word where it is the input itself. Else it names a file.
    pub text: Option<&'static str>,
}

impl Program {
    /// What messages call the input.
    pub fn source_of<'w>(&self, arguments: &Arguments<'w>) -> &'w str {
        match (arguments.first, self.text) {
            (Some(_), Some(text)) => text,
            (Some("-") | None, _) => "standard input",
            (Some(file), None) => file,
        }
    }
}

/// The arguments of a program. Options stand in front of the first word and right behind it. Those
/// behind `--` are words.
#[derive(Drop)]
pub struct Arguments<'w> {
    /// Whether there is no argument at all.
    pub are_none: bool,
    /// Each option with its value, or an empty text.
    options: Vec<(&'w str, &'w str)>,
    /// The first word behind the options: the file, with `-` for standard input, or the text itself.
    pub first: Option<&'w str>,
    /// The words behind that one.
    pub words: &'w [String],
}

impl<'w> Arguments<'w> {
    /// The arguments that are these words.
    ///
    /// # Errors
    ///
    /// An option that the program doesn't have, or that lacks its value; out of memory.
    pub fn parse(
        alloc: Global,
        program: &Program,
        words: &'w [String],
    ) -> Result<Arguments<'w>, Fault>
        ensures none { IfOk result (λ arguments.
            IsTrue arguments.are_none ↔ (length words.now ≡ 0)) }
    {
        let are_none = words.is_empty();
        let mut options = Vec::new(alloc);
        let (behind, ended) = read_options(alloc, program, words, &mut options)?;
        let Some((first, behind)) = behind.split_first() else {
            return Ok(Arguments {
                are_none,
                options,
                first: None,
                words: behind,
            });
        };
        let words = if ended {
            behind
        } else {
            read_options(alloc, program, behind, &mut options)?.0
        };
        Ok(Arguments {
            are_none,
            options,
            first: Some(first.as_str()),
            words,
        })
    }

    /// Whether what the program changes goes into the file. `writes` is whether it writes the whole
    /// text of the file.
    ///
    /// # Errors
    ///
    /// [`Fault::Usage`] if it should and there is no such text, or no file.
    pub fn is_in_place(&self, writes: bool) -> Result<bool, Fault>
        ensures bad { IfErr result (λ fault. status_of_fault fault ≡ 2) }
    {
        if !self.has(IN_PLACE) {
            return Ok(false);
        }
        if !writes {
            return Err(usage("--in-place goes with a command that changes the file"));
        }
        match self.first {
            None | Some("-") => Err(usage("--in-place takes a file, not standard input")),
            Some(_) => Ok(true),
        }
    }

    /// Whether the option is there.
    pub fn has(&self, option: &str) -> bool {
        self.value_of(option).is_some()
    }

    /// The value of the option where it stands last, an empty one if it takes none.
    pub fn value_of(&self, option: &str) -> Option<&'w str> {
        let mut found = None;
        for (name, value) in &self.options {
            if *name == option {
                found = Some(*value);
            }
        }
        found
    }
}

/// Adds the options in front of the words to `options`, and returns the words behind them, and
/// whether `--` ended the options.
fn read_options<'w>(
    alloc: Global,
    program: &Program,
    words: &'w [String],
    options: &mut Vec<(&'w str, &'w str)>,
) -> Result<(&'w [String], bool), Fault> {
    let mut rest = words;
    while let Some((word, behind)) = rest.split_first() {
        let word = word.as_str();
        if word == "--" {
            return Ok((behind, true));
        }
        if word == "-" || !word.starts_with('-') {
            return Ok((rest, false));
        }
        let (option, behind) = read_option(alloc, program, word, behind)?;
        options.push(option)?;
        rest = behind;
    }
    Ok((rest, false))
}

/// The option with its value, which is the next word if it takes one and the word has none, and the
/// words behind it.
fn read_option<'w>(
    alloc: Global,
    program: &Program,
    word: &'w str,
    behind: &'w [String],
) -> Result<((&'w str, &'w str), &'w [String]), Fault>
    ensures shorter { IfOk result (λ option. length option.1.now ≤ length behind.now) }
{
    let (name, value) = parts_of(program, word);
    if name == "-h" || name == "--help" {
        return Ok((("--help", ""), behind));
    }
    if name == "-i" && program.flags.contains(&IN_PLACE) {
        return Ok(((IN_PLACE, ""), behind));
    }
    if name == "--version" || program.flags.contains(&name) {
        return match value {
            None => Ok(((name, ""), behind)),
            Some(_) => Err(unknown(alloc, "this option takes no value", name)),
        };
    }
    if !program.valued.contains(&name) {
        return Err(unknown(alloc, "unknown option", name));
    }
    match (value, behind.split_first()) {
        (Some(value), _) => Ok(((name, value), behind)),
        (None, Some((value, behind))) => Ok(((name, value.as_str()), behind)),
        (None, None) => Err(unknown(alloc, "no value behind", name)),
    }
}

/// The option that the word is, and the value in the same word, as in `--bound=3` and `-d,`.
fn parts_of<'w>(program: &Program, word: &'w str) -> (&'w str, Option<&'w str>) {
    if word.starts_with("--") {
        return match word.split_once('=') {
            Some((name, value)) => (name, Some(value)),
            None => (word, None),
        };
    }
    for option in program.valued {
        if option.len() == 2
            && let Some(value) = word.strip_prefix(*option)
            && !value.is_empty()
        {
            return (*option, Some(value));
        }
    }
    (word, None)
}
