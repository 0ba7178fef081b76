//! The two ways to ask, by arguments and by lines of standard input, and what commands show.
ghost use Rattle.std.specs.List.{list_any};
ghost use Rattle.std.specs.Prelude.{◌≡◌, ◌++◌, IfOk, OnOk};
ghost use Rattle.std.specs.String.{string_bytes};
ghost use Rattle.ordered_multimap.specs.Lists.{empty_lists};
ghost use Rattle.ordered_multimap.specs.Walk.{end_item};
ghost use Rattle.ordered_multimap.specs.End.TheVariants.{Back};
ghost use Rattle.ordered_multimap.specs.Pairs.{is_present, values_of};
ghost use Rattle.config_reader.specs.Changed.{CarriesOut, IsReadBack, KeepsConfig, Leaves};
ghost use Rattle.config_reader.specs.Lines.{lined};
ghost use Rattle.config_reader.specs.Names.{is_named_section, is_setting_of, same_name};
ghost use Rattle.config_reader.specs.Shown.{answer_of, is_found, shown};
ghost use Rattle.config_reader.specs.Written.{key_lines, line_of, section_lines, section_name, texts_of};
ghost use Rattle.config_reader.specs.Written.{value_line, value_lines};
ghost use Rattle.config_reader.specs.declared.command.Command.TheVariants.{Write};

use crate::change::change;
use crate::command::Command;
use crate::config::Config;
use crate::lines::lines_in;
use crate::list::add_settings;
use crate::name::Name;
use crate::reader::{read_config, read_to_bar};
use crate::section::Section;
use program_parts::{Fault, bad, mark_of, without_mark};
use std::alloc::{AllocError, Global};
use std::io;

/// The input as a text, without a byte order mark; or the lines in front of the first one that is no
/// text, and the fault of that one.
fn text_of_input(input: &[u8]) -> (&str, Result<(), Fault>) {
    let input = without_mark(input);
    let Err(error) = str::from_utf8(input) else {
        return (str::from_utf8(input).unwrap_or(""), Ok(()));
    };
    let valid = input.get(..error.valid_up_to()).unwrap_or(b"");
    let text = str::from_utf8(valid).unwrap_or("");
    let (lines, _) = text.rsplit_once('\n').unwrap_or(("", ""));
    let number = lines_in(text).saturating_add(1);
    (lines, Err(Fault::Line(number, bad("not UTF-8"))))
}

/// Reads the settings into `config`, which is empty, and adds the answers to the questions below
/// them.
pub fn add_answers<'t>(
    alloc: Global,
    config: &mut Config<'t>,
    input: &'t [u8],
    answers: &mut String,
) -> Result<(), Fault> {
    let (text, end) = text_of_input(input);
    let (lines, questions) = read_to_bar(alloc, config, text)?;
    for (index, line) in questions.split('\n').enumerate() {
        let line = line.strip_suffix('\r').unwrap_or(line);
        if let Err(error) = add_answer(config, line.trim_start(), answers) {
            let number = lines.saturating_add(index).saturating_add(1);
            return Err(Fault::at_line(number, error));
        }
    }
    end
}

/// Adds the answer to a question.
fn add_answer<'t>(config: &Config<'t>, question: &'t str, answers: &mut String) -> io::Result<()> {
    if !question.is_empty() {
        answer_to(config, Command::of_line(question)?, answers)?;
    }
    Ok(())
}

/// Adds what the question's command shows, or that there is no value.
fn answer_to<'t>(
    config: &Config<'t>,
    command: Command<'t>,
    answers: &mut String,
) -> Result<(), AllocError>
    ensures { OnOk result (string_bytes answers.new ≡ string_bytes answers.old
        ++ answer_of command.entry config.now.lists) }
{
    let found = show(config, command, answers)?;
    if let Command::Get(_) = command
        && !found
    {
        answers.push_str("none\n")?;
    }
    Ok(())
}

/// Reads the settings into `config`, which is empty, and adds what the command shows of them, or the
/// whole text as the command leaves it, behind the byte order mark that it had.
pub fn add_answer_of_command<'t>(
    alloc: Global,
    config: &mut Config<'t>,
    input: &'t [u8],
    command: Command<'t>,
    answers: &mut String,
) -> Result<(), Fault> {
    let (text, end) = text_of_input(input);
    if command.writes_text() && !mark_of(input).is_empty() {
        answers.push('\u{feff}')?;
    }
    if answer_on_text(alloc, config, text, end, command, answers)? {
        Ok(())
    } else {
        Err(Fault::Absent)
    }
}

/// Reads the text into `config`, and adds what the command shows. Returns whether there is anything.
/// The fault is that of a line behind the text.
fn answer_on_text<'t>(
    alloc: Global,
    config: &mut Config<'t>,
    text: &'t str,
    end: Result<(), Fault>,
    command: Command<'t>,
    answers: &mut String,
) -> Result<bool, Fault>
    ensures write { command.entry ≡ Write → OnOk result (string_bytes answers.new
        ≡ string_bytes answers.old ++ (texts_of config.old.lists.pairs ++ lined text.now)) }
    ensures carries_out { config.old.lists ≡ empty_lists → OnOk result
        (CarriesOut text.now command.entry config.new.lists) }
    ensures found { IfOk result (λ found. found ≡ is_found command.entry config.new.lists) }
    ensures shown { OnOk result (string_bytes answers.new ≡ string_bytes answers.old
        ++ shown command.entry config.new.lists) }
{
    read_config(alloc, config, text)?;
    end?;
    Ok(carry_out(config, command, answers)?)
}

/// Does what the command says, adds what it shows, and returns whether there is anything.
fn carry_out<'t>(
    config: &mut Config<'t>,
    command: Command<'t>,
    answers: &mut String,
) -> Result<bool, AllocError>
    ensures leaves { OnOk result (Leaves command.entry config.old.lists config.new.lists) }
    ensures read_back { OnOk result (IsReadBack command.entry config.new.lists) }
    ensures keeps { OnOk result (KeepsConfig command.entry config.old.lists config.new.lists) }
    ensures found { IfOk result (λ found. found ≡ is_found command.entry config.new.lists) }
    ensures shown { OnOk result (string_bytes answers.new ≡ string_bytes answers.old
        ++ shown command.entry config.new.lists) }
{
    change(config, command)?;
    show(config, command, answers)
}

/// Adds what the command shows, and returns whether there is anything.
fn show<'t>(
    config: &Config<'t>,
    command: Command<'t>,
    answers: &mut String,
) -> Result<bool, AllocError>
    ensures found { IfOk result (λ found. found ≡ is_found command.entry config.now.lists) }
    ensures shown { OnOk result (string_bytes answers.new ≡ string_bytes answers.old
        ++ shown command.entry config.now.lists) }
{
    match command {
        Command::Get(name) => add_last(config, name, answers),
        Command::All(name) => add_all(config, name, answers),
        Command::Keys(section) => add_keys(config, section, answers),
        Command::Sections => add_sections(config, answers),
        Command::Settings(form) => add_settings(config, form, answers),
        Command::Set(_, _) | Command::Add(_, _) | Command::Unset(_) | Command::Write => {
            add_texts(config, answers)?;
            Ok(true)
        }
    }
}

/// Adds the last value of the name, and returns whether it has one.
fn add_last(config: &Config<'_>, name: Name<'_>, answers: &mut String) -> Result<bool, AllocError>
    ensures found { IfOk result (λ found. found ≡ is_present same_name config.now.lists.pairs name.entry) }
    ensures shown { OnOk result (string_bytes answers.new ≡ string_bytes answers.old
        ++ value_line (end_item Back (values_of same_name config.now.lists.pairs name.entry))) }
{
    let Some(lines) = config.get_last(&name) else {
        return Ok(false);
    };
    add_line(lines.value.as_str(), answers)?;
    Ok(true)
}

/// Adds each value of the name, and returns whether it has one.
fn add_all(config: &Config<'_>, name: Name<'_>, answers: &mut String) -> Result<bool, AllocError>
    ensures found { IfOk result (λ found. found ≡ is_present same_name config.now.lists.pairs name.entry) }
    ensures shown { OnOk result (string_bytes answers.new ≡ string_bytes answers.old
        ++ value_lines (values_of same_name config.now.lists.pairs name.entry)) }
{
    let values = config.get_all(&name);
    let is_there = values.len() > 0;
    for lines in values {
        add_line(lines.value.as_str(), answers)?;
    }
    Ok(is_there)
}

fn add_line(text: &str, answers: &mut String) -> Result<(), AllocError>
    ensures { OnOk result (string_bytes answers.new ≡ string_bytes answers.old ++ line_of text.now) }
{
    answers.push_str(text)?;
    answers.push('\n')
}

/// Adds each key of the section, and returns whether it has one.
fn add_keys<'t>(
    config: &Config<'t>,
    section: Section<'t>,
    answers: &mut String,
) -> Result<bool, AllocError>
    ensures found { IfOk result (λ found. found
        ≡ list_any (is_setting_of section.entry) config.now.lists.keys) }
    ensures shown { OnOk result (string_bytes answers.new ≡ string_bytes answers.old
        ++ key_lines section.entry config.now.lists.keys) }
{
    let mut is_there = false;
    for name in config.keys() {
        if name.is_setting_of(section) {
            add_line(name.key.as_str(), answers)?;
            is_there = true;
        }
    }
    Ok(is_there)
}

/// Adds the name of each section, and returns whether there is one.
fn add_sections(config: &Config<'_>, answers: &mut String) -> Result<bool, AllocError>
    ensures found { IfOk result (λ found. found ≡ list_any is_named_section config.now.lists.keys) }
    ensures shown { OnOk result (string_bytes answers.new ≡ string_bytes answers.old
        ++ section_lines config.now.lists.keys) }
{
    let mut is_there = false;
    for name in config.keys() {
        if name.is_named_section() {
            add_section(name.section, answers)?;
            is_there = true;
        }
    }
    Ok(is_there)
}

/// Adds the name of a section on a line.
fn add_section(section: Section<'_>, answers: &mut String) -> Result<(), AllocError>
    ensures { OnOk result (string_bytes answers.new ≡ string_bytes answers.old
        ++ line_of (section_name section.entry)) }
{
    section.add_name(answers)?;
    answers.push('\n')
}

/// Adds the text of all lines, in order.
fn add_texts(config: &Config<'_>, answers: &mut String) -> Result<(), AllocError>
    ensures { OnOk result (string_bytes answers.new ≡ string_bytes answers.old
        ++ texts_of config.now.lists.pairs) }
{
    for (_, lines) in config {
        answers.push_str(lines.text.as_str())?;
    }
    Ok(())
}
