//! What commands make of a configuration.
ghost use Rattle.std.specs.Cow.{cow_str_bytes};
ghost use Rattle.std.specs.Prelude.{◌≡◌, ℕ, [], length, true, IfOk, None, OnOk, Some};
ghost use Rattle.ordered_multimap.specs.Changes.{removed};
ghost use Rattle.ordered_multimap.specs.SetLists.{value_set};
ghost use Rattle.config_reader.specs.Changed.{Adds, AddsByRank, AddsSection, IsSetting};
ghost use Rattle.config_reader.specs.Blocks.{AreSetting, IsBlank, settings_rank};
ghost use Rattle.config_reader.specs.Changed.{IsReadBack, KeepsConfig, Leaves, Opens, Sets, last_indent};
ghost use Rattle.config_reader.specs.Lines.{first_line};
ghost use Rattle.config_reader.specs.Names.{Lacks, is_key, same_name};
ghost use Rattle.config_reader.specs.Said.{indent_of};
ghost use Rattle.config_reader.specs.Written.{section_line};

use crate::command::Command;
use crate::config::{Config, Lines};
use crate::lines::first_line;
use crate::name::Name;
use crate::section::{NO_SECTION, Section};
use crate::value::add_value;
use ascii_caseless::AsciiCaseless;
use std::alloc::{AllocError, Global};
use std::borrow::CowStr;

/// Does to the configuration what the command says.
pub fn change<'t>(config: &mut Config<'t>, command: Command<'t>) -> Result<(), AllocError>
    ensures leaves { OnOk result (Leaves command.entry config.old.lists config.new.lists) }
    ensures read_back { OnOk result (IsReadBack command.entry config.new.lists) }
    ensures keeps { OnOk result (KeepsConfig command.entry config.old.lists config.new.lists) }
{
    match command {
        Command::Set(name, value) => set(config, name, value),
        Command::Add(name, value) => add(config, name, value),
        Command::Unset(name) => {
            unset(config, name);
            Ok(())
        }
        Command::Get(_) | Command::All(_) | Command::Keys(_) => Ok(()),
        Command::Sections | Command::Settings(_) | Command::Write => Ok(()),
    }
}

/// Gives the name's first setting this value, and takes its others out. A new setting goes to the
/// end of its section.
fn set<'t>(config: &mut Config<'t>, name: Name<'t>, value: &'t str) -> Result<(), AllocError>
    ensures { OnOk result (Sets name.entry value.now config.old.lists config.new.lists) }
{
    let Some((stored, lines)) = config.get_key_value(&name) else {
        return add(config, name, value);
    };
    let indent = indent_of(lines.text.as_str());
    let lines = setting(*config.allocator(), indent, stored.key, value, lines.rank)?;
    set_lines(config, name, lines)
}

/// Adds a setting at the end of its section, which is made where there is none.
fn add<'t>(config: &mut Config<'t>, name: Name<'t>, value: &'t str) -> Result<(), AllocError>
    ensures { OnOk result (Adds name.entry value.now config.old.lists config.new.lists) }
{
    let rank = rank_of(config, name.section)?;
    let indent = indent_in(config, name.section, rank);
    let lines = setting(*config.allocator(), indent, name.key, value, rank)?;
    add_lines(config, name, lines)
}

/// The first lines of the name are these, and its others go.
fn set_lines<'t>(
    config: &mut Config<'t>,
    name: Name<'t>,
    lines: Lines<'t>,
) -> Result<(), AllocError>
    ensures { OnOk result (config.new.lists
        ≡ value_set same_name config.old.lists name.entry lines.entry) }
{
    config.set(name, lines)?;
    Ok(())
}

/// Adds the lines, which go behind those of the same rank and of lower ones.
fn add_lines<'t>(
    config: &mut Config<'t>,
    name: Name<'t>,
    lines: Lines<'t>,
) -> Result<(), AllocError>
    ensures { OnOk result (AddsByRank name.entry lines.entry config.old.lists config.new.lists) }
{
    config.append(name, lines)?;
    config.sort_by(|_, lines, _, others| lines.rank.cmp(&others.rank))
}

/// Takes the settings of the name out.
fn unset<'t>(config: &mut Config<'t>, name: Name<'t>)
    ensures { config.new.lists ≡ removed same_name config.old.lists name.entry }
{
    drop(config.remove(&name));
}

/// The rank of the section's settings. A section that isn't there is added at the end.
fn rank_of<'t>(config: &mut Config<'t>, section: Section<'t>) -> Result<usize, AllocError>
    ensures { IfOk result (Opens section.entry config.old.lists config.new.lists) }
{
    let name = Name::of_section(section);
    if section == NO_SECTION {
        return Ok(0);
    }
    let Some(lines) = config.get_last(&name) else {
        return add_section(config, name);
    };
    Ok(settings_rank(lines.rank))
}

/// Adds the line of the section of this name at the end, and returns the rank of its settings.
fn add_section<'t>(config: &mut Config<'t>, name: Name<'t>) -> Result<usize, AllocError>
    ensures { IfOk result (AddsSection name.entry config.old.lists config.new.lists) }
{
    let last = config.back().map(|(_, lines)| lines.rank).unwrap_or(0);
    let rank = settings_rank(last).saturating_add(2);
    config.append(name, section_line(*config.allocator(), name.section, rank)?)?;
    Ok(rank)
}

// The rank of the settings of the section that a line of this rank is in.
fn settings_rank(rank: usize) -> usize
    ensures { result ≡ settings_rank rank }
{
    rank - rank % 2
}

/// The line that opens a section.
fn section_line<'t>(
    alloc: Global,
    section: Section<'t>,
    rank: usize,
) -> Result<Lines<'t>, AllocError>
    ensures text { IfOk result (λ lines. cow_str_bytes lines.text ≡ section_line section.entry) }
    ensures value { IfOk result (λ lines. cow_str_bytes lines.value ≡ []) }
    ensures rank { IfOk result (λ lines. lines.rank ≡ rank) }
{
    let mut text = String::new(alloc);
    section.add_line(&mut text)?;
    let text = CowStr::Owned(text);
    let value = CowStr::Borrowed("");
    Ok(Lines { text, value, rank })
}

/// The line of a setting with this value.
fn setting<'t>(
    alloc: Global,
    indent: &str,
    key: AsciiCaseless<&str>,
    value: &'t str,
    rank: usize,
) -> Result<Lines<'t>, AllocError>
    ensures is_setting { IfOk result (λ lines.
        IsSetting indent.now key.entry.0.now value.now lines) }
    ensures reads { IsBlank indent.now → Lacks 10 indent.now → is_key key.entry.0.now ≡ true
        → IfOk result (λ lines. AreSetting (cow_str_bytes lines.text) key.entry.0.now value.now
        (length indent.now)) }
    ensures rank { IfOk result (λ lines. lines.rank ≡ rank) }
{
    let mut text = String::new(alloc);
    text.push_str(indent)?;
    text.push_str(key.as_str())?;
    text.push_str(" = ")?;
    add_value(value, &mut text)?;
    text.push('\n')?;
    let text = CowStr::Owned(text);
    let value = CowStr::Borrowed(value);
    Ok(Lines { text, value, rank })
}

/// The indent of a setting that is added behind those of this rank: that of the last one of the rank,
/// or else of the section.
fn indent_in<'c>(config: &'c Config<'_>, section: Section<'_>, rank: usize) -> &'c str
    ensures blank { IsBlank result.now }
    ensures one_line { Lacks 10 result.now }
    ensures indented { (n : ℕ) → last_indent rank config.now.lists.pairs None ≡ Some n
        → length result.now ≡ n }
{
    let mut indent = None;
    for (name, lines) in config {
        if name.is_setting() && lines.rank == rank {
            indent = Some(indent_of(lines.text.as_str()));
        }
    }
    match indent {
        Some(indent) => indent,
        None => usual_indent(config, section),
    }
}

/// The indent of the section's last setting, or else of its first one.
fn usual_indent<'c>(config: &'c Config<'_>, section: Section<'_>) -> &'c str
    ensures blank { IsBlank result.now }
    ensures one_line { Lacks 10 result.now }
{
    let mut indent = first_indent(section);
    for (name, lines) in config {
        if name.is_setting_of(section) {
            indent = indent_of(lines.text.as_str());
        }
    }
    indent
}

/// The indent of the first setting of a section: a tab, and nothing above the first section.
fn first_indent(section: Section<'_>) -> &'static str
    ensures blank { IsBlank result.now }
    ensures one_line { Lacks 10 result.now }
{
    if section == NO_SECTION { "" } else { "\t" }
}

// The blanks that the first line of a text begins with.
fn indent_of(text: &str) -> &str
    ensures blank { IsBlank result.now }
    ensures one_line { Lacks 10 result.now }
    ensures length { length result.now ≡ indent_of (first_line text.now) }
{
    let (line, _) = first_line(text);
    line.strip_suffix(line.trim_start()).unwrap_or("")
}
