//! Reading a text as a configuration, item by item.
ghost use Rattle.std.specs.Cow.{cow_str_bytes};
ghost use Rattle.std.specs.Prelude.{◌≡◌, ◌⊎◌, ◌<◌, ◌+◌, ◌++◌, [], ℕ, List, length, true, false};
ghost use Rattle.std.specs.IoError.{error_kind};
ghost use Rattle.std.specs.Prelude.{IfErr, None, OnOk};
ghost use Rattle.std.specs.declared.io.ErrorKind.TheVariants.{InvalidData};
ghost use Rattle.ordered_multimap.specs.Lists.{empty_lists};
ghost use Rattle.program_parts.specs.Statuses.{status_of_fault};
ghost use Rattle.config_reader.specs.Faults.{IsBadOrRefused, IsLineOrRefused};
ghost use Rattle.config_reader.specs.Items.{AddsItem};
ghost use Rattle.config_reader.specs.Blocks.{IsConfig, IsKept, IsSectionLine, IsSettingLine, KeepsAll};
ghost use Rattle.config_reader.specs.Blocks.{item_of_rest, place_of, start};
ghost use Rattle.config_reader.specs.Changed.{HasRoom};
ghost use Rattle.config_reader.specs.Lines.{IsBehindLines, lined};
ghost use Rattle.config_reader.specs.Said.{is_deeper, text_says};
ghost use Rattle.config_reader.specs.Written.{texts_of};
ghost use Rattle.config_reader.specs.declared.reader.Part.TheVariants.{Whole};

use crate::config::{Config, Lines, append_lines};
use crate::lines::{first_line, lines_before, lines_in, says_nothing};
use crate::name::{NO_KEY, Name};
use crate::section::{NO_SECTION, Section};
use crate::setting::setting_of;
use ascii_caseless::AsciiCaseless;
use program_parts::{Fault, bad};
use std::alloc::{AllocError, Global};
use std::borrow::CowStr;
use std::io;

/// Reads a text into `config`.
///
/// # Errors
///
/// [`Fault::Line`] for a line that is none of a configuration, and out of memory.
pub fn read_config<'t>(alloc: Global, config: &mut Config<'t>, text: &'t str) -> Result<(), Fault>
    ensures kept { OnOk result (texts_of config.new.lists.pairs
        ≡ texts_of config.old.lists.pairs ++ lined text.now) }
    ensures reads { config.old.lists ≡ empty_lists → OnOk result (IsConfig config.new.lists) }
    ensures room { config.old.lists ≡ empty_lists → OnOk result (HasRoom config.new.lists) }
    ensures refused { config.old.lists ≡ empty_lists → IfErr result (λ fault.
        status_of_fault fault ≡ 2 → text_says (lined text.now) ≡ None) }
    ensures fault { IfErr result IsLineOrRefused }
{
    let mut reader = Reader::new(alloc, text);
    reader.read_items(config, Part::Whole)
}

/// Reads a text into `config`, up to a line `---`. Returns how many lines that are, and what stands
/// behind them.
///
/// # Errors
///
/// As [`read_config`].
pub fn read_to_bar<'t>(
    alloc: Global,
    config: &mut Config<'t>,
    text: &'t str,
) -> Result<(usize, &'t str), Fault>
    ensures fault { IfErr result IsLineOrRefused }
{
    let mut reader = Reader::new(alloc, text);
    reader.read_items(config, Part::ToBar)?;
    let (_, behind) = first_line(reader.rest);
    Ok((reader.lines.saturating_add(1), behind))
}

/// The part of a text that is read as a configuration.
#[derive(Clone, Copy)]
enum Part {
    Whole,
    /// Up to a line `---`.
    ToBar,
}

/// Where a configuration is read.
#[derive(Clone, Copy)]
struct Reader<'t> {
    alloc: Global,
    /// What isn't read yet.
    rest: &'t str,
    /// How many lines are read.
    lines: usize,
    /// The comments and empty lines that were read last, and the rest behind them.
    between: &'t str,
    /// The section that is open.
    section: Section<'t>,
    /// The rank of its settings.
    rank: usize,
    /// How far the last setting of the section is indented.
    indent: Option<usize>,
}

/// The rank of the settings above which no section is opened, which leaves room for one that is
/// added. A text with that many sections fits no memory.
const HIGHEST_RANK: usize = usize::MAX / 2;

impl<'t> Reader<'t> {
    fn new(alloc: Global, text: &'t str) -> Reader<'t>
        ensures rest { result.rest.now ≡ text.now }
        ensures between { result.between.now ≡ text.now }
        ensures start { place_of result 0 ≡ start }
        ensures rank { result.rank ≡ 0 }
    {
        Reader {
            alloc,
            rest: text,
            lines: 0,
            between: text,
            section: NO_SECTION,
            rank: 0,
            indent: None,
        }
    }

    /// Reads this part of the text.
    fn read_items(&mut self, config: &mut Config<'t>, part: Part) -> Result<(), Fault>
        ensures kept { (all : List ℕ) → KeepsAll self.old config.old.lists all
            → OnOk result (texts_of config.new.lists.pairs ++ lined self.new.rest.now ≡ all) }
        ensures whole { part ≡ Whole → OnOk result (self.new.rest.now ≡ []) }
        ensures reads { IsKept self.old self.old.rank config.old.lists
            → OnOk result (IsKept self.new (self.new.rank + 1) config.new.lists) }
        ensures refused { (all : List ℕ) → KeepsAll self.old config.old.lists all
            → IsKept self.old self.old.rank config.old.lists
            → IfErr result (λ fault. status_of_fault fault ≡ 2 → text_says all ≡ None) }
        ensures fault { IfErr result IsLineOrRefused }
    {
        while !self.is_at_end(part) {
            if let Err(error) = self.read_item(config) {
                return Err(Fault::at_line(self.lines.saturating_add(1), error));
            }
        }
        self.add_between(config, self.rank.saturating_add(1))?;
        Ok(())
    }

    fn is_at_end(&self, part: Part) -> bool
        ensures rest { result ≡ false → 0 < length self.now.rest.now }
        ensures whole { part ≡ Whole → result ≡ true → self.now.rest.now ≡ [] }
    {
        if self.rest.is_empty() {
            return true;
        }
        match part {
            Part::Whole => false,
            Part::ToBar => first_line(self.rest).0.trim() == "---",
        }
    }

    /// Reads a comment, an empty line, the line of a section, or a setting.
    fn read_item(&mut self, config: &mut Config<'t>) -> io::Result<()>
        ensures kept { (all : List ℕ) → KeepsAll self.old config.old.lists all
            → OnOk result (KeepsAll self.new config.new.lists all) }
        ensures shorter { 0 < length self.old.rest.now
            → OnOk result (length self.new.rest.now < length self.old.rest.now) }
        ensures reads { 0 < length self.old.rest.now
            → IsKept self.old self.old.rank config.old.lists
            → OnOk result (IsKept self.new self.new.rank config.new.lists) }
        ensures refused { 0 < length self.old.rest.now → IfErr result (λ error.
            error_kind error ≡ InvalidData → item_of_rest self.old ≡ None) }
        ensures fault { IfErr result IsBadOrRefused }
    {
        let (line, behind) = first_line(self.rest);
        if says_nothing(line) {
            self.rest = behind;
            self.lines = self.lines.saturating_add(1);
            return Ok(());
        }
        match line.trim_start().strip_prefix('[') {
            Some(inside) => self.read_section(config, inside, behind),
            None => self.read_setting(config, line),
        }
    }

    fn read_section(
        &mut self,
        config: &mut Config<'t>,
        inside: &'t str,
        behind: &'t str,
    ) -> io::Result<()>
        ensures kept { (all : List ℕ) → KeepsAll self.old config.old.lists all
            → IsBehindLines self.old.rest.now behind.now
            → OnOk result (KeepsAll self.new config.new.lists all) }
        ensures rest { OnOk result (self.new.rest.now ≡ behind.now) }
        ensures reads { IsSectionLine self.old.rest.now inside.now behind.now
            → IsKept self.old self.old.rank config.old.lists
            → OnOk result (IsKept self.new self.new.rank config.new.lists) }
        ensures refused { IsSectionLine self.old.rest.now inside.now behind.now
            → IfErr result (λ error. error_kind error ≡ InvalidData
            → item_of_rest self.old ≡ None) }
        ensures fault { IfErr result IsBadOrRefused }
    {
        if self.rank > HIGHEST_RANK {
            return Err(io::Error::from(AllocError));
        }
        self.add_between(config, self.rank + 1)?;
        self.section = Section::of_line(inside)?;
        self.rank += 2;
        self.indent = None;
        self.add_item(config, NO_KEY, CowStr::Borrowed(""), behind)?;
        Ok(())
    }

    fn read_setting(&mut self, config: &mut Config<'t>, line: &'t str) -> io::Result<()>
        ensures kept { (all : List ℕ) → KeepsAll self.old config.old.lists all
            → OnOk result (KeepsAll self.new config.new.lists all) }
        ensures shorter { 0 < length self.old.rest.now
            → OnOk result (length self.new.rest.now < length self.old.rest.now) }
        ensures reads { IsSettingLine self.old.rest.now line.now
            → IsKept self.old self.old.rank config.old.lists
            → OnOk result (IsKept self.new self.new.rank config.new.lists) }
        ensures refused { IsSettingLine self.old.rest.now line.now → IfErr result (λ error.
            error_kind error ≡ InvalidData → item_of_rest self.old ≡ None) }
        ensures fault { IfErr result IsBadOrRefused }
    {
        self.add_between(config, self.rank)?;
        let indent = line.len().saturating_sub(line.trim_start().len());
        if is_deeper(indent, self.indent) {
            return Err(bad("indented more than the setting above it"));
        }
        let (key, value, behind) = setting_of(self.alloc, line, self.rest)?;
        self.indent = Some(indent);
        self.add_item(config, key, value, behind)?;
        Ok(())
    }

    /// Adds the comments and empty lines that were read last.
    fn add_between(&mut self, config: &mut Config<'t>, rank: usize) -> Result<(), AllocError>
        ensures kept { (all : List ℕ) → KeepsAll self.old config.old.lists all
            → OnOk result (KeepsAll self.new config.new.lists all) }
        ensures rest { self.new.rest.now ≡ self.old.rest.now }
        ensures between { OnOk result (self.new.between.now ≡ self.old.rest.now) }
        ensures reads { IsKept self.old self.old.rank config.old.lists
            → (rank ≡ self.old.rank) ⊎ (rank ≡ self.old.rank + 1)
            → OnOk result (IsKept self.new rank config.new.lists) }
        ensures section { self.new.section ≡ self.old.section }
        ensures indent { self.new.indent ≡ self.old.indent }
        ensures same_rank { self.new.rank ≡ self.old.rank }
    {
        let text = lines_before(self.between, self.rest);
        self.between = self.rest;
        if text.is_empty() {
            return Ok(());
        }
        let lines = Lines::read(self.alloc, text, CowStr::Borrowed(""), rank)?;
        append_lines(config, Name::of_section(self.section), lines)
    }

    /// Adds the item that the rest begins with, up to what stands behind it.
    fn add_item(
        &mut self,
        config: &mut Config<'t>,
        key: AsciiCaseless<&'t str>,
        value: CowStr<'t>,
        behind: &'t str,
    ) -> Result<(), AllocError>
        ensures kept { OnOk result ((lines : List ℕ) → self.old.rest.now ≡ lines ++ behind.now
            → texts_of config.new.lists.pairs ≡ texts_of config.old.lists.pairs ++ lined lines) }
        ensures added { OnOk result (AddsItem self.old.section key.entry.0.now
            (cow_str_bytes value.entry) self.old.rest.now behind.now self.old.rank
            config.old.lists config.new.lists) }
        ensures rest { self.new.rest.now ≡ behind.now }
        ensures between { self.new.between.now ≡ behind.now }
        ensures section { self.new.section ≡ self.old.section }
        ensures indent { self.new.indent ≡ self.old.indent }
        ensures same_rank { self.new.rank ≡ self.old.rank }
    {
        let text = lines_before(self.rest, behind);
        self.rest = behind;
        self.between = behind;
        self.lines = self.lines.saturating_add(lines_in(text));
        let lines = Lines::read(self.alloc, text, value, self.rank)?;
        let section = self.section;
        append_lines(config, Name { section, key }, lines)
    }
}

// Whether a line is indented more than the setting above it, if there is one.
fn is_deeper(indent: usize, above: Option<usize>) -> bool
    ensures { result ≡ is_deeper indent above }
{
    match above {
        Some(above) => indent > above,
        None => false,
    }
}
