//! Commands, what they do to the fields, and what they write.
ghost use Rattle.std.specs.Cow.{cow_str_bytes};
ghost use Rattle.std.specs.Prelude.{◌≡◌, ◌∷◌, [], ◌++◌, IfOk, OnOk, map, true, false};
ghost use Rattle.std.specs.Str.{bytes_eq};
ghost use Rattle.std.specs.declared.borrow.CowStr.TheVariants.{Borrowed};
ghost use Rattle.ordered_multimap.specs.Changes.{appended, removed_where};
ghost use Rattle.ordered_multimap.specs.OneValue.{only_written};
ghost use Rattle.ordered_multimap.specs.Pairs.{is_present};
ghost use Rattle.std.specs.String.{string_bytes};
ghost use Rattle.ordered_multimap.specs.Pairs.{has_items};
ghost use Rattle.query_fields.specs.Commands.{Leaves, is_change, is_found, written_by};
ghost use Rattle.query_fields.specs.Queries.{lines_of, only_first, same_name, texts_of, values_named};
ghost use Rattle.query_fields.specs.Queries.{written_field};

use crate::fields::{Fields, Text, add_field};
use crate::url::Url;
use std::alloc::AllocError;

/// A command. Names and values are plain text.
#[derive(Clone, Copy)]
pub enum Command<'t> {
    /// Writes the name's first value.
    Get(&'t str),
    /// Writes each value of the name.
    All(&'t str),
    /// Gives the name's first field this value, and removes its others.
    Set(&'t str, &'t str),
    /// Adds a field at the end.
    Add(&'t str, &'t str),
    /// Removes the fields of the name.
    Remove(&'t str),
    /// Writes the URL or the query of all fields.
    Write,
    /// Writes each name once.
    Names,
    /// Writes each field as it stands in a query.
    Pairs,
}

impl<'t> Command<'t> {
    /// The command of this word, if there is one that takes such an operand. That of `set` and `add`
    /// is a name and a value, with `=` between them as in a query.
    pub fn parse(word: &str, operand: Option<&'t str>) -> Option<Command<'t>> {
        match (word, operand) {
            ("get", name) => Some(Command::Get(name.unwrap_or(""))),
            ("all", name) => Some(Command::All(name.unwrap_or(""))),
            ("set", Some(field)) => {
                let (name, value) = name_and_value(field);
                Some(Command::Set(name, value))
            }
            ("add", Some(field)) => {
                let (name, value) = name_and_value(field);
                Some(Command::Add(name, value))
            }
            ("remove", Some(name)) => Some(Command::Remove(name)),
            ("write", None | Some("")) => Some(Command::Write),
            ("names", None | Some("")) => Some(Command::Names),
            ("list", None | Some("")) => Some(Command::Pairs),
            _ => None,
        }
    }

    /// Carries the command out on the fields of a URL or a query, adds what it writes to `answers`,
    /// and says whether what it asks for is there.
    pub fn carry_out(
        self,
        url: &Url<'_>,
        fields: &mut Fields<'t>,
        answers: &mut String,
    ) -> Result<bool, AllocError>
        ensures written { OnOk result (string_bytes answers.new
            ≡ string_bytes answers.old ++ written_by self.entry url.now fields.old.lists) }
        ensures found { IfOk result (λ found. found ≡ is_found self.entry fields.old.lists) }
        ensures leaves { OnOk result (
            Leaves self.entry fields.old.lists fields.new.lists) }
    {
        match self {
            Command::Get(name) => add_first(fields, name, answers),
            Command::All(name) => add_all(fields, name, answers),
            Command::Set(name, value) => {
                set(fields, name, value)?;
                Ok(true)
            }
            Command::Add(name, value) => {
                add(fields, name, value)?;
                Ok(true)
            }
            Command::Remove(name) => {
                remove(fields, name);
                Ok(true)
            }
            Command::Write => {
                url.add_to(fields, answers)?;
                Ok(true)
            }
            Command::Names => add_names(fields, answers),
            Command::Pairs => add_pairs(fields, answers),
        }
    }

    /// Whether the command changes fields.
    pub fn changes(self) -> bool
        ensures { result ≡ is_change self.entry }
    {
        matches!(
            &self,
            Command::Set(..) | Command::Add(..) | Command::Remove(_)
        )
    }
}

fn name_and_value(field: &str) -> (&str, &str) {
    field.split_once('=').unwrap_or((field, ""))
}

fn set<'t>(fields: &mut Fields<'t>, name: &'t str, value: &'t str) -> Result<(), AllocError>
    ensures present { OnOk result (
        is_present same_name fields.old.lists.pairs (Borrowed name.entry) ≡ true
        → fields.new.lists ≡ only_written (same_name (Borrowed name.entry)) fields.old.lists
        (Borrowed value.entry)) }
    ensures absent { OnOk result (
        is_present same_name fields.old.lists.pairs (Borrowed name.entry) ≡ false
        → fields.new.lists ≡ appended same_name fields.old.lists (Borrowed name.entry)
        (Borrowed value.entry)) }
{
    fields.set(Text::Borrowed(name), Text::Borrowed(value))?;
    Ok(())
}

fn add<'t>(fields: &mut Fields<'t>, name: &'t str, value: &'t str) -> Result<(), AllocError>
    ensures added { OnOk result (fields.new.lists
        ≡ appended same_name fields.old.lists (Borrowed name.entry) (Borrowed value.entry)) }
{
    fields.append(Text::Borrowed(name), Text::Borrowed(value))?;
    Ok(())
}

fn remove(fields: &mut Fields<'_>, name: &str)
    ensures removed { fields.new.lists
        ≡ removed_where same_name (λ stored. bytes_eq name.now (cow_str_bytes stored))
        fields.old.lists }
{
    let _ = fields.remove(name);
}

/// Adds the first value of a name, if it has one, and says whether it does.
#[tactic(auto, using(crate::proofs::FirstLines::first_line))]
fn add_first(fields: &Fields<'_>, name: &str, answers: &mut String) -> Result<bool, AllocError>
    ensures there { IfOk result (λ there.
        there ≡ has_items (values_named name.now fields.now.lists.pairs)) }
    ensures written { OnOk result (string_bytes answers.new ≡ string_bytes answers.old
        ++ lines_of (only_first (values_named name.now fields.now.lists.pairs))) }
{
    let Some(value) = fields.get(name) else {
        return Ok(false);
    };
    add_line(value, answers)?;
    Ok(true)
}

/// Adds the values of a name in order, and says whether there is one.
fn add_all(fields: &Fields<'_>, name: &str, answers: &mut String) -> Result<bool, AllocError>
    ensures there { IfOk result (λ there.
        there ≡ has_items (values_named name.now fields.now.lists.pairs)) }
    ensures written { OnOk result (string_bytes answers.new ≡ string_bytes answers.old
        ++ lines_of (values_named name.now fields.now.lists.pairs)) }
{
    let mut is_present = false;
    for value in fields.get_all(name) {
        is_present = true;
        add_line(value, answers)?;
    }
    Ok(is_present)
}

/// Adds each name once, in the order of the keys, and says whether there is one.
fn add_names(fields: &Fields<'_>, answers: &mut String) -> Result<bool, AllocError>
    ensures there { IfOk result (λ there. there ≡ has_items fields.now.lists.keys) }
    ensures written { OnOk result (string_bytes answers.new ≡ string_bytes answers.old
        ++ lines_of (map cow_str_bytes fields.now.lists.keys)) }
{
    let mut is_present = false;
    for name in fields.keys() {
        is_present = true;
        add_line(name, answers)?;
    }
    Ok(is_present)
}

/// Adds each field as it stands in a query, in order, and says whether there is one.
fn add_pairs(fields: &Fields<'_>, answers: &mut String) -> Result<bool, AllocError>
    ensures there { IfOk result (λ there. there ≡ has_items fields.now.lists.pairs) }
    ensures written { OnOk result (string_bytes answers.new ≡ string_bytes answers.old
        ++ lines_of (map written_field (texts_of fields.now.lists.pairs))) }
{
    let mut is_present = false;
    for (name, value) in fields {
        is_present = true;
        add_field(name, value, answers)?;
        answers.push('\n')?;
    }
    Ok(is_present)
}

fn add_line(text: &Text<'_>, answers: &mut String) -> Result<(), AllocError>
    ensures { OnOk result (string_bytes answers.new
        ≡ string_bytes answers.old ++ (cow_str_bytes text.now ++ (10 ∷ []))) }
{
    answers.push_str(text.as_str())?;
    answers.push('\n')
}
