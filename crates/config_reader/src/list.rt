//! What `list` shows.
ghost use Rattle.std.specs.List.{list_any};
ghost use Rattle.std.specs.Prelude.{◌≡◌, ◌++◌, IfOk, OnOk};
ghost use Rattle.std.specs.String.{string_bytes};
ghost use Rattle.config_reader.specs.Listed.{end_of, is_set, listed, listed_all, listed_value, sign_of};

use crate::command::Form;
use crate::config::{Config, Lines};
use crate::name::Name;
use std::alloc::{AllocError, Global};

/// Adds each setting in this form, and returns whether there is one.
pub fn add_settings(
    config: &Config<'_>,
    form: Form,
    answers: &mut String,
) -> Result<bool, AllocError>
    ensures found { IfOk result (λ found. found ≡ list_any is_set config.now.lists.pairs) }
    ensures shown { OnOk result (string_bytes answers.new ≡ string_bytes answers.old
        ++ listed_all form config.now.lists.pairs) }
{
    let alloc = *config.allocator();
    let mut is_there = false;
    for (name, lines) in config {
        if name.is_setting() {
            add_setting(alloc, name, lines, form, answers)?;
            is_there = true;
        }
    }
    Ok(is_there)
}

/// Adds a setting.
fn add_setting(
    alloc: Global,
    name: &Name<'_>,
    lines: &Lines<'_>,
    form: Form,
    answers: &mut String,
) -> Result<(), AllocError>
    ensures { OnOk result (string_bytes answers.new ≡ string_bytes answers.old
        ++ listed form name.now lines.now) }
{
    name.add_listed(alloc, answers)?;
    add_value(lines, form, answers)?;
    answers.push(end_of(form))
}

/// Adds the value of a setting behind its sign, unless the key stands alone.
fn add_value(lines: &Lines<'_>, form: Form, answers: &mut String) -> Result<(), AllocError>
    ensures { OnOk result (string_bytes answers.new ≡ string_bytes answers.old
        ++ listed_value form lines.now) }
{
    if !lines.text.as_str().contains('=') {
        return Ok(());
    }
    answers.push(sign_of(form))?;
    answers.push_str(lines.value.as_str())
}

/// What stands in front of a value.
fn sign_of(form: Form) -> char
    ensures { result ≡ sign_of form }
{
    match form {
        Form::Line => '=',
        Form::Zero => '\n',
    }
}

/// What stands behind a setting.
fn end_of(form: Form) -> char
    ensures { result ≡ end_of form }
{
    match form {
        Form::Line => '\n',
        Form::Zero => '\0',
    }
}
