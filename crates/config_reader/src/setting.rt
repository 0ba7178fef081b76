//! A setting at the start of a text: its key and its value.
ghost use Rattle.std.specs.Cow.{cow_str_bytes};
ghost use Rattle.std.specs.IoError.{error_kind};
ghost use Rattle.std.specs.List.{after_first, list_any};
ghost use Rattle.std.specs.Prelude.{◌≡◌, ◌==◌, ◌<◌, None, Some, false, length, true};
ghost use Rattle.std.specs.Prelude.{IfErr, IfOk};
ghost use Rattle.std.specs.Str.{trim};
ghost use Rattle.std.specs.String.{string_bytes};
ghost use Rattle.std.specs.declared.io.ErrorKind.TheVariants.{InvalidData};
ghost use Rattle.config_reader.specs.Faults.{IsBadOrRefused};
ghost use Rattle.config_reader.specs.Lines.{IsBehindLines, first_line};
ghost use Rattle.config_reader.specs.Names.{is_key};
ghost use Rattle.config_reader.specs.Said.{setting_at};
ghost use Rattle.config_reader.specs.Values.{value_read};

use crate::lines::first_line;
use crate::name::is_key;
use crate::value::read_value;
use ascii_caseless::AsciiCaseless;
use program_parts::bad;
use std::alloc::Global;
use std::borrow::CowStr;
use std::io;

/// The key and the value of the setting that begins on this line, and what stands behind it in
/// `rest`, which begins with the line. A key alone has the empty value.
pub fn setting_of<'t>(
    alloc: Global,
    line: &'t str,
    rest: &'t str,
) -> io::Result<(AsciiCaseless<&'t str>, CowStr<'t>, &'t str)>
    ensures setting { line.now ≡ first_line rest.now → IfOk result (λ r.
        setting_at rest.now ≡ Some (r.0.0.now, cow_str_bytes r.1, r.2.now)) }
    ensures refused { line.now ≡ first_line rest.now → IfErr result (λ error.
        error_kind error ≡ InvalidData → setting_at rest.now ≡ None) }
    ensures allowed { IfOk result (λ r. is_key r.0.0.now ≡ true) }
    ensures lines { IfOk result (λ setting. IsBehindLines rest.now setting.2.now) }
    ensures shorter { IfOk result (λ setting. 0 < length rest.now
        → length setting.2.now < length rest.now) }
    ensures fault { IfErr result IsBadOrRefused }
{
    let Some((key, _)) = line.split_once('=') else {
        return Ok((key_of(line)?, CowStr::Borrowed(""), first_line(rest).1));
    };
    let key = key_of(key)?;
    let (value, behind) = value_behind_sign(alloc, rest)?;
    Ok((key, CowStr::Owned(value), behind))
}

/// The key that a text is, without the blanks around it.
fn key_of(text: &str) -> io::Result<AsciiCaseless<&str>>
    ensures key { IfOk result (λ key. key.0.now ≡ trim text.now) }
    ensures allowed { IfOk result (λ key. is_key key.0.now ≡ true) }
    ensures refused { IfErr result (λ _. is_key (trim text.now) ≡ false) }
    ensures bad { IfErr result (λ error. error_kind error ≡ InvalidData) }
{
    let key = text.trim();
    if !is_key(key) {
        return Err(bad("not a section or a setting"));
    }
    Ok(AsciiCaseless(key))
}

/// The value behind the first `=`, and what stands behind its last line.
fn value_behind_sign(alloc: Global, rest: &str) -> io::Result<(String, &str)>
    ensures value { IfOk result (λ r.
        value_read (after_first (λ b. b == 61) rest.now) ≡ Some (string_bytes r.0, r.1.now)) }
    ensures refused { list_any (λ b. b == 61) rest.now ≡ true → IfErr result (λ error.
        error_kind error ≡ InvalidData → value_read (after_first (λ b. b == 61) rest.now) ≡ None) }
    ensures lines { IfOk result (λ r. IsBehindLines rest.now r.1.now) }
    ensures shorter { IfOk result (λ r. 0 < length rest.now → length r.1.now < length rest.now) }
    ensures fault { IfErr result IsBadOrRefused }
{
    let Some((_, text)) = rest.split_once('=') else {
        return Err(bad("not a section or a setting"));
    };
    let (value, behind) = read_value(alloc, text.as_bytes())?;
    // What stands behind a line feed is a text.
    let Some((_, behind)) = text.split_at_checked(text.len().saturating_sub(behind.len())) else {
        return Err(bad("not UTF-8"));
    };
    Ok((value, behind))
}
