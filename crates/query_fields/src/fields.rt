//! The fields of a query, in order.
ghost use Rattle.std.specs.Cow.{cow_str_bytes};
ghost use Rattle.std.specs.IoError.{error_kind};
ghost use Rattle.std.specs.Prelude.{◌≡◌, ◌∷◌, [], ◌++◌, Some, None, IfErr, IfOk, OnOk};
ghost use Rattle.std.specs.String.{string_bytes};
ghost use Rattle.std.specs.declared.io.ErrorKind.TheVariants.{InvalidData, OutOfMemory};
ghost use Rattle.query_fields.specs.declared.fields.Reading.{Reading};
ghost use Rattle.query_fields.specs.Queries.{AreTexts, texts_of, written_field, written_query};
ghost use Rattle.query_fields.specs.Queries.{pairs_and, piece_read_by, query_read_by, text_read_by};
ghost use Rattle.query_fields.specs.Urls.{query_in};

use crate::escape::{add_encoded, decoded, strictly_decoded};
use crate::split::split_at_byte;
use ordered_multimap::ListOrderedMultimap;
use ordered_multimap::list_ordered_multimap::RandomState;
use program_parts::bad;
use std::alloc::{AllocError, Global};
use std::borrow::CowStr;
use std::io;

/// A name or a value, which is borrowed from the input where it stands there as it is.
pub type Text<'t> = CowStr<'t>;

/// Names and values. A name may stand several times.
pub type Fields<'t> = ListOrderedMultimap<Text<'t>, Text<'t>, RandomState>;

/// How a query is read.
#[derive(Clone, Copy)]
pub enum Reading {
    /// As the URL standard has it: every query has a meaning.
    Lenient,
    /// What stands for no text is refused.
    Strict,
}

/// Appends the fields of a query that begins at this byte of the input, counted from 1. A name
/// without `=` has the empty value, and what is empty between two `&` is no field. After an error,
/// fields in front of the bad one may be there.
pub fn read_query<'t>(
    alloc: Global,
    query: &'t [u8],
    place: usize,
    reading: Reading,
    fields: &mut Fields<'t>,
) -> io::Result<()>
    ensures read { OnOk result (pairs_and (texts_of fields.old.lists.pairs)
        (query_read_by reading query.now) ≡ Some (texts_of fields.new.lists.pairs)) }
    ensures bad { IfErr result (λ error.
        error_kind error ≡ InvalidData → query_read_by reading query.now ≡ None) }
{
    let mut rest = query;
    let mut position = place;
    while !rest.is_empty() {
        let (piece, behind) = split_at_byte(rest, b'&');
        read_piece(alloc, piece, reading, position, fields)?;
        position = position.saturating_add(piece.len()).saturating_add(1);
        rest = behind;
    }
    Ok(())
}

/// Appends the field that stands between two `&`, if it isn't empty. It begins at this byte of the
/// input, counted from 1.
fn read_piece<'t>(
    alloc: Global,
    piece: &'t [u8],
    reading: Reading,
    position: usize,
    fields: &mut Fields<'t>,
) -> io::Result<()>
    ensures read { OnOk result (pairs_and (texts_of fields.old.lists.pairs)
        (piece_read_by reading piece.now) ≡ Some (texts_of fields.new.lists.pairs)) }
    ensures bad { IfErr result (λ error.
        error_kind error ≡ InvalidData → piece_read_by reading piece.now ≡ None) }
{
    if piece.is_empty() {
        return Ok(());
    }
    let (name, value) = split_at_byte(piece, b'=');
    let behind = position.saturating_add(name.len()).saturating_add(1);
    let name = text_of(alloc, name, reading, position)?;
    let value = text_of(alloc, value, reading, behind)?;
    append(fields, name, value)
}

fn text_of<'t>(
    alloc: Global,
    encoded: &'t [u8],
    reading: Reading,
    position: usize,
) -> io::Result<Text<'t>>
    ensures read { IfOk result (λ text.
        text_read_by reading encoded.now ≡ Some (cow_str_bytes text)) }
    ensures bad { IfErr result (λ error.
        error_kind error ≡ InvalidData → text_read_by reading encoded.now ≡ None) }
{
    match reading {
        Reading::Lenient => Ok(decoded(alloc, encoded)?),
        Reading::Strict => match str::from_utf8(encoded) {
            Ok(encoded) => strictly_decoded(alloc, encoded, position),
            Err(_) => Err(bad("not UTF-8")),
        },
    }
}

fn append<'t>(fields: &mut Fields<'t>, name: Text<'t>, value: Text<'t>) -> io::Result<()>
    ensures added { OnOk result (texts_of fields.new.lists.pairs ≡ texts_of fields.old.lists.pairs
        ++ (cow_str_bytes name.entry, cow_str_bytes value.entry) ∷ []) }
    ensures refused { IfErr result (λ error. error_kind error ≡ OutOfMemory) }
{
    fields.append(name, value)?;
    Ok(())
}

/// Adds the query of all fields in order.
pub fn add_query(fields: &Fields<'_>, query: &mut String) -> Result<(), AllocError>
    ensures written { OnOk result (string_bytes query.new ≡ string_bytes query.old
        ++ written_query (texts_of fields.now.lists.pairs)) }
    ensures read_again { (reading : Reading) → AreTexts (texts_of fields.now.lists.pairs)
        → query_read_by reading (query_in (written_query (texts_of fields.now.lists.pairs)))
        ≡ Some (texts_of fields.now.lists.pairs) }
{
    let mut is_first = true;
    for (name, value) in fields {
        if !is_first {
            query.push('&')?;
        }
        is_first = false;
        add_field(name, value, query)?;
    }
    Ok(())
}

/// Adds a field as it stands in a query.
pub fn add_field(name: &Text<'_>, value: &Text<'_>, query: &mut String) -> Result<(), AllocError>
    ensures { OnOk result (string_bytes query.new ≡ string_bytes query.old
        ++ written_field (cow_str_bytes name.now, cow_str_bytes value.now)) }
{
    add_encoded(name.as_str(), query)?;
    query.push('=')?;
    add_encoded(value.as_str(), query)
}
