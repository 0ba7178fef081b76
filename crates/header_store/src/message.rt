//! Messages: a request or status line, headers, and what stands behind them.
ghost use Rattle.std.specs.IoError.{error_kind};
ghost use Rattle.std.specs.Prelude.{◌≡◌, ◌<◌, ◌≤◌, drop, length, IfErr, IfOk, OnOk};
ghost use Rattle.std.specs.declared.io.ErrorKind.TheVariants.{InvalidData};
ghost use Rattle.program_parts.specs.Lines.{mark_of, without_mark};
ghost use Rattle.ordered_multimap.specs.Changes.{appended};
ghost use Rattle.header_store.specs.Changed.{same_name};
ghost use Rattle.header_store.specs.Fields as rfc;
ghost use Rattle.header_store.specs.Message.{IsHeader, IsReadAs, behind_header, begins_end};
ghost use Rattle.header_store.specs.Message.{header_in, line_end_in, start_in, whole_line};
ghost use Rattle.header_store.specs.declared.field.Field.{Field};
ghost use Rattle.header_store.specs.declared.name.Name.{Name};

use crate::field::{Field, is_blank, is_value_byte, name_of, split_at_byte};
use crate::name::{Name, is_token_byte};
use crate::start::is_start_line;
use ordered_multimap::ListOrderedMultimap;
use ordered_multimap::list_ordered_multimap::RandomState;
use program_parts::{Fault, bad, mark_of, without_mark, without_return};
use std::io;

/// The headers of a message, in their order. Names and values are parts of the input.
pub type Headers<'t> = ListOrderedMultimap<Name<'t>, Field<'t>, RandomState>;

/// What stands around the headers of a message.
#[derive(Clone, Copy)]
pub struct Frame<'t> {
    /// The byte order mark at the start, or nothing.
    pub mark: &'static [u8],
    /// The request or status line with what ends it, or nothing.
    pub start: &'t [u8],
    /// What ends the first line: a line feed, or a carriage return and a line feed.
    pub line_end: &'static [u8],
    /// What stands behind the headers, from an empty line on.
    pub rest: &'t [u8],
    /// How many lines stand before that.
    pub lines: usize,
}

/// Reads the headers of a message into `headers`, and returns what stands around them.
///
/// # Errors
///
/// [`Fault::Line`] for a line that is no header, and out of memory.
pub fn read_message<'t>(headers: &mut Headers<'t>, input: &'t [u8]) -> Result<Frame<'t>, Fault>
    ensures mark { IfOk result (λ frame. frame.mark.now ≡ mark_of input.now) }
    ensures start { IfOk result (λ frame. frame.start.now ≡ start_in (without_mark input.now)) }
    ensures line_end { IfOk result (λ frame.
        frame.line_end.now ≡ line_end_in (without_mark input.now)) }
    ensures read { IfOk result (λ frame. IsReadAs
        (drop (length (start_in (without_mark input.now))) (without_mark input.now))
        headers.old.lists frame.rest.now headers.new.lists) }
{
    let text = without_mark(input);
    let (start, behind) = split_start(text);
    let lines = if start.is_empty() { 0 } else { 1 };
    let (rest, lines) = read_headers(headers, behind, lines)?;
    Ok(Frame {
        mark: mark_of(input),
        start,
        line_end: line_end_of(text),
        rest,
        lines,
    })
}

/// The request or status line that the text begins with, if it does, and what stands behind it.
fn split_start(text: &[u8]) -> (&[u8], &[u8])
    ensures start { result.0.now ≡ start_in text.now }
    ensures behind { result.1.now ≡ drop (length (start_in text.now)) text.now }
{
    let (line, _) = split_at_byte(text, b'\n');
    if is_start_line(without_return(line)) {
        split_line(text)
    } else {
        (b"", text)
    }
}

/// What ends the first line of the text.
fn line_end_of(text: &[u8]) -> &'static [u8]
    ensures { result.now ≡ line_end_in text.now }
{
    let (line, _) = split_at_byte(text, b'\n');
    match line.strip_suffix(b"\r") {
        Some(_) => b"\r\n",
        None => b"\n",
    }
}

/// Reads the headers that the text begins with, of which this many lines stand in front, and returns
/// what stands behind them, and how many lines stand in front of that.
fn read_headers<'t>(
    headers: &mut Headers<'t>,
    text: &'t [u8],
    lines: usize,
) -> Result<(&'t [u8], usize), Fault>
    ensures read { IfOk result (λ behind.
        IsReadAs text.now headers.old.lists behind.0.now headers.new.lists) }
{
    let mut rest = text;
    let mut lines = lines;
    while !begins_end(rest) {
        let (own, behind) = split_header(rest);
        if let Err(error) = read_header(headers, own) {
            return Err(Fault::at_line(lines.saturating_add(1), error));
        }
        lines = lines.saturating_add(lines_in(own));
        rest = behind;
    }
    Ok((rest, lines))
}

/// Whether the text is empty, or begins with an empty line, which ends the headers.
fn begins_end(text: &[u8]) -> bool
    ensures { result ≡ begins_end text.now }
{
    let (line, _) = split_at_byte(text, b'\n');
    without_return(line).is_empty()
}

/// The lines of the header that the text begins with, and what stands behind them.
fn split_header(text: &[u8]) -> (&[u8], &[u8])
    ensures lines { result.0.now ≡ header_in text.now }
    ensures behind { result.1.now ≡ behind_header text.now }
    ensures shorter { 0 < length text.now → length result.1.now < length text.now }
{
    let behind = behind_header(text);
    (&text[..text.len() - behind.len()], behind)
}

/// What stands behind the header that the text begins with.
#[tactic(auto, using(crate::proofs::Folded::header_steps))]
fn behind_header(text: &[u8]) -> &[u8]
    ensures behind { result.now ≡ behind_header text.now }
    ensures shorter { 0 < length text.now → length result.now < length text.now }
    ensures within { length result.now ≤ length text.now }
{
    let mut rest = text;
    let mut begins = false;
    while let Some((first, behind)) = rest.split_first() {
        if begins && !is_blank(*first) {
            return rest;
        }
        begins = *first == b'\n';
        rest = behind;
    }
    rest
}

/// How many lines these are.
fn lines_in(lines: &[u8]) -> usize {
    lines.iter().filter(|byte| **byte == b'\n').count()
}

/// Appends the header that stands on these lines.
fn read_header<'t>(headers: &mut Headers<'t>, lines: &'t [u8]) -> io::Result<()>
    ensures read { OnOk result ((name : Name) × (field : Field) × IsHeader name field lines.now
        × (headers.new.lists ≡ appended same_name headers.old.lists name field)) }
{
    let (name, field) = header_of(lines)?;
    headers.append(name, field)?;
    Ok(())
}

/// The header that stands on these lines.
fn header_of(lines: &[u8]) -> io::Result<(Name<'_>, Field<'_>)>
    ensures header { IfOk result (λ header. IsHeader header.0 header.1 lines.now) }
    ensures bad { IfErr result (λ error. error_kind error ≡ InvalidData) }
{
    if let Some(reason) = fault_in(lines) {
        return Err(bad(reason));
    }
    let (name, value) = split_at_byte(lines, b':');
    let name = name_of(name)?;
    if !are_allowed(value) {
        return Err(bad("forbidden value"));
    }
    Ok((name, Field::Read(lines, value.trim_ascii())))
}

/// Why these lines can't be a header's, if one sees it at once.
fn fault_in(lines: &[u8]) -> Option<&'static str> {
    let (line, _) = split_at_byte(lines, b'\n');
    match line {
        [first, ..] if is_blank(*first) => Some("a line that goes on, with no header above it"),
        [b':', next, ..] if is_token_byte(*next) => {
            Some("a name begins with a colon only in HTTP/2, which has no such lines")
        }
        _ if !line.contains(&b':') => Some("not a header"),
        _ => None,
    }
}

/// Whether each byte of the text may stand in a value, or ends one of its lines.
#[tactic(auto, using(crate::proofs::Folded::allowed_steps))]
fn are_allowed(text: &[u8]) -> bool
    ensures { result ≡ rfc.are_allowed text.now }
{
    let mut rest = text;
    while let Some((byte, behind)) = rest.split_first() {
        if !is_allowed(*byte, behind) {
            return false;
        }
        rest = behind;
    }
    true
}

fn is_allowed(byte: u8, behind: &[u8]) -> bool
    ensures { result ≡ rfc.is_allowed byte behind.now }
{
    is_value_byte(byte) || byte == b'\n' || (byte == b'\r' && ends_here(behind))
}

fn ends_here(text: &[u8]) -> bool
    ensures { result ≡ rfc.ends_here text.now }
{
    match text.split_first() {
        Some((first, _)) => *first == b'\n',
        None => true,
    }
}

/// The first line of the text with what ends it, and what stands behind that.
fn split_line(text: &[u8]) -> (&[u8], &[u8])
    ensures line { result.0.now ≡ whole_line text.now }
    ensures behind { result.1.now ≡ drop (length (whole_line text.now)) text.now }
{
    let (_, behind) = split_at_byte(text, b'\n');
    text.split_at(text.len() - behind.len())
}
