//! The query in a whole URL, and what stands around it.
ghost use Rattle.std.specs.IoError.{error_kind};
ghost use Rattle.std.specs.Prelude.{◌≡◌, ◌++◌, ◌∷◌, [], ℕ, List, false, not, position, IfErr, IfOk, IsUtf8, OnOk};
ghost use Rattle.std.specs.String.{string_bytes};
ghost use Rattle.std.specs.declared.io.ErrorKind.TheVariants.{InvalidData};
ghost use Rattle.query_fields.specs.Queries.{AreTexts, texts_of, without_question};
ghost use Rattle.query_fields.specs.Urls.{before_query, behind_query, query_in, is_url};
ghost use Rattle.query_fields.specs.Urls.{behind_scheme, is_scheme_byte};
ghost use Rattle.query_fields.specs.Urls.{IsAround, IsReadWith, marked_query, written_url};
ghost use Rattle.query_fields.specs.declared.fields.Reading.{Reading};

use crate::fields::{Fields, add_query};
use crate::split::{split_at_byte, split_before_byte};
use program_parts::bad;
use std::alloc::AllocError;
use std::io;

/// A query, and what stands around it where it is that of a whole URL.
#[derive(Clone, Copy)]
pub struct Url<'t> {
    /// Whether it is that of a whole URL.
    pub is_whole: bool,
    /// What stands before the `?`.
    pub before: &'t str,
    pub query: &'t [u8],
    /// Where the query begins: the number of its first byte, from 1.
    pub place: usize,
    /// The fragment, with its `#`.
    pub behind: &'t str,
}

impl<'t> Url<'t> {
    /// The parts of a URL, or of a query alone, from which one leading `?` is cut.
    ///
    /// # Errors
    ///
    /// What stands around the query of a URL is no UTF-8.
    pub fn parse(text: &'t [u8]) -> io::Result<Url<'t>>
        ensures whole { IfOk result (λ url. url.is_whole ≡ is_url text.now) }
        ensures before { IfOk result (λ url. url.before.now ≡ before_query text.now) }
        ensures query { IfOk result (λ url. url.query.now ≡ query_in text.now) }
        ensures behind { IfOk result (λ url. url.behind.now ≡ behind_query text.now) }
        ensures bad { IfErr result (λ error. error_kind error ≡ InvalidData) }
        ensures no_text { IfErr result (λ _.
            ¬ (IsUtf8 (before_query text.now) × IsUtf8 (behind_query text.now))) }
    {
        if !is_url(text) {
            return Ok(Url::alone(text));
        }
        let (front, behind) = split_before_byte(text, b'#');
        let (before, query) = split_at_byte(front, b'?');
        let place = 1 + front.len().saturating_sub(query.len());
        let Ok(before) = str::from_utf8(before) else {
            return Err(bad("not UTF-8"));
        };
        let Ok(behind) = str::from_utf8(behind) else {
            return Err(bad("not UTF-8"));
        };
        Ok(Url {
            is_whole: true,
            before,
            query,
            place,
            behind,
        })
    }

    /// A query alone, from which one leading `?` is cut.
    pub fn alone(text: &'t [u8]) -> Url<'t>
        ensures whole { result.is_whole ≡ false }
        ensures before { result.before.now ≡ [] }
        ensures query { result.query.now ≡ without_question text.now }
        ensures behind { result.behind.now ≡ [] }
    {
        let query = without_question(text);
        Url {
            is_whole: false,
            before: "",
            query,
            place: 1 + text.len().saturating_sub(query.len()),
            behind: "",
        }
    }

    /// Adds the URL, or the query alone, with these fields, and a line feed.
    pub fn add_to(&self, fields: &Fields<'_>, answers: &mut String) -> Result<(), AllocError>
        ensures written { OnOk result (string_bytes answers.new ≡ string_bytes answers.old
            ++ (written_url self.now (texts_of fields.now.lists.pairs) ++ (10 ∷ []))) }
        ensures read_again { (reading : Reading) (text : List ℕ) → IsAround text self.now
            → AreTexts (texts_of fields.now.lists.pairs)
            → IsReadWith reading (texts_of fields.now.lists.pairs) text
            (written_url self.now (texts_of fields.now.lists.pairs)) }
    {
        if self.is_whole {
            answers.push_str(self.before)?;
            add_marked_query(fields, answers)?;
            answers.push_str(self.behind)?;
            return answers.push('\n');
        }
        add_query(fields, answers)?;
        answers.push('\n')
    }
}

/// Whether the text begins with a scheme and `://`.
fn is_url(text: &[u8]) -> bool
    ensures { result ≡ is_url text.now }
{
    let Some((first, _)) = text.split_first() else {
        return false;
    };
    first.is_ascii_alphabetic() && behind_scheme(text).starts_with(b"://")
}

/// What stands from the first byte on that no scheme has.
fn behind_scheme(text: &[u8]) -> &[u8]
    ensures { result.now ≡ behind_scheme text.now }
{
    match end_of_scheme(text) {
        Some(place) => &text[place..],
        None => b"",
    }
}

// Where the first byte stands that no scheme has.
fn end_of_scheme(text: &[u8]) -> Option<usize>
    ensures { result ≡ position (λ byte. not (is_scheme_byte byte)) text.now }
{
    text.iter().position(|byte| !is_scheme_byte(*byte))
}

fn is_scheme_byte(byte: u8) -> bool
    ensures { result ≡ is_scheme_byte byte }
{
    byte.is_ascii_alphanumeric() || byte == b'+' || byte == b'-' || byte == b'.'
}

/// The query without one leading `?`.
fn without_question(query: &[u8]) -> &[u8]
    ensures { result.now ≡ without_question query.now }
{
    query.strip_prefix(b"?").unwrap_or(query)
}

/// Adds a `?` and the query of all fields, if there are any.
fn add_marked_query(fields: &Fields<'_>, answers: &mut String) -> Result<(), AllocError>
    ensures written { OnOk result (string_bytes answers.new
        ≡ string_bytes answers.old ++ marked_query (texts_of fields.now.lists.pairs)) }
{
    if fields.is_empty() {
        return Ok(());
    }
    answers.push('?')?;
    add_query(fields, answers)
}
