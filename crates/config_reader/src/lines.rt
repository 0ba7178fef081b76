//! Lines of a text.
ghost use Rattle.std.specs.Prelude.{◌≡◌, ◌<◌, ◌++◌, ℕ, List, length};
ghost use Rattle.config_reader.specs.Lines.{IsBehindLines, behind_line, first_line};
ghost use Rattle.config_reader.specs.Lines.{is_lined, says_nothing};

use crate::value::is_mark;

/// The first line without its line feed, and what stands behind that.
pub fn first_line(text: &str) -> (&str, &str)
    ensures line { result.0.now ≡ first_line text.now }
    ensures behind { result.1.now ≡ behind_line text.now }
    ensures lines { IsBehindLines text.now result.1.now }
    ensures shorter { 0 < length text.now → length result.1.now < length text.now }
{
    match text.split_once('\n') {
        Some(parts) => parts,
        None => (text, ""),
    }
}

/// Whether a line is empty or a comment.
pub fn says_nothing(line: &str) -> bool
    ensures { result ≡ says_nothing line.now }
{
    match line.trim().as_bytes().split_first() {
        Some((first, _)) => is_mark(*first),
        None => true,
    }
}

/// Whether a text is empty or ends with a line feed.
pub fn is_lined(text: &str) -> bool
    ensures { result ≡ is_lined text.now }
{
    if text.is_empty() {
        return true;
    }
    text.ends_with('\n')
}

/// The lines of the text that stand in front of its end `behind`.
pub fn lines_before<'t>(text: &'t str, behind: &'t str) -> &'t str
    ensures { (lines : List ℕ) → text.now ≡ lines ++ behind.now → result.now ≡ lines }
{
    match text.split_at_checked(text.len().saturating_sub(behind.len())) {
        Some((lines, _)) => lines,
        None => "",
    }
}

/// How many lines of a text end with a line feed.
pub fn lines_in(text: &str) -> usize {
    text.bytes().filter(|byte| *byte == b'\n').count()
}
