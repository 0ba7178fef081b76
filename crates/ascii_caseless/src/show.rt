//! Texts shown as they are spelled.
use crate::AsciiCaseless;
use std::fmt;
use std::fmt::{Debug, Display, Formatter};

/// What `T` shows: the text, as it is spelled.
impl<T: Display> Display for AsciiCaseless<T> {
    ghost output = { λ text. T.output text.0 };

    ghost styled_output = { λ text. T.styled_output text.0 };

    fn fmt<W: fmt::Write>(&self, f: &mut Formatter<W>) -> fmt::Result {
        Display::fmt(&self.0, f)
    }
}

/// What `T` shows: a text in quotes, or a list of bytes, as it is spelled.
impl<T: Debug> Debug for AsciiCaseless<T> {
    ghost debug_output = { λ text. T.debug_output text.0 };

    fn fmt<W: fmt::Write>(&self, f: &mut Formatter<W>) -> fmt::Result {
        Debug::fmt(&self.0, f)
    }
}
