//! Names of headers.
ghost use Rattle.std.specs.Prelude.{◌≡◌, ◌↔◌, IsSome, IfSome};
ghost use Rattle.header_store.specs.Fields as rfc;

use ascii_caseless::AsciiCaseless;

/// The name of a header: a token of RFC 9110. Names that differ in the case of ASCII letters alone
/// are equal.
#[derive(Clone, Copy, PartialEq, Eq, Hash)]
pub struct Name<'t> {
    text: AsciiCaseless<&'t [u8]>,
}

/// The name whose values can't be joined.
pub const SET_COOKIE: Name<'static> = Name {
    text: AsciiCaseless(b"set-cookie"),
};

/// The name whose values are joined by semicolons.
pub const COOKIE: Name<'static> = Name {
    text: AsciiCaseless(b"cookie"),
};

impl<'t> Name<'t> {
    /// The name of this text, or none if RFC 9110 forbids it.
    pub fn new(text: &'t [u8]) -> Option<Name<'t>>
        ensures token { IsSome result ↔ rfc.IsToken text.now }
        ensures named { IfSome result (λ name. name.text.0.now ≡ text.now) }
    {
        let is_token = !text.is_empty() && text.iter().all(|byte| is_token_byte(*byte));
        is_token.then_some(Name {
            text: AsciiCaseless(text),
        })
    }

    /// The name as it was spelled.
    pub fn as_bytes(self) -> &'t [u8]
        ensures { result.now ≡ self.entry.text.0.now }
    {
        self.text.into_inner()
    }
}

/// Whether the byte may stand in a token.
pub fn is_token_byte(byte: u8) -> bool
    ensures { result ≡ rfc.is_token_byte byte }
{
    byte.is_ascii_alphanumeric() || b"!#$%&'*+-.^_`|~".contains(&byte)
}
