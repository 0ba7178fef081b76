//! The wrapper, and the text in it.
ghost use Rattle.std.specs.Prelude.{◌≡◌};

use std::convert::{AsSlice, AsStr};

/// Text that is compared and hashed without the case of ASCII letters.
///
/// `T` is a `String`, a `&str`, a `Vec<u8>` or a `&[u8]`, or any other type that lends itself as
/// bytes by std's `AsSlice<u8>`. Two texts are equal if their bytes are equal once ASCII letters
/// are in lower case; letters beyond ASCII differ if their cases do. Equal texts have equal hashes,
/// whatever type they are in.
///
/// `Display` and `Debug` are those of `T`, which show the text as it is spelled.
///
/// A map with such keys is looked up by `AsciiCaseless("accept")`, not by a bare `&str`: the hash of
/// a `&str` depends on its case ([`KeyQuery`](ordered_multimap::KeyQuery)).
///
/// # Examples
///
/// ```
/// use ascii_caseless::AsciiCaseless;
///
/// assert!(rt; AsciiCaseless("Accept") == AsciiCaseless("ACCEPT"));
/// assert!(rt; AsciiCaseless("Accept") != AsciiCaseless("Accepts"));
/// assert!(rt; AsciiCaseless("\u{c4}") != AsciiCaseless("\u{e4}"));
/// ```
#[derive(Clone, Copy, Drop)]
pub struct AsciiCaseless<T>(pub T);

impl<T> AsciiCaseless<T> {
    /// Returns the wrapped text, as it is spelled.
    ///
    /// # Complexity
    ///
    /// *O*(1).
    ///
    /// # Examples
    ///
    /// ```
    /// use ascii_caseless::AsciiCaseless;
    ///
    /// assert_eq!(rt; AsciiCaseless("Accept").into_inner(), "Accept");
    /// ```
    pub fn into_inner(self) -> T
        ensures { result ≡ self.0 }
    {
        self.0
    }
}

impl<T: AsSlice<u8>> AsciiCaseless<T> {
    /// Returns the bytes of the text, as it is spelled.
    ///
    /// # Complexity
    ///
    /// *O*(1).
    ///
    /// # Examples
    ///
    /// ```
    /// use ascii_caseless::AsciiCaseless;
    ///
    /// assert_eq!(rt; AsciiCaseless("Ok").as_bytes(), b"Ok".as_slice());
    /// ```
    pub fn as_bytes(&self) -> &[u8]
        ensures { result.now ≡ T.items self.now.0 }
    {
        self.0.as_slice()
    }
}

impl<T: AsStr> AsciiCaseless<T> {
    /// Returns the text, as it is spelled.
    ///
    /// # Complexity
    ///
    /// *O*(1).
    ///
    /// # Examples
    ///
    /// ```
    /// use ascii_caseless::AsciiCaseless;
    ///
    /// let name = AsciiCaseless(String::from_str(rt.alloc(), "Accept")?);
    /// assert_eq!(rt; name.as_str(), "Accept");
    /// ```
    pub fn as_str(&self) -> &str
        ensures { result.now ≡ T.text self.now.0 }
    {
        self.0.as_str()
    }
}

impl<T> From<T> for AsciiCaseless<T> {
    ghost from_gives = { λ text caseless. caseless.0 ≡ text };

    fn from(text: T) -> AsciiCaseless<T> {
        AsciiCaseless(text)
    }
}
