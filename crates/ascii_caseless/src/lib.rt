//! Text that is compared and hashed without the case of ASCII letters, as the names of headers are.
//!
//! [`AsciiCaseless`] wraps a `String`, a `&str`, a `Vec<u8>` or a `&[u8]`, and is what `Ascii` of
//! the crate `unicase` is. It is a key of a `ListOrderedMultimap`, and also a query: with keys that
//! own their text, `headers.get(AsciiCaseless("accept"))` finds what was added as `Accept`, and
//! allocates nothing.
//!
//! Only ASCII letters have no case here: `Ä` and `ä` differ.
//!
//! # Examples
//!
//! ```
//! use ascii_caseless::AsciiCaseless;
//! use ordered_multimap::ListOrderedMultimap;
//!
//! let mut headers = ListOrderedMultimap::new(rt.alloc());
//! for (name, value) in [("Accept", "text/html"), ("Cookie", "a=1"), ("ACCEPT", "text/plain")] {
//!     headers.append(AsciiCaseless(String::from_str(rt.alloc(), name)?), value)?;
//! }
//!
//! // Any spelling finds both values.
//! assert!(rt; headers.get_all(AsciiCaseless("accept")).eq(&["text/html", "text/plain"]));
//! assert_eq!(rt; headers.get(AsciiCaseless("COOKIE")), Some(&"a=1"));
//!
//! // The first spelling stays.
//! headers.set(AsciiCaseless(String::from_str(rt.alloc(), "accept")?), "text/css")?;
//! let spelled = headers.iter().map(|(name, value)| (name.as_str(), *value));
//! assert!(rt; spelled.eq([("Accept", "text/css"), ("Cookie", "a=1")]));
//! ```
#![tactic(auto)]

mod compare;
mod query;
mod show;
mod text;

pub use text::AsciiCaseless;
