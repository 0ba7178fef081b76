//! Texts as queries for keys that are texts.
ghost use Rattle.std.proofs.Common.{ap};
ghost use Rattle.std.specs.Cmp.Lexicographic.{bytes_decides, nat_list_eq_equiv};
ghost use Rattle.std.specs.Hash as fed;
ghost use Rattle.std.specs.Prelude.{None};
ghost use Rattle.std.specs.Str.{str_eq_ignore_ascii_case, str_to_ascii_lowercase};

use crate::AsciiCaseless;
use crate::compare::are_alike;
use ordered_multimap::KeyQuery;
use std::convert::AsSlice;

/// A borrowed text is equivalent to each key that differs from it at most in the case of ASCII
/// letters, whatever type the key's text is in.
///
/// So `map.get(AsciiCaseless("accept"))` looks up an `AsciiCaseless<String>` key without allocating
/// a `String`. A bare `&str` can't be such a query, since its hash depends on its case.
///
/// # Examples
///
/// ```
/// use ascii_caseless::AsciiCaseless;
/// use ordered_multimap::ListOrderedMultimap;
///
/// let mut headers = ListOrderedMultimap::new(rt.alloc());
/// headers.append(AsciiCaseless(String::from_str(rt.alloc(), "Accept")?), 1)?;
/// assert_eq!(rt; headers.get(AsciiCaseless("accept")), Some(&1));
/// assert_eq!(rt; headers.get(AsciiCaseless(b"ACCEPT".as_slice())), Some(&1));
/// ```
impl<T: AsSlice<u8>, Q: AsSlice<u8> + Copy> KeyQuery<AsciiCaseless<T>> for AsciiCaseless<Q> {
    ghost equivalent = { λ q k. str_eq_ignore_ascii_case (Q.items q.0) (T.items k.0) };

    ghost as_key = { λ q. None };

    ghost respects_hash = { λ q k same. ap (fed.slice fed.u8)
        ((bytes_decides (str_to_ascii_lowercase (Q.items q.0))
        (str_to_ascii_lowercase (T.items k.0))).0 same) };

    ghost respects_eq = { λ q x y. nat_list_eq_equiv.congr (str_to_ascii_lowercase (Q.items q.0))
        (str_to_ascii_lowercase (T.items x.0))
        (str_to_ascii_lowercase (T.items y.0)) };

    fn equivalent(&self, key: &AsciiCaseless<T>) -> bool {
        are_alike(self.as_bytes(), key.as_bytes())
    }
}
