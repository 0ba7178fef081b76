//! Equality and hashes of texts in lower case.
ghost use Rattle.std.proofs.Common.{ap};
ghost use Rattle.std.specs.Cmp.{on_equiv, partial_equiv_from_equiv, on_per};
ghost use Rattle.std.specs.Cmp.Lexicographic.{bytes_decides, nat_list_eq_equiv};
ghost use Rattle.std.specs.Hash as fed;
ghost use Rattle.std.specs.List.{flat_map, fold};
ghost use Rattle.std.specs.Prelude.{◌≡◌};
ghost use Rattle.std.specs.Str.{str_eq_ignore_ascii_case, str_to_ascii_lowercase};

use crate::AsciiCaseless;
use std::convert::AsSlice;
use std::hash::{Hash, Hasher};

// Whether two texts differ at most in the case of ASCII letters.
pub(crate) fn are_alike(one: &[u8], other: &[u8]) -> bool
    ensures { result ≡ str_eq_ignore_ascii_case one.now other.now }
{
    one.eq_ignore_ascii_case(other)
}

/// Texts are equal if they differ at most in the case of ASCII letters.
impl<T: AsSlice<u8>> PartialEq for AsciiCaseless<T> {
    ghost eq = { λ a b. str_eq_ignore_ascii_case (T.items a.0) (T.items b.0) };

    ghost laws = { on_per (λ text. str_to_ascii_lowercase (T.items text.0))
        (partial_equiv_from_equiv nat_list_eq_equiv) };

    fn eq(&self, other: &Self) -> bool {
        are_alike(self.as_bytes(), other.as_bytes())
    }
}

impl<T: AsSlice<u8>> Eq for AsciiCaseless<T> {
    ghost laws = { on_equiv (λ text. str_to_ascii_lowercase (T.items text.0))
        nat_list_eq_equiv };
}

/// A text is hashed as the slice of its bytes in lower case, whatever type it is in.
impl<T: AsSlice<u8>> Hash for AsciiCaseless<T> {
    ghost hash_input = { λ text. fed.slice fed.u8 (str_to_ascii_lowercase (T.items text.0)) };

    ghost respects_eq = { λ a b same. ap (fed.slice fed.u8)
        ((bytes_decides (str_to_ascii_lowercase (T.items a.0))
        (str_to_ascii_lowercase (T.items b.0))).0 same) };

    fn hash<H: Hasher>(&self, state: &mut H) {
        let bytes = self.as_bytes();
        state.write_usize(bytes.len());
        feed_lowercase(bytes, state);
    }
}

// Feeds the bytes in lower case.
fn feed_lowercase<H: Hasher>(text: &[u8], state: &mut H)
    ensures { state.new
        ≡ fold H.write state.old (flat_map fed.u8 (str_to_ascii_lowercase text.now)) }
{
    for byte in text {
        state.write_u8(byte.to_ascii_lowercase());
    }
}
