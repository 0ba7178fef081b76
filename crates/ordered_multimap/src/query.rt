//! What a lookup takes in the place of a key.
ghost use Rattle.std.specs.Prelude.{◌≡◌, Bool, IsTrue, Option, Some};

mod joined;
mod part;
mod slices;
mod texts;

pub use part::{KeyByPart, Part};
use std::hash::Hash;

/// A query: what a lookup takes in the place of a reference to a key of type `K`.
///
/// It is implemented for
///
/// - `&K`, for keys of any type `K`;
/// - `&str`, for keys that are strings: `String`, `&str`, `BoxedStr`, `RcStr`, `CowStr`;
/// - `&[T]`, for keys that are slices: `Vec<T>`, `&[T]`, `BoxedSlice<T>`, `CowSlice<T>`;
/// - an `Option` of a query, for keys that are an `Option`, and two or three queries, for keys that
///   are pairs or triples: `map.get(Some("line"))` for keys of the type `Option<String>`.
///
/// So `map.get("line")` looks up a `String` key without allocating a `String`. It takes the place
/// of the `Borrow` of std's lookups, and is passed by value.
///
/// A bare `&str` is hashed as it is spelled, so it finds no key in another case. For names of which
/// the case doesn't matter, as those of headers, the crate `ascii_caseless` has keys and queries:
/// `headers.get(AsciiCaseless("accept"))`.
///
/// Where a key is compared and hashed by one part of it alone, [`KeyByPart`] makes a query for the
/// key of each query for the part. Any other `Copy` type of your own can be a query too. Its
/// `equivalent` says to which keys it is equivalent, and it has to be hashed as each of those keys
/// is. The file `crates/ordered_multimap_tests/src/tests/queries/names.rt` looks up header names in
/// any case.
///
/// Proved callers: see CALLING.md.
///
/// # Examples
///
/// ```
/// use ordered_multimap::ListOrderedMultimap;
///
/// let mut map = ListOrderedMultimap::new(rt.alloc());
/// map.append(String::from_str(rt.alloc(), "line")?, 1)?;
/// assert_eq!(rt; map.get("line"), Some(&1));
/// assert!(rt; !map.contains_key("word"));
/// ```
pub trait KeyQuery<K: Eq + Hash>: Copy + Hash {
    // The keys that the query stands for.
    ghost equivalent: { Self → K → Bool };

    // The key that the query itself is, where it is one. What a call says of an absent key names it.
    ghost as_key: { Self → Option K };

    /// Returns `true` if the query is equivalent to the key.
    ///
    /// # Complexity
    ///
    /// What a comparison of the key costs.
    ///
    /// # Requires
    ///
    /// An implementation has to be lawful: a query has the hash of each key to which it is
    /// equivalent, and if it is equivalent to a key, then to all keys that are equal to that one,
    /// and to no other. Both are proved where the implementation is declared.
    ///
    /// # Examples
    ///
    /// ```
    /// use ordered_multimap::KeyQuery;
    ///
    /// let key = String::from_str(rt.alloc(), "line")?;
    /// assert!(rt; "line".equivalent(&key));
    /// assert!(rt; !"word".equivalent(&key));
    /// ```
    fn equivalent(&self, key: &K) -> bool
        ensures { result ≡ equivalent self.now key.now };

    // The query is hashed as each key that it stands for.
    ghost respects_hash: { (q : Self) (k : K) → IsTrue (equivalent q k)
        → Self.hash_input q ≡ K.hash_input k };

    // Where it stands for a key, it stands for the keys that are equal to that one, and for no other.
    ghost respects_eq: { (q : Self) (x y : K) → IsTrue (equivalent q x)
        → equivalent q y ≡ K.eq x y };
}

/// A reference to a key is equivalent to all keys that are equal to it.
impl<K: Eq + Hash> KeyQuery<K> for &K {
    ghost equivalent = { λ q. K.eq q.now };

    ghost as_key = { λ q. Some q.now };

    ghost respects_hash = { λ q. K.respects_eq q.now };

    ghost respects_eq = { λ q. K.Eq.laws.congr q.now };

    #[inline(always)]
    fn equivalent(&self, key: &K) -> bool {
        *self == key
    }
}
