//! The errors of calls that ran out of memory.
//!
//! Their `Debug` asks nothing of keys and values, and shows none.
ghost use Rattle.std.specs.Prelude.{◌≡◌};

use std::alloc::AllocError;
use std::error::Error;
use std::{fmt, io};

/// The error of an addition that ran out of memory, with the pair that wasn't added.
///
/// `?` converts it into an [`AllocError`] or an [`io::Error`], and drops the pair. For an error
/// type of your own that has a `From<AllocError>`, write `map_err(AllocError::from)?`. `Debug`
/// shows neither key nor value, so `unwrap` and `expect` ask nothing of their types.
///
/// # Examples
///
/// ```
/// use ordered_multimap::{ListOrderedMultimap, Refused};
///
/// let mut map = ListOrderedMultimap::new(rt.alloc());
/// let mut kept = None;
/// match map.append("line", 1) {
///     Ok(_present) => {}
///     Err(Refused { key, value }) => kept = Some((key, value)),
/// }
/// assert_eq!(rt; kept, None);
/// assert_eq!(rt; map.get("line"), Some(&1));
/// ```
#[derive(PartialEq, Eq, Drop)]
pub struct Refused<K, V> {
    /// The key that was passed to the call.
    pub key: K,
    /// The value that was to be stored.
    pub value: V,
}

impl<K, V> fmt::Debug for Refused<K, V> {
    fn fmt<W: fmt::Write>(&self, f: &mut fmt::Formatter<W>) -> fmt::Result {
        f.debug_struct("Refused").finish_non_exhaustive()
    }
}

impl<K, V> fmt::Display for Refused<K, V> {
    ghost use Rattle.std.specs.Prelude.{Some, codes};

    ghost output = { λ _. Some (codes "memory allocation failed") };

    fn fmt<W: fmt::Write>(&self, f: &mut fmt::Formatter<W>) -> fmt::Result {
        f.write_str("memory allocation failed")
    }
}

impl<K: Drop, V: Drop> Error for Refused<K, V> {}

impl<K: Drop, V: Drop> From<Refused<K, V>> for AllocError {
    fn from(_refused: Refused<K, V>) -> AllocError {
        AllocError
    }
}

impl<K: Drop, V: Drop> From<Refused<K, V>> for io::Error {
    ghost use Rattle.std.specs.IoError.{error_kind};
    ghost use Rattle.std.specs.declared.io.ErrorKind.TheVariants.{OutOfMemory};

    ghost from_gives = { λ _ e. error_kind e ≡ OutOfMemory };

    fn from(_refused: Refused<K, V>) -> io::Error {
        io::Error::from(AllocError)
    }
}

/// The error of an addition under a present key that ran out of memory, with the value.
///
/// It is returned by [`OccupiedEntry::append`](crate::OccupiedEntry::append),
/// [`OccupiedEntry::append_many`](crate::OccupiedEntry::append_many) and
/// [`OccupiedEntry::insert_all`](crate::OccupiedEntry::insert_all). `?` converts it into an
/// [`AllocError`] or an [`io::Error`], and drops the value. For an error type of your own that has
/// a `From<AllocError>`, write `map_err(AllocError::from)?`.
///
/// # Examples
///
/// ```
/// use ordered_multimap::{Entry, ListOrderedMultimap, RefusedValue};
///
/// let mut map = ListOrderedMultimap::new(rt.alloc());
/// map.append("line", 1)?;
/// let mut kept = None;
/// if let Entry::Occupied(mut entry) = map.entry("line") {
///     if let Err(RefusedValue { value }) = entry.append(2) {
///         kept = Some(value);
///     }
/// }
/// assert_eq!(rt; kept, None);
/// assert_eq!(rt; map.entry_len("line"), 2);
/// ```
#[derive(PartialEq, Eq, Drop)]
pub struct RefusedValue<V> {
    /// The value that was passed to the call.
    pub value: V,
}

impl<V> fmt::Debug for RefusedValue<V> {
    fn fmt<W: fmt::Write>(&self, f: &mut fmt::Formatter<W>) -> fmt::Result {
        f.debug_struct("RefusedValue").finish_non_exhaustive()
    }
}

impl<V> fmt::Display for RefusedValue<V> {
    ghost use Rattle.std.specs.Prelude.{Some, codes};

    ghost output = { λ _. Some (codes "memory allocation failed") };

    fn fmt<W: fmt::Write>(&self, f: &mut fmt::Formatter<W>) -> fmt::Result {
        f.write_str("memory allocation failed")
    }
}

impl<V: Drop> Error for RefusedValue<V> {}

impl<V: Drop> From<RefusedValue<V>> for AllocError {
    fn from(_refused: RefusedValue<V>) -> AllocError {
        AllocError
    }
}

impl<V: Drop> From<RefusedValue<V>> for io::Error {
    ghost use Rattle.std.specs.IoError.{error_kind};
    ghost use Rattle.std.specs.declared.io.ErrorKind.TheVariants.{OutOfMemory};

    ghost from_gives = { λ _ e. error_kind e ≡ OutOfMemory };

    fn from(_refused: RefusedValue<V>) -> io::Error {
        io::Error::from(AllocError)
    }
}

/// The error of a clone of a key that ran out of memory, with the value of that key.
///
/// It is an item of [`IntoIter`](crate::IntoIter), which clones a key while another of its values is
/// left. `?` converts it into an [`AllocError`] or an [`io::Error`], and drops the value. For an
/// error type of your own that has a `From<AllocError>`, write `map_err(AllocError::from)?`.
///
/// # Examples
///
/// ```
/// use ordered_multimap::{ListOrderedMultimap, UnclonedKey};
///
/// let mut map = ListOrderedMultimap::new(rt.alloc());
/// map.append("line", 1)?;
/// map.append("line", 2)?;
/// let mut pairs = map.into_iter();
/// match pairs.next() {
///     Some(Err(UnclonedKey { value })) => assert_eq!(rt; value, 1),
///     pair => assert_eq!(rt; pair, Some(Ok(("line", 1)))),
/// }
/// // No other value is left, and so the key isn't cloned.
/// assert_eq!(rt; pairs.next(), Some(Ok(("line", 2))));
/// ```
#[derive(PartialEq, Eq, Drop)]
pub struct UnclonedKey<V> {
    /// The value of the pair, which has left the map.
    pub value: V,
}

impl<V> fmt::Debug for UnclonedKey<V> {
    fn fmt<W: fmt::Write>(&self, f: &mut fmt::Formatter<W>) -> fmt::Result {
        f.debug_struct("UnclonedKey").finish_non_exhaustive()
    }
}

impl<V> fmt::Display for UnclonedKey<V> {
    ghost use Rattle.std.specs.Prelude.{Some, codes};

    ghost output = { λ _. Some (codes "memory allocation failed") };

    fn fmt<W: fmt::Write>(&self, f: &mut fmt::Formatter<W>) -> fmt::Result {
        f.write_str("memory allocation failed")
    }
}

impl<V: Drop> Error for UnclonedKey<V> {}

impl<V: Drop> From<UnclonedKey<V>> for AllocError {
    fn from(_refused: UnclonedKey<V>) -> AllocError {
        AllocError
    }
}

impl<V: Drop> From<UnclonedKey<V>> for io::Error {
    ghost use Rattle.std.specs.IoError.{error_kind};
    ghost use Rattle.std.specs.declared.io.ErrorKind.TheVariants.{OutOfMemory};

    ghost from_gives = { λ _ e. error_kind e ≡ OutOfMemory };

    fn from(_refused: UnclonedKey<V>) -> io::Error {
        io::Error::from(AllocError)
    }
}
