//! The error of an entry's calls whose function may fail.
ghost use Rattle.std.specs.Prelude.{◌≡◌};
ghost use Rattle.ordered_multimap.specs.TriedEntries.{IsErrorOf};

use super::Refused;
use std::alloc::AllocError;
use std::error::Error;
use std::{fmt, io};

/// The error of [`or_try_insert_with`](crate::Entry::or_try_insert_with), with the key that was passed
/// to `entry`.
///
/// `?` converts it into an [`AllocError`] or an [`io::Error`] if the function's error is of that type.
/// For another type that has a `From<AllocError>`, write `map_err(OrInsertFault::into_error)?`.
/// `Debug` shows which fault it is, and no key, value or error.
///
/// # Examples
///
/// ```
/// use ordered_multimap::{ListOrderedMultimap, OrInsertFault};
///
/// let mut map = ListOrderedMultimap::new(rt.alloc());
/// map.append("line", 1)?;
/// let mut kept = None;
/// match map.entry("page").or_try_insert_with(|| "eight".parse::<u32>()) {
///     Ok(_value) => {}
///     Err(OrInsertFault::Failed { key, error: _ }) => kept = Some(key),
///     Err(OrInsertFault::Refused(_pair)) => {}
/// }
/// assert_eq!(rt; kept, Some("page"));
/// assert_eq!(rt; map.keys_len(), 1);
/// ```
#[derive(PartialEq, Eq, Drop)]
pub enum OrInsertFault<K, V, E> {
    /// The function failed, and nothing was stored.
    Failed {
        /// The key that was passed to `entry`.
        key: K,
        /// What the function returned.
        error: E,
    },
    /// A memory allocation failed. The pair wasn't stored.
    Refused(Refused<K, V>),
}

impl<K: Drop, V: Drop, E> OrInsertFault<K, V, E> {
    /// Returns the function's error, or the one for a failed memory allocation.
    ///
    /// The key, and a value that wasn't stored, are dropped.
    ///
    /// # Complexity
    ///
    /// *O*(1).
    ///
    /// # Examples
    ///
    /// ```
    /// use ordered_multimap::{ListOrderedMultimap, OrInsertFault};
    /// use std::alloc::AllocError;
    ///
    /// let mut map: ListOrderedMultimap<&str, u32> = ListOrderedMultimap::new(rt.alloc());
    /// let tried = map.entry("page").or_try_insert_with(|| Err(AllocError));
    /// let error = tried.map(|value| *value).map_err(OrInsertFault::into_error);
    /// assert_eq!(rt; error, Err(AllocError));
    /// ```
    pub fn into_error(self) -> E
    where
        E: From<AllocError>,
        ensures { IsErrorOf E.from_gives self result }
    {
        match self {
            OrInsertFault::Failed { key: _, error } => error,
            OrInsertFault::Refused(_pair) => E::from(AllocError),
        }
    }
}

impl<K, V, E> fmt::Debug for OrInsertFault<K, V, E> {
    fn fmt<W: fmt::Write>(&self, f: &mut fmt::Formatter<W>) -> fmt::Result {
        match self {
            OrInsertFault::Failed { .. } => f.debug_struct("Failed").finish_non_exhaustive(),
            OrInsertFault::Refused(_) => f.debug_tuple("Refused").finish_non_exhaustive(),
        }
    }
}

impl<K, V, E: fmt::Display> fmt::Display for OrInsertFault<K, V, E> {
    fn fmt<W: fmt::Write>(&self, f: &mut fmt::Formatter<W>) -> fmt::Result {
        match self {
            OrInsertFault::Failed { key: _, error } => error.fmt(f),
            OrInsertFault::Refused(pair) => pair.fmt(f),
        }
    }
}

impl<K: Drop, V: Drop, E: Error> Error for OrInsertFault<K, V, E> {}

impl<K: Drop, V: Drop> From<OrInsertFault<K, V, AllocError>> for AllocError {
    fn from(fault: OrInsertFault<K, V, AllocError>) -> AllocError {
        fault.into_error()
    }
}

impl<K: Drop, V: Drop> From<OrInsertFault<K, V, io::Error>> for io::Error {
    ghost use Rattle.std.specs.IoError.{error_kind};
    ghost use Rattle.std.specs.declared.io.ErrorKind.TheVariants.{OutOfMemory};

    ghost from_gives = { IsErrorOf (λ _ e. error_kind e ≡ OutOfMemory) };

    fn from(fault: OrInsertFault<K, V, io::Error>) -> io::Error {
        fault.into_error()
    }
}
