//! The error of a call that renames a key.
ghost use Rattle.std.specs.Prelude.{◌≡◌, ◌⊎◌};
ghost use Rattle.ordered_multimap.specs.declared.list_ordered_multimap.rename_fault.RenameFault.TheVariants.{Absent, Taken};

use std::error::Error;
use std::fmt;

/// The error of [`rename_key`](crate::ListOrderedMultimap::rename_key), with the new key.
///
/// `Debug` shows which fault it is and no key, so `unwrap` and `expect` ask nothing of the type.
///
/// # Examples
///
/// ```
/// use ordered_multimap::{ListOrderedMultimap, RenameFault};
///
/// let mut map = ListOrderedMultimap::new(rt.alloc());
/// map.append("line", 1)?;
/// map.append("page", 8)?;
/// let mut kept = None;
/// match map.rename_key("line", "page") {
///     Ok(_old) => {}
///     Err(RenameFault::Absent(key)) => kept = Some((key, "absent")),
///     Err(RenameFault::Taken(key)) => kept = Some((key, "taken")),
/// }
/// assert_eq!(rt; kept, Some(("page", "taken")));
/// ```
#[derive(PartialEq, Eq, Drop)]
pub enum RenameFault<K> {
    /// No key was there to be renamed.
    Absent(K),
    /// Another key is equal to the new one.
    Taken(K),
}

impl<K> RenameFault<K> {
    /// Returns the new key that was passed to the call.
    ///
    /// # Complexity
    ///
    /// *O*(1).
    ///
    /// # Examples
    ///
    /// ```
    /// use ordered_multimap::ListOrderedMultimap;
    ///
    /// let mut map = ListOrderedMultimap::new(rt.alloc());
    /// map.append("line", 1)?;
    /// let refused = map.rename_key("page", "word").err();
    /// assert_eq!(rt; refused.map(|fault| fault.into_key()), Some("word"));
    /// ```
    pub fn into_key(self) -> K
        ensures { (self ≡ Absent result) ⊎ (self ≡ Taken result) }
    {
        match self {
            RenameFault::Absent(key) | RenameFault::Taken(key) => key,
        }
    }
}

impl<K> fmt::Debug for RenameFault<K> {
    fn fmt<W: fmt::Write>(&self, f: &mut fmt::Formatter<W>) -> fmt::Result {
        match self {
            RenameFault::Absent(_) => f.debug_tuple("Absent").finish_non_exhaustive(),
            RenameFault::Taken(_) => f.debug_tuple("Taken").finish_non_exhaustive(),
        }
    }
}

impl<K> fmt::Display for RenameFault<K> {
    fn fmt<W: fmt::Write>(&self, f: &mut fmt::Formatter<W>) -> fmt::Result {
        match self {
            RenameFault::Absent(_) => f.write_str("the key to rename is absent"),
            RenameFault::Taken(_) => f.write_str("another key is equal to the new one"),
        }
    }
}

impl<K: Drop> Error for RenameFault<K> {}
