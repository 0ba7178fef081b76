//! The key that `pop_front` and `pop_back` return.
ghost use Rattle.std.specs.Prelude.{◌≡◌, not, IfOk, IsOk};
ghost use Rattle.ordered_multimap.specs.KeyWrappers.{is_owned, IsOwnKey, IsNeverRefused};

use std::alloc::AllocError;

/// The key of a pair that was popped: borrowed if it stays in the map, and owned otherwise.
///
/// This enum is returned by
/// [`ListOrderedMultimap::pop_front`](crate::ListOrderedMultimap::pop_front) and
/// [`pop_back`](crate::ListOrderedMultimap::pop_back). It is like a `Cow` of the key, but a
/// borrowed key and an owned key are never equal, even where the keys are.
///
/// # Examples
///
/// ```
/// use ordered_multimap::{KeyWrapper, ListOrderedMultimap};
///
/// let mut map = ListOrderedMultimap::new(rt.alloc());
/// map.append("line", 1)?;
/// map.append("line", 2)?;
/// assert_eq!(rt; map.pop_front(), Some((KeyWrapper::Borrowed(&"line"), 1)));
/// assert_eq!(rt; map.pop_front(), Some((KeyWrapper::Owned("line"), 2)));
/// ```
#[derive(Debug, Clone, Copy, PartialEq, Eq, Hash, Drop)]
pub enum KeyWrapper<'map, K> {
    /// The key still has a value, and stays in the map.
    Borrowed(&'map K),
    /// The key has left the map with its last value.
    Owned(K),
}

impl<K> KeyWrapper<'_, K> {
    /// Returns `true` if the key is owned, because its last value was popped.
    ///
    /// # Complexity
    ///
    /// *O*(1).
    ///
    /// # Examples
    ///
    /// ```
    /// use ordered_multimap::KeyWrapper;
    ///
    /// assert!(rt; KeyWrapper::Owned("line").is_owned());
    /// assert!(rt; !KeyWrapper::Borrowed(&"line").is_owned());
    /// ```
    pub fn is_owned(&self) -> bool
        ensures { result ≡ is_owned self.now }
    {
        match self {
            KeyWrapper::Borrowed(_) => false,
            KeyWrapper::Owned(_) => true,
        }
    }

    /// Returns `true` if the key is borrowed, because the map has more values of it.
    ///
    /// # Complexity
    ///
    /// *O*(1).
    ///
    /// # Examples
    ///
    /// ```
    /// use ordered_multimap::KeyWrapper;
    ///
    /// assert!(rt; KeyWrapper::Borrowed(&"line").is_borrowed());
    /// assert!(rt; !KeyWrapper::Owned("line").is_borrowed());
    /// ```
    pub fn is_borrowed(&self) -> bool
        ensures { result ≡ not (is_owned self.now) }
    {
        !self.is_owned()
    }
}

impl<K: Clone> KeyWrapper<'_, K> {
    /// Returns the key itself, cloning it if it is borrowed.
    ///
    /// # Errors
    ///
    /// If the key is borrowed and its clone runs out of memory, returns `AllocError`. An owned key
    /// never fails.
    ///
    /// # Complexity
    ///
    /// *O*(1), and a clone of a borrowed key.
    ///
    /// # Examples
    ///
    /// ```
    /// use ordered_multimap::ListOrderedMultimap;
    ///
    /// let mut map = ListOrderedMultimap::new(rt.alloc());
    /// map.append("line", 1)?;
    /// map.append("line", 2)?;
    /// if let Some((key, value)) = map.pop_front() {
    ///     assert_eq!(rt; (key.into_owned()?, value), ("line", 1));
    /// }
    /// ```
    pub fn into_owned(self) -> Result<K, AllocError>
        ensures ok { IfOk result (IsOwnKey K.is_clone self.entry) }
        ensures succeeds { IsNeverRefused K.is_infallible self.entry → IsOk result }
    {
        match self {
            KeyWrapper::Borrowed(key) => key.clone(),
            KeyWrapper::Owned(key) => Ok(key),
        }
    }
}
