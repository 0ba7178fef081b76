//! What a map was made with: its allocator and its hash builder.
ghost use Rattle.std.specs.Prelude.{◌≡◌};

use super::ListOrderedMultimap;
use std::alloc::Allocator;
use std::hash::{BuildHasher, Hash};

impl<K: Eq + Hash, V, S: BuildHasher, A: Allocator> ListOrderedMultimap<K, V, S, A> {
    /// Returns a reference to the allocator of the map.
    ///
    /// It is the one that the map was made with, of which the map takes its memory. A map made with
    /// a copy of it takes its memory from the same place.
    ///
    /// # Complexity
    ///
    /// *O*(1).
    ///
    /// # Examples
    ///
    /// ```
    /// use ordered_multimap::ListOrderedMultimap;
    ///
    /// let mut map = ListOrderedMultimap::new(rt.alloc());
    /// map.append("line", 1)?;
    /// let mut copy = ListOrderedMultimap::new(*map.allocator());
    /// copy.extend_copied(&map)?;
    /// assert!(rt; copy == map);
    /// ```
    pub fn allocator(&self) -> &A {
        self.keys.allocator()
    }

    /// Returns a reference to the hash builder of the map.
    ///
    /// # Complexity
    ///
    /// *O*(1).
    ///
    /// # Examples
    ///
    /// ```
    /// use ordered_multimap::{DefaultState, ListOrderedMultimap};
    /// use std::hash::BuildHasher;
    ///
    /// let mut map = ListOrderedMultimap::with_hasher(rt.alloc(), DefaultState::new());
    /// map.append("line", 1)?;
    /// let hash = DefaultState::new().hash_one(&"line");
    /// assert_eq!(rt; map.hasher().hash_one(&"line"), hash);
    /// ```
    pub fn hasher(&self) -> &S
        ensures { result.now ≡ self.now.hasher }
    {
        &self.state
    }
}
