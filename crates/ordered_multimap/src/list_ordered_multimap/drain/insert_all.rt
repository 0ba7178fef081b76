//! Inserting a pair in the place of all others of its key, and returning their values.
ghost use Rattle.std.specs.Prelude.{◌≡◌};

use super::EntryValuesDrain;
use crate::list_ordered_multimap::{ListOrderedMultimap, Refused};
use std::alloc::Allocator;
use std::hash::{BuildHasher, Hash};

impl<K: Eq + Hash, V: Drop, S: BuildHasher, A: Allocator + Copy> ListOrderedMultimap<K, V, S, A> {
    ghost use Rattle.std.specs.Borrow.{sem};
    ghost use Rattle.std.specs.Prelude.{IfErr, IfOk, IsOk};
    ghost use Rattle.ordered_multimap.specs.DrainLends.{ends_inserted};
    ghost use Rattle.ordered_multimap.specs.Drains.{DrainsInserted};
    ghost use Rattle.ordered_multimap.specs.Rooms.{HasPairRoom};

    /// Removes all pairs of the key, appends the pair at the end, and returns a double-ended
    /// iterator over the old values.
    ///
    /// The new pair goes last in the order of the pairs. A present key keeps its stored form and
    /// its place among the keys, and the given key is dropped. If the key was absent, the iterator
    /// is empty. The call itself removes the old pairs; [`remove_all`](Self::remove_all) says what
    /// happens to the iterator. To get the first old value only see [`insert`](Self::insert), and
    /// to keep the old pairs [`append`](Self::append).
    ///
    /// # Errors
    ///
    /// Returns [`Refused`] with the key and the value if an allocation fails. Both lists are
    /// unchanged; capacities may have grown. A present key needs room for a value too, since the
    /// new pair is added before the old ones are removed. It never fails if there is room for one
    /// more value and, where the key is absent, for one more key.
    ///
    /// # Complexity
    ///
    /// *O*(*v*) expected, amortized, where *v* is the number of old values of the key. A growth,
    /// and the moving of values into slots that removals left, cost what they cost in
    /// [`append`](Self::append).
    ///
    /// # Examples
    ///
    /// ```
    /// use ordered_multimap::ListOrderedMultimap;
    ///
    /// let mut map = ListOrderedMultimap::new(rt.alloc());
    /// map.append("line", 1)?;
    /// map.append("page", 8)?;
    /// map.append("line", 2)?;
    /// assert!(rt; map.insert_all("line", 3)?.eq([1, 2]));
    /// assert!(rt; map.iter().eq([(&"page", &8), (&"line", &3)]));
    /// assert!(rt; map.keys().eq(&["line", "page"]));
    /// ```
    pub fn insert_all(
        &mut self,
        key: K,
        value: V,
    ) -> Result<EntryValuesDrain<'_, K, V, S, A>, Refused<K, V>>
    where
        K: Drop,
        ensures* rest { sem 𝓛 (ends_inserted K.row V.row S.row A.row S.Hasher.row K.PartialEq
            K.Hash.own S.BuildHasher S.Hasher.Hasher A.Allocator self.entry key result) }
        ensures drain { IfOk result (DrainsInserted K.eq self.old key value) }
        ensures same_map { IfOk result (λ d. d.map.ghost_name ≡ self.entry.ghost_name) }
        ensures refused { IfErr result (λ pair. pair ≡ record { key = key; value = value }) }
        ensures succeeds { HasPairRoom K.eq self.old key → IsOk result }
    {
        self.insert_detaching(key, value)?;
        Ok(EntryValuesDrain { map: self })
    }
}
