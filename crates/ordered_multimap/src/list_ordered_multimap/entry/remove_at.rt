//! `OccupiedEntry::remove_at`.
#![tactic(auto, using(crate::proofs::Remove::ValueByValue::among_in, crate::proofs::Remove::ValueByValue::in_among))]

ghost use Rattle.std.specs.Prelude.{◌≡◌, cond, is_some};
ghost use Rattle.ordered_multimap.specs.Entries.{IsOccupiedBy, IsSameEntryInRoom};
ghost use Rattle.ordered_multimap.specs.RemovedAt.{removed_at, removable_value_at};
ghost use Rattle.ordered_multimap.specs.TapeNumbers.{TakesOut};

use super::OccupiedEntry;
use std::alloc::Allocator;
use std::hash::{BuildHasher, Hash};

impl<'map, K: Eq + Hash, V, S: BuildHasher, A: Allocator> OccupiedEntry<'map, K, V, S, A> {
    /// Removes the value at an index among the key's values, but never the only one, for which see
    /// [`remove_index`](crate::ListOrderedMultimap::remove_index), and returns it.
    ///
    /// The values are counted from 0, in the order of the pairs. Returns `None`, and changes
    /// nothing, if the index is out of bounds, or if the key has one value alone. So the key stays
    /// present, and keeps its place in the order of keys. To remove the key see
    /// [`remove`](Self::remove). The call doesn't allocate.
    ///
    /// # Complexity
    ///
    /// *O*(*v*) for the *v* values of the key: it follows the values from the nearer end, over half
    /// of them at most.
    ///
    /// # Examples
    ///
    /// ```
    /// use ordered_multimap::{Entry, ListOrderedMultimap};
    ///
    /// let mut map = ListOrderedMultimap::new(rt.alloc());
    /// map.append("line", 1)?;
    /// map.append("line", 2)?;
    /// if let Entry::Occupied(mut entry) = map.entry("line") {
    ///     assert_eq!(rt; entry.remove_at(2), None);
    ///     assert_eq!(rt; entry.remove_at(0), Some(1));
    ///     assert_eq!(rt; entry.remove_at(0), None);
    /// }
    /// assert!(rt; map.get_all("line").eq(&[2]));
    /// ```
    pub fn remove_at(&mut self, index: usize) -> Option<V>
        ensures same_entry { IsSameEntryInRoom self.old self.new }
        ensures value { (k : K) → IsOccupiedBy self.old k
            → result ≡ removable_value_at K.eq self.old.map.now.lists.pairs k index }
        ensures lists { (k : K) → IsOccupiedBy self.old k
            → self.new.map.now.lists ≡ removed_at K.eq self.old.map.now.lists k index }
        ensures taken { TakesOut (cond (is_some result) 1 0)
            self.old.map.now.tape self.new.map.now.tape }
    {
        let place = self.place;
        let value = self.map.take_value_at(place, index);
        self.first = self.map.first_place(place);
        value
    }
}
