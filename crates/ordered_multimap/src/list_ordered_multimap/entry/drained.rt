//! The methods of `OccupiedEntry` that return a drain of its values.
#![tactic(auto, using(crate::proofs::Remove::ValueByValue::among_in, crate::proofs::Remove::ValueByValue::in_among))]

ghost use Rattle.std.specs.Prelude.{◌≡◌, IfOk, IfErr, IsOk};
ghost use Rattle.std.specs.Borrow.{sem};
ghost use Rattle.ordered_multimap.specs.Drains.{DrainsEntry, DrainsInserted};
ghost use Rattle.ordered_multimap.specs.Entries.{IsOccupiedBy};
ghost use Rattle.ordered_multimap.specs.EntryLends.{rests_with_drain};
ghost use Rattle.ordered_multimap.specs.Keys.{stored_key};
ghost use Rattle.ordered_multimap.specs.Rooms.{HasValueRoom};

use super::OccupiedEntry;
use crate::list_ordered_multimap::{EntryValuesDrain, RefusedValue};
use std::alloc::Allocator;
use std::hash::{BuildHasher, Hash};

impl<'map, K: Eq + Hash, V: Drop, S: BuildHasher, A: Allocator> OccupiedEntry<'map, K, V, S, A> {
    /// Removes the key with all its values, and returns a draining iterator over the values.
    ///
    /// The pairs leave the map at this call, whatever becomes of the iterator. Values that weren't
    /// taken are dropped with it; if it is leaked, they are dropped when their slots are used
    /// again, or with the map. The stored key is dropped. The call doesn't allocate.
    ///
    /// Proved callers: see CALLING.md.
    ///
    /// # Complexity
    ///
    /// *O*(*v*) expected for the *v* values of the key, and *O*(1) for each step of the iterator.
    ///
    /// # Examples
    ///
    /// ```
    /// use ordered_multimap::{Entry, ListOrderedMultimap};
    ///
    /// let mut map = ListOrderedMultimap::new(rt.alloc());
    /// map.append(4, 10)?;
    /// map.append(7, 30)?;
    /// map.append(4, 20)?;
    /// if let Entry::Occupied(entry) = map.entry(4) {
    ///     assert!(rt; entry.remove_all().eq([10, 20]));
    /// }
    /// assert!(rt; map.iter().eq([(&7, &30)]));
    /// ```
    pub fn remove_all(self) -> EntryValuesDrain<'map, K, V, S, A>
    where
        K: Drop,
        ensures drain { (k : K) → IsOccupiedBy self.entry k
            → DrainsEntry K.eq self.entry.map.now k result }
        ensures same_map { result.map.ghost_name ≡ self.entry.map.ghost_name }
    {
        let OccupiedEntry { map, place, .. } = self;
        drop(map.detach_at(place));
        map.lend_to_drain()
    }

    /// Removes the key with all its values, and returns the stored key and a draining iterator.
    ///
    /// The pairs leave the map at this call, as by [`remove_all`](Self::remove_all). The call
    /// doesn't allocate.
    ///
    /// Proved callers: see CALLING.md.
    ///
    /// # Complexity
    ///
    /// *O*(*v*) expected for the *v* values of the key, and *O*(1) for each step of the iterator.
    ///
    /// # Examples
    ///
    /// ```
    /// use ordered_multimap::{Entry, ListOrderedMultimap};
    ///
    /// let mut map = ListOrderedMultimap::new(rt.alloc());
    /// map.append(4, 10)?;
    /// map.append(4, 20)?;
    /// if let Entry::Occupied(entry) = map.entry(4) {
    ///     let (key, values) = entry.remove_entry_all();
    ///     assert_eq!(rt; key, 4);
    ///     assert!(rt; values.eq([10, 20]));
    /// }
    /// assert!(rt; map.is_empty());
    /// ```
    pub fn remove_entry_all(self) -> (K, EntryValuesDrain<'map, K, V, S, A>)
        ensures key { (k : K) → IsOccupiedBy self.entry k
            → result.0 ≡ stored_key K.eq self.entry.map.now.lists.keys k }
        ensures drain { (k : K) → IsOccupiedBy self.entry k
            → DrainsEntry K.eq self.entry.map.now k result.1 }
        ensures same_map { result.1.map.ghost_name ≡ self.entry.map.ghost_name }
    {
        let OccupiedEntry { map, place, .. } = self;
        let stored = map.detach_at(place);
        (stored, map.lend_to_drain())
    }

    /// Replaces all values of the key with one, and returns a draining iterator over the old ones.
    ///
    /// All old pairs of the key leave the map at this call, whatever becomes of the iterator, and
    /// the new pair comes last in the order of pairs. The key keeps its place in the order of keys.
    /// The call takes the entry by value, and the iterator borrows the map as long as the entry
    /// did. For the first old value alone see [`insert`](Self::insert), which can't fail.
    ///
    /// # Errors
    ///
    /// If memory allocation fails, returns [`RefusedValue`] with `value`. Both lists are unchanged;
    /// capacities may have grown. The call succeeds where the map has room for one more value.
    ///
    /// # Complexity
    ///
    /// *O*(*v*) amortized for the *v* values of the key, and *O*(1) for each step of the iterator.
    ///
    /// # Examples
    ///
    /// ```
    /// use ordered_multimap::{Entry, ListOrderedMultimap};
    ///
    /// let mut map = ListOrderedMultimap::new(rt.alloc());
    /// map.append("line", 1)?;
    /// map.append("line", 2)?;
    /// if let Entry::Occupied(entry) = map.entry("line") {
    ///     assert!(rt; entry.insert_all(3)?.eq([1, 2]));
    /// }
    /// assert!(rt; map.get_all("line").eq(&[3]));
    /// ```
    pub fn insert_all(self, value: V) -> Result<EntryValuesDrain<'map, K, V, S, A>, RefusedValue<V>>
    where
        A: Copy,
        ensures* rest { sem 𝓛 (rests_with_drain K.row V.row S.row A.row S.Hasher.row A.Allocator
            self.entry result) }
        ensures drain { IfOk result (λ d. (k : K) → IsOccupiedBy self.entry k
            → DrainsInserted K.eq self.entry.map.now k value d) }
        ensures same_map { IfOk result (λ d. d.map.ghost_name ≡ self.entry.map.ghost_name) }
        ensures refused { IfErr result (λ r. r.value ≡ value) }
        ensures succeeds { HasValueRoom self.entry.map.now → IsOk result }
    {
        let OccupiedEntry { map, place, .. } = self;
        match map.insert_detaching_at(place, value) {
            Ok(()) => Ok(map.lend_to_drain()),
            Err(refused) => Err(refused),
        }
    }
}
