//! The methods of `OccupiedEntry` that return references to its key and values.
#![tactic(auto, using(crate::proofs::Remove::ValueByValue::among_in, crate::proofs::Remove::ValueByValue::in_among))]

ghost use Rattle.std.specs.Prelude.{◌≡◌, ◌<◌, Some, length, slice_get};
ghost use Rattle.std.specs.Borrow.{sem};
ghost use Rattle.ordered_multimap.specs.Changes.{first_written};
ghost use Rattle.ordered_multimap.specs.Entries.{IsOccupiedBy};
ghost use Rattle.multimap_walks.specs.WritingWalk.{entry_values_mut_values, entry_values_mut_name, entry_values_mut_rest, entry_values_mut_positions};
ghost use Rattle.ordered_multimap.specs.EntryLends.{lends_first, lends_to_entry, EndsEntry, lends_values_to_entry};
ghost use Rattle.ordered_multimap.specs.Keys.{stored_key};
ghost use Rattle.ordered_multimap.specs.Pairs.{positions_of, values_of};
ghost use Rattle.ordered_multimap.specs.Writes.{IsWritten, with_first};

use super::OccupiedEntry;
use crate::list_ordered_multimap::{EntryValues, EntryValuesMut};
use std::alloc::Allocator;
use std::hash::{BuildHasher, Hash};

impl<'map, K: Eq + Hash, V, S: BuildHasher, A: Allocator> OccupiedEntry<'map, K, V, S, A> {
    /// Returns a reference to the stored key.
    ///
    /// This is the key in the map, and not the equal one that was passed to `entry`.
    ///
    /// # Complexity
    ///
    /// *O*(1).
    ///
    /// # Examples
    ///
    /// ```
    /// use ordered_multimap::{Entry, ListOrderedMultimap};
    ///
    /// let mut map = ListOrderedMultimap::new(rt.alloc());
    /// map.append("line", 1)?;
    /// if let Entry::Occupied(entry) = map.entry("line") {
    ///     assert_eq!(rt; entry.key(), &"line");
    /// }
    /// ```
    pub fn key(&self) -> &K
        ensures own { IsOccupiedBy self.now result.now }
        ensures stored { (k : K) → IsOccupiedBy self.now k
            → result.now ≡ stored_key K.eq self.now.map.now.lists.keys k }
    {
        self.map.key_at(self.place)
    }

    /// Returns the number of values of the key, which is at least one.
    ///
    /// # Complexity
    ///
    /// *O*(1).
    ///
    /// # Examples
    ///
    /// ```
    /// use ordered_multimap::{Entry, ListOrderedMultimap};
    ///
    /// let mut map = ListOrderedMultimap::new(rt.alloc());
    /// map.append("line", 1)?;
    /// map.append("line", 2)?;
    /// if let Entry::Occupied(entry) = map.entry("line") {
    ///     assert_eq!(rt; entry.len(), 2);
    /// }
    /// ```
    pub fn len(&self) -> usize
        ensures len { (k : K) → IsOccupiedBy self.now k
            → result ≡ length (values_of K.eq self.now.map.now.lists.pairs k) }
        ensures some { 0 < result }
    {
        self.map.len_at(self.place)
    }

    /// Returns a reference to the key's first value.
    ///
    /// For all values of the key see [`iter`](Self::iter), and to change the value in place see
    /// [`get_mut`](Self::get_mut).
    ///
    /// # Complexity
    ///
    /// *O*(1). It reads the slot of the value.
    ///
    /// # Examples
    ///
    /// ```
    /// use ordered_multimap::{Entry, ListOrderedMultimap};
    ///
    /// let mut map = ListOrderedMultimap::new(rt.alloc());
    /// map.append("line", 1)?;
    /// map.append("line", 2)?;
    /// if let Entry::Occupied(entry) = map.entry("line") {
    ///     assert_eq!(rt; entry.get(), &1);
    /// }
    /// ```
    pub fn get(&self) -> &V
        ensures { (k : K) → IsOccupiedBy self.now k
            → slice_get (values_of K.eq self.now.map.now.lists.pairs k) 0 ≡ Some result.now }
    {
        self.map.first_from(self.first)
    }

    /// Returns a mutable reference to the key's first value.
    ///
    /// For a reference that may outlive the entry see [`into_mut`](Self::into_mut), and for all
    /// values of the key see [`iter_mut`](Self::iter_mut). The pair keeps its place in both lists.
    ///
    /// # Complexity
    ///
    /// *O*(1).
    ///
    /// # Examples
    ///
    /// ```
    /// use ordered_multimap::{Entry, ListOrderedMultimap};
    ///
    /// let mut map = ListOrderedMultimap::new(rt.alloc());
    /// map.append("line", 1)?;
    /// map.append("line", 2)?;
    /// if let Entry::Occupied(mut entry) = map.entry("line") {
    ///     *entry.get_mut() = 5;
    ///     assert_eq!(rt; entry.get(), &5);
    /// }
    /// assert!(rt; map.get_all("line").eq(&[5, 2]));
    /// ```
    pub fn get_mut(&mut self) -> &mut V
        ensures* writes_back { sem 𝓛 (lends_to_entry K.row V.row S.row A.row S.Hasher.row
            A.Allocator self.entry result) }
        ensures value { (k : K) → IsOccupiedBy self.old k
            → slice_get (values_of K.eq self.old.map.now.lists.pairs k) 0 ≡ Some result.now }
        ensures written { (k : K) → IsOccupiedBy self.old k → (v : V)
            → IsWritten self.old.map.now (with_first self.old.map.now self.old.place v)
            (first_written K.eq self.old.map.now.lists k v) }
    {
        let first = self.first;
        self.map.first_mut_from(first)
    }

    /// Converts the entry into a mutable reference to the key's first value.
    ///
    /// The reference lives as long as the borrow of the map. If the entry is needed afterwards, see
    /// [`get_mut`](Self::get_mut).
    ///
    /// # Complexity
    ///
    /// *O*(1).
    ///
    /// # Examples
    ///
    /// ```
    /// use ordered_multimap::{Entry, ListOrderedMultimap};
    ///
    /// let mut map = ListOrderedMultimap::new(rt.alloc());
    /// map.append("line", 1)?;
    /// if let Entry::Occupied(entry) = map.entry("line") {
    ///     *entry.into_mut() = 5;
    /// }
    /// assert_eq!(rt; map.get("line"), Some(&5));
    /// ```
    pub fn into_mut(self) -> &'map mut V
        ensures* writes_back { sem 𝓛 (lends_first K.row V.row S.row A.row S.Hasher.row
            A.Allocator self.entry result) }
        ensures value { (k : K) → IsOccupiedBy self.entry k
            → slice_get (values_of K.eq self.entry.map.now.lists.pairs k) 0 ≡ Some result.now }
        ensures written { (k : K) → IsOccupiedBy self.entry k → (v : V)
            → IsWritten self.entry.map.now (with_first self.entry.map.now self.entry.place v)
            (first_written K.eq self.entry.map.now.lists k v) }
    {
        let map = self.map;
        map.first_mut_from(self.first)
    }

    /// Returns an iterator over the key's values, in the order of the pairs.
    ///
    /// It iterates from both ends, and knows its length, as that of
    /// [`get_all`](crate::ListOrderedMultimap::get_all).
    ///
    /// # Complexity
    ///
    /// *O*(1), and *O*(1) for each value.
    ///
    /// # Examples
    ///
    /// ```
    /// use ordered_multimap::{Entry, ListOrderedMultimap};
    ///
    /// let mut map = ListOrderedMultimap::new(rt.alloc());
    /// map.append("line", 1)?;
    /// map.append("page", 8)?;
    /// map.append("line", 2)?;
    /// if let Entry::Occupied(entry) = map.entry("line") {
    ///     assert!(rt; entry.iter().eq(&[1, 2]));
    /// }
    /// ```
    pub fn iter(&self) -> EntryValues<'_, K, V, A>
        ensures values { (k : K) → IsOccupiedBy self.now k
            → result.left ≡ values_of K.eq self.now.map.now.lists.pairs k }
        ensures positions { (k : K) → IsOccupiedBy self.now k
            → result.positions ≡ positions_of K.eq self.now.map.now.lists.pairs k }
        ensures reads { result.reads ≡ 0 }
    {
        self.map.values_at(self.place)
    }

    /// Returns an iterator over mutable references to the key's values, in the order of the pairs.
    ///
    /// The pairs keep their places in both lists. The iterator has a `Drop`, so one that is held in
    /// a variable borrows the entry to the end of its block; `drop` ends it sooner.
    ///
    /// Proved callers: see CALLING.md.
    ///
    /// # Complexity
    ///
    /// *O*(1), and *O*(1) for each value.
    ///
    /// # Examples
    ///
    /// ```
    /// use ordered_multimap::{Entry, ListOrderedMultimap};
    ///
    /// let mut map = ListOrderedMultimap::new(rt.alloc());
    /// map.append("line", 1)?;
    /// map.append("line", 2)?;
    /// if let Entry::Occupied(mut entry) = map.entry("line") {
    ///     for value in entry.iter_mut() {
    ///         *value = 7;
    ///     }
    /// }
    /// assert!(rt; map.get_all("line").eq(&[7, 7]));
    /// ```
    pub fn iter_mut(&mut self) -> EntryValuesMut<'_, K, V, A>
        ensures* writes_back { sem 𝓛 (lends_values_to_entry K.row V.row S.row A.row S.Hasher.row
            A.Allocator self.entry (entry_values_mut_name result)) }
        ensures values { (k : K) → IsOccupiedBy self.old k
            → entry_values_mut_rest result ≡ values_of K.eq self.old.map.now.lists.pairs k }
        ensures positions { (k : K) → IsOccupiedBy self.old k → entry_values_mut_positions result
            ≡ positions_of K.eq self.old.map.now.lists.pairs k }
        ensures ends { EndsEntry K.row V.row S.row A.row S.Hasher.row A.Allocator self.old
            (entry_values_mut_values result) }
    {
        let place = self.place;
        self.map.values_mut_at(place)
    }
}
