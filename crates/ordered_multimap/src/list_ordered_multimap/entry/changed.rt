//! The methods of `OccupiedEntry` that append, replace or remove its values.
#![tactic(auto, using(crate::proofs::Remove::ValueByValue::among_in, crate::proofs::Remove::ValueByValue::in_among))]

ghost use Rattle.std.specs.Prelude.{◌≡◌, Some, slice_get};
ghost use Rattle.std.specs.Prelude.{OnOk, IfErr, IsOk};
ghost use Rattle.std.specs.Iterator.{IsFinite};
ghost use Rattle.ordered_multimap.specs.Additions.{IsAppendedAt, RefusesValue};
ghost use Rattle.ordered_multimap.specs.AppendMany.{AppendsManyAt};
ghost use Rattle.ordered_multimap.specs.Changes.{inserted};
ghost use Rattle.ordered_multimap.specs.Entries.{IsOccupiedBy, IsSameEntry, IsSameEntryInRoom, RemovesEntry};
ghost use Rattle.ordered_multimap.specs.Keys.{stored_key};
ghost use Rattle.ordered_multimap.specs.Pairs.{values_of};
ghost use Rattle.ordered_multimap.specs.Removals.{LosesValues};
ghost use Rattle.ordered_multimap.specs.Rooms.{HasValueRoom};
ghost use Rattle.ordered_multimap.specs.Sets.{LeavesOnly};
ghost use Rattle.ordered_multimap.specs.TapeNumbers.{ArePaid};

use super::OccupiedEntry;
use crate::list_ordered_multimap::RefusedValue;
use std::alloc::Allocator;
use std::hash::{BuildHasher, Hash};

impl<'map, K: Eq + Hash, V, S: BuildHasher, A: Allocator> OccupiedEntry<'map, K, V, S, A> {
    /// Appends a value under the entry's key.
    ///
    /// The new pair comes last in the order of pairs, and the key keeps its place in the order of
    /// keys. To append several values see [`append_many`](Self::append_many), and to replace the key's
    /// values [`insert`](Self::insert).
    ///
    /// # Errors
    ///
    /// If memory allocation fails, returns [`RefusedValue`] with `value`. Both lists are unchanged;
    /// capacities may have grown. The call succeeds where the map has room for one more value.
    ///
    /// # Complexity
    ///
    /// *O*(1) amortized, without a lookup.
    ///
    /// # Examples
    ///
    /// ```
    /// use ordered_multimap::{Entry, ListOrderedMultimap};
    ///
    /// let mut map = ListOrderedMultimap::new(rt.alloc());
    /// map.append("line", 1)?;
    /// map.append("page", 8)?;
    /// if let Entry::Occupied(mut entry) = map.entry("line") {
    ///     entry.append(2)?;
    /// }
    /// assert!(rt; map.iter().eq([(&"line", &1), (&"page", &8), (&"line", &2)]));
    /// ```
    pub fn append(&mut self, value: V) -> Result<(), RefusedValue<V>>
    where
        V: Drop,
        A: Copy,
        ensures same_entry { IsSameEntry self.old self.new }
        ensures ok { OnOk result (IsAppendedAt K.eq self.old.place value
            self.old.map.now self.new.map.now) }
        ensures refused { IfErr result (RefusesValue value self.old.map.now self.new.map.now) }
        ensures succeeds { HasValueRoom self.old.map.now → IsOk result }
        ensures paid { ArePaid self.new.map.now.tape }
    {
        let place = self.place;
        let result = self.map.append_at(place, value);
        self.first = self.map.first_place(place);
        result
    }

    /// Appends all values of the iterator under the entry's key, in their order, and returns how many
    /// they are.
    ///
    /// Each pair is added as by [`append`](Self::append). Without values nothing changes. For a key
    /// that may be absent see [`append_many`](crate::ListOrderedMultimap::append_many) of the map.
    ///
    /// # Errors
    ///
    /// Returns [`RefusedValue`] with the first value for which an allocation fails. The values before
    /// it stay in the map; capacities may have grown. The iterator isn't read further: pass
    /// `&mut iter` to keep the values after it. It never fails if there is room for the values.
    ///
    /// # Complexity
    ///
    /// For each value what [`append`](Self::append) takes. It first reserves room for as many values
    /// as the lower bound of the iterator's `size_hint`, and goes on if that allocation fails.
    ///
    /// # Requires
    ///
    /// The iterator is finite.
    ///
    /// # Examples
    ///
    /// ```
    /// use ordered_multimap::{Entry, ListOrderedMultimap};
    ///
    /// let mut map = ListOrderedMultimap::new(rt.alloc());
    /// map.append("line", 1)?;
    /// map.append("page", 8)?;
    /// if let Entry::Occupied(mut entry) = map.entry("line") {
    ///     assert_eq!(rt; entry.append_many([2, 3])?, 2);
    /// }
    /// assert!(rt; map.get_all("line").eq(&[1, 2, 3]));
    /// assert!(rt; map.iter().eq([(&"line", &1), (&"page", &8), (&"line", &2), (&"line", &3)]));
    /// ```
    pub fn append_many<I: IntoIterator<Item = V>>(
        &mut self,
        values: I,
    ) -> Result<usize, RefusedValue<V>>
    where
        V: Drop,
        A: Copy,
        requires { (it : I.IntoIter) → I.into_iter_gives values it
            → I.IntoIter.can_next it × IsFinite (I.IntoIter.remaining it) }
        ensures same_entry { IsSameEntry self.old self.new }
        ensures appended { (it : I.IntoIter) × I.into_iter_gives values it
            × AppendsManyAt K.eq self.old.place I.IntoIter.next_gives I.IntoIter.remaining it
            self.old.map.now self.new.map.now result }
    {
        let place = self.place;
        let appended = self.map.append_many_at(place, values.into_iter());
        self.first = self.map.first_place(place);
        appended
    }

    /// Replaces all values of the key with one, and returns the first of the old values.
    ///
    /// All old pairs of the key leave the map, and the new one comes last in the order of pairs.
    /// The other old values are dropped. The key keeps its place in the order of keys. To write the
    /// first value in place see [`get_mut`](Self::get_mut), and for all old values see
    /// [`insert_all`](Self::insert_all). The call doesn't allocate, and can't fail.
    ///
    /// # Complexity
    ///
    /// *O*(*v*) amortized for the *v* values of the key, without a lookup.
    ///
    /// # Examples
    ///
    /// ```
    /// use ordered_multimap::{Entry, ListOrderedMultimap};
    ///
    /// let mut map = ListOrderedMultimap::new(rt.alloc());
    /// map.append("line", 1)?;
    /// map.append("page", 8)?;
    /// if let Entry::Occupied(mut entry) = map.entry("line") {
    ///     assert_eq!(rt; entry.insert(3), 1);
    /// }
    /// assert!(rt; map.iter().eq([(&"page", &8), (&"line", &3)]));
    /// assert!(rt; map.keys().eq(&["line", "page"]));
    /// ```
    pub fn insert(&mut self, value: V) -> V
    where
        V: Drop,
        ensures same_entry { IsSameEntryInRoom self.old self.new }
        ensures value { (k : K) → IsOccupiedBy self.old k
            → slice_get (values_of K.eq self.old.map.now.lists.pairs k) 0 ≡ Some result }
        ensures inserted { (k : K) → IsOccupiedBy self.old k → LosesValues K.eq
            self.old.map.now self.new.map.now k (inserted K.eq self.old.map.now.lists k value) }
        ensures paid { ArePaid self.new.map.now.tape }
    {
        let place = self.place;
        let old_first = self.map.insert_at(place, value);
        self.first = self.map.first_place(place);
        old_first
    }

    /// Sets the key's first value, removes its other values, and returns the first of the old ones.
    ///
    /// The first pair of the key keeps its place in the order of pairs, and the key in the order of
    /// keys. The other old values are dropped. To put the new pair last see
    /// [`insert`](Self::insert), and to keep the other values [`get_mut`](Self::get_mut). The call
    /// doesn't allocate, and can't fail.
    ///
    /// # Complexity
    ///
    /// *O*(*v*) for the *v* values of the key, without a lookup.
    ///
    /// # Examples
    ///
    /// ```
    /// use ordered_multimap::{Entry, ListOrderedMultimap};
    ///
    /// let mut map = ListOrderedMultimap::new(rt.alloc());
    /// map.append("line", 1)?;
    /// map.append("page", 8)?;
    /// map.append("line", 2)?;
    /// if let Entry::Occupied(mut entry) = map.entry("line") {
    ///     assert_eq!(rt; entry.set(3), 1);
    /// }
    /// assert!(rt; map.iter().eq([(&"line", &3), (&"page", &8)]));
    /// ```
    pub fn set(&mut self, value: V) -> V
    where
        V: Drop,
        ensures same_entry { IsSameEntryInRoom self.old self.new }
        ensures value { (k : K) → IsOccupiedBy self.old k
            → slice_get (values_of K.eq self.old.map.now.lists.pairs k) 0 ≡ Some result }
        ensures only { (k : K) → IsOccupiedBy self.old k
            → LeavesOnly K.eq k value self.old.map.now self.new.map.now }
        ensures paid { ArePaid self.new.map.now.tape }
    {
        let place = self.place;
        let old = self.map.set_at(place, value);
        self.first = self.map.first_place(place);
        old
    }

    /// Removes the key with all its values, and returns the stored key and the first value.
    ///
    /// The other values are dropped. For all values see
    /// [`remove_entry_all`](Self::remove_entry_all). The call doesn't allocate, and leaves the
    /// capacities as they are.
    ///
    /// Proved callers: see CALLING.md.
    ///
    /// # Complexity
    ///
    /// *O*(*v*) expected for the *v* values of the key.
    ///
    /// # Examples
    ///
    /// ```
    /// use ordered_multimap::{Entry, ListOrderedMultimap};
    ///
    /// let mut map = ListOrderedMultimap::new(rt.alloc());
    /// map.append(4, 10)?;
    /// map.append(4, 20)?;
    /// if let Entry::Occupied(entry) = map.entry(4) {
    ///     assert_eq!(rt; entry.remove_entry(), (4, 10));
    /// }
    /// assert!(rt; map.is_empty());
    /// ```
    pub fn remove_entry(self) -> (K, V)
    where
        V: Drop,
        ensures key { (k : K) → IsOccupiedBy self.entry k
            → result.0 ≡ stored_key K.eq self.entry.map.now.lists.keys k }
        ensures value { (k : K) → IsOccupiedBy self.entry k
            → slice_get (values_of K.eq self.entry.map.now.lists.pairs k) 0 ≡ Some result.1 }
        ensures removed { RemovesEntry self.entry self.exit.0.now }
    {
        let place = self.place;
        self.map.take_entry_at(place)
    }

    /// Removes the key with all its values, and returns the first value.
    ///
    /// The stored key and the other values are dropped. For all values see
    /// [`remove_all`](Self::remove_all), and to remove one of several see
    /// [`remove_at`](Self::remove_at). The call doesn't allocate, and leaves the capacities as they
    /// are.
    ///
    /// Proved callers: see CALLING.md.
    ///
    /// # Complexity
    ///
    /// *O*(*v*) expected for the *v* values of the key.
    ///
    /// # Examples
    ///
    /// ```
    /// use ordered_multimap::{Entry, ListOrderedMultimap};
    ///
    /// let mut map = ListOrderedMultimap::new(rt.alloc());
    /// map.append(4, 10)?;
    /// map.append(4, 20)?;
    /// if let Entry::Occupied(entry) = map.entry(4) {
    ///     assert_eq!(rt; entry.remove(), 10);
    /// }
    /// assert!(rt; map.is_empty());
    /// ```
    pub fn remove(self) -> V
    where
        K: Drop,
        V: Drop,
        ensures value { (k : K) → IsOccupiedBy self.entry k
            → slice_get (values_of K.eq self.entry.map.now.lists.pairs k) 0 ≡ Some result }
        ensures removed { RemovesEntry self.entry self.exit.0.now }
    {
        let place = self.place;
        let (_stored, value) = self.map.take_entry_at(place);
        value
    }
}
