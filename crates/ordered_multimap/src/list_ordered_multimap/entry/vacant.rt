//! The methods of `VacantEntry`.
ghost use Rattle.std.specs.Prelude.{◌≡◌, IfErr, IfOk, IsOk};
ghost use Rattle.std.specs.Borrow.{sem};
ghost use Rattle.ordered_multimap.specs.Additions.{IsAppended};
ghost use Rattle.ordered_multimap.specs.Entries.{IsOccupiedBy, Vacant};
ghost use Rattle.ordered_multimap.specs.Rooms.{HasPairRoom};
ghost use Rattle.ordered_multimap.specs.EntryLends.{lends_entered, rests_with_entry};

use super::{OccupiedEntry, VacantEntry};
use crate::list_ordered_multimap::Refused;
use std::alloc::Allocator;
use std::hash::{BuildHasher, Hash};

impl<'map, K: Eq + Hash, V, S: BuildHasher, A: Allocator> VacantEntry<'map, K, V, S, A> {
    /// Returns a reference to the key that was passed to `entry`.
    ///
    /// An insertion through the entry stores this key.
    ///
    /// # Complexity
    ///
    /// *O*(1).
    ///
    /// # Examples
    ///
    /// ```
    /// use ordered_multimap::{Entry, ListOrderedMultimap};
    ///
    /// let mut map: ListOrderedMultimap<&str, u32> = ListOrderedMultimap::new(rt.alloc());
    /// if let Entry::Vacant(entry) = map.entry("line") {
    ///     assert_eq!(rt; entry.key(), &"line");
    /// }
    /// ```
    pub fn key(&self) -> &K
        ensures { result.now ≡ self.now.key }
    {
        &self.key
    }

    /// Takes ownership of the key that was passed to `entry`.
    ///
    /// The map is unchanged.
    ///
    /// # Complexity
    ///
    /// *O*(1).
    ///
    /// # Examples
    ///
    /// ```
    /// use ordered_multimap::{Entry, ListOrderedMultimap};
    ///
    /// let mut map: ListOrderedMultimap<&str, u32> = ListOrderedMultimap::new(rt.alloc());
    /// if let Entry::Vacant(entry) = map.entry("line") {
    ///     assert_eq!(rt; entry.into_key(), "line");
    /// }
    /// assert!(rt; map.is_empty());
    /// ```
    pub fn into_key(self) -> K
        ensures key { result ≡ self.entry.key }
        ensures unchanged { self.exit.0.now ≡ self.entry.map.now }
    {
        self.key
    }
}

impl<'map, K: Eq + Hash, V: Drop, S: BuildHasher, A: Allocator + Copy> VacantEntry<
    'map,
    K,
    V,
    S,
    A,
> {
    /// Appends the pair with the entry's key, and returns a mutable reference to the value.
    ///
    /// The pair comes last in the order of pairs, and the key last in the order of keys.
    ///
    /// # Errors
    ///
    /// If memory allocation fails, returns [`Refused`] with the key and `value`. Both lists are
    /// unchanged; capacities may have grown. The call succeeds where the map has room for one more
    /// key and value.
    ///
    /// # Complexity
    ///
    /// *O*(1) expected and amortized, without a lookup.
    ///
    /// # Examples
    ///
    /// ```
    /// use ordered_multimap::{Entry, ListOrderedMultimap};
    ///
    /// let mut map = ListOrderedMultimap::new(rt.alloc());
    /// map.append("line", 1)?;
    /// if let Entry::Vacant(entry) = map.entry("page") {
    ///     *entry.insert(0)? = 8;
    /// }
    /// assert!(rt; map.iter().eq([(&"line", &1), (&"page", &8)]));
    /// ```
    pub fn insert(self, value: V) -> Result<&'map mut V, Refused<K, V>>
        ensures* writes_back { sem 𝓛 (lends_entered K.row V.row S.row A.row S.Hasher.row
            A.Allocator (Vacant self.entry) result) }
        ensures value { IfOk result (λ v. v.now ≡ value) }
        ensures refused { IfErr result (λ pair.
            pair ≡ record { key = self.entry.key; value = value }) }
        ensures succeeds { HasPairRoom K.eq self.entry.map.now self.entry.key → IsOk result }
    {
        let VacantEntry { map, hash, key } = self;
        match map.append_new(hash, key, value) {
            Ok(place) => Ok(map.first_mut_at(place)),
            Err(refused) => Err(refused),
        }
    }

    /// Appends the pair with the entry's key, and returns the entry, which is now occupied.
    ///
    /// The pair comes last in both lists, as by [`insert`](Self::insert).
    ///
    /// # Errors
    ///
    /// If memory allocation fails, returns [`Refused`] with the key and `value`. Both lists are
    /// unchanged; capacities may have grown. The call succeeds where the map has room for one more
    /// key and value.
    ///
    /// # Complexity
    ///
    /// *O*(1) expected and amortized, without a lookup.
    ///
    /// # Examples
    ///
    /// ```
    /// use ordered_multimap::{Entry, ListOrderedMultimap};
    ///
    /// let mut map = ListOrderedMultimap::new(rt.alloc());
    /// if let Entry::Vacant(entry) = map.entry("line") {
    ///     let mut occupied = entry.insert_entry(1)?;
    ///     occupied.append(2)?;
    /// }
    /// assert!(rt; map.get_all("line").eq(&[1, 2]));
    /// ```
    pub fn insert_entry(self, value: V) -> Result<OccupiedEntry<'map, K, V, S, A>, Refused<K, V>>
        ensures* rest { sem 𝓛 (rests_with_entry K.row V.row S.row A.row S.Hasher.row A.Allocator
            (Vacant self.entry) result) }
        ensures ok { IfOk result (λ o. IsAppended K.eq self.entry.key value self.entry.map.now
            o.map.now) }
        ensures same_map { IfOk result (λ o. o.map.ghost_name ≡ self.entry.map.ghost_name) }
        ensures same_key { IfOk result (λ o. IsOccupiedBy o self.entry.key) }
        ensures refused { IfErr result (λ pair.
            pair ≡ record { key = self.entry.key; value = value }) }
        ensures succeeds { HasPairRoom K.eq self.entry.map.now self.entry.key → IsOk result }
    {
        let VacantEntry { map, hash, key } = self;
        match map.append_new(hash, key, value) {
            Ok(place) => {
                let first = map.first_place(place);
                Ok(OccupiedEntry { map, place, first })
            }
            Err(refused) => Err(refused),
        }
    }
}
