//! `ListOrderedMultimap::entry`, and the methods of `Entry`.
ghost use Rattle.std.specs.Prelude.{◌≡◌, Some, None, true, false, IfErr, IfOk, unwrap_or};
ghost use Rattle.std.specs.Borrow.{MutBor, sem};
ghost use Rattle.std.specs.Option.{UnwrapsOrElse};
ghost use Rattle.ordered_multimap.specs.Entries.{FindsRoom, IsEnteredBy, IsEnteredWith, IsEntryOf, IsEntryThere, IsModified};
ghost use Rattle.ordered_multimap.specs.Entries.{entry_map, entry_map_ref, first_value, is_occupied};
ghost use Rattle.ordered_multimap.specs.EntryLends.{lends_entered, rests_with_entry};
ghost use Rattle.ordered_multimap.specs.Pairs.{is_present};

use super::{Entry, OccupiedEntry, VacantEntry};
use crate::list_ordered_multimap::{ListOrderedMultimap, Refused};
use std::alloc::Allocator;
use std::hash::{BuildHasher, Hash};

impl<K: Eq + Hash, V, S: BuildHasher, A: Allocator> ListOrderedMultimap<K, V, S, A> {
    /// Returns the entry of the key, for several operations after one lookup.
    ///
    /// The entry is occupied if the key is present, and vacant otherwise. If it is occupied, the
    /// `key` that was passed is dropped, since the map keeps the stored one. The call doesn't
    /// allocate, and changes nothing.
    ///
    /// # Complexity
    ///
    /// *O*(1) expected. No call on the entry needs another lookup.
    ///
    /// # Examples
    ///
    /// ```
    /// use ordered_multimap::ListOrderedMultimap;
    ///
    /// let mut counts: ListOrderedMultimap<&str, u32> = ListOrderedMultimap::new(rt.alloc());
    /// for word in ["line", "page", "line"] {
    ///     let entry = counts.entry(word);
    ///     entry.and_modify(|count| *count = count.saturating_add(1)).or_insert(1)?;
    /// }
    /// assert!(rt; counts.iter().eq([(&"line", &2), (&"page", &1)]));
    /// ```
    pub fn entry(&mut self, key: K) -> Entry<'_, K, V, S, A>
    where
        K: Drop,
        ensures occupied { is_occupied result ≡ is_present K.eq self.old.lists.pairs key }
        ensures key { IsEntryOf result key }
        ensures unchanged { entry_map result ≡ self.old }
        ensures same_map { (entry_map_ref result).ghost_name ≡ self.entry.ghost_name }
    {
        let (hash, place) = self.look_up(&key);
        match place {
            Some(place) => {
                let first = self.first_place(place);
                Entry::Occupied(OccupiedEntry {
                    map: self,
                    place,
                    first,
                })
            }
            None => Entry::Vacant(VacantEntry {
                map: self,
                hash,
                key,
            }),
        }
    }
}

impl<'map, K: Eq + Hash, V, S: BuildHasher, A: Allocator> Entry<'map, K, V, S, A> {
    /// Calls `f` on the key's first value if the entry is occupied, and returns the entry.
    ///
    /// `f` isn't called if the entry is vacant. The pair keeps its place in both lists.
    ///
    /// # Complexity
    ///
    /// *O*(1), and one call of `f` at most.
    ///
    /// # Requires
    ///
    /// `f` may be called on the key's first value.
    ///
    /// # Examples
    ///
    /// ```
    /// use ordered_multimap::ListOrderedMultimap;
    ///
    /// let mut map = ListOrderedMultimap::new(rt.alloc());
    /// map.entry("line").and_modify(|value| *value = 9).or_insert(42)?;
    /// assert_eq!(rt; map.get("line"), Some(&42));
    /// map.entry("line").and_modify(|value| *value = 9).or_insert(42)?;
    /// assert_eq!(rt; map.get("line"), Some(&9));
    /// ```
    pub fn and_modify<F: FnOnce(&mut V)>(self, f: F) -> Self
        requires { (p : MutBor V) → is_occupied self ≡ true
            → ((k : K) → IsEntryOf self k → first_value self k ≡ Some p.now) → F.pre f p }
        ensures same_map { (entry_map_ref result).ghost_name
            ≡ (entry_map_ref self.entry).ghost_name }
        ensures key { (k : K) → IsEntryOf self.entry k → IsEntryOf result k }
        ensures occupied { is_occupied result ≡ is_occupied self.entry }
        ensures modified { IsModified F.FnOnce f self.entry (entry_map result) }
    {
        match self {
            Entry::Occupied(mut entry) => {
                f(entry.get_mut());
                Entry::Occupied(entry)
            }
            Entry::Vacant(entry) => Entry::Vacant(entry),
        }
    }
}

impl<'map, K: Eq + Hash, V: Drop, S: BuildHasher, A: Allocator + Copy> Entry<'map, K, V, S, A> {
    /// Returns a mutable reference to the key's first value, appending one if the entry is vacant.
    ///
    /// A new pair comes last in both lists, as by [`append`](crate::ListOrderedMultimap::append).
    /// If the entry is occupied, `value` is dropped, and nothing changes. To build the value only
    /// where it is needed, see [`or_insert_with`](Self::or_insert_with).
    ///
    /// # Errors
    ///
    /// If the entry is vacant and memory allocation fails, returns [`Refused`] with the key and
    /// `value`. Both lists are unchanged; capacities may have grown. An occupied entry never fails.
    ///
    /// # Complexity
    ///
    /// *O*(1) expected and amortized, without a lookup.
    ///
    /// # Examples
    ///
    /// ```
    /// use ordered_multimap::ListOrderedMultimap;
    ///
    /// let mut map = ListOrderedMultimap::new(rt.alloc());
    /// map.append("line", 1)?;
    /// assert_eq!(rt; map.entry("line").or_insert(7)?, &1);
    /// *map.entry("page").or_insert(0)? = 8;
    /// assert!(rt; map.iter().eq([(&"line", &1), (&"page", &8)]));
    /// ```
    pub fn or_insert(self, value: V) -> Result<&'map mut V, Refused<K, V>>
        ensures* writes_back { sem 𝓛 (lends_entered K.row V.row S.row A.row S.Hasher.row
            A.Allocator self.entry result) }
        ensures value { IfOk result (λ v. (k : K) → IsEntryOf self.entry k
            → v.now ≡ unwrap_or (first_value self.entry k) value) }
        ensures refused { IfErr result (λ pair. (k : K) → IsEntryOf self.entry k
            → pair ≡ record { key = k; value = value }) }
        ensures succeeds { FindsRoom self.entry result }
    {
        match self {
            Entry::Occupied(entry) => Ok(entry.into_mut()),
            Entry::Vacant(entry) => entry.insert(value),
        }
    }

    /// Returns a mutable reference to the key's first value, appending the result of `f` if vacant.
    ///
    /// `f` is called only if the entry is vacant. The new pair comes last in both lists, as by
    /// [`or_insert`](Self::or_insert). For a function that allocates, or may fail otherwise, see
    /// [`or_try_insert_with`](Self::or_try_insert_with).
    ///
    /// # Errors
    ///
    /// If the entry is vacant and memory allocation fails, returns [`Refused`] with the key and the
    /// value that `f` returned. Both lists are unchanged; capacities may have grown. An occupied
    /// entry never fails.
    ///
    /// # Complexity
    ///
    /// *O*(1) expected and amortized, without a lookup, and one call of `f` at most.
    ///
    /// # Requires
    ///
    /// `f` may be called if the entry is vacant.
    ///
    /// # Examples
    ///
    /// ```
    /// use ordered_multimap::ListOrderedMultimap;
    ///
    /// let mut map = ListOrderedMultimap::new(rt.alloc());
    /// map.append("line", 1)?;
    /// map.entry("line").or_insert_with(|| 7)?;
    /// map.entry("page").or_insert_with(|| 42)?;
    /// assert!(rt; map.iter().eq([(&"line", &1), (&"page", &42)]));
    /// ```
    pub fn or_insert_with<F: FnOnce() -> V>(self, f: F) -> Result<&'map mut V, Refused<K, V>>
        requires { is_occupied self ≡ false → F.pre f }
        ensures* writes_back { sem 𝓛 (lends_entered K.row V.row S.row A.row S.Hasher.row
            A.Allocator self.entry result) }
        ensures value { IfOk result (λ v. (k : K) → IsEntryOf self.entry k
            → UnwrapsOrElse (first_value self.entry k) (F.post f) v.now) }
        ensures refused { IfErr result (λ pair. (k : K) → IsEntryOf self.entry k
            → (pair.key ≡ k) × F.post f pair.value) }
        ensures succeeds { FindsRoom self.entry result }
    {
        match self {
            Entry::Occupied(occupied) => Ok(occupied.into_mut()),
            Entry::Vacant(entry) => entry.insert(f()),
        }
    }

    /// Returns the occupied entry of the key, appending the pair if the entry is vacant.
    ///
    /// A new pair comes last in both lists. If the entry is occupied, `value` is dropped, and
    /// nothing changes. For a reference to the first value see [`or_insert`](Self::or_insert).
    ///
    /// # Errors
    ///
    /// If the entry is vacant and memory allocation fails, returns [`Refused`] with the key and
    /// `value`. Both lists are unchanged; capacities may have grown. An occupied entry never fails.
    ///
    /// # Complexity
    ///
    /// *O*(1) expected and amortized, without a lookup.
    ///
    /// # Examples
    ///
    /// ```
    /// use ordered_multimap::ListOrderedMultimap;
    ///
    /// let mut map = ListOrderedMultimap::new(rt.alloc());
    /// let mut entry = map.entry("line").or_insert_entry(1)?;
    /// entry.append(2)?;
    /// assert!(rt; map.get_all("line").eq(&[1, 2]));
    /// ```
    pub fn or_insert_entry(self, value: V) -> Result<OccupiedEntry<'map, K, V, S, A>, Refused<K, V>>
        ensures* rest { sem 𝓛 (rests_with_entry K.row V.row S.row A.row S.Hasher.row A.Allocator
            self.entry result) }
        ensures ok { IfOk result (λ o. IsEnteredBy self.entry value o.map.now) }
        ensures entry { IfOk result (IsEntryThere self.entry) }
        ensures refused { IfErr result (λ pair. (k : K) → IsEntryOf self.entry k
            → pair ≡ record { key = k; value = value }) }
        ensures succeeds { FindsRoom self.entry result }
    {
        self.or_insert_with_entry(|| value)
    }

    /// Returns the occupied entry of the key, appending the result of `f` if vacant.
    ///
    /// `f` is called only if the entry is vacant. The new pair comes last in both lists, as by
    /// [`or_insert_entry`](Self::or_insert_entry).
    ///
    /// # Errors
    ///
    /// If the entry is vacant and memory allocation fails, returns [`Refused`] with the key and the
    /// value that `f` returned. Both lists are unchanged; capacities may have grown. An occupied
    /// entry never fails.
    ///
    /// # Complexity
    ///
    /// *O*(1) expected and amortized, without a lookup, and one call of `f` at most.
    ///
    /// # Requires
    ///
    /// `f` may be called if the entry is vacant.
    ///
    /// # Examples
    ///
    /// ```
    /// use ordered_multimap::ListOrderedMultimap;
    ///
    /// let mut map = ListOrderedMultimap::new(rt.alloc());
    /// assert_eq!(rt; map.entry("page").or_insert_with_entry(|| 42)?.len(), 1);
    /// assert_eq!(rt; map.get("page"), Some(&42));
    /// ```
    pub fn or_insert_with_entry<F: FnOnce() -> V>(
        self,
        f: F,
    ) -> Result<OccupiedEntry<'map, K, V, S, A>, Refused<K, V>>
        requires { is_occupied self ≡ false → F.pre f }
        ensures* rest { sem 𝓛 (rests_with_entry K.row V.row S.row A.row S.Hasher.row A.Allocator
            self.entry result) }
        ensures ok { IfOk result (λ o. IsEnteredWith (F.post f) self.entry o.map.now) }
        ensures entry { IfOk result (IsEntryThere self.entry) }
        ensures refused { IfErr result (λ pair. (k : K) → IsEntryOf self.entry k
            → (pair.key ≡ k) × F.post f pair.value) }
        ensures succeeds { FindsRoom self.entry result }
    {
        match self {
            Entry::Occupied(entry) => {
                // Taken apart and put together, so that the proof follows the map into the result.
                let OccupiedEntry { map, place, first } = entry;
                Ok(OccupiedEntry { map, place, first })
            }
            Entry::Vacant(entry) => {
                let value = f();
                entry.insert_entry(value)
            }
        }
    }
}
