//! The key of an `Entry`, and its calls whose function may fail.
ghost use Rattle.std.specs.Prelude.{◌≡◌, false, IfErr, IfOk, Ok};
ghost use Rattle.std.specs.Borrow.{sem};
ghost use Rattle.std.specs.Option.{UnwrapsOrElse};
ghost use Rattle.ordered_multimap.specs.Entries.{IsEnteredWith, IsEntryOf, IsEntryThere};
ghost use Rattle.ordered_multimap.specs.Entries.{Vacant, entry_map, first_value, is_occupied};
ghost use Rattle.ordered_multimap.specs.Keys.{stored_key};
ghost use Rattle.ordered_multimap.specs.TriedEntries.{FailsOnlyVacant, IsFaultOf, lends_tried, rests_tried};

use super::{Entry, OccupiedEntry, VacantEntry};
use crate::list_ordered_multimap::OrInsertFault;
use std::alloc::Allocator;
use std::hash::{BuildHasher, Hash};

impl<'map, K: Eq + Hash, V, S: BuildHasher, A: Allocator> Entry<'map, K, V, S, A> {
    /// Returns a reference to the stored key if the entry is occupied, and to the key that was passed
    /// to `entry` otherwise.
    ///
    /// # Complexity
    ///
    /// *O*(1).
    ///
    /// # Examples
    ///
    /// ```
    /// use ordered_multimap::ListOrderedMultimap;
    ///
    /// let mut map: ListOrderedMultimap<&str, u32> = ListOrderedMultimap::new(rt.alloc());
    /// assert_eq!(rt; map.entry("line").key(), &"line");
    /// ```
    pub fn key(&self) -> &K
        ensures own { IsEntryOf self.now result.now }
        ensures stored { (k : K) → IsEntryOf self.now k
            → result.now ≡ stored_key K.eq (entry_map self.now).lists.keys k }
    {
        match self {
            Entry::Occupied(entry) => entry.key(),
            Entry::Vacant(entry) => entry.key(),
        }
    }
}

impl<'map, K: Eq + Hash, V: Drop, S: BuildHasher, A: Allocator + Copy> Entry<'map, K, V, S, A> {
    /// Returns a mutable reference to the key's first value, appending what `f` returns in an `Ok` if
    /// the entry is vacant.
    ///
    /// `f` is called only if the entry is vacant, and once. The new pair comes last in both lists, as
    /// by [`or_insert`](Self::or_insert). Use it for a value whose making allocates or may fail
    /// otherwise.
    ///
    /// # Errors
    ///
    /// If `f` fails, returns its error in an [`OrInsertFault::Failed`] with the key that was passed to
    /// `entry`. The map is unchanged. If memory allocation for the pair fails, returns it in an
    /// [`OrInsertFault::Refused`]. Both lists are unchanged; capacities may have grown. An occupied
    /// entry never fails.
    ///
    /// # Complexity
    ///
    /// *O*(1) expected and amortized, without a lookup, and one call of `f` at most.
    ///
    /// # Requires
    ///
    /// `f` may be called if the entry is vacant.
    ///
    /// # Examples
    ///
    /// ```
    /// use ordered_multimap::ListOrderedMultimap;
    ///
    /// let mut map = ListOrderedMultimap::new(rt.alloc());
    /// map.entry("line").or_try_insert_with(|| "1".to_string(rt.alloc()))?;
    /// map.entry("line").or_try_insert_with(|| "2".to_string(rt.alloc()))?;
    /// assert_eq!(rt; map.get("line").map(|value| value.as_str()), Some("1"));
    /// ```
    pub fn or_try_insert_with<E, F: FnOnce() -> Result<V, E>>(
        self,
        f: F,
    ) -> Result<&'map mut V, OrInsertFault<K, V, E>>
        requires { is_occupied self ≡ false → F.pre f }
        ensures* writes_back { sem 𝓛 (lends_tried K.row V.row S.row A.row S.Hasher.row A.Allocator
            self.entry result) }
        ensures value { IfOk result (λ v. (k : K) → IsEntryOf self.entry k
            → UnwrapsOrElse (first_value self.entry k) (λ made. F.post f (Ok made)) v.now) }
        ensures fault { IfErr result (IsFaultOf (F.post f) self.entry) }
        ensures succeeds { FailsOnlyVacant self.entry result }
    {
        match self {
            Entry::Occupied(occupied) => Ok(occupied.into_mut()),
            Entry::Vacant(entry) => entry.insert_made(f),
        }
    }

    /// Returns the occupied entry of the key, appending what `f` returns in an `Ok` if vacant.
    ///
    /// `f` is called only if the entry is vacant, and once. The new pair comes last in both lists, as
    /// by [`or_insert_entry`](Self::or_insert_entry).
    ///
    /// # Errors
    ///
    /// Those of [`or_try_insert_with`](Self::or_try_insert_with).
    ///
    /// # Complexity
    ///
    /// *O*(1) expected and amortized, without a lookup, and one call of `f` at most.
    ///
    /// # Requires
    ///
    /// `f` may be called if the entry is vacant.
    ///
    /// # Examples
    ///
    /// ```
    /// use ordered_multimap::ListOrderedMultimap;
    ///
    /// let mut map = ListOrderedMultimap::new(rt.alloc());
    /// let mut entry = map.entry("line").or_try_insert_with_entry(|| "1".to_string(rt.alloc()))?;
    /// entry.append("2".to_string(rt.alloc())?)?;
    /// assert_eq!(rt; map.entry_len("line"), 2);
    /// ```
    pub fn or_try_insert_with_entry<E, F: FnOnce() -> Result<V, E>>(
        self,
        f: F,
    ) -> Result<OccupiedEntry<'map, K, V, S, A>, OrInsertFault<K, V, E>>
        requires { is_occupied self ≡ false → F.pre f }
        ensures* rest { sem 𝓛 (rests_tried K.row V.row S.row A.row S.Hasher.row A.Allocator
            self.entry result) }
        ensures ok { IfOk result (λ o.
            IsEnteredWith (λ made. F.post f (Ok made)) self.entry o.map.now) }
        ensures entry { IfOk result (IsEntryThere self.entry) }
        ensures fault { IfErr result (IsFaultOf (F.post f) self.entry) }
        ensures succeeds { FailsOnlyVacant self.entry result }
    {
        match self {
            Entry::Occupied(entry) => {
                // Taken apart and put together, so that the proof follows the map into the result.
                let OccupiedEntry { map, place, first } = entry;
                Ok(OccupiedEntry { map, place, first })
            }
            Entry::Vacant(entry) => entry.insert_made_entry(f),
        }
    }
}

impl<'map, K: Eq + Hash, V: Drop, S: BuildHasher, A: Allocator + Copy> VacantEntry<
    'map,
    K,
    V,
    S,
    A,
> {
    /// Appends the pair with what the function returns in an `Ok`, and lends the value.
    fn insert_made<E, F: FnOnce() -> Result<V, E>>(
        self,
        f: F,
    ) -> Result<&'map mut V, OrInsertFault<K, V, E>>
        requires { F.pre f }
        ensures* writes_back { sem 𝓛 (lends_tried K.row V.row S.row A.row S.Hasher.row A.Allocator
            (Vacant self.entry) result) }
        ensures value { IfOk result (λ v. F.post f (Ok v.now)) }
        ensures fault { IfErr result (IsFaultOf (F.post f) (Vacant self.entry)) }
        ensures succeeds { FailsOnlyVacant (Vacant self.entry) result }
    {
        let VacantEntry { map, hash, key } = self;
        match f() {
            Ok(value) => match map.append_new(hash, key, value) {
                Ok(place) => Ok(map.first_mut_at(place)),
                Err(refused) => Err(OrInsertFault::Refused(refused)),
            },
            Err(error) => Err(OrInsertFault::Failed { key, error }),
        }
    }

    /// Appends the pair with what the function returns in an `Ok`, and returns the occupied entry.
    fn insert_made_entry<E, F: FnOnce() -> Result<V, E>>(
        self,
        f: F,
    ) -> Result<OccupiedEntry<'map, K, V, S, A>, OrInsertFault<K, V, E>>
        requires { F.pre f }
        ensures* rest { sem 𝓛 (rests_tried K.row V.row S.row A.row S.Hasher.row A.Allocator
            (Vacant self.entry) result) }
        ensures ok { IfOk result (λ o.
            IsEnteredWith (λ made. F.post f (Ok made)) (Vacant self.entry) o.map.now) }
        ensures entry { IfOk result (IsEntryThere (Vacant self.entry)) }
        ensures fault { IfErr result (IsFaultOf (F.post f) (Vacant self.entry)) }
        ensures succeeds { FailsOnlyVacant (Vacant self.entry) result }
    {
        let VacantEntry { map, hash, key } = self;
        match f() {
            Ok(value) => match map.append_new(hash, key, value) {
                Ok(place) => {
                    let first = map.first_place(place);
                    Ok(OccupiedEntry { map, place, first })
                }
                Err(refused) => Err(OrInsertFault::Refused(refused)),
            },
            Err(error) => Err(OrInsertFault::Failed { key, error }),
        }
    }
}
