//! Creating an empty map.
ghost use Rattle.std.specs.Prelude.{◌≡◌, IfOk};
ghost use Rattle.ordered_multimap.specs.Rooms.{IsNewMap, StartsWithRoom};

use super::{DefaultState, ListOrderedMultimap, NO_CHAIN};
use multimap_slots::{SlotList, Tape};
use multimap_table::KeyTable;
use std::alloc::{AllocError, Allocator};
use std::hash::{BuildHasher, BuildHasherDefault, Hash};

impl<K: Eq + Hash, V, A: Allocator + Copy> ListOrderedMultimap<K, V, DefaultState, A> {
    /// Creates an empty map with the default hash builder.
    ///
    /// It doesn't allocate; additions allocate from `alloc`. To reserve capacity up front see
    /// [`with_capacity`](Self::with_capacity). The default hash builder has a fixed seed: for keys
    /// from untrusted sources see [`with_hasher`](Self::with_hasher).
    ///
    /// # Complexity
    ///
    /// *O*(1).
    ///
    /// # Examples
    ///
    /// ```
    /// use ordered_multimap::ListOrderedMultimap;
    ///
    /// let mut map = ListOrderedMultimap::new(rt.alloc());
    /// assert!(rt; map.is_empty());
    /// map.append("line", 1)?;
    /// assert_eq!(rt; map.get("line"), Some(&1));
    /// ```
    pub fn new(alloc: A) -> Self
        ensures new { IsNewMap result }
    {
        ListOrderedMultimap::with_hasher(alloc, BuildHasherDefault::new())
    }

    /// Creates an empty map with the default hash builder and room for at least `key_capacity` keys
    /// and `value_capacity` values.
    ///
    /// The map holds that many keys and values without allocating again, and may hold more. A
    /// capacity of 0 allocates nothing. All memory comes from `alloc`, now and later. To reserve
    /// more later see [`reserve_keys`](Self::reserve_keys) and
    /// [`reserve_values`](Self::reserve_values).
    ///
    /// # Errors
    ///
    /// Returns [`AllocError`] if an allocation fails, or if a capacity is more than any memory can
    /// hold. It never fails if both capacities are 0.
    ///
    /// # Complexity
    ///
    /// *O*(`key_capacity`). It writes the whole hash table, which has at least four lanes for three
    /// keys.
    ///
    /// # Examples
    ///
    /// ```
    /// use ordered_multimap::ListOrderedMultimap;
    ///
    /// let mut map = ListOrderedMultimap::with_capacity(rt.alloc(), 2, 3)?;
    /// assert!(rt; map.keys_capacity() >= 2);
    /// assert!(rt; map.values_capacity() >= 3);
    ///
    /// // These additions don't allocate, so they can't fail.
    /// map.append("line", 1)?;
    /// map.append("page", 8)?;
    /// map.append("line", 2)?;
    /// ```
    pub fn with_capacity(
        alloc: A,
        key_capacity: usize,
        value_capacity: usize,
    ) -> Result<Self, AllocError>
    where
        K: Drop,
        V: Drop,
        ensures starts { StartsWithRoom key_capacity value_capacity result }
    {
        let state = BuildHasherDefault::new();
        ListOrderedMultimap::with_capacity_and_hasher(alloc, key_capacity, value_capacity, state)
    }
}

impl<K: Eq + Hash, V, S: BuildHasher, A: Allocator + Copy> ListOrderedMultimap<K, V, S, A> {
    /// Creates an empty map with the given hash builder.
    ///
    /// It doesn't allocate; additions allocate from `alloc`. To reserve capacity up front see
    /// [`with_capacity_and_hasher`](Self::with_capacity_and_hasher).
    ///
    /// With a hash builder of a fixed seed, as [`DefaultState`], an attacker who chooses the keys
    /// can make all of them collide, which makes lookups linear. For keys from untrusted sources
    /// use a [`RandomState`](super::RandomState), made by `RandomState::new(&rt)?`: its seed is the
    /// system's.
    ///
    /// # Complexity
    ///
    /// *O*(1).
    ///
    /// # Examples
    ///
    /// ```
    /// use ordered_multimap::{DefaultState, ListOrderedMultimap};
    ///
    /// let mut map = ListOrderedMultimap::with_hasher(rt.alloc(), DefaultState::new());
    /// map.append("line", 1)?;
    /// assert_eq!(rt; map.get("line"), Some(&1));
    /// ```
    pub fn with_hasher(alloc: A, state: S) -> Self
        ensures new { IsNewMap result }
        ensures hasher { result.hasher ≡ state }
    {
        ListOrderedMultimap {
            state,
            keys: SlotList::new(alloc),
            table: KeyTable::new(alloc),
            values: Tape::with_form(alloc),
            left: NO_CHAIN,
        }
    }

    /// Creates an empty map with the given hash builder and room for at least `key_capacity` keys
    /// and `value_capacity` values.
    ///
    /// The map holds that many keys and values without allocating again, and may hold more. A
    /// capacity of 0 allocates nothing. All memory comes from `alloc`, now and later. On the choice
    /// of a hash builder see [`with_hasher`](Self::with_hasher).
    ///
    /// # Errors
    ///
    /// Returns [`AllocError`] if an allocation fails, or if a capacity is more than any memory can
    /// hold. The hash builder is dropped then. It never fails if both capacities are 0.
    ///
    /// # Complexity
    ///
    /// *O*(`key_capacity`). It writes the whole hash table, which has at least four lanes for three
    /// keys.
    ///
    /// # Examples
    ///
    /// ```
    /// use ordered_multimap::{DefaultState, ListOrderedMultimap};
    ///
    /// let state = DefaultState::new();
    /// let mut map = ListOrderedMultimap::with_capacity_and_hasher(rt.alloc(), 2, 3, state)?;
    /// assert!(rt; map.keys_capacity() >= 2);
    /// assert!(rt; map.values_capacity() >= 3);
    /// map.append("line", 1)?;
    /// ```
    pub fn with_capacity_and_hasher(
        alloc: A,
        key_capacity: usize,
        value_capacity: usize,
        state: S,
    ) -> Result<Self, AllocError>
    where
        K: Drop,
        V: Drop,
        S: Drop,
        ensures starts { StartsWithRoom key_capacity value_capacity result }
        ensures hasher { IfOk result (λ m. m.hasher ≡ state) }
    {
        let keys = SlotList::with_capacity(alloc, key_capacity)?;
        let table = KeyTable::with_capacity(alloc, key_capacity)?;
        let values = Tape::with_form_and_capacity(alloc, value_capacity)?;
        Ok(ListOrderedMultimap {
            state,
            keys,
            table,
            values,
            left: NO_CHAIN,
        })
    }
}
