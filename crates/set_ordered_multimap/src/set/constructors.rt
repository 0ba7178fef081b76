//! Creating an empty set.
ghost use Rattle.std.specs.Prelude.{◌≡◌, IfOk};
ghost use Rattle.ordered_multimap.specs.Rooms.{StartsWithRoom};
ghost use Rattle.set_ordered_multimap.specs.Set.{IsSet};
ghost use Rattle.set_ordered_multimap.specs.SetChanges.{IsNewSet, IsNewSetWith};

use super::SetOrderedMultimap;
use ordered_multimap::ListOrderedMultimap;
use ordered_multimap::list_ordered_multimap::DefaultState;
use std::alloc::{AllocError, Allocator};
use std::hash::{BuildHasher, BuildHasherDefault, Hash};

impl<K: Eq + Hash, V: Eq, A: Allocator + Copy> SetOrderedMultimap<K, V, DefaultState, A> {
    /// Creates an empty set with the default hash builder.
    ///
    /// The call doesn't allocate. The set allocates from `alloc` later. To reserve capacity up
    /// front see [`with_capacity`](Self::with_capacity). The default hash builder has a fixed seed:
    /// for keys that others choose see [`with_hasher`](Self::with_hasher).
    ///
    /// # Complexity
    ///
    /// *O*(1).
    ///
    /// # Examples
    ///
    /// ```
    /// use set_ordered_multimap::SetOrderedMultimap;
    ///
    /// let mut set = SetOrderedMultimap::new(rt.alloc());
    /// set.insert("plan", "draft")?;
    /// assert_eq!(rt; set.values_len(), 1);
    /// ```
    pub fn new(alloc: A) -> Self
        ensures new { IsNewSet K.eq V.eq result }
    {
        SetOrderedMultimap::with_hasher(alloc, BuildHasherDefault::new())
    }

    /// Creates an empty set with the default hash builder and room for at least `key_capacity` keys
    /// and `value_capacity` pairs.
    ///
    /// The set holds that many keys and pairs without allocating again, and may hold more. A
    /// capacity of 0 allocates nothing. All memory comes from `alloc`, now and later. To reserve
    /// more later see [`reserve_keys`](Self::reserve_keys) and
    /// [`reserve_values`](Self::reserve_values).
    ///
    /// # Errors
    ///
    /// Returns [`AllocError`] if an allocation fails, or if a capacity is more than any memory can
    /// hold. It never fails if both capacities are 0.
    ///
    /// # Complexity
    ///
    /// *O*(`key_capacity`). It writes the whole hash table, which has at least four lanes for three
    /// keys.
    ///
    /// # Examples
    ///
    /// ```
    /// use set_ordered_multimap::SetOrderedMultimap;
    ///
    /// let mut set = SetOrderedMultimap::with_capacity(rt.alloc(), 2, 3)?;
    /// assert!(rt; set.keys_capacity() >= 2);
    /// assert!(rt; set.values_capacity() >= 3);
    ///
    /// // These insertions don't allocate, so they can't fail.
    /// set.insert("plan", "draft")?;
    /// set.insert("note", "draft")?;
    /// set.insert("plan", "long")?;
    /// ```
    pub fn with_capacity(
        alloc: A,
        key_capacity: usize,
        value_capacity: usize,
    ) -> Result<Self, AllocError>
    where
        K: Drop,
        V: Drop,
        ensures starts { StartsWithRoom key_capacity value_capacity result }
        ensures set { IfOk result (λ s. IsSet K.eq V.eq s.lists) }
    {
        let state = BuildHasherDefault::new();
        SetOrderedMultimap::with_capacity_and_hasher(alloc, key_capacity, value_capacity, state)
    }
}

impl<K: Eq + Hash, V: Eq, S: BuildHasher, A: Allocator + Copy> SetOrderedMultimap<K, V, S, A> {
    /// Creates an empty set with the given hash builder.
    ///
    /// The call doesn't allocate. The set allocates from `alloc` later. To reserve capacity up
    /// front see [`with_capacity_and_hasher`](Self::with_capacity_and_hasher). For keys that others
    /// choose give it an `ordered_multimap::RandomState`, which has a random seed.
    ///
    /// # Complexity
    ///
    /// *O*(1).
    ///
    /// # Examples
    ///
    /// ```
    /// use ordered_multimap::RandomState;
    /// use set_ordered_multimap::SetOrderedMultimap;
    /// use std::alloc::AllocError;
    ///
    /// let state = RandomState::new(&rt).map_err(|_| AllocError)?;
    /// let mut set = SetOrderedMultimap::with_hasher(rt.alloc(), state);
    /// set.insert("plan", "draft")?;
    /// assert!(rt; set.contains("plan", &"draft"));
    /// ```
    pub fn with_hasher(alloc: A, state: S) -> Self
        ensures new { IsNewSetWith K.eq V.eq state result }
    {
        SetOrderedMultimap {
            map: ListOrderedMultimap::with_hasher(alloc, state),
        }
    }
    /// Creates an empty set with the given hash builder and room for at least `key_capacity` keys
    /// and `value_capacity` pairs.
    ///
    /// The set holds that many keys and pairs without allocating again, and may hold more. A
    /// capacity of 0 allocates nothing. All memory comes from `alloc`, now and later. On the choice
    /// of a hash builder see [`with_hasher`](Self::with_hasher).
    ///
    /// # Errors
    ///
    /// Returns [`AllocError`] if an allocation fails, or if a capacity is more than any memory can
    /// hold. The hash builder is dropped then. It never fails if both capacities are 0.
    ///
    /// # Complexity
    ///
    /// *O*(`key_capacity`). It writes the whole hash table, which has at least four lanes for three
    /// keys.
    ///
    /// # Examples
    ///
    /// ```
    /// use ordered_multimap::DefaultState;
    /// use set_ordered_multimap::SetOrderedMultimap;
    ///
    /// let state = DefaultState::new();
    /// let mut set = SetOrderedMultimap::with_capacity_and_hasher(rt.alloc(), 2, 3, state)?;
    /// assert!(rt; set.keys_capacity() >= 2);
    /// assert!(rt; set.values_capacity() >= 3);
    /// set.insert("plan", "draft")?;
    /// ```
    pub fn with_capacity_and_hasher(
        alloc: A,
        key_capacity: usize,
        value_capacity: usize,
        state: S,
    ) -> Result<Self, AllocError>
    where
        K: Drop,
        V: Drop,
        S: Drop,
        ensures starts { StartsWithRoom key_capacity value_capacity result }
        ensures set { IfOk result (λ s. IsSet K.eq V.eq s.lists) }
        ensures hasher { IfOk result (λ s. s.hasher ≡ state) }
    {
        let map = ListOrderedMultimap::with_capacity_and_hasher(
            alloc,
            key_capacity,
            value_capacity,
            state,
        )?;
        Ok(SetOrderedMultimap { map })
    }
}
