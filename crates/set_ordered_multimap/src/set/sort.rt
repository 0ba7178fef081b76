//! Sorting the keys of a set, or its pairs.
ghost use Rattle.std.specs.Prelude.{◌≡◌, ◌<◌, ◌≤◌, length, OnOk, OnErr, IsOk, IsSorted};
ghost use Rattle.std.specs.List.Sorted.{IsSortedByClosure, IsStable, IsStableByClosure};
ghost use Rattle.ordered_multimap.specs.KeySorts.{IsSortedByCachedKey, IsStableByCachedKey};
ghost use Rattle.ordered_multimap.specs.PairSorts.{IsSortedByPairClosure, IsStableByPairClosure};
ghost use Rattle.ordered_multimap.specs.TapeNumbers.{AreUnused};
ghost use Rattle.set_ordered_multimap.specs.SetChanges.{ReordersSet, ReordersSetPairs};

use super::SetOrderedMultimap;
use ordered_multimap::list_ordered_multimap::EntryValues;
use std::alloc::{AllocError, Allocator};
use std::cmp::Ordering;
use std::hash::{BuildHasher, Hash};

impl<K: Eq + Hash, V: Eq, S: BuildHasher, A: Allocator + Copy> SetOrderedMultimap<K, V, S, A> {
    /// Sorts the keys, and leaves the pairs where they are.
    ///
    /// The order of all pairs stays as it is. A key that is added later goes last. To sort by
    /// another order see [`sort_keys_by`](Self::sort_keys_by), and by what a key's values give
    /// [`sort_keys_by_cached_key`](Self::sort_keys_by_cached_key).
    ///
    /// # Errors
    ///
    /// Returns [`AllocError`] if an allocation fails. Both lists are unchanged. It never fails for
    /// a set of no key or of one.
    ///
    /// # Complexity
    ///
    /// *O*(*k* log *k*) comparisons for *k* keys. It reads no value.
    ///
    /// # Examples
    ///
    /// ```
    /// use set_ordered_multimap::SetOrderedMultimap;
    ///
    /// let mut set = SetOrderedMultimap::new(rt.alloc());
    /// set.insert("plan", "draft")?;
    /// set.insert("note", "short")?;
    /// set.sort_keys()?;
    /// assert!(rt; set.keys().eq(&["note", "plan"]));
    /// assert!(rt; set.iter().eq([(&"plan", &"draft"), (&"note", &"short")]));
    /// ```
    pub fn sort_keys(&mut self) -> Result<(), AllocError>
    where
        K: Ord,
        ensures sorted { OnOk result (IsSorted K.cmp self.new.lists.keys) }
        ensures stable { IsStable K.cmp self.old.lists.keys self.new.lists.keys }
        ensures reordered { ReordersSet K.eq V.eq self.old self.new }
        ensures unchanged { OnErr result (self.new ≡ self.old) }
        ensures succeeds { length self.old.lists.keys ≤ 1 → IsOk result }
    {
        self.map.sort_keys()
    }

    /// Sorts the keys by a comparison function, and leaves the pairs where they are.
    ///
    /// The sort is stable: keys for which `cmp` returns `Equal` keep their order. The order of all
    /// pairs stays as it is. If `cmp` is no order, the keys come in some order, each once. To sort
    /// the pairs see [`sort_by`](Self::sort_by).
    ///
    /// # Errors
    ///
    /// Returns [`AllocError`] if an allocation fails. Both lists are unchanged. It never fails for
    /// a set of no key or of one.
    ///
    /// # Complexity
    ///
    /// *O*(*k* log *k*) comparisons for *k* keys. It reads no value.
    ///
    /// # Requires
    ///
    /// `cmp` may be called on any two keys.
    ///
    /// # Examples
    ///
    /// ```
    /// use set_ordered_multimap::SetOrderedMultimap;
    ///
    /// let mut set = SetOrderedMultimap::new(rt.alloc());
    /// set.insert("note", "short")?;
    /// set.insert("plan", "draft")?;
    /// set.sort_keys_by(|a, b| b.cmp(a))?;
    /// assert!(rt; set.keys().eq(&["plan", "note"]));
    /// ```
    pub fn sort_keys_by<F: Fn(&K, &K) -> Ordering>(&mut self, cmp: F) -> Result<(), AllocError>
        requires { F.IsAlwaysCallable cmp }
        ensures sorted { OnOk result (IsSortedByClosure F.FnMut cmp self.new.lists.keys) }
        ensures stable { IsStableByClosure F.FnMut cmp self.old.lists.keys self.new.lists.keys }
        ensures reordered { ReordersSet K.eq V.eq self.old self.new }
        ensures unchanged { OnErr result (self.new ≡ self.old) }
        ensures succeeds { length self.old.lists.keys ≤ 1 → IsOk result }
    {
        self.map.sort_keys_by(cmp)
    }

    /// Sorts the pairs by a comparison function, and leaves the keys where they are.
    ///
    /// `cmp` takes two pairs: a key, its value, the other key and its value. The sort is stable:
    /// pairs for which `cmp` returns `Equal` keep their order. The values of each key come in the
    /// new order of the pairs too. If `cmp` is no order, the pairs come in some order, each once.
    ///
    /// # Errors
    ///
    /// Returns [`AllocError`] if an allocation fails. The set is unchanged then. It never fails for
    /// a set of no pair or of one, which stays as it is.
    ///
    /// # Complexity
    ///
    /// *O*(*n* log *n*) comparisons for *n* pairs. Each value is moved once, to new memory.
    ///
    /// # Requires
    ///
    /// `cmp` may be called on any two pairs.
    ///
    /// # Examples
    ///
    /// ```
    /// use set_ordered_multimap::SetOrderedMultimap;
    ///
    /// let mut set = SetOrderedMultimap::new(rt.alloc());
    /// set.insert("plan", "short")?;
    /// set.insert("note", "long")?;
    /// set.insert("plan", "draft")?;
    /// set.sort_by(|_, value, _, other| value.cmp(other))?;
    /// assert!(rt; set.iter().eq([(&"plan", &"draft"), (&"note", &"long"), (&"plan", &"short")]));
    /// assert!(rt; set.keys().eq(&["plan", "note"]));
    /// ```
    pub fn sort_by<F: Fn(&K, &V, &K, &V) -> Ordering>(&mut self, cmp: F) -> Result<(), AllocError>
    where
        V: Drop,
        requires { F.IsAlwaysCallable cmp }
        ensures sorted { OnOk result (IsSortedByPairClosure F.FnMut cmp self.new.lists.pairs) }
        ensures stable { IsStableByPairClosure F.FnMut cmp self.old.lists.pairs
            self.new.lists.pairs }
        ensures reordered { ReordersSetPairs K.eq V.eq self.old self.new }
        ensures unused { 1 < length self.old.lists.pairs → OnOk result (AreUnused self.new.tape) }
        ensures unchanged { OnErr result (self.new ≡ self.old) }
        ensures few { length self.old.lists.pairs ≤ 1 → self.new ≡ self.old }
        ensures succeeds { length self.old.lists.pairs ≤ 1 → IsOk result }
    {
        self.map.sort_by(cmp)
    }
}

impl<K: Eq + Hash, V: Eq, S: BuildHasher> SetOrderedMultimap<K, V, S> {
    /// Sorts the keys by what a function returns for each key and its values, and leaves the pairs
    /// where they are.
    ///
    /// `f` is called once for each key, with an iterator over its values, and what it returns is
    /// kept until the keys are sorted. The sort is stable: keys for which `f` returns equal values
    /// keep their order. The order of all pairs stays as it is, and so does the order of each key's
    /// values. To sort by the keys alone see [`sort_keys`](Self::sort_keys) and
    /// [`sort_keys_by`](Self::sort_keys_by).
    ///
    /// The set's allocator is `Global`, since the checker can't state a function of an iterator
    /// whose allocator is a parameter.
    ///
    /// # Errors
    ///
    /// Returns [`AllocError`] if an allocation fails. Both lists are unchanged. It never fails for
    /// a set of no key or of one. It allocates a list of the keys' places, and what std's
    /// `sort_by_cached_key` of that list does.
    ///
    /// # Complexity
    ///
    /// A call of `f` for each of the *k* keys, and *O*(*k* log *k*) comparisons of what it returns.
    ///
    /// # Requires
    ///
    /// `f` may be called on any key and any values.
    ///
    /// # Examples
    ///
    /// ```
    /// use set_ordered_multimap::SetOrderedMultimap;
    ///
    /// let mut set = SetOrderedMultimap::new(rt.alloc());
    /// set.extend([("plan", 1), ("note", 8), ("word", 5), ("plan", 2)])?;
    /// set.sort_keys_by_cached_key(|_key, values| values.len())?;
    /// assert!(rt; set.keys().eq(&["note", "word", "plan"]));
    /// assert!(rt; set.values().eq(&[1, 8, 5, 2]));
    /// ```
    pub fn sort_keys_by_cached_key<T: Ord + Drop, F: Fn(&K, EntryValues<'_, K, V>) -> T>(
        &mut self,
        f: F,
    ) -> Result<(), AllocError>
        requires { F.IsAlwaysCallable f }
        ensures sorted { OnOk result (IsSortedByCachedKey F.FnMut T.cmp K.eq f self.new.lists) }
        ensures stable { IsStableByCachedKey F.FnMut T.cmp K.eq f self.old.lists self.new.lists }
        ensures reordered { ReordersSet K.eq V.eq self.old self.new }
        ensures unchanged { OnErr result (self.new ≡ self.old) }
        ensures succeeds { length self.old.lists.keys ≤ 1 → IsOk result }
    {
        self.map.sort_keys_by_cached_key(f)
    }
}
