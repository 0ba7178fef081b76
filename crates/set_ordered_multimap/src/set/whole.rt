//! Calls on the set as a whole: equality, clones, `Debug`, and the iterators that take it apart.
ghost use Rattle.std.specs.Cmp.{on_equiv, on_per};
ghost use Rattle.std.specs.Prelude.{◌≡◌, true};
ghost use Rattle.ordered_multimap.specs.Lists.{IsIn};
ghost use Rattle.ordered_multimap.specs.Pairs.{all_values, same_pairs};
ghost use Rattle.set_ordered_multimap.specs.PairLaws.{pairs_equiv, pairs_per};
ghost use Rattle.set_ordered_multimap.specs.SetClones.{ClonesSet};

use super::SetOrderedMultimap;
use ordered_multimap::list_ordered_multimap::{IntoIter, IntoKeys, IntoValues, UnclonedKey};
use std::alloc::{AllocError, Allocator};
use std::fmt;
use std::hash::{BuildHasher, Hash};

/// Compares the pairs, position by position.
///
/// Two sets are equal if they have the same number of pairs, with equal keys and equal values at
/// each position. So unlike std's sets, equal pairs in another order are unequal. The order of the
/// keys may differ.
///
/// # Complexity
///
/// *O*(*n*) for the *n* pairs.
///
/// # Examples
///
/// ```
/// use set_ordered_multimap::SetOrderedMultimap;
///
/// let mut set = SetOrderedMultimap::new(rt.alloc());
/// set.insert("plan", "draft")?;
/// set.insert("note", "draft")?;
/// let mut other = SetOrderedMultimap::new(rt.alloc());
/// other.insert("note", "draft")?;
/// other.insert("plan", "draft")?;
/// assert!(rt; set != other);
/// ```
impl<K: Eq + Hash, V: PartialEq, S: BuildHasher, A: Allocator> PartialEq
    for SetOrderedMultimap<K, V, S, A> {
    ghost eq = { λ m n. same_pairs K.eq V.eq m.lists.pairs n.lists.pairs };

    ghost laws = { on_per (λ m. m.lists.pairs) (pairs_per K.Eq.laws V.laws) };

    fn eq(&self, other: &Self) -> bool {
        self.map == other.map
    }
}

impl<K: Eq + Hash, V: Eq, S: BuildHasher, A: Allocator> Eq for SetOrderedMultimap<K, V, S, A> {
    ghost laws = { on_equiv (λ m. m.lists.pairs) (pairs_equiv K.Eq.laws V.Eq.laws) };
}

impl<
    K: Eq + Hash + Clone,
    V: Eq + Clone,
    S: BuildHasher + Clone,
    A: Allocator + Copy,
> SetOrderedMultimap<K, V, S, A> {
    /// Returns a set of clones of the keys and values, in the same orders.
    ///
    /// The hash builder is cloned too. This is a method of its own, and not that of `Clone`.
    ///
    /// # Errors
    ///
    /// If memory allocation fails, for the set or for a clone, returns `AllocError`.
    ///
    /// # Complexity
    ///
    /// *O*(*n*) for the *n* pairs, and a clone of each key and value.
    ///
    /// # Requires
    ///
    /// A clone of a key is equal to it.
    ///
    /// # Examples
    ///
    /// ```
    /// use set_ordered_multimap::SetOrderedMultimap;
    ///
    /// let mut set = SetOrderedMultimap::new(rt.alloc());
    /// set.insert("plan", "draft")?;
    /// let copy = set.clone()?;
    /// assert!(rt; copy == set);
    /// ```
    pub fn clone(&self) -> Result<Self, AllocError>
        requires { (k c : K) → IsIn k self.now.lists.keys → K.is_clone k c → K.eq k c ≡ true }
        ensures clones { ClonesSet K.eq V.eq K.is_clone V.is_clone S.is_clone S.is_infallible
            self.now result }
    {
        let map = self.map.clone()?;
        Ok(SetOrderedMultimap { map })
    }
}

/// Shows the pairs as those of a map: `{"plan": "draft", "note": "draft", "plan": "long"}`.
impl<K: Eq + Hash + fmt::Debug, V: fmt::Debug, S: BuildHasher, A: Allocator> fmt::Debug
    for SetOrderedMultimap<K, V, S, A> {
    fn fmt<W: fmt::Write>(&self, f: &mut fmt::Formatter<W>) -> fmt::Result {
        self.map.fmt(f)
    }
}

impl<K: Eq + Hash + Clone, V: Drop, S: BuildHasher + Drop, A: Allocator> IntoIterator
    for SetOrderedMultimap<K, V, S, A> {
    type Item = Result<(K, V), UnclonedKey<V>>;

    type IntoIter = IntoIter<K, V, A>;

    ghost into_iter_gives = { λ m r. r ≡ m.lists.pairs };

    /// Consumes the set, and returns an iterator over its pairs, in their order.
    ///
    /// # Errors
    ///
    /// The call can't fail. Each item is a `Result`: an item whose key can't be cloned is
    /// [`UnclonedKey`] with the value, and the iterator goes on after it. A key is cloned only
    /// while another of its values is left.
    ///
    /// # Complexity
    ///
    /// *O*(1), and *O*(1) for each pair, with a clone of the key while another of its values is
    /// left.
    ///
    /// # Examples
    ///
    /// ```
    /// use set_ordered_multimap::SetOrderedMultimap;
    ///
    /// let mut set = SetOrderedMultimap::new(rt.alloc());
    /// set.insert("plan", "draft")?;
    /// set.insert("note", "draft")?;
    /// let mut keys = Vec::new(rt.alloc());
    /// for pair in set {
    ///     let (key, _value) = pair?;
    ///     keys.push(key)?;
    /// }
    /// assert!(rt; keys.iter().eq(&["plan", "note"]));
    /// ```
    fn into_iter(self) -> IntoIter<K, V, A> {
        let SetOrderedMultimap { map } = self;
        map.into_iter()
    }
}

impl<K: Eq + Hash, V: Drop, S: BuildHasher + Drop, A: Allocator> SetOrderedMultimap<K, V, S, A> {
    /// Consumes the set, and returns an iterator over its keys, in their order.
    ///
    /// Each key is yielded once, however many values it has, and no key is cloned. The values are
    /// dropped at the call. For the keys by reference see [`keys`](Self::keys).
    ///
    /// # Complexity
    ///
    /// *O*(value slots in use), to drop the values, and *O*(1) for each key.
    ///
    /// # Examples
    ///
    /// ```
    /// use set_ordered_multimap::SetOrderedMultimap;
    ///
    /// let mut set = SetOrderedMultimap::new(rt.alloc());
    /// set.extend([("plan", "draft"), ("note", "draft"), ("plan", "long")])?;
    /// let mut keys = set.into_keys();
    /// assert_eq!(rt; keys.len(), 2);
    /// assert_eq!(rt; keys.next(), Some("plan"));
    /// assert_eq!(rt; keys.next_back(), Some("note"));
    /// assert_eq!(rt; keys.next(), None);
    /// ```
    pub fn into_keys(self) -> IntoKeys<K, A>
        ensures { result ≡ self.lists.keys }
    {
        let SetOrderedMultimap { map } = self;
        map.into_keys()
    }
}

impl<K: Eq + Hash + Drop, V, S: BuildHasher + Drop, A: Allocator> SetOrderedMultimap<K, V, S, A> {
    /// Consumes the set, and returns an iterator over the values of all pairs, in the order of the
    /// pairs.
    ///
    /// A value of several keys occurs as often. The keys are dropped at the call. For the values by
    /// reference see [`values`](Self::values), and for the pairs [`into_iter`](Self::into_iter).
    ///
    /// # Complexity
    ///
    /// *O*(key slots in use), to drop the keys, and *O*(1) for each value.
    ///
    /// # Examples
    ///
    /// ```
    /// use set_ordered_multimap::SetOrderedMultimap;
    ///
    /// let mut set = SetOrderedMultimap::new(rt.alloc());
    /// set.extend([("plan", "draft"), ("note", "short"), ("plan", "long")])?;
    /// let mut values = set.into_values();
    /// assert_eq!(rt; values.len(), 3);
    /// assert_eq!(rt; values.next(), Some("draft"));
    /// assert_eq!(rt; values.next_back(), Some("long"));
    /// assert_eq!(rt; values.next(), Some("short"));
    /// ```
    pub fn into_values(self) -> IntoValues<V, A>
        ensures { result ≡ all_values self.lists.pairs }
    {
        let SetOrderedMultimap { map } = self;
        map.into_values()
    }
}
