//! Iterators over all pairs, over the keys, over all values, and over the values of a key.
ghost use Rattle.std.specs.Prelude.{◌≡◌};
ghost use Rattle.multimap_slots.specs.Lists.{IsIn};
ghost use Rattle.ordered_multimap.specs.Agrees.{HasKey};
ghost use Rattle.ordered_multimap.specs.KeyLists.{keys_with_values};
ghost use Rattle.ordered_multimap.specs.Pairs.{all_values, positions_of, positions_where, values_of, values_where};

use super::ListOrderedMultimap;
use crate::KeyQuery;
use multimap_walks::{EntryValues, Iter, KeyValues, Keys, Values};
use std::alloc::Allocator;
use std::hash::{BuildHasher, Hash};

impl<K: Eq + Hash, V, S: BuildHasher, A: Allocator> ListOrderedMultimap<K, V, S, A> {
    /// Returns an iterator over all pairs, in their order.
    ///
    /// The items have the type `(&K, &V)`. The iterator is double-ended and knows its length.
    /// `for (key, value) in &map` iterates over the same pairs. To write the values see
    /// [`iter_mut`](Self::iter_mut), and for pairs grouped by key [`pairs`](Self::pairs).
    ///
    /// # Complexity
    ///
    /// *O*(1), and *O*(1) for each step, whatever the capacity. A step reads the slots of a value
    /// and of its key.
    ///
    /// # Examples
    ///
    /// ```
    /// use ordered_multimap::ListOrderedMultimap;
    ///
    /// let mut map = ListOrderedMultimap::new(rt.alloc());
    /// map.append("line", 1)?;
    /// map.append("page", 8)?;
    /// map.append("line", 2)?;
    /// assert!(rt; map.iter().eq([(&"line", &1), (&"page", &8), (&"line", &2)]));
    /// assert_eq!(rt; map.iter().len(), 3);
    /// assert_eq!(rt; map.iter().next_back(), Some((&"line", &2)));
    /// ```
    pub fn iter(&self) -> Iter<'_, K, V, A>
        ensures { result ≡ self.now.lists.pairs }
    {
        Iter::new(&self.keys, &self.values)
    }

    /// Returns an iterator over the keys, in their order.
    ///
    /// Each key is yielded once, however many values it has. The iterator is double-ended and knows
    /// its length. For the values as well see [`pairs`](Self::pairs).
    ///
    /// # Complexity
    ///
    /// *O*(1), and *O*(1) for each step, whatever the capacity. A step reads the slot of a key.
    ///
    /// # Examples
    ///
    /// ```
    /// use ordered_multimap::ListOrderedMultimap;
    ///
    /// let mut map = ListOrderedMultimap::new(rt.alloc());
    /// map.append("line", 1)?;
    /// map.append("page", 8)?;
    /// map.append("line", 2)?;
    /// assert!(rt; map.keys().eq(&["line", "page"]));
    ///
    /// // A key that is removed and added again goes last.
    /// map.remove("line");
    /// map.append("line", 3)?;
    /// assert!(rt; map.keys().eq(&["page", "line"]));
    /// ```
    pub fn keys(&self) -> Keys<'_, K, A>
        ensures { result ≡ self.now.lists.keys }
    {
        Keys::new(&self.keys)
    }

    /// Returns an iterator over the values of all pairs, in the order of the pairs.
    ///
    /// The iterator is double-ended and knows its length. For the values of one key see
    /// [`get_all`](Self::get_all), and to write values [`values_mut`](Self::values_mut).
    ///
    /// # Complexity
    ///
    /// *O*(1), and *O*(1) for each step, whatever the capacity. A step reads the slot of a value.
    ///
    /// # Examples
    ///
    /// ```
    /// use ordered_multimap::ListOrderedMultimap;
    ///
    /// let mut map = ListOrderedMultimap::new(rt.alloc());
    /// map.append("line", 1)?;
    /// map.append("page", 8)?;
    /// map.append("line", 2)?;
    /// assert!(rt; map.values().eq(&[1, 8, 2]));
    /// ```
    pub fn values(&self) -> Values<'_, K, V, A>
        ensures { result ≡ all_values self.now.lists.pairs }
    {
        Values::new(&self.values)
    }

    /// Returns an iterator over the keys, each with an iterator over its values.
    ///
    /// The keys come in their order, and the values of each in the order of the pairs. The iterator
    /// is double-ended and knows its length. To write the values see
    /// [`pairs_mut`](Self::pairs_mut), and for all pairs in their order [`iter`](Self::iter).
    ///
    /// # Complexity
    ///
    /// *O*(1), and *O*(1) for each step, whatever the capacity. A step reads the slot of a key, and
    /// no value.
    ///
    /// # Examples
    ///
    /// ```
    /// use ordered_multimap::ListOrderedMultimap;
    ///
    /// let mut map = ListOrderedMultimap::new(rt.alloc());
    /// map.append("line", 1)?;
    /// map.append("page", 8)?;
    /// map.append("line", 2)?;
    /// for (key, values) in map.pairs() {
    ///     if *key == "line" {
    ///         assert!(rt; values.eq(&[1, 2]));
    ///     } else {
    ///         assert!(rt; values.eq(&[8]));
    ///     }
    /// }
    /// ```
    pub fn pairs(&self) -> KeyValues<'_, K, V, A>
        ensures { result ≡ keys_with_values K.eq self.now.lists }
    {
        KeyValues::new(&self.keys, &self.values)
    }

    /// Returns an iterator over the values of the key, in the order of the pairs, which is empty if
    /// the key is absent.
    ///
    /// The iterator is double-ended and knows its length. For the first value only see
    /// [`get`](Self::get), to write the values [`get_all_mut`](Self::get_all_mut), and to remove
    /// them [`remove_all`](Self::remove_all). The key may be a query, as `&str` for `String` keys
    /// ([`KeyQuery`]).
    ///
    /// # Complexity
    ///
    /// *O*(1) expected, and *O*(1) for each step. The call reads the slot of the key, and a step
    /// that of its value and no other.
    ///
    /// # Examples
    ///
    /// ```
    /// use ordered_multimap::ListOrderedMultimap;
    ///
    /// let mut map = ListOrderedMultimap::new(rt.alloc());
    /// map.append("line", 1)?;
    /// map.append("page", 8)?;
    /// map.append("line", 2)?;
    /// assert!(rt; map.get_all("line").eq(&[1, 2]));
    /// assert_eq!(rt; map.get_all("line").next_back(), Some(&2));
    /// assert_eq!(rt; map.get_all("word").len(), 0);
    /// ```
    #[inline]
    pub fn get_all<Q: KeyQuery<K>>(&self, key: Q) -> EntryValues<'_, K, V, A>
        ensures values { result.left ≡ values_where (Q.equivalent key) self.now.lists.pairs }
        ensures positions { result.positions
            ≡ positions_where (Q.equivalent key) self.now.lists.pairs }
        ensures reads { result.reads ≡ 0 }
    {
        match self.look_up(key).1 {
            Some(place) => self.values_at(place),
            None => EntryValues::new(&self.keys, &self.values, None),
        }
    }

    /// A walk over the values of the key at the place.
    #[inline(always)]
    pub(super) fn values_at(&self, place: usize) -> EntryValues<'_, K, V, A>
        requires { IsIn place self.now.slots.keys.order }
        ensures values { (k : K) → HasKey K.eq self.now.slots.keys k place
            → result.left ≡ values_of K.eq self.now.lists.pairs k }
        ensures positions { (k : K) → HasKey K.eq self.now.slots.keys k place
            → result.positions ≡ positions_of K.eq self.now.lists.pairs k }
        ensures reads { result.reads ≡ 0 }
    {
        let link = self.keys.listed_link(place);
        EntryValues::new(&self.keys, &self.values, Some((place, link)))
    }
}

/// Iterates over all pairs in their order, as [`iter`](ListOrderedMultimap::iter) does.
///
/// # Examples
///
/// ```
/// use ordered_multimap::ListOrderedMultimap;
///
/// let mut map = ListOrderedMultimap::new(rt.alloc());
/// map.append("line", 1)?;
/// map.append("line", 2)?;
/// for (key, value) in &map {
///     assert_eq!(rt; *key, "line");
///     assert!(rt; *value < 3);
/// }
/// ```
impl<'map, K: Eq + Hash, V, S: BuildHasher, A: Allocator> IntoIterator
    for &'map ListOrderedMultimap<K, V, S, A> {
    type Item = (&'map K, &'map V);

    type IntoIter = Iter<'map, K, V, A>;

    ghost into_iter_gives = { λ m r. r ≡ m.now.lists.pairs };

    fn into_iter(self) -> Iter<'map, K, V, A> {
        self.iter()
    }
}
