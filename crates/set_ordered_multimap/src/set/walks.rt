//! The first and the last pair, and iterators for reading.
ghost use Rattle.std.specs.Prelude.{◌≡◌, option_map};
ghost use Rattle.ordered_multimap.specs.End.TheVariants.{Back, Front};
ghost use Rattle.ordered_multimap.specs.KeyLists.{keys_with_values};
ghost use Rattle.ordered_multimap.specs.Pairs.{all_values};
ghost use Rattle.ordered_multimap.specs.Walk.{end_item};

use super::SetOrderedMultimap;
use ordered_multimap::list_ordered_multimap::{Iter, KeyValues, Keys, Values};
use std::alloc::Allocator;
use std::hash::{BuildHasher, Hash};

impl<K: Eq + Hash, V, S: BuildHasher, A: Allocator> SetOrderedMultimap<K, V, S, A> {
    /// Returns the first pair, or `None` if the set is empty.
    ///
    /// To remove it see [`pop_front`](Self::pop_front).
    ///
    /// # Complexity
    ///
    /// *O*(1).
    ///
    /// # Examples
    ///
    /// ```
    /// use set_ordered_multimap::SetOrderedMultimap;
    ///
    /// let mut set = SetOrderedMultimap::new(rt.alloc());
    /// assert_eq!(rt; set.front(), None);
    /// set.insert("plan", "draft")?;
    /// set.insert("note", "draft")?;
    /// assert_eq!(rt; set.front(), Some((&"plan", &"draft")));
    /// ```
    pub fn front(&self) -> Option<(&K, &V)>
        ensures { option_map (λ r. (r.0.now, r.1.now)) result
            ≡ end_item Front self.now.lists.pairs }
    {
        self.map.front()
    }

    /// Returns the last pair, or `None` if the set is empty.
    ///
    /// To remove it see [`pop_back`](Self::pop_back).
    ///
    /// # Complexity
    ///
    /// *O*(1).
    ///
    /// # Examples
    ///
    /// ```
    /// use set_ordered_multimap::SetOrderedMultimap;
    ///
    /// let mut set = SetOrderedMultimap::new(rt.alloc());
    /// assert_eq!(rt; set.back(), None);
    /// set.insert("plan", "draft")?;
    /// set.insert("note", "draft")?;
    /// set.insert("plan", "draft")?;
    /// assert_eq!(rt; set.back(), Some((&"note", &"draft")));
    /// ```
    pub fn back(&self) -> Option<(&K, &V)>
        ensures { option_map (λ r. (r.0.now, r.1.now)) result
            ≡ end_item Back self.now.lists.pairs }
    {
        self.map.back()
    }

    /// Returns an iterator over all pairs, in their order.
    ///
    /// It iterates from both ends, and knows its length. A loop `for (key, value) in &set` uses it
    /// too.
    ///
    /// # Complexity
    ///
    /// *O*(1), and *O*(1) for each pair.
    ///
    /// # Examples
    ///
    /// ```
    /// use set_ordered_multimap::SetOrderedMultimap;
    ///
    /// let mut set = SetOrderedMultimap::new(rt.alloc());
    /// set.insert("plan", "draft")?;
    /// set.insert("note", "draft")?;
    /// assert!(rt; set.iter().eq([(&"plan", &"draft"), (&"note", &"draft")]));
    /// assert_eq!(rt; set.iter().next_back(), Some((&"note", &"draft")));
    /// ```
    pub fn iter(&self) -> Iter<'_, K, V, A>
        ensures { result ≡ self.now.lists.pairs }
    {
        self.map.iter()
    }

    /// Returns an iterator over the keys, in their order.
    ///
    /// It iterates from both ends, and knows its length. Each key occurs once.
    ///
    /// # Complexity
    ///
    /// *O*(1), and *O*(1) for each key.
    ///
    /// # Examples
    ///
    /// ```
    /// use set_ordered_multimap::SetOrderedMultimap;
    ///
    /// let mut set = SetOrderedMultimap::new(rt.alloc());
    /// set.insert("plan", "draft")?;
    /// set.insert("note", "draft")?;
    /// set.insert("plan", "long")?;
    /// assert!(rt; set.keys().eq(&["plan", "note"]));
    /// ```
    pub fn keys(&self) -> Keys<'_, K, A>
        ensures { result ≡ self.now.lists.keys }
    {
        self.map.keys()
    }

    /// Returns an iterator over the values of all pairs, in the order of the pairs.
    ///
    /// It iterates from both ends, and knows its length. A value of several keys occurs as often.
    /// For the values of one key see [`get_all`](Self::get_all).
    ///
    /// # Complexity
    ///
    /// *O*(1), and *O*(1) for each value.
    ///
    /// # Examples
    ///
    /// ```
    /// use set_ordered_multimap::SetOrderedMultimap;
    ///
    /// let mut set = SetOrderedMultimap::new(rt.alloc());
    /// set.insert("plan", "draft")?;
    /// set.insert("note", "draft")?;
    /// set.insert("plan", "long")?;
    /// assert!(rt; set.values().eq(&["draft", "draft", "long"]));
    /// ```
    pub fn values(&self) -> Values<'_, K, V, A>
        ensures { result ≡ all_values self.now.lists.pairs }
    {
        self.map.values()
    }

    /// Returns an iterator over the keys, each with an iterator over its values.
    ///
    /// The keys come in the order of [`keys`](Self::keys), and the values of each in the order of
    /// the pairs. It iterates from both ends, and knows its length. For all pairs in their order
    /// see [`iter`](Self::iter).
    ///
    /// # Complexity
    ///
    /// *O*(1), and *O*(1) for each key.
    ///
    /// # Examples
    ///
    /// ```
    /// use set_ordered_multimap::SetOrderedMultimap;
    ///
    /// let mut set = SetOrderedMultimap::new(rt.alloc());
    /// set.insert("plan", "draft")?;
    /// set.insert("note", "draft")?;
    /// set.insert("plan", "long")?;
    /// for (key, values) in set.pairs() {
    ///     if *key == "plan" {
    ///         assert!(rt; values.eq(&["draft", "long"]));
    ///     } else {
    ///         assert!(rt; values.eq(&["draft"]));
    ///     }
    /// }
    /// ```
    pub fn pairs(&self) -> KeyValues<'_, K, V, A>
        ensures { result ≡ keys_with_values K.eq self.now.lists }
    {
        self.map.pairs()
    }
}

/// Iterates over all pairs, as [`iter`](SetOrderedMultimap::iter) does.
impl<'set, K: Eq + Hash, V, S: BuildHasher, A: Allocator> IntoIterator
    for &'set SetOrderedMultimap<K, V, S, A> {
    type Item = (&'set K, &'set V);

    type IntoIter = Iter<'set, K, V, A>;

    ghost into_iter_gives = { λ m r. r ≡ m.now.lists.pairs };

    fn into_iter(self) -> Iter<'set, K, V, A> {
        self.iter()
    }
}
