//! Lookups of a pair, and of a key and its values.
ghost use Rattle.std.specs.Prelude.{◌≡◌, find, length, option_copied, option_map, slice_get};
ghost use Rattle.ordered_multimap.specs.End.TheVariants.{Back};
ghost use Rattle.ordered_multimap.specs.Pairs.{is_present_where, positions_where, values_where};
ghost use Rattle.ordered_multimap.specs.Walk.{end_item};
ghost use Rattle.set_ordered_multimap.specs.Set.{has_pair_where};

use super::SetOrderedMultimap;
use ordered_multimap::KeyQuery;
use ordered_multimap::list_ordered_multimap::EntryValues;
use std::alloc::Allocator;
use std::hash::{BuildHasher, Hash};

impl<K: Eq + Hash, V: Eq, S: BuildHasher, A: Allocator> SetOrderedMultimap<K, V, S, A> {
    /// Returns `true` if the set has a pair with an equal key and an equal value.
    ///
    /// The key may be a query, as a `&str` for `String` keys ([`KeyQuery`]). To ask for the key
    /// alone see [`contains_key`](Self::contains_key).
    ///
    /// # Complexity
    ///
    /// *O*(*v*) expected for the *v* values of the key: it compares them in order, up to the equal
    /// one.
    ///
    /// # Examples
    ///
    /// ```
    /// use set_ordered_multimap::SetOrderedMultimap;
    ///
    /// let mut set = SetOrderedMultimap::new(rt.alloc());
    /// set.insert(String::from_str(rt.alloc(), "plan")?, 1)?;
    /// assert!(rt; set.contains("plan", &1));
    /// assert!(rt; !set.contains("plan", &2));
    /// assert!(rt; !set.contains("note", &1));
    /// ```
    pub fn contains<Q: KeyQuery<K>>(&self, key: Q, value: &V) -> bool
        ensures { result
            ≡ has_pair_where (Q.equivalent key) V.eq self.now.lists.pairs value.now }
    {
        self.map.contains(key, value)
    }
}

impl<K: Eq + Hash, V, S: BuildHasher, A: Allocator> SetOrderedMultimap<K, V, S, A> {
    /// Returns `true` if the key has a value.
    ///
    /// To ask for a pair see [`contains`](Self::contains), and for the number of values
    /// [`entry_len`](Self::entry_len). The key may be a query ([`KeyQuery`]).
    ///
    /// # Complexity
    ///
    /// *O*(1) expected.
    ///
    /// # Examples
    ///
    /// ```
    /// use set_ordered_multimap::SetOrderedMultimap;
    ///
    /// let mut set = SetOrderedMultimap::new(rt.alloc());
    /// set.insert("plan", "draft")?;
    /// assert!(rt; set.contains_key("plan"));
    /// assert!(rt; !set.contains_key("note"));
    /// ```
    pub fn contains_key<Q: KeyQuery<K>>(&self, key: Q) -> bool
        ensures { result ≡ is_present_where (Q.equivalent key) self.now.lists.pairs }
    {
        self.map.contains_key(key)
    }

    /// Returns the number of values of the key, which is 0 if the key is absent.
    ///
    /// The key may be a query ([`KeyQuery`]).
    ///
    /// # Complexity
    ///
    /// *O*(1) expected.
    ///
    /// # Examples
    ///
    /// ```
    /// use set_ordered_multimap::SetOrderedMultimap;
    ///
    /// let mut set = SetOrderedMultimap::new(rt.alloc());
    /// set.insert("plan", "draft")?;
    /// set.insert("plan", "long")?;
    /// assert_eq!(rt; set.entry_len("plan"), 2);
    /// assert_eq!(rt; set.entry_len("note"), 0);
    /// ```
    pub fn entry_len<Q: KeyQuery<K>>(&self, key: Q) -> usize
        ensures { result ≡ length (values_where (Q.equivalent key) self.now.lists.pairs) }
    {
        self.map.entry_len(key)
    }

    /// Returns the first value of the key, or `None` if the key is absent.
    ///
    /// For the last value see [`get_last`](Self::get_last), for all values of the key
    /// [`get_all`](Self::get_all), and to ask for a pair [`contains`](Self::contains). The key may
    /// be a query ([`KeyQuery`]).
    ///
    /// # Complexity
    ///
    /// *O*(1) expected. It reads the slots of the key and of the value.
    ///
    /// # Examples
    ///
    /// ```
    /// use set_ordered_multimap::SetOrderedMultimap;
    ///
    /// let mut set = SetOrderedMultimap::new(rt.alloc());
    /// set.insert("plan", "draft")?;
    /// set.insert("plan", "long")?;
    /// assert_eq!(rt; set.get("plan"), Some(&"draft"));
    /// assert_eq!(rt; set.get("note"), None);
    /// ```
    pub fn get<Q: KeyQuery<K>>(&self, key: Q) -> Option<&V>
        ensures { option_copied result
            ≡ slice_get (values_where (Q.equivalent key) self.now.lists.pairs) 0 }
    {
        self.map.get(key)
    }

    /// Returns the stored key with its first value, or `None` if the key is absent.
    ///
    /// The stored key is the one that was inserted first, and may differ from an equal key in what
    /// `==` doesn't compare. For the value only see [`get`](Self::get). The key may be a query
    /// ([`KeyQuery`]).
    ///
    /// # Complexity
    ///
    /// *O*(1) expected. It reads the slots of the key and of the value.
    ///
    /// # Examples
    ///
    /// ```
    /// use set_ordered_multimap::SetOrderedMultimap;
    ///
    /// let mut set = SetOrderedMultimap::new(rt.alloc());
    /// set.insert("plan", "draft")?;
    /// set.insert("plan", "long")?;
    /// assert_eq!(rt; set.get_key_value("plan"), Some((&"plan", &"draft")));
    /// assert_eq!(rt; set.get_key_value("note"), None);
    /// ```
    pub fn get_key_value<Q: KeyQuery<K>>(&self, key: Q) -> Option<(&K, &V)>
        ensures key { option_map (λ r. r.0.now) result
            ≡ find (Q.equivalent key) self.now.lists.keys }
        ensures value { option_map (λ r. r.1.now) result
            ≡ slice_get (values_where (Q.equivalent key) self.now.lists.pairs) 0 }
    {
        self.map.get_key_value(key)
    }

    /// Returns the last value of the key, or `None` if the key is absent.
    ///
    /// For the first value see [`get`](Self::get), and for all values of the key
    /// [`get_all`](Self::get_all). The key may be a query ([`KeyQuery`]).
    ///
    /// # Complexity
    ///
    /// *O*(1) expected, however many values the key has.
    ///
    /// # Examples
    ///
    /// ```
    /// use set_ordered_multimap::SetOrderedMultimap;
    ///
    /// let mut set = SetOrderedMultimap::new(rt.alloc());
    /// set.insert("plan", "draft")?;
    /// set.insert("plan", "long")?;
    /// set.insert("plan", "draft")?;
    /// assert_eq!(rt; set.get_last("plan"), Some(&"long"));
    /// assert_eq!(rt; set.get_last("note"), None);
    /// ```
    pub fn get_last<Q: KeyQuery<K>>(&self, key: Q) -> Option<&V>
        ensures { option_copied result
            ≡ end_item Back (values_where (Q.equivalent key) self.now.lists.pairs) }
    {
        self.map.get_last(key)
    }

    /// Returns an iterator over the key's values, in the order of the pairs.
    ///
    /// The iterator is empty if the key is absent. It iterates from both ends, and knows its
    /// length. The key may be a query ([`KeyQuery`]).
    ///
    /// # Complexity
    ///
    /// *O*(1) expected, and *O*(1) for each value. A step reads the slot of its value, and no
    /// other.
    ///
    /// # Examples
    ///
    /// ```
    /// use set_ordered_multimap::SetOrderedMultimap;
    ///
    /// let mut set = SetOrderedMultimap::new(rt.alloc());
    /// set.insert("plan", "draft")?;
    /// set.insert("note", "draft")?;
    /// set.insert("plan", "long")?;
    /// assert!(rt; set.get_all("plan").eq(&["draft", "long"]));
    /// assert_eq!(rt; set.get_all("word").len(), 0);
    /// ```
    pub fn get_all<Q: KeyQuery<K>>(&self, key: Q) -> EntryValues<'_, K, V, A>
        ensures values { result.left ≡ values_where (Q.equivalent key) self.now.lists.pairs }
        ensures positions { result.positions
            ≡ positions_where (Q.equivalent key) self.now.lists.pairs }
        ensures reads { result.reads ≡ 0 }
    {
        self.map.get_all(key)
    }
}
