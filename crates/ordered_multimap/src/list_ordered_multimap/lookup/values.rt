//! The stored key with its first value, the last value of a key, and whether a key has a value.
ghost use Rattle.std.specs.Prelude.{◌≡◌, find, option_copied, option_map, slice_get};
ghost use Rattle.std.specs.List.{list_any};
ghost use Rattle.multimap_walks.specs.Walk.{end_item};
ghost use Rattle.multimap_walks.specs.declared.End.TheVariants.{Back};
ghost use Rattle.ordered_multimap.specs.Pairs.{values_where};

use crate::KeyQuery;
use crate::list_ordered_multimap::ListOrderedMultimap;
use multimap_walks::EntryValues;
use std::alloc::Allocator;
use std::hash::{BuildHasher, Hash};

/// Whether a walk over a key's values gives one that is equal to `value`.
fn has_value<K, V: PartialEq, A: Allocator>(values: EntryValues<'_, K, V, A>, value: &V) -> bool
    ensures { result ≡ list_any (V.eq value.now) values.entry.left }
{
    for stored in values {
        if value == stored {
            return true;
        }
    }
    false
}

impl<K: Eq + Hash, V, S: BuildHasher, A: Allocator> ListOrderedMultimap<K, V, S, A> {
    /// Returns the stored key with its first value, or `None` if the key is absent.
    ///
    /// The stored key is the one that was added first, and may differ from an equal key in what
    /// `==` doesn't compare. For the value only see [`get`](Self::get), and to remove the key
    /// [`remove_entry`](Self::remove_entry). The key may be a query ([`KeyQuery`]).
    ///
    /// # Complexity
    ///
    /// *O*(1) expected. It reads the slots of the key and of the value.
    ///
    /// # Examples
    ///
    /// ```
    /// use ordered_multimap::ListOrderedMultimap;
    ///
    /// let mut map = ListOrderedMultimap::new(rt.alloc());
    /// map.append("line", 1)?;
    /// map.append("line", 2)?;
    /// assert_eq!(rt; map.get_key_value("line"), Some((&"line", &1)));
    /// assert_eq!(rt; map.get_key_value("word"), None);
    /// ```
    pub fn get_key_value<Q: KeyQuery<K>>(&self, key: Q) -> Option<(&K, &V)>
        ensures key { option_map (λ r. r.0.now) result
            ≡ find (Q.equivalent key) self.now.lists.keys }
        ensures value { option_map (λ r. r.1.now) result
            ≡ slice_get (values_where (Q.equivalent key) self.now.lists.pairs) 0 }
    {
        match self.look_up(key).1 {
            Some(place) => Some((self.key_at(place), self.first_at(place))),
            None => None,
        }
    }

    /// Returns the last value of the key, or `None` if the key is absent.
    ///
    /// It is the newest, unless a sort moved it. For the first see [`get`](Self::get), and for all
    /// [`get_all`](Self::get_all). The key may be a query ([`KeyQuery`]).
    ///
    /// # Complexity
    ///
    /// *O*(1) expected, however many values the key has.
    ///
    /// # Examples
    ///
    /// ```
    /// use ordered_multimap::ListOrderedMultimap;
    ///
    /// let mut map = ListOrderedMultimap::new(rt.alloc());
    /// map.append("line", 1)?;
    /// map.append("page", 8)?;
    /// map.append("line", 2)?;
    /// assert_eq!(rt; map.get_last("line"), Some(&2));
    /// assert_eq!(rt; map.get_last("page"), Some(&8));
    /// assert_eq!(rt; map.get_last("word"), None);
    /// ```
    pub fn get_last<Q: KeyQuery<K>>(&self, key: Q) -> Option<&V>
        ensures { option_copied result
            ≡ end_item Back (values_where (Q.equivalent key) self.now.lists.pairs) }
    {
        self.get_all(key).next_back()
    }

    /// Returns `true` if the key has a value that is equal to `value`.
    ///
    /// An absent key has no value. For the key alone see [`contains_key`](Self::contains_key), and
    /// to remove the value [`remove_value`](Self::remove_value). The key may be a query
    /// ([`KeyQuery`]).
    ///
    /// # Complexity
    ///
    /// *O*(*v*) expected for the *v* values of the key: it compares them in order, up to the equal
    /// one.
    ///
    /// # Examples
    ///
    /// ```
    /// use ordered_multimap::ListOrderedMultimap;
    ///
    /// let mut map = ListOrderedMultimap::new(rt.alloc());
    /// map.append("line", 1)?;
    /// map.append("page", 8)?;
    /// assert!(rt; map.contains("line", &1));
    /// assert!(rt; !map.contains("line", &8));
    /// assert!(rt; !map.contains("word", &1));
    /// ```
    pub fn contains<Q: KeyQuery<K>>(&self, key: Q, value: &V) -> bool
    where
        V: Eq,
        ensures { result ≡ list_any (V.eq value.now)
            (values_where (Q.equivalent key) self.now.lists.pairs) }
    {
        has_value(self.get_all(key), value)
    }
}
