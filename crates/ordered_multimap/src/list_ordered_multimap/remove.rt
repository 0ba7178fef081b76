//! Removing a key with all its values, and removing all pairs.
ghost use Rattle.std.specs.Prelude.{◌≡◌, IfSome, Some, find, length, slice_get, option_map};
ghost use Rattle.multimap_slots.specs.Lists.{IsIn};
ghost use Rattle.ordered_multimap.specs.Agrees.{HasKey};
ghost use Rattle.ordered_multimap.specs.Removals.{IsRemovedWhere, LosesValues};
ghost use Rattle.ordered_multimap.specs.Lists.{empty_lists};
ghost use Rattle.ordered_multimap.specs.Pairs.{values_of, values_where};
ghost use Rattle.ordered_multimap.specs.Keys.{stored_key, stored_where};
ghost use Rattle.ordered_multimap.specs.Changes.{removed};
ghost use Rattle.ordered_multimap.specs.Rooms.{SameRooms};
ghost use Rattle.ordered_multimap.specs.TapeNumbers.{TakesOut};

pub(crate) mod at;
pub(crate) mod chain;
pub(crate) mod one;
pub(crate) mod unlink;
pub(crate) mod value;

use super::ListOrderedMultimap;
use super::remove::chain::{take_row, unlink_entry, unlink_key};
use super::remove::unlink::TakenOut;
use crate::KeyQuery;
use std::alloc::Allocator;
use std::hash::{BuildHasher, Hash};

impl<K: Eq + Hash, V, S: BuildHasher, A: Allocator> ListOrderedMultimap<K, V, S, A> {
    /// Removes the key with all its values, and returns the first of them, or `None` if the key is
    /// absent.
    ///
    /// The other values and the stored key are dropped. The other keys and pairs keep their order.
    /// The key may be a query, as `&str` for `String` keys ([`KeyQuery`]).
    ///
    /// To get the stored key as well see [`remove_entry`](Self::remove_entry), and to get all
    /// values [`remove_all`](Self::remove_all). To remove a pair at an end of the map see
    /// [`pop_front`](Self::pop_front) and [`pop_back`](Self::pop_back), one value of the key
    /// [`remove_index`](Self::remove_index) and [`remove_value`](Self::remove_value), and pairs by a
    /// condition [`retain`](Self::retain) and [`retain_all`](Self::retain_all).
    ///
    /// No memory is freed: later additions reuse the slots.
    ///
    /// # Complexity
    ///
    /// *O*(*v*) expected, where *v* is the number of values of the key. It reads the slots of the
    /// key and of its values, and no others.
    ///
    /// # Examples
    ///
    /// ```
    /// use ordered_multimap::ListOrderedMultimap;
    ///
    /// let mut map = ListOrderedMultimap::new(rt.alloc());
    /// map.append("line", 1)?;
    /// map.append("page", 8)?;
    /// map.append("line", 2)?;
    /// assert_eq!(rt; map.remove("line"), Some(1));
    /// assert_eq!(rt; map.remove("line"), None);
    /// assert!(rt; map.iter().eq([(&"page", &8)]));
    /// ```
    pub fn remove<Q: KeyQuery<K>>(&mut self, key: Q) -> Option<V>
    where
        K: Drop,
        V: Drop,
        ensures value { result
            ≡ slice_get (values_where (Q.equivalent key) self.old.lists.pairs) 0 }
        ensures removed { IsRemovedWhere (Q.equivalent key) K.eq self.old self.new }
    {
        match self.remove_entry(key) {
            Some((_key, value)) => Some(value),
            None => None,
        }
    }

    /// Removes the key with all its values, and returns the stored key with the first of them, or
    /// `None` if the key is absent.
    ///
    /// The other values are dropped. The other keys and pairs keep their order. For the value only
    /// see [`remove`](Self::remove), and for the stored key with all values
    /// [`remove_entry_all`](Self::remove_entry_all). The key may be a query ([`KeyQuery`]).
    ///
    /// No memory is freed: later additions reuse the slots.
    ///
    /// # Complexity
    ///
    /// *O*(*v*) expected, where *v* is the number of values of the key.
    ///
    /// # Examples
    ///
    /// ```
    /// use ordered_multimap::ListOrderedMultimap;
    ///
    /// let mut map = ListOrderedMultimap::new(rt.alloc());
    /// map.append("line", 1)?;
    /// map.append("page", 8)?;
    /// map.append("line", 2)?;
    /// assert_eq!(rt; map.remove_entry("line"), Some(("line", 1)));
    /// assert!(rt; map.iter().eq([(&"page", &8)]));
    /// ```
    pub fn remove_entry<Q: KeyQuery<K>>(&mut self, key: Q) -> Option<(K, V)>
    where
        V: Drop,
        ensures key { option_map (λ r. r.0) result
            ≡ find (Q.equivalent key) self.old.lists.keys }
        ensures value { option_map (λ r. r.1) result
            ≡ slice_get (values_where (Q.equivalent key) self.old.lists.pairs) 0 }

        // Of a query that is a key both are said in one.
        ensures entry { IfSome (Q.as_key key) (λ k. result
            ≡ option_map (λ v. (stored_where (Q.equivalent key) self.old.lists.keys k, v))
            (slice_get (values_where (Q.equivalent key) self.old.lists.pairs) 0)) }
        ensures removed { IsRemovedWhere (Q.equivalent key) K.eq self.old self.new }
    {
        let hash = self.state.hash_one(key);
        let Some(place) = take_row(&self.keys, &mut self.table, hash, key) else {
            return None;
        };
        let (stored, first, _) = unlink_key::<K, V, TakenOut<V>, A>(
            &mut self.keys,
            &mut self.values,
            place,
        );
        Some((stored, first.value))
    }

    /// Takes the key at the place out with all its values, and returns it with the first of them.
    pub(super) fn take_entry_at(&mut self, place: usize) -> (K, V)
    where
        V: Drop,
        requires { IsIn place self.old.slots.keys.order }
        ensures entry { (k : K) → HasKey K.eq self.old.slots.keys k place
            → Some result ≡ option_map (λ v. (stored_key K.eq self.old.lists.keys k, v))
            (slice_get (values_of K.eq self.old.lists.pairs k) 0) }
        ensures removed { (k : K) → HasKey K.eq self.old.slots.keys k place
            → LosesValues K.eq self.old self.new k (removed K.eq self.old.lists k) }
        ensures rooms { SameRooms self.old self.new }
    {
        let (key, first, _) = unlink_entry::<K, V, TakenOut<V>, A>(
            &mut self.keys,
            &mut self.table,
            &mut self.values,
            place,
        );
        (key, first.value)
    }

    /// Removes all pairs, and keeps the allocated memory for reuse.
    ///
    /// All keys and values are dropped, among them the values that a leaked
    /// [`EntryValuesDrain`](super::EntryValuesDrain) left. The capacities stay as they are: to free
    /// memory see [`pack_to_fit`](Self::pack_to_fit). No hole is left among the slots.
    ///
    /// # Complexity
    ///
    /// *O*(slots in use + capacity of the hash table).
    ///
    /// # Examples
    ///
    /// ```
    /// use ordered_multimap::ListOrderedMultimap;
    ///
    /// let mut map = ListOrderedMultimap::new(rt.alloc());
    /// map.append("line", 1)?;
    /// map.append("page", 8)?;
    /// map.clear();
    /// assert!(rt; map.is_empty());
    /// assert!(rt; map.values_capacity() >= 2);
    /// ```
    pub fn clear(&mut self)
    where
        K: Drop,
        V: Drop,
        ensures lists { self.new.lists ≡ empty_lists }
        ensures rooms { SameRooms self.old self.new }
        ensures taken { TakesOut (length self.old.lists.pairs) self.old.tape self.new.tape }
        ensures holes { self.new.tape.holes ≡ 0 }
    {
        self.keys.clear_listed();
        self.table.clear();
        self.values.clear();
    }
}
