//! Removing all values of a key, and the iterator that returns them.
ghost use Rattle.std.specs.Prelude.{◌≡◌, Some, length, IfSome};
ghost use Rattle.std.specs.Iterator.{at_most, UpTo};
ghost use Rattle.std.specs.Iterator.SizeHint.{IsWithinCount};
ghost use Rattle.ordered_multimap.specs.Detaches.{HoldsDrain};

mod insert_all;
mod pop_key;
pub(crate) mod steps;

use super::show::show_left;
use super::{DefaultState, EntryValues, ListOrderedMultimap};
use crate::KeyQuery;
use multimap_walks::End;
use std::alloc::{Allocator, Global};
use std::fmt;
use std::hash::{BuildHasher, Hash};
use std::iter::FusedIterator;

/// A double-ended iterator over the removed values of one key.
///
/// This type is returned by [`ListOrderedMultimap::remove_all`],
/// [`ListOrderedMultimap::remove_entry_all`], [`ListOrderedMultimap::insert_all`], the calls of
/// these names of an [`OccupiedEntry`](super::OccupiedEntry), and by
/// [`ListOrderedMultimap::pop_front_key`] and its like; see there for examples. It borrows
/// the map, which no longer has the pairs. When it is dropped, it drops the values that it hasn't
/// returned, in *O*(1) for each.
///
/// If it is leaked, as by `mem::forget`, both lists of the map are the same as if it had been
/// dropped. The map drops the remaining values when it reuses their slots, in
/// [`clear`](ListOrderedMultimap::clear) and [`pack_to_fit`](ListOrderedMultimap::pack_to_fit), or
/// when it is dropped itself.
pub struct EntryValuesDrain<
    'map,
    K: Eq + Hash,
    V,
    S: BuildHasher = DefaultState,
    A: Allocator = Global,
> {
    map: &'map mut ListOrderedMultimap<K, V, S, A>,
    ghost chain: { ∥ HoldsDrain map.now ∥₁ },
}

impl<K: Eq + Hash, V: Drop, S: BuildHasher, A: Allocator> ListOrderedMultimap<K, V, S, A> {
    ghost use Rattle.std.specs.Borrow.{sem};
    ghost use Rattle.std.specs.Prelude.{find, option_map, slice_get};
    ghost use Rattle.ordered_multimap.specs.DrainLends.{ends_removed};
    ghost use Rattle.ordered_multimap.specs.Drains.{DrainsEntry, DrainsWhere};
    ghost use Rattle.ordered_multimap.specs.Keys.{stored_key, stored_where};
    ghost use Rattle.ordered_multimap.specs.Pairs.{values_of, values_where};

    /// Removes the key with all its values, and returns a double-ended iterator over the removed
    /// values.
    ///
    /// The call itself removes the pairs, even if the iterator is never used, and drops the stored
    /// key. If the key is absent, the iterator is empty. The other keys and pairs keep their order.
    /// The key may be a query, as `&str` for `String` keys ([`KeyQuery`]).
    ///
    /// The iterator borrows the map mutably. If it is dropped before it has returned all values, it
    /// drops the rest. If it is leaked, as by `mem::forget`, both lists are correct all the same,
    /// and the map drops the rest later: see [`EntryValuesDrain`].
    ///
    /// To get the stored key as well see [`remove_entry_all`](Self::remove_entry_all), to get the
    /// first value only [`remove`](Self::remove), and to put a new value in the place of the old
    /// ones [`insert_all`](Self::insert_all).
    ///
    /// No memory is freed: later additions reuse the slots.
    ///
    /// # Complexity
    ///
    /// *O*(*v*) expected for the call, where *v* is the number of values of the key, and *O*(1) for
    /// each step of the iterator.
    ///
    /// # Examples
    ///
    /// ```
    /// use ordered_multimap::ListOrderedMultimap;
    ///
    /// let mut map = ListOrderedMultimap::new(rt.alloc());
    /// map.append("line", 1)?;
    /// map.append("page", 8)?;
    /// map.append("line", 2)?;
    /// assert!(rt; map.remove_all("line").eq([1, 2]));
    /// assert!(rt; map.iter().eq([(&"page", &8)]));
    /// assert_eq!(rt; map.remove_all("line").len(), 0);
    /// ```
    pub fn remove_all<Q: KeyQuery<K>>(&mut self, key: Q) -> EntryValuesDrain<'_, K, V, S, A>
    where
        K: Drop,
        ensures drain { DrainsWhere (Q.equivalent key) K.eq self.old result }
        ensures same_map { result.map.ghost_name ≡ self.entry.ghost_name }
    {
        drop(self.detach_all(key));
        EntryValuesDrain { map: self }
    }

    /// Removes the key with all its values, puts the removed key into `stored`, and returns a
    /// double-ended iterator over the removed values.
    ///
    /// If the key is absent, `stored` is set to `None`. What it held before is dropped.
    /// [`remove_all`](Self::remove_all) says what happens to the iterator. The key may be a query
    /// ([`KeyQuery`]).
    ///
    /// It is for proved callers: see CALLING.md.
    ///
    /// # Complexity
    ///
    /// Same as [`remove_all`](Self::remove_all).
    ///
    /// # Examples
    ///
    /// ```
    /// use ordered_multimap::ListOrderedMultimap;
    ///
    /// let mut map = ListOrderedMultimap::new(rt.alloc());
    /// map.append("line", 1)?;
    /// map.append("page", 8)?;
    /// map.append("line", 2)?;
    /// let mut stored = None;
    /// assert!(rt; map.remove_entry_with_all("line", &mut stored).eq([1, 2]));
    /// assert_eq!(rt; stored, Some("line"));
    /// assert!(rt; map.iter().eq([(&"page", &8)]));
    /// ```
    pub fn remove_entry_with_all<'map, Q: KeyQuery<K>>(
        &'map mut self,
        key: Q,
        stored: &mut Option<K>,
    ) -> EntryValuesDrain<'map, K, V, S, A>
    where
        K: Drop,
        ensures found { stored.new ≡ find (Q.equivalent key) self.old.lists.keys }

        // Of a query that is a key this says the same.
        ensures key { IfSome (Q.as_key key) (λ k. stored.new
            ≡ option_map (λ _. stored_where (Q.equivalent key) self.old.lists.keys k)
            (slice_get (values_where (Q.equivalent key) self.old.lists.pairs) 0)) }
        ensures drain { DrainsWhere (Q.equivalent key) K.eq self.old result }
        ensures same_map { result.map.ghost_name ≡ self.entry.ghost_name }
    {
        *stored = self.detach_all(key);
        EntryValuesDrain { map: self }
    }

    /// Removes the key with all its values, and returns the stored key with a double-ended iterator
    /// over the removed values, or `None` if the key is absent.
    ///
    /// The call itself removes the pairs; [`remove_all`](Self::remove_all) says what happens to the
    /// iterator. The key is a `&K`. For a query see
    /// [`remove_entry_with_all`](Self::remove_entry_with_all). To get the first value only see
    /// [`remove_entry`](Self::remove_entry), and for the key at an end
    /// [`pop_front_key`](Self::pop_front_key) and [`pop_back_key`](Self::pop_back_key).
    ///
    /// Proved callers: see CALLING.md.
    ///
    /// # Complexity
    ///
    /// Same as [`remove_all`](Self::remove_all).
    ///
    /// # Examples
    ///
    /// ```
    /// use ordered_multimap::ListOrderedMultimap;
    ///
    /// let mut map = ListOrderedMultimap::new(rt.alloc());
    /// map.append("line", 1)?;
    /// map.append("line", 2)?;
    /// if let Some((key, values)) = map.remove_entry_all(&"line") {
    ///     assert_eq!(rt; key, "line");
    ///     assert!(rt; values.eq([1, 2]));
    /// }
    /// assert!(rt; map.is_empty());
    /// ```
    pub fn remove_entry_all(&mut self, key: &K) -> Option<(K, EntryValuesDrain<'_, K, V, S, A>)>
    where
        K: Drop,
        ensures* rest { sem 𝓛 (ends_removed K.row V.row S.row A.row S.Hasher.row K.PartialEq
            K.Hash.own S.BuildHasher S.Hasher.Hasher A.Allocator self.entry result) }
        ensures key { option_map (λ r. r.0) result
            ≡ option_map (λ _. stored_key K.eq self.old.lists.keys key.now)
            (slice_get (values_of K.eq self.old.lists.pairs key.now) 0) }
        ensures drain { IfSome result (λ r. DrainsEntry K.eq self.old key.now r.1) }
        ensures same_map { IfSome result (λ r. r.1.map.ghost_name ≡ self.entry.ghost_name) }
    {
        let (stored, map) = self.detach_all_on(key);
        match stored {
            Some(stored) => Some((stored, map.lend_to_drain())),
            None => None,
        }
    }

    /// The drain of the values that were detached.
    pub(super) fn lend_to_drain(&mut self) -> EntryValuesDrain<'_, K, V, S, A>
        requires { HoldsDrain self.old }
        ensures same_map { result.map.ghost_name ≡ self.entry.ghost_name }
        ensures same { result.map.now ≡ self.old }
    {
        EntryValuesDrain { map: self }
    }
}

impl<'map, K: Eq + Hash, V: Drop, S: BuildHasher, A: Allocator> EntryValuesDrain<'map, K, V, S, A> {
    ghost use Rattle.multimap_walks.specs.ChainWalk.{detached_walk};
    ghost use Rattle.ordered_multimap.specs.Drains.{drain_left};

    /// Returns an iterator over references to the values that are left.
    ///
    /// # Complexity
    ///
    /// *O*(1).
    ///
    /// # Examples
    ///
    /// ```
    /// use ordered_multimap::ListOrderedMultimap;
    ///
    /// let mut map = ListOrderedMultimap::new(rt.alloc());
    /// map.append("line", 1)?;
    /// map.append("line", 2)?;
    /// let mut values = map.remove_all("line");
    /// assert_eq!(rt; values.next(), Some(1));
    /// assert!(rt; values.iter().eq(&[2]));
    /// ```
    pub fn iter(&self) -> EntryValues<'_, K, V, A>
        ensures { result ≡ detached_walk (drain_left self.now) }
    {
        self.map.values_left()
    }
}

impl<'map, K: Eq + Hash, V: Drop, S: BuildHasher, A: Allocator> Iterator
    for EntryValuesDrain<'map, K, V, S, A> {
    ghost use Rattle.ordered_multimap.specs.Drains.{DrainsFirst, drain_left};

    type Item = V;

    ghost next_gives = { DrainsFirst };

    ghost remaining = { λ s. at_most (length (drain_left s)) };

    fn next(&mut self) -> Option<V> {
        self.map.take_left(End::Front)
    }

    fn size_hint(&self) -> (usize, Option<usize>)
        ensures lower { IsWithinCount result.0 (at_most (length (drain_left self.now))) }
        ensures upper { IfSome result.1 (UpTo (at_most (length (drain_left self.now)))) }

        // Both numbers are that of the values left.
        ensures least { result.0 ≡ length (drain_left self.now) }
        ensures greatest { result.1 ≡ Some (length (drain_left self.now)) }
    {
        let left = self.map.count_left();
        (left, Some(left))
    }
}

impl<'map, K: Eq + Hash, V: Drop, S: BuildHasher, A: Allocator> DoubleEndedIterator
    for EntryValuesDrain<'map, K, V, S, A> {
    ghost use Rattle.ordered_multimap.specs.Drains.{DrainsLast};

    ghost next_back_gives = { DrainsLast };

    fn next_back(&mut self) -> Option<V> {
        self.map.take_left(End::Back)
    }
}

impl<'map, K: Eq + Hash, V: Drop, S: BuildHasher, A: Allocator> ExactSizeIterator
    for EntryValuesDrain<'map, K, V, S, A> {
    fn len(&self) -> usize {
        self.map.count_left()
    }
}

impl<'map, K: Eq + Hash, V: Drop, S: BuildHasher, A: Allocator> FusedIterator
    for EntryValuesDrain<'map, K, V, S, A> {}

impl<'map, K: Eq + Hash, V: Drop, S: BuildHasher, A: Allocator> Drop
    for EntryValuesDrain<'map, K, V, S, A> {
    ghost use Rattle.std.specs.Prelude.{[]};
    ghost use Rattle.ordered_multimap.specs.Detaches.{DropsRest, KeepsListed, left_of};

    fn drop(self)
        ensures none_left { left_of self.exit.0.now ≡ [] }
        ensures dropped { DropsRest self.entry.map.now self.exit.0.now }
        ensures kept { KeepsListed self.entry.map.now self.exit.0.now }
    {
        let EntryValuesDrain { map } = self;
        map.drop_left();
    }
}

impl<'map, K: Eq + Hash, V: fmt::Debug + Drop, S: BuildHasher, A: Allocator> fmt::Debug
    for EntryValuesDrain<'map, K, V, S, A> {
    fn fmt<W: fmt::Write>(&self, f: &mut fmt::Formatter<W>) -> fmt::Result {
        show_left(f, "EntryValuesDrain", self.iter())
    }
}
