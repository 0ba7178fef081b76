//! `ListOrderedMultimap::pairs_mut`, and the methods of `KeyValuesMut`.
ghost use Rattle.std.specs.Prelude.{◌≡◌, length, Some, IfSome, IfNone, OnSome, option_map};
ghost use Rattle.std.specs.Prelude.{option_and_then};
ghost use Rattle.std.specs.Borrow.{sem};
ghost use Rattle.multimap_slots.specs.Lists.{IsIn};
ghost use Rattle.multimap_slots.specs.Slots.{item_at};
ghost use Rattle.multimap_walks.specs.Along.{AreLeft, items_left};
ghost use Rattle.multimap_walks.specs.Walk.{end_item, end_rest};
ghost use Rattle.multimap_walks.specs.WritingWalk.{entry_values_mut_values, entry_values_mut_name, entry_values_mut_rest, entry_values_mut_positions};
ghost use Rattle.multimap_walks.specs.declared.End.TheVariants.{Front, Back};
ghost use Rattle.ordered_multimap.specs.Agrees.{HasKey};
ghost use Rattle.ordered_multimap.specs.KeyLists.{each_with_values};
ghost use Rattle.ordered_multimap.specs.KeysLeft.{keys_left};
ghost use Rattle.ordered_multimap.specs.Pairs.{positions_of, values_of};
ghost use Rattle.ordered_multimap.specs.WalkLends.{EndsStepped, EndsWalk, lends_key_values, lends_values_to_walk};

use super::KeyValuesMut;
use crate::list_ordered_multimap::ListOrderedMultimap;
use crate::list_ordered_multimap::show::show_left;
use multimap_walks::{ChainEnds, End, EntryValuesMut, KeyValues, Ordered, take};
use std::alloc::Allocator;
use std::fmt;
use std::hash::{BuildHasher, Hash};

impl<K: Eq + Hash, V, S: BuildHasher, A: Allocator> ListOrderedMultimap<K, V, S, A> {
    /// Returns the keys in their order, each with an iterator over its values for writing.
    ///
    /// Keys, and the order and number of pairs, stay. The result is no `Iterator`: each step
    /// borrows it until the iterator over the key's values ends, and a loop counts the keys, as
    /// below. To read see [`pairs`](Self::pairs), and to write all values see
    /// [`values_mut`](Self::values_mut).
    ///
    /// Proved callers: see CALLING.md.
    ///
    /// # Complexity
    ///
    /// *O*(1), and *O*(1) for each key. A step reads the slot of its key, and of no value.
    ///
    /// # Examples
    ///
    /// ```
    /// use ordered_multimap::ListOrderedMultimap;
    ///
    /// let mut map = ListOrderedMultimap::new(rt.alloc());
    /// map.append("line", 1)?;
    /// map.append("page", 8)?;
    /// map.append("line", 2)?;
    /// let mut keys = map.pairs_mut();
    /// for _ in 0..keys.size_hint().0 {
    ///     if let Some((_key, values)) = keys.next() {
    ///         for value in values {
    ///             *value = 7;
    ///         }
    ///     }
    /// }
    /// drop(keys);
    /// assert!(rt; map.values().eq(&[7, 7, 7]));
    /// ```
    pub fn pairs_mut(&mut self) -> KeyValuesMut<'_, K, V, S, A>
        ensures same_map { result.map.ghost_name ≡ self.entry.ghost_name }
        ensures map { result.map.now ≡ self.old }
        ensures keys { keys_left result ≡ self.old.lists.keys }
    {
        let left = self.keys.all();
        KeyValuesMut { map: self, left }
    }

    /// Takes the place at an end from those that are left of the keys.
    #[inline(always)]
    fn take_key(&self, end: End, left: &mut ChainEnds) -> Option<usize>
        requires { AreLeft self.now.slots.keys.order left.old }
        ensures are_left { AreLeft self.now.slots.keys.order left.new }
        ensures listed { IfSome result (λ place. IsIn place self.now.slots.keys.order) }
        ensures key { option_and_then (item_at self.now.slots.keys) result
            ≡ end_item end (items_left self.now.slots.keys.order (item_at self.now.slots.keys)
            left.old) }
        ensures rest { items_left self.now.slots.keys.order (item_at self.now.slots.keys) left.new
            ≡ end_rest end (items_left self.now.slots.keys.order (item_at self.now.slots.keys)
            left.old) }
    {
        // The length tells the proof that the list of keys is sound.
        let _keys = self.keys.len();
        take(end, &self.keys, left)
    }

    /// How many keys there are from one place to another.
    fn keys_between(&self, ends: ChainEnds) -> usize
        requires { AreLeft self.now.slots.keys.order ends }
        ensures { result ≡ length (items_left self.now.slots.keys.order
            (item_at self.now.slots.keys) ends) }
    {
        // The length tells the proof that the list of keys is sound.
        let _keys = self.keys.len();
        ends.length
    }

    /// The walk over the keys from one place to another.
    fn key_values_between(&self, ends: ChainEnds) -> KeyValues<'_, K, V, A>
        requires { AreLeft self.now.slots.keys.order ends }
        ensures { result ≡ each_with_values K.eq self.now.lists.pairs
            (items_left self.now.slots.keys.order (item_at self.now.slots.keys) ends) }
    {
        KeyValues::new_between(&self.keys, &self.values, Some(ends))
    }
}

impl<'map, K: Eq + Hash, V, S: BuildHasher, A: Allocator> KeyValuesMut<'map, K, V, S, A> {
    /// Returns the next key from the front, with an iterator over its values for writing.
    ///
    /// The next step may follow once that iterator has ended.
    ///
    /// # Complexity
    ///
    /// *O*(1).
    ///
    /// # Examples
    ///
    /// ```
    /// use ordered_multimap::ListOrderedMultimap;
    ///
    /// let mut map = ListOrderedMultimap::new(rt.alloc());
    /// map.append("line", 1)?;
    /// map.append("page", 8)?;
    /// if let Some((_key, values)) = map.pairs_mut().next() {
    ///     for value in values {
    ///         *value = 3;
    ///     }
    /// }
    /// assert!(rt; map.values().eq(&[3, 8]));
    /// ```
    pub fn next(&mut self) -> Option<(&K, EntryValuesMut<'_, K, V, A>)>
        ensures* writes_back { sem 𝓛 (lends_key_values K.row V.row S.row A.row S.Hasher.row
            A.Allocator Front self.entry result) }
        ensures key { option_map (λ r. r.0.now) result ≡ end_item Front (keys_left self.old) }
        ensures values { IfSome result (λ r. entry_values_mut_rest r.1
            ≡ values_of K.eq self.old.map.now.lists.pairs r.0.now) }
        ensures positions { IfSome result (λ r. entry_values_mut_positions r.1
            ≡ positions_of K.eq self.old.map.now.lists.pairs r.0.now) }
        ensures ends { IfSome result (EndsStepped K.row V.row S.row A.row S.Hasher.row
            A.Allocator Front self.old) }
    {
        self.step_mut(End::Front)
    }

    /// Returns the next key from the back, with an iterator over its values for writing.
    ///
    /// # Complexity
    ///
    /// *O*(1).
    ///
    /// # Examples
    ///
    /// ```
    /// use ordered_multimap::ListOrderedMultimap;
    ///
    /// let mut map = ListOrderedMultimap::new(rt.alloc());
    /// map.append("line", 1)?;
    /// map.append("page", 8)?;
    /// if let Some((_key, values)) = map.pairs_mut().next_back() {
    ///     for value in values {
    ///         *value = 9;
    ///     }
    /// }
    /// assert!(rt; map.values().eq(&[1, 9]));
    /// ```
    pub fn next_back(&mut self) -> Option<(&K, EntryValuesMut<'_, K, V, A>)>
        ensures* writes_back { sem 𝓛 (lends_key_values K.row V.row S.row A.row S.Hasher.row
            A.Allocator Back self.entry result) }
        ensures key { option_map (λ r. r.0.now) result ≡ end_item Back (keys_left self.old) }
        ensures values { IfSome result (λ r. entry_values_mut_rest r.1
            ≡ values_of K.eq self.old.map.now.lists.pairs r.0.now) }
        ensures positions { IfSome result (λ r. entry_values_mut_positions r.1
            ≡ positions_of K.eq self.old.map.now.lists.pairs r.0.now) }
        ensures ends { IfSome result (EndsStepped K.row V.row S.row A.row S.Hasher.row
            A.Allocator Back self.old) }
    {
        self.step_mut(End::Back)
    }

    /// Returns the exact number of keys that are left, as lower and as upper bound.
    ///
    /// # Complexity
    ///
    /// *O*(1).
    ///
    /// # Examples
    ///
    /// ```
    /// use ordered_multimap::ListOrderedMultimap;
    ///
    /// let mut map = ListOrderedMultimap::new(rt.alloc());
    /// map.append("line", 1)?;
    /// map.append("line", 2)?;
    /// assert_eq!(rt; map.pairs_mut().size_hint(), (1, Some(1)));
    /// ```
    pub fn size_hint(&self) -> (usize, Option<usize>)
        ensures least { result.0 ≡ length (keys_left self.now) }
        ensures greatest { result.1 ≡ Some result.0 }
    {
        let left = self.map.keys_between(self.left);
        (left, Some(left))
    }

    /// Returns an iterator over the keys that are left, each with an iterator over its values.
    ///
    /// It only reads, and this type goes on where it is.
    ///
    /// # Complexity
    ///
    /// *O*(1), and *O*(1) for each key.
    ///
    /// # Examples
    ///
    /// ```
    /// use ordered_multimap::ListOrderedMultimap;
    ///
    /// let mut map = ListOrderedMultimap::new(rt.alloc());
    /// map.append("line", 1)?;
    /// map.append("page", 8)?;
    /// let mut keys = map.pairs_mut();
    /// drop(keys.next());
    /// assert_eq!(rt; keys.iter().len(), 1);
    /// ```
    pub fn iter(&self) -> KeyValues<'_, K, V, A>
        ensures { result
            ≡ each_with_values K.eq self.now.map.now.lists.pairs (keys_left self.now) }
    {
        self.map.key_values_between(self.left)
    }

    /// Takes the place of the key at the end, if one is left, and hands the walk back.
    #[inline(always)]
    fn step(&mut self, end: End) -> (Option<usize>, &mut Self)
        ensures same_map { result.1.ghost_name ≡ self.entry.ghost_name }
        ensures map { result.1.now.map ≡ self.old.map }
        ensures listed { IfSome result.0 (λ place. IsIn place self.old.map.now.slots.keys.order) }
        ensures key { option_and_then (item_at self.old.map.now.slots.keys) result.0
            ≡ end_item end (keys_left self.old) }
        ensures rest { OnSome result.0
            (keys_left result.1.now ≡ end_rest end (keys_left self.old)) }
        ensures none { IfNone result.0 (result.1.now ≡ self.old) }
    {
        let mut left = self.left;
        let place = self.map.take_key(end, &mut left);
        if place.is_some() {
            self.left = left;
        }
        (place, self)
    }

    /// The key at the place, with a walk over its values.
    fn lend_at(&mut self, place: usize) -> (&K, EntryValuesMut<'_, K, V, A>)
        requires { IsIn place self.old.map.now.slots.keys.order }
        ensures* writes_back { sem 𝓛 (lends_values_to_walk K.row V.row S.row A.row S.Hasher.row
            A.Allocator self.entry (entry_values_mut_name result.1)) }
        ensures key { item_at self.old.map.now.slots.keys place ≡ Some result.0.now }
        ensures values { (k : K) → HasKey K.eq self.old.map.now.slots.keys k place
            → entry_values_mut_rest result.1 ≡ values_of K.eq self.old.map.now.lists.pairs k }
        ensures positions { (k : K) → HasKey K.eq self.old.map.now.slots.keys k place
            → entry_values_mut_positions result.1
            ≡ positions_of K.eq self.old.map.now.lists.pairs k }
        ensures ends { EndsWalk K.row V.row S.row A.row S.Hasher.row A.Allocator self.old
            (entry_values_mut_values result.1) }
    {
        self.map.key_values_mut_at(place)
    }

    /// The key at the end, with a walk over its values, if one is left.
    #[inline(always)]
    fn step_mut(&mut self, end: End) -> Option<(&K, EntryValuesMut<'_, K, V, A>)>
        ensures* writes_back { sem 𝓛 (lends_key_values K.row V.row S.row A.row S.Hasher.row
            A.Allocator end self.entry result) }
        ensures key { option_map (λ r. r.0.now) result ≡ end_item end (keys_left self.old) }
        ensures values { IfSome result (λ r. entry_values_mut_rest r.1
            ≡ values_of K.eq self.old.map.now.lists.pairs r.0.now) }
        ensures positions { IfSome result (λ r. entry_values_mut_positions r.1
            ≡ positions_of K.eq self.old.map.now.lists.pairs r.0.now) }
        ensures ends { IfSome result (EndsStepped K.row V.row S.row A.row S.Hasher.row
            A.Allocator end self.old) }
    {
        let (place, walk) = self.step(end);
        match place {
            Some(place) => Some(walk.lend_at(place)),
            None => None,
        }
    }
}

impl<K: Eq + Hash + fmt::Debug, V: fmt::Debug, S: BuildHasher, A: Allocator> fmt::Debug
    for KeyValuesMut<'_, K, V, S, A> {
    fn fmt<W: fmt::Write>(&self, f: &mut fmt::Formatter<W>) -> fmt::Result {
        show_left(f, "KeyValuesMut", self.iter())
    }
}
