//! Iterators with mutable references to values.
ghost use Rattle.std.specs.Prelude.{◌≡◌, Some};
ghost use Rattle.std.specs.Borrow.{sem};
ghost use Rattle.multimap_slots.specs.Lists.{IsIn};
ghost use Rattle.multimap_slots.specs.Slots.{item_at};
ghost use Rattle.multimap_walks.specs.WritingWalk.{iter_mut_name, iter_mut_positions, iter_mut_rest, iter_mut_values};
ghost use Rattle.multimap_walks.specs.WritingWalk.{values_mut_name, values_mut_positions, values_mut_rest, values_mut_values};
ghost use Rattle.multimap_walks.specs.WritingWalk.{entry_values_mut_values, entry_values_mut_rest, entry_values_mut_positions, entry_values_mut_name};
ghost use Rattle.ordered_multimap.specs.Agrees.{HasKey};
ghost use Rattle.ordered_multimap.specs.Pairs.{all_positions, all_values, positions_of, values_of};
ghost use Rattle.ordered_multimap.specs.Pairs.{positions_where, values_where};
ghost use Rattle.ordered_multimap.specs.ValuesLent.{lends_values, EndsMap};

use super::ListOrderedMultimap;
use super::lookup::slot_at;
use crate::KeyQuery;
use multimap_walks::{EntryValuesMut, IterMut, ValuesMut};
use std::alloc::Allocator;
use std::hash::{BuildHasher, Hash};

impl<K: Eq + Hash, V, S: BuildHasher, A: Allocator> ListOrderedMultimap<K, V, S, A> {
    /// Returns an iterator over all pairs, in their order, with mutable references to the values.
    ///
    /// The items have the type `(&K, &mut V)`. The iterator is double-ended and knows its length.
    /// The keys, their order, and the number and order of the pairs stay the same, and so does a
    /// value that isn't yielded. `for (key, value) in &mut map` iterates over the same pairs. For
    /// the values only see [`values_mut`](Self::values_mut), to write by a function
    /// [`update_values`](Self::update_values), and to remove pairs as well
    /// [`retain`](Self::retain).
    ///
    /// The iterator implements `Drop`. So an iterator in a variable borrows the map until the end
    /// of the block or until `drop(iter)`, even after its last use. One in the condition of an
    /// `if let` borrows the map until the end of the statement; with a `let` before the `if let`
    /// the borrow ends sooner. A `for` loop over the call itself, and [`get_mut`](Self::get_mut),
    /// need none of this.
    ///
    /// Proved callers: see CALLING.md.
    ///
    /// # Complexity
    ///
    /// *O*(1), and *O*(1) for each step, whatever the capacity. A step reads the slots of a value
    /// and of its key.
    ///
    /// # Examples
    ///
    /// ```
    /// use ordered_multimap::ListOrderedMultimap;
    ///
    /// let mut map = ListOrderedMultimap::new(rt.alloc());
    /// map.append("line", 1)?;
    /// map.append("page", 8)?;
    /// map.append("line", 2)?;
    /// for (key, value) in map.iter_mut() {
    ///     if *key == "line" {
    ///         *value = 7;
    ///     }
    /// }
    /// assert!(rt; map.iter().eq([(&"line", &7), (&"page", &8), (&"line", &7)]));
    /// ```
    pub fn iter_mut(&mut self) -> IterMut<'_, K, V, A>
        ensures* writes_back { sem 𝓛 (lends_values K.row V.row S.row A.row S.Hasher.row K.Hash
            S.BuildHasher S.Hasher.Hasher A.Allocator self.entry (iter_mut_name result)) }
        ensures pairs { iter_mut_rest result ≡ self.old.lists.pairs }
        ensures positions { iter_mut_positions result ≡ all_positions self.old.lists.pairs }
        ensures ends { EndsMap K.row V.row S.row self.old (iter_mut_values result) }
    {
        let (cells, keys) = self.lend();
        IterMut::new(keys, cells)
    }

    /// Returns an iterator over the values of all pairs, in the order of the pairs, as mutable
    /// references.
    ///
    /// [`iter_mut`](Self::iter_mut) says what stays the same, and how long the map is borrowed. For
    /// the values of one key see [`get_all_mut`](Self::get_all_mut).
    ///
    /// Proved callers: see CALLING.md.
    ///
    /// # Complexity
    ///
    /// *O*(1), and *O*(1) for each step, whatever the capacity. A step reads the slot of a value.
    ///
    /// # Examples
    ///
    /// ```
    /// use ordered_multimap::ListOrderedMultimap;
    ///
    /// let mut map = ListOrderedMultimap::new(rt.alloc());
    /// map.append("line", 1)?;
    /// map.append("page", 8)?;
    /// for value in map.values_mut() {
    ///     *value = 7;
    /// }
    /// assert!(rt; map.values().eq(&[7, 7]));
    /// ```
    pub fn values_mut(&mut self) -> ValuesMut<'_, K, V, A>
        ensures* writes_back { sem 𝓛 (lends_values K.row V.row S.row A.row S.Hasher.row K.Hash
            S.BuildHasher S.Hasher.Hasher A.Allocator self.entry (values_mut_name result)) }
        ensures values { values_mut_rest result ≡ all_values self.old.lists.pairs }
        ensures positions { values_mut_positions result ≡ all_positions self.old.lists.pairs }
        ensures ends { EndsMap K.row V.row S.row self.old (values_mut_values result) }
    {
        let (cells, _) = self.lend();
        ValuesMut::new(cells)
    }

    /// Returns an iterator over the values of the key, in the order of the pairs, as mutable
    /// references, which is empty if the key is absent.
    ///
    /// [`iter_mut`](Self::iter_mut) says what stays the same, and how long the map is borrowed. For
    /// the first value only see [`get_mut`](Self::get_mut), and to write by a function
    /// [`update_all`](Self::update_all). The key may be a query, as `&str` for `String` keys
    /// ([`KeyQuery`]).
    ///
    /// Proved callers: see CALLING.md.
    ///
    /// # Complexity
    ///
    /// *O*(1) expected, and *O*(1) for each step. The call reads the slot of the key, and a step
    /// that of its value and no other.
    ///
    /// # Examples
    ///
    /// ```
    /// use ordered_multimap::ListOrderedMultimap;
    ///
    /// let mut map = ListOrderedMultimap::new(rt.alloc());
    /// map.append("line", 1)?;
    /// map.append("page", 8)?;
    /// map.append("line", 2)?;
    /// for value in map.get_all_mut("line") {
    ///     *value = 9;
    /// }
    /// assert!(rt; map.iter().eq([(&"line", &9), (&"page", &8), (&"line", &9)]));
    /// ```
    pub fn get_all_mut<Q: KeyQuery<K>>(&mut self, key: Q) -> EntryValuesMut<'_, K, V, A>
        ensures* writes_back { sem 𝓛 (lends_values K.row V.row S.row A.row S.Hasher.row K.Hash
            S.BuildHasher S.Hasher.Hasher A.Allocator self.entry (entry_values_mut_name result)) }
        ensures values { entry_values_mut_rest result
            ≡ values_where (Q.equivalent key) self.old.lists.pairs }
        ensures positions { entry_values_mut_positions result
            ≡ positions_where (Q.equivalent key) self.old.lists.pairs }
        ensures ends { EndsMap K.row V.row S.row self.old (entry_values_mut_values result) }
    {
        match self.look_up(key).1 {
            Some(place) => self.values_mut_at(place),
            None => {
                let (cells, keys) = self.lend();
                EntryValuesMut::new(keys, cells, None)
            }
        }
    }

    /// A walk over the values of the key at the place, each for writing.
    pub(super) fn values_mut_at(&mut self, place: usize) -> EntryValuesMut<'_, K, V, A>
        requires { IsIn place self.old.slots.keys.order }
        ensures* writes_back { sem 𝓛 (lends_values K.row V.row S.row A.row S.Hasher.row K.Hash
            S.BuildHasher S.Hasher.Hasher A.Allocator self.entry (entry_values_mut_name result)) }
        ensures values { (k : K) → HasKey K.eq self.old.slots.keys k place
            → entry_values_mut_rest result ≡ values_of K.eq self.old.lists.pairs k }
        ensures positions { (k : K) → HasKey K.eq self.old.slots.keys k place
            → entry_values_mut_positions result ≡ positions_of K.eq self.old.lists.pairs k }
        ensures ends { EndsMap K.row V.row S.row self.old (entry_values_mut_values result) }
    {
        let (_, values) = self.key_values_mut_at(place);
        values
    }

    /// The key at the place, with a walk over its values, each for writing.
    pub(super) fn key_values_mut_at(&mut self, place: usize) -> (&K, EntryValuesMut<'_, K, V, A>)
        requires { IsIn place self.old.slots.keys.order }
        ensures* writes_back { sem 𝓛 (lends_values K.row V.row S.row A.row S.Hasher.row K.Hash
            S.BuildHasher S.Hasher.Hasher A.Allocator self.entry
            (entry_values_mut_name result.1)) }
        ensures key { item_at self.old.slots.keys place ≡ Some result.0.now }
        ensures values { (k : K) → HasKey K.eq self.old.slots.keys k place
            → entry_values_mut_rest result.1 ≡ values_of K.eq self.old.lists.pairs k }
        ensures positions { (k : K) → HasKey K.eq self.old.slots.keys k place
            → entry_values_mut_positions result.1 ≡ positions_of K.eq self.old.lists.pairs k }
        ensures ends { EndsMap K.row V.row S.row self.old (entry_values_mut_values result.1) }
    {
        let (cells, keys) = self.lend();
        let (key, link) = slot_at(keys, place);
        (key, EntryValuesMut::new(keys, cells, Some((place, link))))
    }
}

/// Iterates over all pairs with mutable references to the values, as
/// [`iter_mut`](ListOrderedMultimap::iter_mut) does.
///
/// # Examples
///
/// ```
/// use ordered_multimap::ListOrderedMultimap;
///
/// let mut map = ListOrderedMultimap::new(rt.alloc());
/// map.append("line", 1)?;
/// map.append("page", 8)?;
/// for (_key, value) in &mut map {
///     *value = 7;
/// }
/// assert!(rt; map.values().eq(&[7, 7]));
/// ```
impl<'map, K: Eq + Hash, V, S: BuildHasher, A: Allocator> IntoIterator
    for &'map mut ListOrderedMultimap<K, V, S, A> {
    type Item = (&'map K, &'map mut V);

    type IntoIter = IterMut<'map, K, V, A>;

    ghost into_iter_gives = { λ m r. iter_mut_rest r ≡ m.now.lists.pairs };

    fn into_iter(self) -> IterMut<'map, K, V, A>
        ensures* writes_back { sem 𝓛 (lends_values K.row V.row S.row A.row S.Hasher.row K.Hash
            S.BuildHasher S.Hasher.Hasher A.Allocator self.entry (iter_mut_name result)) }
        ensures positions { iter_mut_positions result ≡ all_positions self.old.lists.pairs }
        ensures ends { EndsMap K.row V.row S.row self.old (iter_mut_values result) }
        ensures into_iter_gives { iter_mut_rest result ≡ self.old.lists.pairs }
    {
        self.iter_mut()
    }
}
