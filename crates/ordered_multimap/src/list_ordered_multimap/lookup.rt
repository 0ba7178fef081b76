//! Lookups by key, and the first and the last pair.
ghost use Rattle.std.specs.Prelude.{◌≡◌, ◌<◌, false, length, slice_get, IfSome, IfNone, Some, is_some, option_copied, option_map};
ghost use Rattle.multimap_slots.specs.Lists.{IsIn};
ghost use Rattle.multimap_slots.specs.Slots.{HasSlot};
ghost use Rattle.multimap_walks.specs.Walk.{end_item};
ghost use Rattle.multimap_walks.specs.declared.End.TheVariants.{Front, Back};
ghost use Rattle.std.specs.List.{list_any};
ghost use Rattle.multimap_walks.specs.Packed.{HasSmallPlaces};
ghost use Rattle.ordered_multimap.specs.Pairs.{values_of, values_where, is_present_where};
ghost use Rattle.ordered_multimap.specs.Keys.{stored_key};
ghost use Rattle.ordered_multimap.specs.Agrees.{HasKey, HasKeyWhere, LacksWhere, StandsAt, items_of, hash_of};
ghost use Rattle.ordered_multimap.specs.Agrees.{IsFoundBy, SaysWhetherAccepted};
ghost use Rattle.ordered_multimap.specs.Private.Heads.{HasHead, IsHead};
ghost use Rattle.ordered_multimap.specs.Writes.{head_at};

mod values;

use super::ListOrderedMultimap;
use crate::KeyQuery;
use multimap_slots::{Reads, SlotList, Tape};
use multimap_table::KeyTable;
use multimap_walks::{KeyLink, PackedLink, ValueLink};
use std::alloc::Allocator;
use std::hash::{BuildHasher, Hash};

/// The item at the place, with its link.
#[inline(always)]
pub(super) fn slot_at<T, L: Copy, A: Allocator>(slots: &SlotList<T, L, A>, place: usize) -> (&T, L)
    requires { IsIn place slots.now.order }
    ensures { HasSlot slots.now place result.0.now result.1 }
{
    let mut reads = Reads::new();
    slots.get_listed(place, &mut reads)
}

/// The value at the place, with its link.
#[inline(always)]
pub(super) fn value_at<V, A: Allocator>(
    values: &Tape<V, ValueLink, A, PackedLink>,
    place: usize,
) -> (&V, ValueLink)
    requires { IsIn place values.now.list.order }
    ensures slot { HasSlot values.now.list place result.0.now result.1 }
    ensures small { HasSmallPlaces result.1 }
{
    let mut reads = Reads::new();
    values.get_listed(place, &mut reads)
}

/// Whether the query stands for the key at the place.
pub(super) fn is_at<K: Eq + Hash, Q: KeyQuery<K>, A: Allocator>(
    keys: &SlotList<K, KeyLink, A>,
    place: usize,
    query: Q,
) -> bool
    requires { IsIn place keys.now.order }
    ensures { SaysWhetherAccepted (Q.equivalent query) keys.now place result }
{
    let (stored, _) = slot_at(keys, place);
    query.equivalent(stored)
}

/// The place of the key that the query stands for, where the query's hash is `hash`.
#[inline(always)]
fn place_of<K: Eq + Hash, Q: KeyQuery<K>, A: Allocator>(
    keys: &SlotList<K, KeyLink, A>,
    table: &KeyTable<A>,
    hash: u64,
    query: Q,
) -> Option<usize>
    requires { IsFoundBy (Q.equivalent query) keys.now table.now.rows hash }
    ensures found { IfSome result (HasKeyWhere (Q.equivalent query) keys.now) }
    ensures absent { IfNone result
        (list_any (Q.equivalent query) (items_of keys.now) ≡ false) }
{
    let stands_for = |place|
        requires { IsIn place keys.now.order }
        ensures { SaysWhetherAccepted (Q.equivalent query) keys.entry.now place result }
    { is_at(keys, place, query) };
    table.find(hash, stands_for)
}

impl<K: Eq + Hash, V, S: BuildHasher, A: Allocator> ListOrderedMultimap<K, V, S, A> {
    /// The hash that the builder makes of the query, and the place of the stored key that the query
    /// stands for.
    #[inline(always)]
    pub(super) fn look_up<Q: KeyQuery<K>>(&self, query: Q) -> (u64, Option<usize>)
        ensures hash { result.0 ≡ hash_of S.BuildHasher S.Hasher.Hasher self.now.hasher
            (Q.hash_input query) }
        ensures found { IfSome result.1 (HasKeyWhere (Q.equivalent query) self.now.slots.keys) }
        ensures stored { IfSome result.1
            (StandsAt K.eq (Q.equivalent query) self.now.slots.keys) }
        ensures absent { IfNone result.1 (LacksWhere (Q.equivalent query) K.eq self.now.lists) }
        ensures listed { is_some result.1
            ≡ list_any (Q.equivalent query) self.now.lists.keys }
        ensures present { is_some result.1
            ≡ is_present_where (Q.equivalent query) self.now.lists.pairs }
    {
        let hash = self.state.hash_one(query);
        (hash, place_of(&self.keys, &self.table, hash, query))
    }

    /// The key at the place.
    pub(super) fn key_at(&self, place: usize) -> &K
        requires { IsIn place self.now.slots.keys.order }
        ensures own { HasKey K.eq self.now.slots.keys result.now place }
        ensures stored { (k : K) → HasKey K.eq self.now.slots.keys k place
            → result.now ≡ stored_key K.eq self.now.lists.keys k }
    {
        let (key, _) = slot_at(&self.keys, place);
        key
    }

    /// The place of the first value of the key at the place.
    #[inline(always)]
    pub(super) fn first_place(&self, place: usize) -> usize
        requires { IsIn place self.now.slots.keys.order }
        ensures { result ≡ head_at self.now.slots.keys place }
    {
        let link = self.keys.listed_link(place);
        link.head
    }

    /// The value at the place, which is a key's first one.
    #[inline(always)]
    pub(super) fn first_from(&self, first: usize) -> &V
        requires { IsHead self.now.slots.keys first }
        ensures { (k : K) → HasHead K.eq self.now.slots.keys k first
            → slice_get (values_of K.eq self.now.lists.pairs k) 0 ≡ Some result.now }
    {
        let (value, _) = value_at(&self.values, first);
        value
    }

    /// The first value of the key at the place.
    #[inline(always)]
    pub(super) fn first_at(&self, place: usize) -> &V
        requires { IsIn place self.now.slots.keys.order }
        ensures { (k : K) → HasKey K.eq self.now.slots.keys k place
            → slice_get (values_of K.eq self.now.lists.pairs k) 0 ≡ Some result.now }
    {
        self.first_from(self.first_place(place))
    }

    /// How many values the key at the place has.
    #[inline(always)]
    pub(super) fn len_at(&self, place: usize) -> usize
        requires { IsIn place self.now.slots.keys.order }
        ensures len { (k : K) → HasKey K.eq self.now.slots.keys k place
            → result ≡ length (values_of K.eq self.now.lists.pairs k) }
        ensures some { 0 < result }
    {
        let link = self.keys.listed_link(place);
        link.length
    }

    /// Returns the first value of the key, or `None` if the key is absent.
    ///
    /// For the last value see [`get_last`](Self::get_last), for all values of the key
    /// [`get_all`](Self::get_all), and to change the value in place [`get_mut`](Self::get_mut). The
    /// key may be a query, as `&str` for `String` keys ([`KeyQuery`]).
    ///
    /// # Complexity
    ///
    /// *O*(1) expected. It reads the slots of the key and of the value.
    ///
    /// # Examples
    ///
    /// ```
    /// use ordered_multimap::ListOrderedMultimap;
    ///
    /// let mut map = ListOrderedMultimap::new(rt.alloc());
    /// map.append("line", 1)?;
    /// map.append("line", 2)?;
    /// assert_eq!(rt; map.get("line"), Some(&1));
    /// assert_eq!(rt; map.get("word"), None);
    /// ```
    #[inline(always)]
    pub fn get<Q: KeyQuery<K>>(&self, key: Q) -> Option<&V>
        ensures { option_copied result
            ≡ slice_get (values_where (Q.equivalent key) self.now.lists.pairs) 0 }
    {
        match self.look_up(key).1 {
            Some(place) => Some(self.first_at(place)),
            None => None,
        }
    }

    /// Returns `true` if the map contains the key.
    ///
    /// A key is in the map as long as it has a value. To ask for a value see
    /// [`contains`](Self::contains), and for the number of values [`entry_len`](Self::entry_len).
    /// The key may be a query ([`KeyQuery`]).
    ///
    /// # Complexity
    ///
    /// *O*(1) expected.
    ///
    /// # Examples
    ///
    /// ```
    /// use ordered_multimap::ListOrderedMultimap;
    ///
    /// let mut map = ListOrderedMultimap::new(rt.alloc());
    /// map.append("page", 8)?;
    /// assert!(rt; map.contains_key("page"));
    /// assert!(rt; !map.contains_key("word"));
    /// ```
    #[inline]
    pub fn contains_key<Q: KeyQuery<K>>(&self, key: Q) -> bool
        ensures { result ≡ is_present_where (Q.equivalent key) self.now.lists.pairs }
    {
        self.look_up(key).1.is_some()
    }

    /// Returns the number of values of the key, or 0 if the key is absent.
    ///
    /// For the numbers of all keys and of all pairs see [`keys_len`](Self::keys_len) and
    /// [`values_len`](Self::values_len). The key may be a query ([`KeyQuery`]).
    ///
    /// # Complexity
    ///
    /// *O*(1) expected. It reads the slot of the key, and no value.
    ///
    /// # Examples
    ///
    /// ```
    /// use ordered_multimap::ListOrderedMultimap;
    ///
    /// let mut map = ListOrderedMultimap::new(rt.alloc());
    /// map.append("line", 1)?;
    /// map.append("line", 2)?;
    /// assert_eq!(rt; map.entry_len("line"), 2);
    /// assert_eq!(rt; map.entry_len("word"), 0);
    /// ```
    #[inline]
    pub fn entry_len<Q: KeyQuery<K>>(&self, key: Q) -> usize
        ensures { result ≡ length (values_where (Q.equivalent key) self.now.lists.pairs) }
    {
        match self.look_up(key).1 {
            Some(place) => self.len_at(place),
            None => 0,
        }
    }

    /// Returns the first pair, or `None` if the map is empty.
    ///
    /// It is the oldest pair, unless a sort moved the pairs. To write its value see
    /// [`front_mut`](Self::front_mut), and to remove it [`pop_front`](Self::pop_front).
    ///
    /// # Complexity
    ///
    /// *O*(1). It reads the slots of the value and of its key.
    ///
    /// # Examples
    ///
    /// ```
    /// use ordered_multimap::ListOrderedMultimap;
    ///
    /// let mut map = ListOrderedMultimap::new(rt.alloc());
    /// assert_eq!(rt; map.front(), None);
    /// map.append("line", 1)?;
    /// map.append("page", 8)?;
    /// assert_eq!(rt; map.front(), Some((&"line", &1)));
    /// ```
    pub fn front(&self) -> Option<(&K, &V)>
        ensures { option_map (λ r. (r.0.now, r.1.now)) result
            ≡ end_item Front self.now.lists.pairs }
    {
        self.iter().next()
    }

    /// Returns the last pair, or `None` if the map is empty.
    ///
    /// It is the newest pair, unless a sort moved the pairs. To write its value see
    /// [`back_mut`](Self::back_mut), and to remove it [`pop_back`](Self::pop_back).
    ///
    /// # Complexity
    ///
    /// *O*(1). It reads the slots of the value and of its key.
    ///
    /// # Examples
    ///
    /// ```
    /// use ordered_multimap::ListOrderedMultimap;
    ///
    /// let mut map = ListOrderedMultimap::new(rt.alloc());
    /// assert_eq!(rt; map.back(), None);
    /// map.append("line", 1)?;
    /// map.append("page", 8)?;
    /// assert_eq!(rt; map.back(), Some((&"page", &8)));
    /// ```
    pub fn back(&self) -> Option<(&K, &V)>
        ensures { option_map (λ r. (r.0.now, r.1.now)) result ≡ end_item Back self.now.lists.pairs }
    {
        self.iter().next_back()
    }
}
