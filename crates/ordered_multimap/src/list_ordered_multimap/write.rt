//! Mutable references to one value.
ghost use Rattle.std.specs.Prelude.{◌≡◌, ◌<◌, length, nat_lt, slice_get, option_map, Some};
ghost use Rattle.std.specs.Borrow.{sem};
ghost use Rattle.std.specs.Option.{option_copied_mut};
ghost use Rattle.multimap_slots.specs.Lists.{IsIn};
ghost use Rattle.multimap_walks.specs.Chained.{pair_at};
ghost use Rattle.multimap_walks.specs.Walk.{end_item};
ghost use Rattle.multimap_walks.specs.declared.End.TheVariants.{Front, Back};
ghost use Rattle.ordered_multimap.specs.Agrees.{HasKey};
ghost use Rattle.ordered_multimap.specs.Changes.{first_written};
ghost use Rattle.ordered_multimap.specs.Pairs.{values_of, values_where};
ghost use Rattle.ordered_multimap.specs.WriteLends.{lends_value, lends_first_value, lends_first_of};
ghost use Rattle.ordered_multimap.specs.WriteLends.{lends_end, lends_end_if};
ghost use Rattle.ordered_multimap.specs.Private.Heads.{HasHead, IsHead};
ghost use Rattle.ordered_multimap.specs.Writes.{with_first, with_value, IsWritten};

use super::ListOrderedMultimap;
use super::lookup::{slot_at, value_at};
use super::pop::place_at_end;
use crate::KeyQuery;
use multimap_walks::End;
use std::alloc::Allocator;
use std::hash::{BuildHasher, Hash};

impl<K: Eq + Hash, V, S: BuildHasher, A: Allocator> ListOrderedMultimap<K, V, S, A> {
    /// The value at the place, which is a key's first one, to write.
    pub(super) fn first_mut_from(&mut self, first: usize) -> &mut V
        requires { IsHead self.old.slots.keys first }
        ensures* writes_back { sem 𝓛 (lends_value K.row V.row S.row A.row S.Hasher.row K.Hash
            S.BuildHasher S.Hasher.Hasher A.Allocator self.entry first result) }
        ensures value { (k : K) → HasHead K.eq self.old.slots.keys k first
            → slice_get (values_of K.eq self.old.lists.pairs k) 0 ≡ Some result.now }
        ensures written { (k : K) → HasHead K.eq self.old.slots.keys k first → (v : V)
            → IsWritten self.old (with_value self.old first v)
            (first_written K.eq self.old.lists k v) }
    {
        self.values.get_listed_mut(first)
    }

    /// The first value of the key at the place, to write.
    pub(super) fn first_mut_at(&mut self, place: usize) -> &mut V
        requires { IsIn place self.old.slots.keys.order }
        ensures* writes_back { sem 𝓛 (lends_first_value K.row V.row S.row A.row S.Hasher.row K.Hash
            S.BuildHasher S.Hasher.Hasher A.Allocator self.entry place result) }
        ensures value { (k : K) → HasKey K.eq self.old.slots.keys k place
            → slice_get (values_of K.eq self.old.lists.pairs k) 0 ≡ Some result.now }
        ensures written { (k : K) → HasKey K.eq self.old.slots.keys k place → (v : V)
            → IsWritten self.old (with_first self.old place v)
            (first_written K.eq self.old.lists k v) }
    {
        let first = self.first_place(place);
        self.first_mut_from(first)
    }

    /// Returns a mutable reference to the first value of the key, or `None` if the key is absent.
    ///
    /// For all values of the key see [`get_all_mut`](Self::get_all_mut), and to replace them by one
    /// value [`insert`](Self::insert). The key may be a query, as `&str` for `String` keys
    /// ([`KeyQuery`]).
    ///
    /// # Complexity
    ///
    /// *O*(1) expected. It reads the slots of the key and of the value.
    ///
    /// # Examples
    ///
    /// ```
    /// use ordered_multimap::ListOrderedMultimap;
    ///
    /// let mut map = ListOrderedMultimap::new(rt.alloc());
    /// map.append("line", 1)?;
    /// map.append("page", 8)?;
    /// map.append("line", 2)?;
    /// if let Some(value) = map.get_mut("line") {
    ///     *value = 3;
    /// }
    /// assert!(rt; map.iter().eq([(&"line", &3), (&"page", &8), (&"line", &2)]));
    /// ```
    #[inline]
    pub fn get_mut<Q: KeyQuery<K>>(&mut self, key: Q) -> Option<&mut V>
        ensures* writes_back { sem 𝓛 (lends_first_of K.row V.row S.row A.row S.Hasher.row K.Hash
            S.BuildHasher S.Hasher.Hasher A.Allocator self.entry (Q.equivalent key) result) }
        ensures value { option_copied_mut result
            ≡ slice_get (values_where (Q.equivalent key) self.old.lists.pairs) 0 }
    {
        match self.look_up(key).1 {
            Some(place) => Some(self.first_mut_at(place)),
            None => None,
        }
    }

    /// The pair whose value stands at the place, that value to write.
    fn pair_mut_at(&mut self, place: usize) -> (&K, &mut V)
        requires { IsIn place self.old.slots.values.order }
        ensures* writes_back { sem 𝓛 (lends_value K.row V.row S.row A.row S.Hasher.row K.Hash
            S.BuildHasher S.Hasher.Hasher A.Allocator self.entry place result.1) }
        ensures pair { pair_at self.old.slots.keys self.old.slots.values place
            ≡ Some (result.0.now, result.1.now) }
    {
        let (_, link) = value_at(&self.values, place);
        let (key, _) = slot_at(&self.keys, link.key);
        (key, self.values.get_listed_mut(place))
    }

    /// The pair at an end, its value to write.
    fn end_mut(&mut self, end: End) -> (&K, &mut V)
        requires { 0 < length self.old.lists.pairs }
        ensures* writes_back { sem 𝓛 (lends_end K.row V.row S.row A.row S.Hasher.row K.Hash
            S.BuildHasher S.Hasher.Hasher A.Allocator end self.entry result) }
        ensures pair { end_item end self.old.lists.pairs ≡ Some (result.0.now, result.1.now) }
    {
        match place_at_end(&self.values, end) {
            Some(place) => self.pair_mut_at(place),
            None => unreachable!(),
        }
    }

    /// Returns the first pair of a map that isn't empty, with a mutable reference to the value.
    ///
    /// It is for proved callers: see CALLING.md. Others use
    /// [`front_mut`](Self::front_mut), which returns `None` if the map is empty.
    ///
    /// # Complexity
    ///
    /// *O*(1). It reads the slots of the value and of its key.
    ///
    /// # Requires
    ///
    /// The map has a pair.
    ///
    /// # Examples
    ///
    /// ```
    /// use ordered_multimap::ListOrderedMultimap;
    ///
    /// let mut map = ListOrderedMultimap::new(rt.alloc());
    /// map.append("line", 1)?;
    /// map.append("page", 8)?;
    /// let (_key, value) = map.first_mut();
    /// *value = 4;
    /// assert_eq!(rt; map.front(), Some((&"line", &4)));
    /// ```
    pub fn first_mut(&mut self) -> (&K, &mut V)
        requires { 0 < length self.old.lists.pairs }
        ensures* writes_back { sem 𝓛 (lends_end K.row V.row S.row A.row S.Hasher.row K.Hash
            S.BuildHasher S.Hasher.Hasher A.Allocator Front self.entry result) }
        ensures pair { end_item Front self.old.lists.pairs ≡ Some (result.0.now, result.1.now) }
    {
        let has_pair = 0 < self.values_len();
        prove!(has_pair);
        self.end_mut(End::Front)
    }

    /// Returns the last pair of a map that isn't empty, with a mutable reference to the value.
    ///
    /// It is for proved callers: see CALLING.md. Others use
    /// [`back_mut`](Self::back_mut), which returns `None` if the map is empty.
    ///
    /// # Complexity
    ///
    /// *O*(1). It reads the slots of the value and of its key.
    ///
    /// # Requires
    ///
    /// The map has a pair.
    ///
    /// # Examples
    ///
    /// ```
    /// use ordered_multimap::ListOrderedMultimap;
    ///
    /// let mut map = ListOrderedMultimap::new(rt.alloc());
    /// map.append("line", 1)?;
    /// map.append("page", 8)?;
    /// let (_key, value) = map.last_mut();
    /// *value = 9;
    /// assert_eq!(rt; map.back(), Some((&"page", &9)));
    /// ```
    pub fn last_mut(&mut self) -> (&K, &mut V)
        requires { 0 < length self.old.lists.pairs }
        ensures* writes_back { sem 𝓛 (lends_end K.row V.row S.row A.row S.Hasher.row K.Hash
            S.BuildHasher S.Hasher.Hasher A.Allocator Back self.entry result) }
        ensures pair { end_item Back self.old.lists.pairs ≡ Some (result.0.now, result.1.now) }
    {
        let has_pair = 0 < self.values_len();
        prove!(has_pair);
        self.end_mut(End::Back)
    }

    /// Whether there is a pair, and the map is handed back.
    fn has_pair_on(&mut self) -> (bool, &mut Self)
        ensures some { result.0 ≡ nat_lt 0 (length self.old.lists.pairs) }
        ensures same_map { result.1.ghost_name ≡ self.entry.ghost_name }
        ensures now { result.1.now ≡ self.old }
    {
        let some = 0 < self.values_len();
        (some, self)
    }

    /// The pair at an end, its value to write, if there is one.
    fn end_mut_if(&mut self, end: End) -> Option<(&K, &mut V)>
        ensures* writes_back { sem 𝓛 (lends_end_if K.row V.row S.row A.row S.Hasher.row K.Hash
            S.BuildHasher S.Hasher.Hasher A.Allocator end self.entry result) }
        ensures pair { option_map (λ r. (r.0.now, r.1.now)) result
            ≡ end_item end self.old.lists.pairs }
    {
        let (some, map) = self.has_pair_on();
        if some { Some(map.end_mut(end)) } else { None }
    }

    /// Returns the first pair with a mutable reference to its value, or `None` if the map is empty.
    ///
    /// To read the value only see [`front`](Self::front), and to remove the pair
    /// [`pop_front`](Self::pop_front).
    ///
    /// Proved callers: see CALLING.md.
    ///
    /// # Complexity
    ///
    /// *O*(1). It reads the slots of the value and of its key.
    ///
    /// # Examples
    ///
    /// ```
    /// use ordered_multimap::ListOrderedMultimap;
    ///
    /// let mut map = ListOrderedMultimap::new(rt.alloc());
    /// map.append("line", 1)?;
    /// map.append("page", 8)?;
    /// if let Some((_key, value)) = map.front_mut() {
    ///     *value = 4;
    /// }
    /// assert_eq!(rt; map.front(), Some((&"line", &4)));
    /// ```
    pub fn front_mut(&mut self) -> Option<(&K, &mut V)>
        ensures* writes_back { sem 𝓛 (lends_end_if K.row V.row S.row A.row S.Hasher.row K.Hash
            S.BuildHasher S.Hasher.Hasher A.Allocator Front self.entry result) }
        ensures pair { option_map (λ r. (r.0.now, r.1.now)) result
            ≡ end_item Front self.old.lists.pairs }
    {
        self.end_mut_if(End::Front)
    }

    /// Returns the last pair with a mutable reference to its value, or `None` if the map is empty.
    ///
    /// To read the value only see [`back`](Self::back), and to remove the pair
    /// [`pop_back`](Self::pop_back).
    ///
    /// Proved callers: see CALLING.md.
    ///
    /// # Complexity
    ///
    /// *O*(1). It reads the slots of the value and of its key.
    ///
    /// # Examples
    ///
    /// ```
    /// use ordered_multimap::ListOrderedMultimap;
    ///
    /// let mut map = ListOrderedMultimap::new(rt.alloc());
    /// map.append("line", 1)?;
    /// map.append("page", 8)?;
    /// if let Some((_key, value)) = map.back_mut() {
    ///     *value = 9;
    /// }
    /// assert_eq!(rt; map.back(), Some((&"page", &9)));
    /// ```
    pub fn back_mut(&mut self) -> Option<(&K, &mut V)>
        ensures* writes_back { sem 𝓛 (lends_end_if K.row V.row S.row A.row S.Hasher.row K.Hash
            S.BuildHasher S.Hasher.Hasher A.Allocator Back self.entry result) }
        ensures pair { option_map (λ r. (r.0.now, r.1.now)) result
            ≡ end_item Back self.old.lists.pairs }
    {
        self.end_mut_if(End::Back)
    }
}
