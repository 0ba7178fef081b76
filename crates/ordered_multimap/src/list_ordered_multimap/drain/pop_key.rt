//! Removing the key at an end of the keys, with all its values.
ghost use Rattle.std.specs.Prelude.{◌≡◌, [], None, IfNone, IfSome, OnSome, option_map};
ghost use Rattle.std.specs.Borrow.{sem};
ghost use Rattle.multimap_walks.specs.Walk.{end_item};
ghost use Rattle.multimap_walks.specs.declared.End.TheVariants.{Front, Back};
ghost use Rattle.ordered_multimap.specs.Changes.{removed};
ghost use Rattle.ordered_multimap.specs.Detaches.{KeepsListed, left_of};
ghost use Rattle.ordered_multimap.specs.DrainLends.{ends_key_popped};
ghost use Rattle.ordered_multimap.specs.Drains.{DrainsEntry, drain_left};
ghost use Rattle.ordered_multimap.specs.Private.KeySteps.{DetachesValues, HasEndKey, HoldsInRoom};
ghost use Rattle.ordered_multimap.specs.Private.RemoveOne.{end_of_list};

use super::EntryValuesDrain;
use crate::list_ordered_multimap::ListOrderedMultimap;
use multimap_slots::SlotList;
use multimap_walks::{End, KeyLink};
use std::alloc::Allocator;
use std::hash::{BuildHasher, Hash};

/// The place of the key at an end.
fn place_at_end<K, A: Allocator>(keys: &SlotList<K, KeyLink, A>, end: End) -> Option<usize>
    ensures { result ≡ end_of_list end keys.now.order }
{
    match end {
        End::Front => keys.front_place(),
        End::Back => keys.back_place(),
    }
}

impl<K: Eq + Hash, V, S: BuildHasher, A: Allocator> ListOrderedMultimap<K, V, S, A> {
    /// The place of the key at an end of the keys.
    fn end_key(&self, end: End) -> Option<usize>
        ensures found { IfSome result (HasEndKey K.eq end self.now) }
        ensures none { IfNone result (end_item end self.now.lists.keys ≡ None) }
    {
        place_at_end(&self.keys, end)
    }

    /// Takes the key at an end of the keys out, detaches all its values for a drain, and returns
    /// the key.
    fn detach_end(&mut self, end: End) -> Option<K>
        ensures key { result ≡ end_item end self.old.lists.keys }
        ensures holds { OnSome result (HoldsInRoom self.old self.new) }
        ensures detached { IfSome result (λ k. DetachesValues K.eq self.old self.new k
            (removed K.eq self.old.lists k)) }
        ensures unchanged { IfNone result (self.new ≡ self.old) }
    {
        match self.end_key(end) {
            Some(place) => Some(self.detach_at(place)),
            None => None,
        }
    }

    /// Takes the key at an end of the keys out, as `detach_end` does, and hands the map back.
    fn detach_end_on(&mut self, end: End) -> (Option<K>, &mut Self)
        ensures same_map { result.1.ghost_name ≡ self.entry.ghost_name }
        ensures key { result.0 ≡ end_item end self.old.lists.keys }
        ensures holds { OnSome result.0 (HoldsInRoom self.old result.1.now) }
        ensures detached { IfSome result.0 (λ k. DetachesValues K.eq self.old result.1.now k
            (removed K.eq self.old.lists k)) }
        ensures unchanged { IfNone result.0 (result.1.now ≡ self.old) }
    {
        let key = self.detach_end(end);
        (key, self)
    }

    /// Takes the key at an end of the keys out, as `detach_end` does; without a key nothing is left
    /// for a drain.
    fn detach_end_or_none(&mut self, end: End) -> Option<K>
        ensures key { result ≡ end_item end self.old.lists.keys }
        ensures holds { HoldsInRoom self.old self.new }
        ensures detached { IfSome result (λ k. DetachesValues K.eq self.old self.new k
            (removed K.eq self.old.lists k)) }
        ensures empty { IfNone result (left_of self.new ≡ []) }
        ensures unchanged { IfNone result (KeepsListed self.old self.new) }
    {
        match self.detach_end(end) {
            Some(key) => Some(key),
            None => {
                self.detach_none();
                None
            }
        }
    }
}

impl<K: Eq + Hash, V: Drop, S: BuildHasher, A: Allocator> ListOrderedMultimap<K, V, S, A> {
    /// Removes the first key with all its values, and returns it with a double-ended iterator over
    /// the removed values, or `None` if the map is empty.
    ///
    /// It is the first of [`keys`](Self::keys), which needn't be the key of the first pair. The
    /// call itself removes the pairs; [`remove_all`](Self::remove_all) says what happens to the
    /// iterator. The other keys and pairs keep their order.
    ///
    /// For the last key see [`pop_back_key`](Self::pop_back_key), for the first pair alone
    /// [`pop_front`](Self::pop_front), and for a key by name
    /// [`remove_entry_all`](Self::remove_entry_all).
    ///
    /// No memory is allocated or freed: later additions reuse the slots.
    ///
    /// Proved callers: see CALLING.md.
    ///
    /// # Complexity
    ///
    /// *O*(*v*) expected for the call, where *v* is the number of values of the key, and *O*(1) for
    /// each step of the iterator.
    ///
    /// # Examples
    ///
    /// ```
    /// use ordered_multimap::ListOrderedMultimap;
    ///
    /// let mut map = ListOrderedMultimap::new(rt.alloc());
    /// map.append("line", 1)?;
    /// map.append("page", 8)?;
    /// map.append("line", 2)?;
    /// if let Some((key, values)) = map.pop_front_key() {
    ///     assert_eq!(rt; key, "line");
    ///     assert!(rt; values.eq([1, 2]));
    /// }
    /// assert!(rt; map.iter().eq([(&"page", &8)]));
    /// ```
    pub fn pop_front_key(&mut self) -> Option<(K, EntryValuesDrain<'_, K, V, S, A>)>
        ensures* rest { sem 𝓛 (ends_key_popped K.row V.row S.row A.row S.Hasher.row K.PartialEq
            K.Hash.own S.BuildHasher S.Hasher.Hasher A.Allocator self.entry result) }
        ensures key { option_map (λ r. r.0) result ≡ end_item Front self.old.lists.keys }
        ensures drain { IfSome result (λ r. DrainsEntry K.eq self.old r.0 r.1) }
        ensures same_map { IfSome result (λ r. r.1.map.ghost_name ≡ self.entry.ghost_name) }
    {
        self.pop_end_key(End::Front)
    }

    /// Removes the last key with all its values, and returns it with a double-ended iterator over
    /// the removed values, or `None` if the map is empty.
    ///
    /// It is the last of [`keys`](Self::keys), which needn't be the key of the last pair. The call
    /// itself removes the pairs; [`remove_all`](Self::remove_all) says what happens to the
    /// iterator. The other keys and pairs keep their order.
    ///
    /// For the first key see [`pop_front_key`](Self::pop_front_key), and for the last pair alone
    /// [`pop_back`](Self::pop_back).
    ///
    /// No memory is allocated or freed: later additions reuse the slots.
    ///
    /// Proved callers: see CALLING.md.
    ///
    /// # Complexity
    ///
    /// Same as [`pop_front_key`](Self::pop_front_key).
    ///
    /// # Examples
    ///
    /// ```
    /// use ordered_multimap::ListOrderedMultimap;
    ///
    /// let mut map = ListOrderedMultimap::new(rt.alloc());
    /// map.append("line", 1)?;
    /// map.append("page", 8)?;
    /// map.append("line", 2)?;
    /// if let Some((key, values)) = map.pop_back_key() {
    ///     assert_eq!(rt; key, "page");
    ///     assert!(rt; values.eq([8]));
    /// }
    /// assert!(rt; map.iter().eq([(&"line", &1), (&"line", &2)]));
    /// ```
    pub fn pop_back_key(&mut self) -> Option<(K, EntryValuesDrain<'_, K, V, S, A>)>
        ensures* rest { sem 𝓛 (ends_key_popped K.row V.row S.row A.row S.Hasher.row K.PartialEq
            K.Hash.own S.BuildHasher S.Hasher.Hasher A.Allocator self.entry result) }
        ensures key { option_map (λ r. r.0) result ≡ end_item Back self.old.lists.keys }
        ensures drain { IfSome result (λ r. DrainsEntry K.eq self.old r.0 r.1) }
        ensures same_map { IfSome result (λ r. r.1.map.ghost_name ≡ self.entry.ghost_name) }
    {
        self.pop_end_key(End::Back)
    }

    /// Removes the key at an end of the keys, with a drain of its values.
    fn pop_end_key(&mut self, end: End) -> Option<(K, EntryValuesDrain<'_, K, V, S, A>)>
        ensures* rest { sem 𝓛 (ends_key_popped K.row V.row S.row A.row S.Hasher.row K.PartialEq
            K.Hash.own S.BuildHasher S.Hasher.Hasher A.Allocator self.entry result) }
        ensures key { option_map (λ r. r.0) result ≡ end_item end self.old.lists.keys }
        ensures drain { IfSome result (λ r. DrainsEntry K.eq self.old r.0 r.1) }
        ensures same_map { IfSome result (λ r. r.1.map.ghost_name ≡ self.entry.ghost_name) }
    {
        let (key, map) = self.detach_end_on(end);
        match key {
            Some(key) => Some((key, map.lend_to_drain())),
            None => None,
        }
    }

    /// Removes the first key with all its values, puts it into `stored`, and returns a double-ended
    /// iterator over the removed values.
    ///
    /// If the map is empty, `stored` is set to `None`, and the iterator is empty. What `stored` held
    /// before is dropped. Else it does what [`pop_front_key`](Self::pop_front_key) does.
    ///
    /// It is for proved callers: see CALLING.md.
    ///
    /// # Complexity
    ///
    /// Same as [`pop_front_key`](Self::pop_front_key).
    ///
    /// # Examples
    ///
    /// ```
    /// use ordered_multimap::ListOrderedMultimap;
    ///
    /// let mut map = ListOrderedMultimap::new(rt.alloc());
    /// map.append("line", 1)?;
    /// map.append("page", 8)?;
    /// map.append("line", 2)?;
    /// let mut stored = None;
    /// assert!(rt; map.pop_front_key_with_all(&mut stored).eq([1, 2]));
    /// assert_eq!(rt; stored, Some("line"));
    /// assert!(rt; map.iter().eq([(&"page", &8)]));
    /// ```
    pub fn pop_front_key_with_all<'map>(
        &'map mut self,
        stored: &mut Option<K>,
    ) -> EntryValuesDrain<'map, K, V, S, A>
    where
        K: Drop,
        ensures key { stored.new ≡ end_item Front self.old.lists.keys }
        ensures drain { IfSome stored.new (λ k. DrainsEntry K.eq self.old k result) }
        ensures empty { IfNone stored.new (drain_left result ≡ []) }
        ensures unchanged { IfNone stored.new (KeepsListed self.old result.map.now) }
        ensures same_map { result.map.ghost_name ≡ self.entry.ghost_name }
    {
        *stored = self.detach_end_or_none(End::Front);
        EntryValuesDrain { map: self }
    }

    /// Removes the last key with all its values, puts it into `stored`, and returns a double-ended
    /// iterator over the removed values.
    ///
    /// If the map is empty, `stored` is set to `None`, and the iterator is empty. What `stored` held
    /// before is dropped. Else it does what [`pop_back_key`](Self::pop_back_key) does.
    ///
    /// It is for proved callers: see CALLING.md.
    ///
    /// # Complexity
    ///
    /// Same as [`pop_front_key`](Self::pop_front_key).
    ///
    /// # Examples
    ///
    /// ```
    /// use ordered_multimap::ListOrderedMultimap;
    ///
    /// let mut map = ListOrderedMultimap::new(rt.alloc());
    /// map.append("line", 1)?;
    /// map.append("page", 8)?;
    /// map.append("line", 2)?;
    /// let mut stored = None;
    /// assert!(rt; map.pop_back_key_with_all(&mut stored).eq([8]));
    /// assert_eq!(rt; stored, Some("page"));
    /// assert!(rt; map.iter().eq([(&"line", &1), (&"line", &2)]));
    /// ```
    pub fn pop_back_key_with_all<'map>(
        &'map mut self,
        stored: &mut Option<K>,
    ) -> EntryValuesDrain<'map, K, V, S, A>
    where
        K: Drop,
        ensures key { stored.new ≡ end_item Back self.old.lists.keys }
        ensures drain { IfSome stored.new (λ k. DrainsEntry K.eq self.old k result) }
        ensures empty { IfNone stored.new (drain_left result ≡ []) }
        ensures unchanged { IfNone stored.new (KeepsListed self.old result.map.now) }
        ensures same_map { result.map.ghost_name ≡ self.entry.ghost_name }
    {
        *stored = self.detach_end_or_none(End::Back);
        EntryValuesDrain { map: self }
    }
}
