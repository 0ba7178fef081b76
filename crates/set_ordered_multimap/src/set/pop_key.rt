//! Removals of the first and of the last key, with all values.
ghost use Rattle.std.specs.Prelude.{◌≡◌, [], IfNone, IfSome, option_map};
ghost use Rattle.std.specs.Borrow.{sem};
ghost use Rattle.ordered_multimap.specs.Detaches.{KeepsListed};
ghost use Rattle.ordered_multimap.specs.Drains.{DrainsEntry, drain_left};
ghost use Rattle.ordered_multimap.specs.End.TheVariants.{Front, Back};
ghost use Rattle.ordered_multimap.specs.Walk.{end_item};
ghost use Rattle.set_ordered_multimap.specs.Set.{IsSet};
ghost use Rattle.set_ordered_multimap.specs.SetLends.{ends_as_map, ends_set_key_popped};

use super::SetOrderedMultimap;
use ordered_multimap::list_ordered_multimap::EntryValuesDrain;
use std::alloc::Allocator;
use std::hash::{BuildHasher, Hash};

impl<K: Eq + Hash, V: Eq + Drop, S: BuildHasher, A: Allocator> SetOrderedMultimap<K, V, S, A> {
    /// Removes the first key with all its values, and returns it with a draining iterator over the
    /// values, or `None` if the set is empty.
    ///
    /// It is the first of [`keys`](Self::keys), which needn't be the key of the first pair. The
    /// pairs leave the set at this call, whatever becomes of the iterator:
    /// [`remove_all`](Self::remove_all) says what happens to the values. The other keys and pairs
    /// keep their order. The call doesn't allocate. For the last key see
    /// [`pop_back_key`](Self::pop_back_key), and for the first pair alone
    /// [`pop_front`](Self::pop_front).
    ///
    /// Proved callers: see CALLING.md.
    ///
    /// # Complexity
    ///
    /// *O*(*v*) expected for the *v* values of the key, and *O*(1) for each step of the iterator.
    ///
    /// # Examples
    ///
    /// ```
    /// use set_ordered_multimap::SetOrderedMultimap;
    ///
    /// let mut set = SetOrderedMultimap::new(rt.alloc());
    /// set.insert("plan", "draft")?;
    /// set.insert("note", "draft")?;
    /// set.insert("plan", "long")?;
    /// if let Some((key, values)) = set.pop_front_key() {
    ///     assert_eq!(rt; key, "plan");
    ///     assert!(rt; values.eq(["draft", "long"]));
    /// }
    /// assert!(rt; set.keys().eq(&["note"]));
    /// ```
    pub fn pop_front_key(&mut self) -> Option<(K, EntryValuesDrain<'_, K, V, S, A>)>
        ensures* rest { sem 𝓛 (ends_set_key_popped K.row V.row S.row A.row S.Hasher.row K.Hash
            S.BuildHasher S.Hasher.Hasher A.Allocator (λ d. d.map.ghost_name) self.entry result) }
        ensures key { option_map (λ r. r.0) result ≡ end_item Front self.old.lists.keys }
        ensures drain { IfSome result (λ r. DrainsEntry K.eq self.old r.0 r.1) }
        ensures set { IfSome result (λ r. IsSet K.eq V.eq self.old.lists
            → IsSet K.eq V.eq r.1.map.now.lists) }
    {
        let map = self.lend();
        map.pop_front_key()
    }

    /// Removes the last key with all its values, and returns it with a draining iterator over the
    /// values, or `None` if the set is empty.
    ///
    /// It is the last of [`keys`](Self::keys), which needn't be the key of the last pair. The
    /// pairs leave the set at this call, whatever becomes of the iterator:
    /// [`remove_all`](Self::remove_all) says what happens to the values. The other keys and pairs
    /// keep their order. The call doesn't allocate. For the first key see
    /// [`pop_front_key`](Self::pop_front_key), and for the last pair alone
    /// [`pop_back`](Self::pop_back).
    ///
    /// Proved callers: see CALLING.md.
    ///
    /// # Complexity
    ///
    /// *O*(*v*) expected for the *v* values of the key, and *O*(1) for each step of the iterator.
    ///
    /// # Examples
    ///
    /// ```
    /// use set_ordered_multimap::SetOrderedMultimap;
    ///
    /// let mut set = SetOrderedMultimap::new(rt.alloc());
    /// set.insert("plan", "draft")?;
    /// set.insert("note", "draft")?;
    /// set.insert("plan", "long")?;
    /// if let Some((key, values)) = set.pop_back_key() {
    ///     assert_eq!(rt; key, "note");
    ///     assert!(rt; values.eq(["draft"]));
    /// }
    /// assert!(rt; set.keys().eq(&["plan"]));
    /// ```
    pub fn pop_back_key(&mut self) -> Option<(K, EntryValuesDrain<'_, K, V, S, A>)>
        ensures* rest { sem 𝓛 (ends_set_key_popped K.row V.row S.row A.row S.Hasher.row K.Hash
            S.BuildHasher S.Hasher.Hasher A.Allocator (λ d. d.map.ghost_name) self.entry result) }
        ensures key { option_map (λ r. r.0) result ≡ end_item Back self.old.lists.keys }
        ensures drain { IfSome result (λ r. DrainsEntry K.eq self.old r.0 r.1) }
        ensures set { IfSome result (λ r. IsSet K.eq V.eq self.old.lists
            → IsSet K.eq V.eq r.1.map.now.lists) }
    {
        let map = self.lend();
        map.pop_back_key()
    }

    /// Removes the first key with all its values, puts it into `stored`, and returns a draining
    /// iterator over the values.
    ///
    /// If the set is empty, `stored` is set to `None`, and the iterator is empty. What `stored` held
    /// before is dropped. It is for proved callers; others take
    /// [`pop_front_key`](Self::pop_front_key). See CALLING.md.
    ///
    /// # Complexity
    ///
    /// Same as [`pop_front_key`](Self::pop_front_key).
    ///
    /// # Examples
    ///
    /// ```
    /// use set_ordered_multimap::SetOrderedMultimap;
    ///
    /// let mut set = SetOrderedMultimap::new(rt.alloc());
    /// set.insert("plan", "draft")?;
    /// set.insert("note", "draft")?;
    /// set.insert("plan", "long")?;
    /// let mut stored = None;
    /// assert!(rt; set.pop_front_key_with_all(&mut stored).eq(["draft", "long"]));
    /// assert_eq!(rt; stored, Some("plan"));
    /// ```
    pub fn pop_front_key_with_all<'set>(
        &'set mut self,
        stored: &mut Option<K>,
    ) -> EntryValuesDrain<'set, K, V, S, A>
    where
        K: Drop,
        ensures* rest { sem 𝓛 (ends_as_map K.row V.row S.row A.row S.Hasher.row K.Hash
            S.BuildHasher S.Hasher.Hasher A.Allocator self.entry result.map.ghost_name) }
        ensures key { stored.new ≡ end_item Front self.old.lists.keys }
        ensures drain { IfSome stored.new (λ k. DrainsEntry K.eq self.old k result) }
        ensures empty { IfNone stored.new (drain_left result ≡ []) }
        ensures unchanged { IfNone stored.new (KeepsListed self.old result.map.now) }
        ensures set { IsSet K.eq V.eq self.old.lists → IsSet K.eq V.eq result.map.now.lists }
    {
        let map = self.lend();
        map.pop_front_key_with_all(stored)
    }

    /// Removes the last key with all its values, puts it into `stored`, and returns a draining
    /// iterator over the values.
    ///
    /// If the set is empty, `stored` is set to `None`, and the iterator is empty. What `stored` held
    /// before is dropped. It is for proved callers; others take
    /// [`pop_back_key`](Self::pop_back_key). See CALLING.md.
    ///
    /// # Complexity
    ///
    /// Same as [`pop_back_key`](Self::pop_back_key).
    ///
    /// # Examples
    ///
    /// ```
    /// use set_ordered_multimap::SetOrderedMultimap;
    ///
    /// let mut set = SetOrderedMultimap::new(rt.alloc());
    /// set.insert("plan", "draft")?;
    /// set.insert("note", "draft")?;
    /// set.insert("plan", "long")?;
    /// let mut stored = None;
    /// assert!(rt; set.pop_back_key_with_all(&mut stored).eq(["draft"]));
    /// assert_eq!(rt; stored, Some("note"));
    /// ```
    pub fn pop_back_key_with_all<'set>(
        &'set mut self,
        stored: &mut Option<K>,
    ) -> EntryValuesDrain<'set, K, V, S, A>
    where
        K: Drop,
        ensures* rest { sem 𝓛 (ends_as_map K.row V.row S.row A.row S.Hasher.row K.Hash
            S.BuildHasher S.Hasher.Hasher A.Allocator self.entry result.map.ghost_name) }
        ensures key { stored.new ≡ end_item Back self.old.lists.keys }
        ensures drain { IfSome stored.new (λ k. DrainsEntry K.eq self.old k result) }
        ensures empty { IfNone stored.new (drain_left result ≡ []) }
        ensures unchanged { IfNone stored.new (KeepsListed self.old result.map.now) }
        ensures set { IsSet K.eq V.eq self.old.lists → IsSet K.eq V.eq result.map.now.lists }
    {
        let map = self.lend();
        map.pop_back_key_with_all(stored)
    }
}
