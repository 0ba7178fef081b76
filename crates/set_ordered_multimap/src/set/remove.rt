//! Removals of one pair, of all pairs of a key, and of all pairs.
ghost use Rattle.std.specs.Prelude.{◌≡◌, ◌+◌, IfNone, cond, false, is_some, length, slice_get, true};
ghost use Rattle.std.specs.Borrow.{sem};
ghost use Rattle.std.specs.List.{FoldsTo};
ghost use Rattle.ordered_multimap.specs.Changes.{kept};
ghost use Rattle.ordered_multimap.specs.Drains.{DrainsWhere};
ghost use Rattle.ordered_multimap.specs.OneValue.{index_removed};
ghost use Rattle.ordered_multimap.specs.Pairs.{values_where};
ghost use Rattle.ordered_multimap.specs.Removals.{IsRemovedWhere};
ghost use Rattle.ordered_multimap.specs.Rooms.{SameRooms};
ghost use Rattle.ordered_multimap.specs.TapeNumbers.{TakesOut};
ghost use Rattle.set_ordered_multimap.specs.Set.{IsSet, has_pair_where, pairs_but_where};
ghost use Rattle.set_ordered_multimap.specs.SetChanges.{IsClearedSet, LosesKeyWhere, LosesValueWhere};
ghost use Rattle.set_ordered_multimap.specs.SetLends.{ends_as_map, lends_map};

use super::SetOrderedMultimap;
use ordered_multimap::list_ordered_multimap::EntryValuesDrain;
use ordered_multimap::{KeyQuery, ListOrderedMultimap};
use std::alloc::Allocator;
use std::hash::{BuildHasher, Hash};

/// Takes the pair out that is equal to this one. Only the values of its key are gone over.
fn take_equal<K: Eq + Hash + Drop, V: Eq + Drop, S: BuildHasher, A: Allocator, Q: KeyQuery<K>>(
    map: &mut ListOrderedMultimap<K, V, S, A>,
    key: Q,
    value: &V,
)
    requires { has_pair_where (Q.equivalent key) V.eq map.old.lists.pairs value.now ≡ true }
    ensures lists { map.new.lists ≡ kept K.eq map.old.lists
        (pairs_but_where (Q.equivalent key) V.eq map.old.lists.pairs value.now) }
    ensures taken { IsSet K.eq V.eq map.old.lists → TakesOut 1 map.old.tape map.new.tape }
    ensures rooms { SameRooms map.old map.new }
{
    map.retain_all(key, |other| *value != *other);
}

/// Takes the key out with all its values, and hands these to the function, in order.
fn hand_out<
    K: Eq + Hash + Drop,
    V: Drop,
    S: BuildHasher,
    A: Allocator,
    Q: KeyQuery<K>,
    F: FnMut(V),
>(map: &mut ListOrderedMultimap<K, V, S, A>, key: Q, mut f: F)
    requires { F.IsAlwaysCallable f }
    ensures called { (last : F) × FoldsTo (λ g v h. F.step g v tt h) f
        (values_where (Q.equivalent key) map.old.lists.pairs) last }
    ensures removed { IsRemovedWhere (Q.equivalent key) K.eq map.old map.new }
{
    let mut drain = map.remove_all(key);
    while let Some(value) = drain.next() {
        f(value);
    }
}

impl<K: Eq + Hash, V: Eq, S: BuildHasher, A: Allocator> SetOrderedMultimap<K, V, S, A> {
    /// Removes the pair with an equal key and an equal value, and returns whether it was there.
    ///
    /// The stored value is dropped, and the stored key with its last value. Without such a pair
    /// nothing changes. The other keys and pairs keep their order. The call doesn't allocate, and
    /// leaves the capacities as they are. To remove a key with all its values see
    /// [`remove_all`](Self::remove_all). The key may be a query ([`KeyQuery`]).
    ///
    /// # Complexity
    ///
    /// *O*(*v*) expected for the *v* values of the key, and twice that if the pair is there.
    ///
    /// # Examples
    ///
    /// ```
    /// use set_ordered_multimap::SetOrderedMultimap;
    ///
    /// let mut set = SetOrderedMultimap::new(rt.alloc());
    /// set.insert("plan", "draft")?;
    /// set.insert("note", "draft")?;
    /// set.insert("plan", "long")?;
    /// assert!(rt; set.remove_value("plan", &"draft"));
    /// assert!(rt; !set.remove_value("plan", &"draft"));
    /// assert!(rt; set.iter().eq([(&"note", &"draft"), (&"plan", &"long")]));
    /// ```
    pub fn remove_value<Q: KeyQuery<K>>(&mut self, key: Q, value: &V) -> bool
    where
        K: Drop,
        V: Drop,
        ensures there { result
            ≡ has_pair_where (Q.equivalent key) V.eq self.old.lists.pairs value.now }
        ensures loses { LosesValueWhere K.eq V.eq self.old self.new
            (Q.equivalent key) value.now }

        // The one equal pair of a set goes, and nothing changes where there is none.
        ensures one { IsSet K.eq V.eq self.old.lists → length self.old.lists.pairs
            ≡ length self.new.lists.pairs + cond result 1 0 }
        ensures taken { IsSet K.eq V.eq self.old.lists
            → TakesOut (cond result 1 0) self.old.tape self.new.tape }
        ensures unchanged { result ≡ false → self.new ≡ self.old }
    {
        if !self.contains(key, value) {
            return false;
        }
        take_equal(&mut self.map, key, value);
        true
    }

    /// Removes the value at an index among the values of the key, and returns it.
    ///
    /// The values are counted from 0, in the order of the pairs. Returns `None`, and changes
    /// nothing, if the key is absent or the index is out of bounds. The stored key is dropped with
    /// its last value. The other keys and pairs keep their order. The call doesn't allocate, and
    /// leaves the capacities as they are. To remove an equal value see
    /// [`remove_value`](Self::remove_value). The key may be a query ([`KeyQuery`]).
    ///
    /// # Complexity
    ///
    /// *O*(*v*) expected for the *v* values of the key: it follows them from the nearer end, over
    /// half of them at most.
    ///
    /// # Examples
    ///
    /// ```
    /// use set_ordered_multimap::SetOrderedMultimap;
    ///
    /// let mut set = SetOrderedMultimap::new(rt.alloc());
    /// set.insert("plan", "draft")?;
    /// set.insert("note", "draft")?;
    /// set.insert("plan", "long")?;
    /// assert_eq!(rt; set.remove_index("plan", 2), None);
    /// assert_eq!(rt; set.remove_index("plan", 0), Some("draft"));
    /// assert!(rt; set.iter().eq([(&"note", &"draft"), (&"plan", &"long")]));
    /// ```
    pub fn remove_index<Q: KeyQuery<K>>(&mut self, key: Q, index: usize) -> Option<V>
    where
        K: Drop,
        ensures value { result
            ≡ slice_get (values_where (Q.equivalent key) self.old.lists.pairs) index }
        ensures lists { self.new.lists
            ≡ index_removed K.eq (Q.equivalent key) self.old.lists index }
        ensures set { IsSet K.eq V.eq self.old.lists → IsSet K.eq V.eq self.new.lists }
        ensures rooms { SameRooms self.old self.new }
        ensures taken { TakesOut (cond (is_some result) 1 0) self.old.tape self.new.tape }
        ensures unchanged { IfNone result (self.new ≡ self.old) }
    {
        self.map.remove_index(key, index)
    }

    /// Removes all pairs, and drops them.
    ///
    /// The capacities stay, for pairs that come later. The call doesn't allocate.
    ///
    /// # Complexity
    ///
    /// *O*(*n*) for the *n* pairs.
    ///
    /// # Examples
    ///
    /// ```
    /// use set_ordered_multimap::SetOrderedMultimap;
    ///
    /// let mut set = SetOrderedMultimap::new(rt.alloc());
    /// set.insert("plan", "draft")?;
    /// set.clear();
    /// assert!(rt; set.is_empty());
    /// assert!(rt; set.values_capacity() >= 1);
    /// ```
    pub fn clear(&mut self)
    where
        K: Drop,
        V: Drop,
        ensures cleared { IsClearedSet K.eq V.eq self.old self.new }
    {
        self.map.clear();
    }
}

impl<K: Eq + Hash, V, S: BuildHasher, A: Allocator> SetOrderedMultimap<K, V, S, A> {
    /// The map, for writing.
    pub(super) fn lend(&mut self) -> &mut ListOrderedMultimap<K, V, S, A>
        ensures* writes_back { sem 𝓛 (lends_map K.row V.row S.row A.row S.Hasher.row K.Hash
            S.BuildHasher S.Hasher.Hasher A.Allocator self.entry result) }
        ensures same { result.now ≡ self.old }
    {
        &mut self.map
    }
}

impl<K: Eq + Hash, V: Eq + Drop, S: BuildHasher, A: Allocator> SetOrderedMultimap<K, V, S, A> {
    /// Removes the key with all its values, and returns a draining iterator over the values.
    ///
    /// The pairs leave the set at this call, whatever becomes of the iterator. Values that weren't
    /// taken are dropped with it; if it is leaked, they are dropped when their slots are used
    /// again, or with the set. The stored key is dropped. The iterator is empty if the key is
    /// absent. The other keys and pairs keep their order. The call doesn't allocate. To remove one
    /// pair see [`remove_value`](Self::remove_value). The key may be a query ([`KeyQuery`]).
    ///
    /// Proved callers: see CALLING.md.
    ///
    /// # Complexity
    ///
    /// *O*(*v*) expected for the *v* values of the key, and *O*(1) for each step of the iterator.
    ///
    /// # Examples
    ///
    /// ```
    /// use set_ordered_multimap::SetOrderedMultimap;
    ///
    /// let mut set = SetOrderedMultimap::new(rt.alloc());
    /// set.insert("plan", "draft")?;
    /// set.insert("note", "draft")?;
    /// set.insert("plan", "long")?;
    /// assert!(rt; set.remove_all("plan").eq(["draft", "long"]));
    /// assert!(rt; set.iter().eq([(&"note", &"draft")]));
    /// ```
    pub fn remove_all<Q: KeyQuery<K>>(&mut self, key: Q) -> EntryValuesDrain<'_, K, V, S, A>
    where
        K: Drop,
        ensures* rest { sem 𝓛 (ends_as_map K.row V.row S.row A.row S.Hasher.row K.Hash
            S.BuildHasher S.Hasher.Hasher A.Allocator self.entry result.map.ghost_name) }
        ensures drain { DrainsWhere (Q.equivalent key) K.eq self.old result }
        ensures set { IsSet K.eq V.eq self.old.lists → IsSet K.eq V.eq result.map.now.lists }
    {
        let map = self.lend();
        map.remove_all(key)
    }

    /// Removes the key with all its values, and passes each value to `f`, in the order of the
    /// pairs.
    ///
    /// It is for proved callers; others take [`remove_all`](Self::remove_all). The stored key is
    /// dropped. The key may be a query ([`KeyQuery`]). See CALLING.md.
    ///
    /// # Complexity
    ///
    /// *O*(*v*) expected for the *v* values of the key, and as many calls of `f`.
    ///
    /// # Requires
    ///
    /// `f` may be called on any value, however often it was called.
    ///
    /// # Examples
    ///
    /// ```
    /// use set_ordered_multimap::SetOrderedMultimap;
    ///
    /// let mut set = SetOrderedMultimap::new(rt.alloc());
    /// set.insert("plan", 1)?;
    /// set.insert("note", 8)?;
    /// set.insert("plan", 2)?;
    /// let mut last = None;
    /// set.remove_all_with("plan", |value| last = Some(value));
    /// assert_eq!(rt; last, Some(2));
    /// assert!(rt; set.iter().eq([(&"note", &8)]));
    /// ```
    pub fn remove_all_with<Q: KeyQuery<K>, F: FnMut(V)>(&mut self, key: Q, f: F)
    where
        K: Drop,
        requires { F.IsAlwaysCallable f }
        ensures called { (last : F) × FoldsTo (λ g v h. F.step g v tt h) f
            (values_where (Q.equivalent key) self.old.lists.pairs) last }
        ensures removed { LosesKeyWhere K.eq V.eq self.old self.new (Q.equivalent key) }
    {
        hand_out(&mut self.map, key, f);
    }
}
