//! Sorting the keys.
ghost use Rattle.std.specs.Prelude.{◌≡◌, ◌<◌, ◌≤◌, Bool, length, IfOk, IfNone, IfSome, OnOk, OnErr, IsOk, IsPermutation, IsSorted};
ghost use Rattle.std.specs.Fn.{ComparesAs};
ghost use Rattle.std.specs.List.Sorted.{IsSortedByClosure, IsStable, IsStableByClosure};
ghost use Rattle.std.specs.Ordering.{is_lt};
ghost use Rattle.multimap_slots.specs.Lists.{IsIn};
ghost use Rattle.multimap_slots.specs.Slots.{in_order};
ghost use Rattle.ordered_multimap.specs.Agrees.{items_of};
ghost use Rattle.ordered_multimap.specs.KeySorts.{ReordersKeys};
ghost use Rattle.ordered_multimap.specs.Lists.{lists};
ghost use Rattle.ordered_multimap.specs.Private.KeySorts.{ArePlacesBy, key_or};

mod cached;
mod pairs;
mod resorted;

use super::ListOrderedMultimap;
use super::lookup::slot_at;
use multimap_slots::{Reads, SlotList};
use multimap_walks::{End, KeyLink, Ordered, take};
use std::alloc::{AllocError, Allocator};
use std::cmp::Ordering;
use std::hash::{BuildHasher, Hash};

/// The places of a list, in its order.
fn places_of<O: Ordered, A: Allocator>(list: &O, alloc: A) -> Result<Vec<usize, A>, AllocError>
    ensures { IfOk result (λ places. places.items ≡ O.order list.now) }
{
    let mut left = list.all();
    let mut places = Vec::with_capacity(alloc, left.length)?;
    while let Some(place) = take(End::Front, list, &mut left) {
        places.push_reserved(place);
    }
    Ok(places)
}

/// The key that is listed at the place, and the other one where none is. So a closure may be called
/// at any place.
fn key_or<'keys, K, A: Allocator>(
    keys: &'keys SlotList<K, KeyLink, A>,
    place: usize,
    other: &'keys K,
) -> &'keys K
    ensures { result.now ≡ key_or keys.now other.now place }
{
    let mut reads = Reads::new();
    match keys.get(place, &mut reads) {
        Some((key, _)) => key,
        None => other,
    }
}

/// The places of the keys, sorted by the function of the keys.
fn places_by<K, A: Allocator + Copy, F: Fn(&K, &K) -> Ordering>(
    keys: &SlotList<K, KeyLink, A>,
    front: usize,
    cmp: F,
) -> Result<Vec<usize, A>, AllocError>
    requires listed { IsIn front keys.now.order }
    requires callable { F.IsAlwaysCallable cmp }
    ensures { IfOk result (λ places. ArePlacesBy F.FnMut cmp keys.now places.items) }
{
    // The length tells the proof that each place has a key.
    let _len = keys.len();
    let (first, _) = slot_at(keys, front);
    let mut places = places_of(keys, *keys.allocator())?;
    places.sort_by(
        |a: &usize, b: &usize| -> Ordering
            requires { F.IsAlwaysCallable cmp }
            ensures { (lt : K → K → Bool) → ComparesAs F.FnMut lt cmp → is_lt result
                ≡ lt (key_or keys.entry.now first.entry.now a.now)
                (key_or keys.entry.now first.entry.now b.now) }
        { cmp(key_or(keys, *a, first), key_or(keys, *b, first)) },
    )?;
    Ok(places)
}

impl<K: Eq + Hash, V, S: BuildHasher, A: Allocator> ListOrderedMultimap<K, V, S, A> {
    /// The place of the first key, where there are several.
    fn front_of_many(&self) -> Option<usize>
        ensures few { IfNone result (length self.now.lists.keys ≤ 1) }
        ensures many { IfSome result (λ place. IsIn place self.now.slots.keys.order
            × (1 < length self.now.lists.keys)) }
    {
        if self.keys.len() <= 1 {
            return None;
        }
        self.keys.front_place()
    }

    /// Puts the keys in the order of these places.
    fn set_key_order(&mut self, places: &[usize])
        requires { IsPermutation self.old.slots.keys.order places.now }
        ensures lists { self.new.lists
            ≡ lists (items_of (in_order self.old.slots.keys places.now)) self.old.lists.pairs }
        ensures reordered { ReordersKeys self.old self.new }
    {
        self.keys.set_order(places);
    }
}

impl<K: Eq + Hash, V, S: BuildHasher, A: Allocator + Copy> ListOrderedMultimap<K, V, S, A> {
    /// Sorts the keys, and leaves the pairs where they are.
    ///
    /// The order of all pairs stays as it is, and so does the order of each key's values. A key
    /// that is added later goes last. To sort by another order see
    /// [`sort_keys_by`](Self::sort_keys_by), and by what the values say
    /// [`sort_keys_by_cached_key`](Self::sort_keys_by_cached_key).
    ///
    /// # Errors
    ///
    /// Returns [`AllocError`] if an allocation fails. Both lists are unchanged. It never fails for
    /// a map of no key or of one. It allocates a list of the keys' places, and what std's stable
    /// sort of that list does.
    ///
    /// # Complexity
    ///
    /// *O*(*k* log *k*) comparisons for *k* keys. It reads the slots of the keys, writes their
    /// links, and reads no value.
    ///
    /// # Examples
    ///
    /// ```
    /// use ordered_multimap::ListOrderedMultimap;
    ///
    /// let mut map = ListOrderedMultimap::new(rt.alloc());
    /// map.append("page", 8)?;
    /// map.append("line", 1)?;
    /// map.append("page", 9)?;
    /// map.sort_keys()?;
    /// assert!(rt; map.keys().eq(&["line", "page"]));
    /// assert!(rt; map.values().eq(&[8, 1, 9]));
    /// ```
    pub fn sort_keys(&mut self) -> Result<(), AllocError>
    where
        K: Ord,
        ensures sorted { OnOk result (IsSorted K.cmp self.new.lists.keys) }
        ensures stable { IsStable K.cmp self.old.lists.keys self.new.lists.keys }
        ensures reordered { ReordersKeys self.old self.new }
        ensures unchanged { OnErr result (self.new ≡ self.old) }
        ensures succeeds { length self.old.lists.keys ≤ 1 → IsOk result }
    {
        self.sort_keys_by(
            |a: &K, b: &K| -> Ordering
                ensures { result ≡ K.cmp a.now b.now }
            { a.cmp(b) },
        )
    }

    /// Sorts the keys by a comparison function, and leaves the pairs where they are.
    ///
    /// The sort is stable: keys for which `cmp` returns `Equal` keep their order. The order of all
    /// pairs stays as it is, and so does the order of each key's values. A key that is added later
    /// goes last.
    ///
    /// If `cmp` is no order, the keys come in some order, each once. To sort by the keys' own order
    /// see [`sort_keys`](Self::sort_keys), and by what the values say
    /// [`sort_keys_by_cached_key`](Self::sort_keys_by_cached_key).
    ///
    /// Proved callers: see CALLING.md.
    ///
    /// # Errors
    ///
    /// Returns [`AllocError`] if an allocation fails. Both lists are unchanged. It never fails for
    /// a map of no key or of one. It allocates a list of the keys' places, and what std's stable
    /// sort of that list does.
    ///
    /// # Complexity
    ///
    /// *O*(*k* log *k*) comparisons for *k* keys. It reads the slots of the keys, writes their
    /// links, and reads no value.
    ///
    /// # Requires
    ///
    /// `cmp` may be called on any two keys.
    ///
    /// # Examples
    ///
    /// ```
    /// use ordered_multimap::ListOrderedMultimap;
    ///
    /// let mut map = ListOrderedMultimap::new(rt.alloc());
    /// map.append("page", 8)?;
    /// map.append("line", 1)?;
    /// map.append("word", 5)?;
    /// map.append("line", 2)?;
    /// map.sort_keys_by(|a, b| b.cmp(a))?;
    /// assert!(rt; map.keys().eq(&["word", "page", "line"]));
    /// assert!(rt; map.values().eq(&[8, 1, 5, 2]));
    /// assert!(rt; map.get_all("line").eq(&[1, 2]));
    /// ```
    pub fn sort_keys_by<F: Fn(&K, &K) -> Ordering>(&mut self, cmp: F) -> Result<(), AllocError>
        requires { F.IsAlwaysCallable cmp }
        ensures sorted { OnOk result (IsSortedByClosure F.FnMut cmp self.new.lists.keys) }
        ensures stable { IsStableByClosure F.FnMut cmp self.old.lists.keys self.new.lists.keys }
        ensures reordered { ReordersKeys self.old self.new }
        ensures unchanged { OnErr result (self.new ≡ self.old) }
        ensures succeeds { length self.old.lists.keys ≤ 1 → IsOk result }
    {
        let Some(front) = self.front_of_many() else {
            return Ok(());
        };
        let places = places_by(&self.keys, front, cmp)?;
        self.set_key_order(places.as_slice());
        Ok(())
    }
}
