//! Sorting the keys by what a function computes of each once.
ghost use Rattle.std.specs.Prelude.{◌≡◌, ◌≤◌, ℕ, List, Some, length, IfOk, OnOk, OnErr, IsOk};
ghost use Rattle.multimap_slots.specs.Lists.{IsIn};
ghost use Rattle.multimap_slots.specs.Slots.{item_at};
ghost use Rattle.ordered_multimap.specs.KeySorts.{ComputesOnKey, IsSortedByCachedKey, IsStableByCachedKey, ReordersKeys};
ghost use Rattle.ordered_multimap.specs.Pairs.{values_of};
ghost use Rattle.ordered_multimap.specs.Private.KeySorts.{ArePlacesByKey, key_or};

use super::super::ListOrderedMultimap;
use super::super::lookup::slot_at;
use super::places_of;
use multimap_slots::Reads;
use multimap_walks::EntryValues;
use std::alloc::{AllocError, Allocator};
use std::hash::{BuildHasher, Hash};

impl<K: Eq + Hash, V, S: BuildHasher, A: Allocator> ListOrderedMultimap<K, V, S, A> {
    /// The key that is listed at the place, or at the other one where none is, with its values.
    fn entry_or(&self, place: usize, other: usize) -> (&K, EntryValues<'_, K, V, A>)
        requires { IsIn other self.now.slots.keys.order }
        ensures key { (k : K) → item_at self.now.slots.keys other ≡ Some k
            → result.0.now ≡ key_or self.now.slots.keys k place }
        ensures values { result.1.left ≡ values_of K.eq self.now.lists.pairs result.0.now }
    {
        let mut reads = Reads::new();
        let place = match self.keys.get(place, &mut reads) {
            Some(_) => place,
            None => other,
        };
        let (key, _) = slot_at(&self.keys, place);
        (key, self.values_at(place))
    }
}

impl<K: Eq + Hash, V, S: BuildHasher> ListOrderedMultimap<K, V, S> {
    /// The places of the keys, sorted by what the function computes of each key with its values.
    fn places_by_cached_key<T: Ord + Drop, F: Fn(&K, EntryValues<'_, K, V>) -> T>(
        &self,
        front: usize,
        f: F,
    ) -> Result<Vec<usize>, AllocError>
        requires listed { IsIn front self.now.slots.keys.order }
        requires callable { F.IsAlwaysCallable f }
        ensures { IfOk result (λ places. ArePlacesByKey F.FnMut T.cmp K.eq f self.now
            places.items) }
    {
        let mut places = places_of(&self.keys, *self.keys.allocator())?;
        places.sort_by_cached_key(
            |place: &usize| -> T
                requires callable { F.IsAlwaysCallable f }
                requires listed { IsIn front self.now.slots.keys.order }
                ensures { (key : K → List V → T) → ComputesOnKey F.FnMut key f
                    → (first : K) → item_at self.entry.now.slots.keys front ≡ Some first
                    → (k : K) → k ≡ key_or self.entry.now.slots.keys first place.now
                    → result ≡ key k (values_of K.eq self.entry.now.lists.pairs k) }
            {
                let (key, values) = self.entry_or(*place, front);
                f(key, values)
            },
        )?;
        Ok(places)
    }

    /// Sorts the keys by what a function returns for each key and its values, and leaves the pairs
    /// where they are.
    ///
    /// `f` is called once for each key, with an iterator over its values, and what it returns is
    /// kept until the keys are sorted. The sort is stable: keys for which `f` returns equal values
    /// keep their order. The order of all pairs stays as it is, and so does the order of each key's
    /// values. To sort by the keys alone see [`sort_keys`](Self::sort_keys) and
    /// [`sort_keys_by`](Self::sort_keys_by).
    ///
    /// The map's allocator is `Global`, since the checker can't state a function of an iterator
    /// whose allocator is a parameter.
    ///
    /// Proved callers: see CALLING.md.
    ///
    /// # Errors
    ///
    /// Returns [`AllocError`] if an allocation fails. Both lists are unchanged. It never fails for
    /// a map of no key or of one. It allocates a list of the keys' places, and what std's
    /// `sort_by_cached_key` of that list does.
    ///
    /// # Complexity
    ///
    /// A call of `f` for each of the *k* keys, and *O*(*k* log *k*) comparisons of what it returns.
    ///
    /// # Requires
    ///
    /// `f` may be called on any key and any values.
    ///
    /// # Examples
    ///
    /// ```
    /// use ordered_multimap::ListOrderedMultimap;
    ///
    /// let mut map = ListOrderedMultimap::new(rt.alloc());
    /// map.append("line", 1)?;
    /// map.append("page", 8)?;
    /// map.append("word", 5)?;
    /// map.append("line", 2)?;
    /// map.sort_keys_by_cached_key(|_key, values| values.len())?;
    /// assert!(rt; map.keys().eq(&["page", "word", "line"]));
    /// assert!(rt; map.values().eq(&[1, 8, 5, 2]));
    /// ```
    pub fn sort_keys_by_cached_key<T: Ord + Drop, F: Fn(&K, EntryValues<'_, K, V>) -> T>(
        &mut self,
        f: F,
    ) -> Result<(), AllocError>
        requires { F.IsAlwaysCallable f }
        ensures sorted { OnOk result (IsSortedByCachedKey F.FnMut T.cmp K.eq f self.new.lists) }
        ensures stable { IsStableByCachedKey F.FnMut T.cmp K.eq f self.old.lists self.new.lists }
        ensures reordered { ReordersKeys self.old self.new }
        ensures unchanged { OnErr result (self.new ≡ self.old) }
        ensures succeeds { length self.old.lists.keys ≤ 1 → IsOk result }
    {
        let Some(front) = self.front_of_many() else {
            return Ok(());
        };
        let places = self.places_by_cached_key(front, f)?;
        self.set_key_order(places.as_slice());
        Ok(())
    }
}
