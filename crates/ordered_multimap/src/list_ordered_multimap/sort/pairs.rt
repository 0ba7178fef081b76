//! Sorting the pairs.
ghost use Rattle.std.specs.Prelude.{◌≡◌, ◌<◌, ◌≤◌, ℕ, Bool, Some, length, IfOk, IfNone, IfSome, OnOk, OnErr, IsOk, IsPermutation};
ghost use Rattle.std.specs.List.{filter_map};
ghost use Rattle.std.specs.Ordering.{is_lt};
ghost use Rattle.multimap_slots.specs.Lists.{IsIn};
ghost use Rattle.multimap_slots.specs.Slots.{IsEmpty};
ghost use Rattle.multimap_walks.specs.Chained.{pair_at};
ghost use Rattle.ordered_multimap.specs.Lists.{lists};
ghost use Rattle.ordered_multimap.specs.PairSorts.{ComparesPairsAs, IsSortedByPairClosure, IsStableByPairClosure, ReordersPairs};
ghost use Rattle.ordered_multimap.specs.Private.PairSorts.{ArePlacesByPair, pair_or};
ghost use Rattle.ordered_multimap.specs.TapeNumbers.{AreUnused, numbers_of};

use super::super::ListOrderedMultimap;
use super::super::lookup::{slot_at, value_at};
use super::places_of;
use super::resorted::move_in_order;
use multimap_slots::Tape;
use multimap_walks::{PackedLink, ValueLink};
use std::alloc::{AllocError, Allocator};
use std::cmp::Ordering;
use std::hash::{BuildHasher, Hash};

impl<K: Eq + Hash, V, S: BuildHasher, A: Allocator> ListOrderedMultimap<K, V, S, A> {
    /// The pair whose value is listed at the place, or at the other one where none is. So a closure
    /// may be called at any place.
    fn pair_or(&self, place: usize, other: usize) -> (&K, &V)
        requires { IsIn other self.now.slots.values.order }
        ensures { (p : K × V)
            → pair_at self.now.slots.keys self.now.slots.values other ≡ Some p
            → (result.0.now, result.1.now) ≡ pair_or self.now.slots p place }
    {
        let place = if self.values.is_listed(place) {
            place
        } else {
            other
        };
        let (value, link) = value_at(&self.values, place);
        let (key, _) = slot_at(&self.keys, link.key);
        (key, value)
    }

    /// The place of the first value, where there are several.
    fn first_value_of_many(&self) -> Option<usize>
        ensures few { IfNone result (length self.now.lists.pairs ≤ 1) }
        ensures many { IfSome result (λ place. IsIn place self.now.slots.values.order
            × (1 < length self.now.lists.pairs)) }
    {
        if self.values.len() <= 1 {
            return None;
        }
        self.values.front_place()
    }

    /// Takes the values to the new tape in the order of these places, and drops the old one.
    fn set_pair_order(&mut self, places: &[usize], mut tape: Tape<V, ValueLink, A, PackedLink>)
    where
        V: Drop,
        requires same { IsPermutation self.old.slots.values.order places.now }
        requires no_value { IsEmpty tape.list }
        requires unused { AreUnused (numbers_of tape) }
        requires slots { self.old.tape.slots ≤ tape.list.capacity }
        ensures lists { self.new.lists ≡ lists self.old.lists.keys
            (filter_map (pair_at self.old.slots.keys self.old.slots.values) places.now) }
        ensures reordered { ReordersPairs self.old self.new }
        ensures unused { AreUnused self.new.tape }
    {
        move_in_order(&mut self.keys, &mut self.values, &mut tape, places);
        self.values = tape;
    }
}

impl<K: Eq + Hash, V, S: BuildHasher, A: Allocator + Copy> ListOrderedMultimap<K, V, S, A> {
    /// The places of the values, sorted by the function of their pairs.
    fn places_by_pair<F: Fn(&K, &V, &K, &V) -> Ordering>(
        &self,
        front: usize,
        cmp: F,
    ) -> Result<Vec<usize, A>, AllocError>
        requires listed { IsIn front self.now.slots.values.order }
        requires callable { F.IsAlwaysCallable cmp }
        ensures { IfOk result (λ places. ArePlacesByPair F.FnMut cmp self.now.slots
            places.items) }
    {
        let mut places = places_of(&self.values, *self.keys.allocator())?;
        places.sort_by(
            |a: &usize, b: &usize| -> Ordering
                requires callable { F.IsAlwaysCallable cmp }
                requires listed { IsIn front self.now.slots.values.order }
                ensures { (lt : K × V → K × V → Bool) → ComparesPairsAs F.FnMut lt cmp
                    → (p : K × V) → pair_at self.entry.now.slots.keys self.entry.now.slots.values
                    front ≡ Some p
                    → is_lt result ≡ lt (pair_or self.entry.now.slots p a.now)
                    (pair_or self.entry.now.slots p b.now) }
            {
                let (key, value) = self.pair_or(*a, front);
                let (other_key, other_value) = self.pair_or(*b, front);
                cmp(key, value, other_key, other_value)
            },
        )?;
        Ok(places)
    }

    /// Sorts the pairs by a comparison function, and leaves the keys where they are.
    ///
    /// `cmp` takes two pairs: a key, its value, the other key and its value. The sort is stable:
    /// pairs for which `cmp` returns `Equal` keep their order. The values of each key come in the
    /// new order of the pairs too, and the order of the keys stays as it is. If `cmp` is no order,
    /// the pairs come in some order, each once.
    ///
    /// To sort the keys see [`sort_keys_by`](Self::sort_keys_by).
    ///
    /// Proved callers: see CALLING.md.
    ///
    /// # Errors
    ///
    /// Returns [`AllocError`] if an allocation fails. The map is unchanged then, since all new
    /// memory is allocated before anything is moved. It never fails for a map of no pair or of one,
    /// which stays as it is.
    ///
    /// # Complexity
    ///
    /// *O*(*n* log *n*) comparisons for *n* pairs. It allocates a list of the values' places, what
    /// std's stable sort of that list does, and as many value slots as the map has. Each value is
    /// moved once, to the new slots, where they stand without a hole. No key is moved or hashed.
    /// What a leaked [`EntryValuesDrain`](super::super::EntryValuesDrain) left is dropped.
    ///
    /// # Requires
    ///
    /// `cmp` may be called on any two pairs.
    ///
    /// # Examples
    ///
    /// ```
    /// use ordered_multimap::ListOrderedMultimap;
    ///
    /// let mut map = ListOrderedMultimap::new(rt.alloc());
    /// map.append("page", 8)?;
    /// map.append("line", 3)?;
    /// map.append("page", 1)?;
    /// map.sort_by(|_, value, _, other| value.cmp(other))?;
    /// assert!(rt; map.iter().eq([(&"page", &1), (&"line", &3), (&"page", &8)]));
    /// assert!(rt; map.get_all("page").eq(&[1, 8]));
    /// assert!(rt; map.keys().eq(&["page", "line"]));
    /// ```
    pub fn sort_by<F: Fn(&K, &V, &K, &V) -> Ordering>(&mut self, cmp: F) -> Result<(), AllocError>
    where
        V: Drop,
        requires { F.IsAlwaysCallable cmp }
        ensures sorted { OnOk result (IsSortedByPairClosure F.FnMut cmp self.new.lists.pairs) }
        ensures stable { IsStableByPairClosure F.FnMut cmp self.old.lists.pairs
            self.new.lists.pairs }
        ensures reordered { ReordersPairs self.old self.new }
        ensures unused { 1 < length self.old.lists.pairs → OnOk result (AreUnused self.new.tape) }
        ensures unchanged { OnErr result (self.new ≡ self.old) }
        ensures few { length self.old.lists.pairs ≤ 1 → self.new ≡ self.old }
        ensures succeeds { length self.old.lists.pairs ≤ 1 → IsOk result }
    {
        let Some(front) = self.first_value_of_many() else {
            return Ok(());
        };
        let places = self.places_by_pair(front, cmp)?;
        let tape = Tape::with_form_and_slots(*self.keys.allocator(), self.values.slots())?;
        self.set_pair_order(places.as_slice(), tape);
        Ok(())
    }
}
