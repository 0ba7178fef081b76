//! Appending many values under one key.
ghost use Rattle.std.specs.Prelude.{IfErr, IfOk};
ghost use Rattle.std.specs.Iterator.{IsFinite};
ghost use Rattle.ordered_multimap.specs.Additions.{Appends};
ghost use Rattle.ordered_multimap.specs.Agrees.{HasKey};
ghost use Rattle.multimap_slots.specs.Lists.{IsIn};
ghost use Rattle.ordered_multimap.specs.AppendMany.{AppendsMany, AppendsManyAt, GrowsForAllValues};
ghost use Rattle.ordered_multimap.specs.Private.AppendMany.{AppendsRest};
ghost use Rattle.ordered_multimap.specs.Private.KeySteps.{KeepsPlace};
ghost use Rattle.ordered_multimap.specs.Rooms.{HasPairRoom};

use super::{ListOrderedMultimap, Refused, RefusedValue};
use std::alloc::Allocator;
use std::hash::{BuildHasher, Hash};

impl<K: Eq + Hash, V: Drop, S: BuildHasher, A: Allocator + Copy> ListOrderedMultimap<K, V, S, A> {
    /// Appends all values of the iterator under the key, in their order, and returns how many they
    /// are.
    ///
    /// Each pair is added as by [`append`](Self::append), and the key is looked up once. If it is
    /// present, the key that was passed is dropped. Without values nothing changes, and the key isn't
    /// added. For pairs with several keys see [`extend`](Self::extend).
    ///
    /// # Errors
    ///
    /// Returns [`Refused`] with the first value for which an allocation fails, and with the key if it
    /// is the first of all. The values before it stay in the map; capacities may have grown. The
    /// iterator isn't read further: pass `&mut iter` to keep the values after it. It never fails if
    /// there is room for the values and, where the key is absent, for one more key.
    ///
    /// # Complexity
    ///
    /// *O*(1) expected for the key, and for each value what [`append`](Self::append) takes without a
    /// lookup. It first reserves room for as many values as the lower bound of the iterator's
    /// `size_hint`, and goes on if that allocation fails.
    ///
    /// # Requires
    ///
    /// The iterator is finite.
    ///
    /// # Examples
    ///
    /// ```
    /// use ordered_multimap::ListOrderedMultimap;
    ///
    /// let mut map = ListOrderedMultimap::new(rt.alloc());
    /// map.append("page", 8)?;
    /// let count = map.append_many("line", [1, 2]).map_err(AllocError::from)?;
    /// assert_eq!(rt; count, 2);
    /// assert!(rt; map.iter().eq([(&"page", &8), (&"line", &1), (&"line", &2)]));
    /// ```
    pub fn append_many<I: IntoIterator<Item = V>>(
        &mut self,
        key: K,
        values: I,
    ) -> Result<usize, Refused<Option<K>, V>>
    where
        K: Drop,
        requires { (it : I.IntoIter) → I.into_iter_gives values it
            → I.IntoIter.can_next it × IsFinite (I.IntoIter.remaining it) }
        ensures appended { AppendsMany K.eq key I.into_iter_gives I.IntoIter.next_gives values
            self.old.lists self.new.lists result }
        ensures full { IfErr result (λ _. ¬ HasPairRoom K.eq self.new key) }
        ensures grows { GrowsForAllValues K.eq key I.into_iter_gives I.IntoIter.next_gives
            I.IntoIter.remaining values self.old self.new result }
    {
        let before = self.values_len();
        let mut items = values.into_iter();
        // Ignored if refused: each append makes the room that it needs.
        let _reserved = self.reserve_values(items.size_hint().0);
        let Some(first) = items.next() else {
            return Ok(0);
        };
        let place = match self.append_placed(key, first) {
            Ok(place) => place,
            Err(Refused { key, value }) => {
                return Err(Refused {
                    key: Some(key),
                    value,
                });
            }
        };
        match self.append_rest(place, items) {
            Ok(()) => Ok(self.values_len() - before),
            Err(RefusedValue { value }) => Err(Refused { key: None, value }),
        }
    }

    /// Appends each value of the iterator under the key at the place, and returns how many they are.
    pub(super) fn append_many_at<I: Iterator<Item = V>>(
        &mut self,
        place: usize,
        items: I,
    ) -> Result<usize, RefusedValue<V>>
        requires listed { IsIn place self.old.slots.keys.order }
        requires finite { I.can_next items × IsFinite (I.remaining items) }
        ensures stays { KeepsPlace K.eq self.old self.new place }
        ensures appended { AppendsManyAt K.eq place I.next_gives I.remaining items
            self.old self.new result }
    {
        let old_len = self.values.len();
        // Ignored if refused: each append makes the room that it needs.
        let _reserved = self.reserve_values(items.size_hint().0);
        match self.append_rest(place, items) {
            Ok(()) => Ok(self.values_len() - old_len),
            Err(refused) => Err(refused),
        }
    }

    /// Appends a pair, and returns the place of its key.
    fn append_placed(&mut self, key: K, value: V) -> Result<usize, Refused<K, V>>
    where
        K: Drop,
        ensures found { IfOk result (HasKey K.eq self.new.slots.keys key) }
        ensures appends { Appends K.eq key value self.old self.new result }
    {
        let (hash, place) = self.look_up(&key);
        let Some(place) = place else {
            return self.append_new(hash, key, value);
        };
        match self.append_at(place, value) {
            Ok(()) => Ok(place),
            Err(RefusedValue { value }) => Err(Refused { key, value }),
        }
    }

    /// Appends each value of the iterator under the key at the place.
    fn append_rest<I: Iterator<Item = V>>(
        &mut self,
        place: usize,
        items: I,
    ) -> Result<(), RefusedValue<V>>
        requires key { (k : K) × HasKey K.eq self.old.slots.keys k place }
        requires finite { I.can_next items × IsFinite (I.remaining items) }
        ensures { AppendsRest K.eq place I.next_gives I.remaining items self.old self.new result }
    {
        for value in items {
            if let Err(refused) = self.append_at(place, value) {
                return Err(refused);
            }
        }
        Ok(())
    }
}
