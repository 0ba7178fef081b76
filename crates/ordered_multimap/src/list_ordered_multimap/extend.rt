//! Appending many pairs.
ghost use Rattle.std.specs.Prelude.{◌≡◌, IfOk, IfErr, map};
ghost use Rattle.std.specs.Iterator.{IsFinite};
ghost use Rattle.ordered_multimap.specs.Extends.{AppendsAll, Extends, ExtendsCopied, ExtendsInRoom, IsBuilt, IsLastRead};
ghost use Rattle.ordered_multimap.specs.Extends.{GrowsForAll, StoppedForRoom, lent_pair};
ghost use Rattle.ordered_multimap.specs.Private.Extends.{AppendsPairsOf};
ghost use Rattle.ordered_multimap.specs.Rooms.{HasPairRoom};
ghost use Rattle.ordered_multimap.specs.TapeNumbers.{AreUnused};

use super::{ListOrderedMultimap, Refused};
use std::alloc::{AllocError, Allocator};
use std::hash::{BuildHasher, Hash};

/// An item that gives a pair to append.
pub(super) trait IntoPair<K, V> {
    /// The pair that an item gives.
    ghost pair_of: { Self → K × V };

    fn into_pair(self) -> (K, V)
        ensures { result ≡ pair_of self };
}

impl<K, V> IntoPair<K, V> for (K, V) {
    ghost pair_of = { λ pair. pair };

    #[inline(always)]
    fn into_pair(self) -> (K, V) {
        self
    }
}

impl<'a, K: Copy, V: Copy> IntoPair<K, V> for (&'a K, &'a V) {
    ghost pair_of = { lent_pair };

    #[inline(always)]
    fn into_pair(self) -> (K, V) {
        (*self.0, *self.1)
    }
}

impl<K: Eq + Hash + Drop, V: Drop, S: BuildHasher, A: Allocator + Copy> ListOrderedMultimap<
    K,
    V,
    S,
    A,
> {
    /// Appends all pairs of the iterator, in its order, and removes none.
    ///
    /// Each pair is added as by [`append`](Self::append), so a present key keeps its old values:
    /// [`get`](Self::get) returns the first of these. To replace them collect the pairs in a map, by
    /// [`from_iter`](Self::from_iter), and pass it to [`insert_map`](Self::insert_map).
    ///
    /// For copies of pairs that are borrowed, as those of another map, see
    /// [`extend_copied`](Self::extend_copied), and to move all pairs of another map
    /// [`append_map`](Self::append_map). [`Extend::extend`] does the same for generic code, but its
    /// error doesn't contain the pair.
    ///
    /// # Errors
    ///
    /// Returns [`Refused`] with the first pair for which an allocation fails. The pairs before it
    /// stay in the map; capacities may have grown. The iterator isn't read further: pass
    /// `&mut iter` to keep the pairs after it. It never fails where [`append`](Self::append) would
    /// take the pair, so it succeeds if there is room for a key and a value for each pair.
    ///
    /// # Complexity
    ///
    /// Each pair costs what [`append`](Self::append) costs. It first reserves room for as many
    /// values as the lower bound of the iterator's `size_hint`, and goes on if that allocation
    /// fails.
    ///
    /// # Requires
    ///
    /// The iterator is finite.
    ///
    /// # Examples
    ///
    /// ```
    /// use ordered_multimap::ListOrderedMultimap;
    ///
    /// let mut map = ListOrderedMultimap::new(rt.alloc());
    /// map.append("line", 1)?;
    /// map.extend([("page", 8), ("line", 2)])?;
    /// assert!(rt; map.iter().eq([(&"line", &1), (&"page", &8), (&"line", &2)]));
    /// assert!(rt; map.get_all("line").eq(&[1, 2]));
    /// ```
    pub fn extend<I: IntoIterator<Item = (K, V)>>(&mut self, iter: I) -> Result<(), Refused<K, V>>
        requires { (it : I.IntoIter) → I.into_iter_gives iter it
            → I.IntoIter.can_next it × IsFinite (I.IntoIter.remaining it) }
        ensures extends { Extends K.eq I.into_iter_gives I.IntoIter.next_gives iter
            self.old.lists self.new.lists result }
        ensures full { IfErr result (λ pair. ¬ HasPairRoom K.eq self.new pair.key) }

        // The room for values may grow beyond the pairs that come: an iterator may tell of more.
        ensures grows { GrowsForAll I.into_iter_gives I.IntoIter.next_gives I.IntoIter.remaining
            iter self.old self.new result }
    {
        // Each item is its pair.
        self.append_all(iter)
    }

    /// Appends a copy of each pair of the iterator, in its order.
    ///
    /// It does for borrowed pairs, as those of another map's [`iter`](Self::iter), what
    /// [`extend`](Self::extend) does for owned ones.
    ///
    /// # Errors
    ///
    /// Returns [`Refused`] with a copy of the first pair for which an allocation fails. The pairs
    /// before it stay in the map; capacities may have grown. The iterator isn't read further. It
    /// never fails where [`append`](Self::append) would take the pair.
    ///
    /// # Complexity
    ///
    /// Same as [`extend`](Self::extend).
    ///
    /// # Requires
    ///
    /// The iterator is finite.
    ///
    /// # Examples
    ///
    /// ```
    /// use ordered_multimap::ListOrderedMultimap;
    ///
    /// let mut other = ListOrderedMultimap::new(rt.alloc());
    /// other.append("page", 8)?;
    /// other.append("line", 2)?;
    ///
    /// let mut map = ListOrderedMultimap::new(rt.alloc());
    /// map.append("line", 1)?;
    /// map.extend_copied(&other)?;
    /// assert!(rt; map.iter().eq([(&"line", &1), (&"page", &8), (&"line", &2)]));
    /// ```
    pub fn extend_copied<'a, I: IntoIterator<Item = (&'a K, &'a V)>>(
        &mut self,
        iter: I,
    ) -> Result<(), Refused<K, V>>
    where
        K: Copy + 'a,
        V: Copy + 'a,
        requires { (it : I.IntoIter) → I.into_iter_gives iter it
            → I.IntoIter.can_next it × IsFinite (I.IntoIter.remaining it) }
        ensures extends { ExtendsCopied K.eq I.into_iter_gives I.IntoIter.next_gives iter
            self.old.lists self.new.lists result }
        ensures full { IfErr result (λ pair. ¬ HasPairRoom K.eq self.new pair.key) }

        // The room for values may grow beyond the pairs that come: an iterator may tell of more.
        ensures grows { GrowsForAll I.into_iter_gives I.IntoIter.next_gives I.IntoIter.remaining
            iter self.old self.new result }
    {
        // Each item lends its pair.
        self.append_all(iter)
    }

    /// Appends the pair of each item of the iterator, in its order.
    fn append_all<X: IntoPair<K, V>, I: IntoIterator<Item = X>>(
        &mut self,
        iter: I,
    ) -> Result<(), Refused<K, V>>
        requires { (it : I.IntoIter) → I.into_iter_gives iter it
            → I.IntoIter.can_next it × IsFinite (I.IntoIter.remaining it) }
        ensures extends { AppendsPairsOf X.pair_of K.eq I.into_iter_gives I.IntoIter.next_gives iter
            self.old.lists self.new.lists result }
        ensures full { IfErr result (λ pair. ¬ HasPairRoom K.eq self.new pair.key) }
        ensures grows { GrowsForAll I.into_iter_gives I.IntoIter.next_gives I.IntoIter.remaining
            iter self.old self.new result }
    {
        let items = iter.into_iter();
        // Ignored if refused: each append makes the room that it needs.
        let _reserved = self.reserve_values(items.size_hint().0);
        for item in items {
            let (key, value) = item.into_pair();
            if let Err(refused) = self.append(key, value) {
                return Err(refused);
            }
        }
        Ok(())
    }

    /// Appends the pair of each item of the iterator, in its order. Its error says no more than
    /// that an allocation failed.
    pub(super) fn extend_in_room<X: IntoPair<K, V>, I: IntoIterator<Item = X>>(
        &mut self,
        iter: I,
    ) -> Result<(), AllocError>
        requires { (it : I.IntoIter) → I.into_iter_gives iter it
            → I.IntoIter.can_next it × IsFinite (I.IntoIter.remaining it) }
        ensures extends { ExtendsInRoom I.into_iter_gives I.IntoIter.next_gives
            I.IntoIter.remaining (λ m items n. AppendsAll K.eq m (map X.pair_of items) n)
            iter self.old self.new result }
        ensures stopped { StoppedForRoom K.eq (AppendsPairsOf X.pair_of K.eq I.into_iter_gives
            I.IntoIter.next_gives iter) self.old self.new result }
    {
        match self.append_all(iter) {
            Ok(()) => Ok(()),
            Err(refused) => Err(AllocError::from(refused)),
        }
    }

    /// Creates a map of the pairs of the iterator, in its order, with the given hash builder.
    ///
    /// Each pair is added as by [`append`](Self::append). All memory comes from `alloc`, now and
    /// later. `pairs.collect(alloc)?` does the same with a default hash builder, but its error
    /// doesn't contain the pair.
    ///
    /// # Errors
    ///
    /// Returns [`Refused`] with the pair for which an allocation fails. The iterator isn't read
    /// further. The pairs before that one are dropped, and so is the hash builder.
    ///
    /// # Complexity
    ///
    /// Same as [`extend`](Self::extend).
    ///
    /// # Requires
    ///
    /// The iterator is finite.
    ///
    /// # Examples
    ///
    /// ```
    /// use ordered_multimap::{DefaultState, ListOrderedMultimap};
    ///
    /// let pairs = [("line", 1), ("page", 8), ("line", 2)];
    /// let map = ListOrderedMultimap::from_iter(rt.alloc(), DefaultState::new(), pairs)?;
    /// assert!(rt; map.get_all("line").eq(&[1, 2]));
    /// assert!(rt; map.keys().eq(&["line", "page"]));
    /// ```
    pub fn from_iter<I: IntoIterator<Item = (K, V)>>(
        alloc: A,
        state: S,
        iter: I,
    ) -> Result<Self, Refused<K, V>>
    where
        S: Drop,
        requires { (it : I.IntoIter) → I.into_iter_gives iter it
            → I.IntoIter.can_next it × IsFinite (I.IntoIter.remaining it) }
        ensures built { IfOk result (λ m.
            IsBuilt K.eq I.into_iter_gives I.IntoIter.next_gives iter m.lists) }
        ensures refused { IfErr result
            (IsLastRead I.IntoIter.next_gives I.into_iter_gives iter) }
        ensures hasher { IfOk result (λ m. m.hasher ≡ state) }
        ensures unused { IfOk result (λ m. AreUnused m.tape) }
    {
        let mut map = ListOrderedMultimap::with_hasher(alloc, state);
        if let Err(refused) = map.extend(iter) {
            return Err(refused);
        }
        Ok(map)
    }
}
