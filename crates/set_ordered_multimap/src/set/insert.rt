//! Insertions, of a pair and of many.
ghost use Rattle.std.specs.Prelude.{◌≡◌, not, true, false, IfErr, IfOk, IsOk, OnOk};
ghost use Rattle.ordered_multimap.specs.Additions.{Appends, IsRefused};
ghost use Rattle.ordered_multimap.specs.Extends.{IsLastRead, lent_pair};
ghost use Rattle.ordered_multimap.specs.TapeNumbers.{AreUnused};
ghost use Rattle.set_ordered_multimap.specs.Insertions.{ComesToAnEnd, GrowsForInserted, InsertsAll};
ghost use Rattle.set_ordered_multimap.specs.Insertions.{HasRoomToInsert, InsertsCopied, IsSetOf};
ghost use Rattle.set_ordered_multimap.specs.Private.Insertions.{InsertsPairsOf};
ghost use Rattle.set_ordered_multimap.specs.Set.{IsSet, has_pair, set_inserted};

use super::SetOrderedMultimap;
use ordered_multimap::list_ordered_multimap::Refused;
use std::alloc::Allocator;
use std::hash::{BuildHasher, Hash};

/// An item that gives a pair to insert.
trait IntoPair<K, V> {
    /// The pair that an item gives.
    ghost pair_of: { Self → K × V };

    fn into_pair(self) -> (K, V)
        ensures { result ≡ pair_of self };
}

impl<K, V> IntoPair<K, V> for (K, V) {
    ghost pair_of = { λ pair. pair };

    #[inline(always)]
    fn into_pair(self) -> (K, V) {
        self
    }
}

impl<'a, K: Copy, V: Copy> IntoPair<K, V> for (&'a K, &'a V) {
    ghost pair_of = { lent_pair };

    #[inline(always)]
    fn into_pair(self) -> (K, V) {
        (*self.0, *self.1)
    }
}

impl<K: Eq + Hash + Drop, V: Eq + Drop, S: BuildHasher, A: Allocator + Copy> SetOrderedMultimap<
    K,
    V,
    S,
    A,
> {
    /// Inserts the pair if no equal one is there, and returns whether it is new.
    ///
    /// A new pair comes last in the order of pairs, and a new key last in the order of keys. Where
    /// a pair with an equal key and an equal value is there, both arguments are dropped, and
    /// nothing changes. A present key stays as it was stored, and `key` is dropped. Unlike the
    /// map's `insert`, the call replaces no other pair of the key.
    ///
    /// # Errors
    ///
    /// If the pair is new and memory allocation fails, returns [`Refused`] with the key and the
    /// value. Both lists are unchanged; capacities may have grown. The call never fails if an equal
    /// pair is there.
    ///
    /// # Complexity
    ///
    /// *O*(*v*) expected and amortized for the *v* values of the key, with which the value is
    /// compared.
    ///
    /// # Examples
    ///
    /// ```
    /// use set_ordered_multimap::SetOrderedMultimap;
    ///
    /// let mut set = SetOrderedMultimap::new(rt.alloc());
    /// assert_eq!(rt; set.insert("plan", "draft"), Ok(true));
    /// assert_eq!(rt; set.insert("plan", "long"), Ok(true));
    /// assert_eq!(rt; set.insert("plan", "draft"), Ok(false));
    /// assert!(rt; set.get_all("plan").eq(&["draft", "long"]));
    /// ```
    pub fn insert(&mut self, key: K, value: V) -> Result<bool, Refused<K, V>>
        ensures new { IfOk result (λ new.
            new ≡ not (has_pair K.eq V.eq self.old.lists.pairs key value)) }
        ensures lists { OnOk result (self.new.lists
            ≡ set_inserted K.eq V.eq self.old.lists key value) }
        ensures set { IsSet K.eq V.eq self.old.lists → IsSet K.eq V.eq self.new.lists }

        // Where an equal pair is there, nothing changes.
        ensures unchanged { has_pair K.eq V.eq self.old.lists.pairs key value ≡ true
            → self.new ≡ self.old }

        // A new pair comes as by `append` of the map, with its rooms.
        ensures appends { has_pair K.eq V.eq self.old.lists.pairs key value ≡ false
            → Appends K.eq key value self.old self.new result }
        ensures refused { IfErr result (IsRefused K.eq key value self.old self.new) }
        ensures succeeds { HasRoomToInsert K.eq V.eq self.old key value → IsOk result }
    {
        if self.contains(&key, &value) {
            return Ok(false);
        }
        match self.map.append(key, value) {
            Ok(_) => Ok(true),
            Err(refused) => Err(refused),
        }
    }

    /// Inserts the pairs of an iterator, in order, each if no equal one is there.
    ///
    /// It inserts as [`insert`](Self::insert) does, and fails for no pair that `insert` would take.
    /// If the set has room for a key and a value for each pair, it succeeds, and no capacity grows.
    /// For copies of pairs that are borrowed, as those of another set, see
    /// [`extend_copied`](Self::extend_copied).
    ///
    /// # Errors
    ///
    /// If memory allocation fails for a pair, returns [`Refused`] with that pair, and reads no more
    /// of the iterator. The pairs before it stay. If you pass `&mut iter`, you keep the pairs after
    /// it.
    ///
    /// # Complexity
    ///
    /// What `insert` costs, for each pair.
    ///
    /// # Requires
    ///
    /// The iterator ends.
    ///
    /// # Examples
    ///
    /// ```
    /// use set_ordered_multimap::SetOrderedMultimap;
    ///
    /// let mut set = SetOrderedMultimap::new(rt.alloc());
    /// set.extend([("plan", "draft"), ("note", "draft"), ("plan", "draft")].iter().copied())?;
    /// assert!(rt; set.iter().eq([(&"plan", &"draft"), (&"note", &"draft")]));
    /// ```
    pub fn extend<I: IntoIterator<Item = (K, V)>>(&mut self, iter: I) -> Result<(), Refused<K, V>>
        requires { ComesToAnEnd I.into_iter_gives I.IntoIter.can_next I.IntoIter.remaining iter }
        ensures inserts { InsertsAll K.eq V.eq I.into_iter_gives I.IntoIter.next_gives iter
            self.old.lists self.new.lists result }
        ensures full { IfErr result (λ pair.
            ¬ HasRoomToInsert K.eq V.eq self.new pair.key pair.value) }
        ensures set { IsSet K.eq V.eq self.old.lists → IsSet K.eq V.eq self.new.lists }
        ensures grows { GrowsForInserted I.into_iter_gives I.IntoIter.next_gives iter
            self.old self.new result }
    {
        // Each item is its pair.
        self.insert_all(iter)
    }

    /// Inserts a copy of each pair of an iterator, in order, if no equal one is there.
    ///
    /// It does for borrowed pairs, as those of another set's [`iter`](Self::iter), what
    /// [`extend`](Self::extend) does for owned ones.
    ///
    /// # Errors
    ///
    /// If memory allocation fails for a pair, returns [`Refused`] with a copy of that pair, and
    /// reads no more of the iterator. The pairs before it stay.
    ///
    /// # Complexity
    ///
    /// What `insert` costs, for each pair.
    ///
    /// # Requires
    ///
    /// The iterator ends.
    ///
    /// # Examples
    ///
    /// ```
    /// use set_ordered_multimap::SetOrderedMultimap;
    ///
    /// let mut other = SetOrderedMultimap::new(rt.alloc());
    /// other.extend([("note", "draft"), ("plan", "draft")])?;
    ///
    /// let mut set = SetOrderedMultimap::new(rt.alloc());
    /// set.insert("plan", "draft")?;
    /// set.extend_copied(&other)?;
    /// assert!(rt; set.iter().eq([(&"plan", &"draft"), (&"note", &"draft")]));
    /// ```
    pub fn extend_copied<'a, I: IntoIterator<Item = (&'a K, &'a V)>>(
        &mut self,
        iter: I,
    ) -> Result<(), Refused<K, V>>
    where
        K: Copy + 'a,
        V: Copy + 'a,
        requires { ComesToAnEnd I.into_iter_gives I.IntoIter.can_next I.IntoIter.remaining iter }
        ensures inserts { InsertsCopied K.eq V.eq I.into_iter_gives I.IntoIter.next_gives iter
            self.old.lists self.new.lists result }
        ensures full { IfErr result (λ pair.
            ¬ HasRoomToInsert K.eq V.eq self.new pair.key pair.value) }
        ensures set { IsSet K.eq V.eq self.old.lists → IsSet K.eq V.eq self.new.lists }
        ensures grows { GrowsForInserted I.into_iter_gives I.IntoIter.next_gives iter
            self.old self.new result }
    {
        // Each item lends its pair.
        self.insert_all(iter)
    }

    /// Inserts the pair of each item of an iterator, in order, if no equal one is there.
    fn insert_all<X: IntoPair<K, V>, I: IntoIterator<Item = X>>(
        &mut self,
        iter: I,
    ) -> Result<(), Refused<K, V>>
        requires { ComesToAnEnd I.into_iter_gives I.IntoIter.can_next I.IntoIter.remaining iter }
        ensures inserts { InsertsPairsOf X.pair_of K.eq V.eq I.into_iter_gives I.IntoIter.next_gives
            iter self.old.lists self.new.lists result }
        ensures full { IfErr result (λ pair.
            ¬ HasRoomToInsert K.eq V.eq self.new pair.key pair.value) }
        ensures set { IsSet K.eq V.eq self.old.lists → IsSet K.eq V.eq self.new.lists }
        ensures grows { GrowsForInserted I.into_iter_gives I.IntoIter.next_gives iter
            self.old self.new result }
    {
        for item in iter {
            let (key, value) = item.into_pair();
            if let Err(refused) = self.insert(key, value) {
                return Err(refused);
            }
        }
        Ok(())
    }

    /// Creates a set from the pairs of an iterator, with the given hash builder.
    ///
    /// The pairs are inserted in order, so each is kept once, at its first occurrence. The set
    /// allocates from `alloc`.
    ///
    /// # Errors
    ///
    /// If memory allocation fails for a pair, returns [`Refused`] with that pair, and reads no more
    /// of the iterator. The pairs before it are dropped. To keep them, see
    /// [`extend`](Self::extend).
    ///
    /// # Complexity
    ///
    /// What `insert` costs, for each pair.
    ///
    /// # Requires
    ///
    /// The iterator ends.
    ///
    /// # Examples
    ///
    /// ```
    /// use ordered_multimap::DefaultState;
    /// use set_ordered_multimap::SetOrderedMultimap;
    ///
    /// let pairs = [("plan", "draft"), ("note", "draft"), ("plan", "draft")].iter().copied();
    /// let set = SetOrderedMultimap::from_iter(rt.alloc(), DefaultState::new(), pairs)?;
    /// assert!(rt; set.iter().eq([(&"plan", &"draft"), (&"note", &"draft")]));
    /// ```
    pub fn from_iter<I: IntoIterator<Item = (K, V)>>(
        alloc: A,
        state: S,
        iter: I,
    ) -> Result<Self, Refused<K, V>>
    where
        S: Drop,
        requires { ComesToAnEnd I.into_iter_gives I.IntoIter.can_next I.IntoIter.remaining iter }
        ensures built { IfOk result (λ s.
            IsSetOf K.eq V.eq I.into_iter_gives I.IntoIter.next_gives iter s.lists) }
        ensures set { IfOk result (λ s. IsSet K.eq V.eq s.lists) }
        ensures refused { IfErr result
            (IsLastRead I.IntoIter.next_gives I.into_iter_gives iter) }
        ensures hasher { IfOk result (λ s. s.hasher ≡ state) }
        ensures unused { IfOk result (λ s. AreUnused s.tape) }
    {
        let mut set = SetOrderedMultimap::with_hasher(alloc, state);
        if let Err(refused) = set.extend(iter) {
            return Err(refused);
        }
        Ok(set)
    }
}
