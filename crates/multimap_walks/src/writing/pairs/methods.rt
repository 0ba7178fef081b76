//! The methods of the iterator over all pairs with their values for writing.
ghost use Rattle.std.specs.Prelude.{◌≡◌, length};
ghost use Rattle.std.specs.Iterator.{at_most};
ghost use Rattle.multimap_slots.specs.SlotCells.{cells_name, lent_slots};
ghost use Rattle.multimap_walks.specs.Chained.{AreOwned, pairs_of, positions_at};
ghost use Rattle.multimap_walks.specs.Lending.{NoneIsTaken};
ghost use Rattle.multimap_walks.specs.WritingWalk.{iter_mut_cells, iter_mut_name, iter_mut_positions, iter_mut_rest, iter_mut_values, LendsFirstPair, LendsLastPair, LendsPair};
ghost use Rattle.multimap_walks.specs.Walk.{TellsLength};

use super::IterMut;
use crate::End;
use crate::links::{KeyLink, ValueLink};
use crate::show::show_left;
use crate::slots::key_at;
use crate::writing::rest::pairs::IterRest;
use crate::writing::{all_of, lend};
use multimap_slots::{Cells, LinkForm, Reads, SlotCells, SlotList};
use std::alloc::Allocator;
use std::fmt;
use std::iter::FusedIterator;

impl<'map, K, V, A: Allocator, F: LinkForm<ValueLink>> IterMut<'map, K, V, A, F> {
    /// Creates an iterator over all pairs of a list of keys and of cells of values.
    ///
    /// It reads no slot.
    ///
    /// # Complexity
    ///
    /// *O*(1).
    ///
    /// # Requires
    ///
    /// The key of each value is listed, and no value was taken from `values`.
    pub fn new(
        keys: &'map SlotList<K, KeyLink, A>,
        values: SlotCells<'map, V, ValueLink, A, F>,
    ) -> Self
        requires owned { AreOwned keys.now (lent_slots values) }
        requires untaken { NoneIsTaken values }
        ensures pairs { iter_mut_rest result ≡ pairs_of keys.now (lent_slots values.entry) }
        ensures name { iter_mut_name result ≡ cells_name values.entry }
        ensures positions { iter_mut_positions result
            ≡ positions_at (lent_slots values.entry) (lent_slots values.entry).order }
        ensures lent { iter_mut_values result ≡ values.entry }
    {
        // The length tells the proof that the list of keys is sound.
        let _keys = keys.len();
        let left = all_of(&values);
        IterMut {
            reads: Reads::new(),
            keys,
            values,
            left,
        }
    }

    /// Ends the iterator, and returns the right to write the values that it hasn't yielded.
    ///
    /// It is for proved callers: `Cells::end` says what all values end as. See CALLING.md
    /// of the crate `ordered_multimap`.
    ///
    /// # Complexity
    ///
    /// *O*(1).
    ///
    /// # Examples
    ///
    /// ```
    /// use ordered_multimap::ListOrderedMultimap;
    ///
    /// let mut map = ListOrderedMultimap::new(rt.alloc());
    /// map.append("line", 1)?;
    /// map.append("page", 8)?;
    /// let mut pairs = map.iter_mut();
    /// if let Some((_key, value)) = pairs.next_back() {
    ///     *value = 9;
    /// }
    /// pairs.into_cells().end();
    /// assert!(rt; map.values().eq(&[1, 9]));
    /// ```
    pub fn into_cells(self) -> Cells<'map, V>
        ensures { result ≡ iter_mut_cells self.entry }
    {
        let IterMut {
            reads: _,
            keys: _,
            values,
            left: _,
        } = self;
        values.into_cells()
    }

    /// Returns an iterator over the pairs that are left, for reading.
    ///
    /// This iterator goes on where it is. The call reads no slot.
    ///
    /// # Complexity
    ///
    /// *O*(1), and *O*(1) for each pair.
    ///
    /// # Examples
    ///
    /// ```
    /// use ordered_multimap::ListOrderedMultimap;
    ///
    /// let mut map = ListOrderedMultimap::new(rt.alloc());
    /// map.append("line", 1)?;
    /// map.append("page", 8)?;
    /// let mut pairs = map.iter_mut();
    /// assert_eq!(rt; pairs.next(), Some((&"line", &mut 1)));
    /// assert!(rt; pairs.iter().eq([(&"page", &8)]));
    /// assert_eq!(rt; pairs.len(), 1);
    /// ```
    pub fn iter(&self) -> IterRest<'_, 'map, K, V, A, F>
        ensures { result ≡ iter_mut_rest self.now }
    {
        IterRest::new(self.keys, &self.values, self.left)
    }

    /// Lends the value at an end of what is left, with its key.
    #[inline(always)]
    fn step(&mut self, end: End) -> Option<(&'map K, &'map mut V)>
        ensures { LendsPair end self.old result self.new }
    {
        let (value, link) = lend(end, &mut self.values, &mut self.left)?;
        Some((key_at(self.keys, link.key, &mut self.reads), value))
    }
}

impl<'map, K, V, A: Allocator, F: LinkForm<ValueLink>> Iterator for IterMut<'map, K, V, A, F> {
    type Item = (&'map K, &'map mut V);

    ghost next_gives = { LendsFirstPair };

    ghost remaining = { λ s. at_most (length (iter_mut_rest s)) };

    fn next(&mut self) -> Option<(&'map K, &'map mut V)> {
        self.step(End::Front)
    }

    fn size_hint(&self) -> (usize, Option<usize>)
        ensures { TellsLength result (iter_mut_rest self.now) }
    {
        (self.left.length, Some(self.left.length))
    }
}

impl<'map, K, V, A: Allocator, F: LinkForm<ValueLink>> DoubleEndedIterator
    for IterMut<'map, K, V, A, F> {
    ghost next_back_gives = { LendsLastPair };

    fn next_back(&mut self) -> Option<(&'map K, &'map mut V)> {
        self.step(End::Back)
    }
}

impl<'map, K, V, A: Allocator, F: LinkForm<ValueLink>> ExactSizeIterator
    for IterMut<'map, K, V, A, F> {
    fn len(&self) -> usize {
        self.left.length
    }
}

impl<'map, K, V, A: Allocator, F: LinkForm<ValueLink>> FusedIterator
    for IterMut<'map, K, V, A, F> {}

impl<'map, K: fmt::Debug, V: fmt::Debug, A: Allocator, F: LinkForm<ValueLink>> fmt::Debug
    for IterMut<'map, K, V, A, F> {
    fn fmt<W: fmt::Write>(&self, f: &mut fmt::Formatter<W>) -> fmt::Result {
        show_left(f, "IterMut", &self.iter())
    }
}
