//! The methods of the iterator over all values for writing.
ghost use Rattle.std.specs.Prelude.{◌≡◌, length};
ghost use Rattle.std.specs.Iterator.{at_most};
ghost use Rattle.multimap_slots.specs.SlotCells.{cells_name, lent_slots};
ghost use Rattle.multimap_walks.specs.Chained.{positions_at, values_at};
ghost use Rattle.multimap_walks.specs.Lending.{NoneIsTaken};
ghost use Rattle.multimap_walks.specs.WritingWalk.{values_mut_cells, values_mut_name, values_mut_positions, values_mut_rest, values_mut_values, LendsFirstValue, LendsLastValue, LendsValue};
ghost use Rattle.multimap_walks.specs.Walk.{TellsLength};

use super::ValuesMut;
use crate::End;
use crate::links::ValueLink;
use crate::show::show_left;
use crate::writing::rest::values::ValuesRest;
use crate::writing::{all_of, lend};
use multimap_slots::{Cells, LinkForm, SlotCells};
use std::alloc::Allocator;
use std::fmt;
use std::iter::FusedIterator;
use std::marker::PhantomData;

impl<'map, K, V, A: Allocator, F: LinkForm<ValueLink>> ValuesMut<'map, K, V, A, F> {
    /// Creates an iterator over all values of the cells.
    ///
    /// It reads no slot.
    ///
    /// # Complexity
    ///
    /// *O*(1).
    ///
    /// # Requires
    ///
    /// No value was taken from `values`.
    pub fn new(values: SlotCells<'map, V, ValueLink, A, F>) -> Self
        requires untaken { NoneIsTaken values }
        ensures values { values_mut_rest result
            ≡ values_at (lent_slots values.entry) (lent_slots values.entry).order }
        ensures name { values_mut_name result ≡ cells_name values.entry }
        ensures positions { values_mut_positions result
            ≡ positions_at (lent_slots values.entry) (lent_slots values.entry).order }
        ensures lent { values_mut_values result ≡ values.entry }
    {
        let left = all_of(&values);
        ValuesMut {
            keys: PhantomData,
            values,
            left,
        }
    }

    /// Ends the iterator, and returns the right to write the values that it hasn't yielded.
    ///
    /// It is for proved callers: `Cells::end` says what all values end as. See CALLING.md
    /// of the crate `ordered_multimap`.
    ///
    /// # Complexity
    ///
    /// *O*(1).
    ///
    /// # Examples
    ///
    /// ```
    /// use ordered_multimap::ListOrderedMultimap;
    ///
    /// let mut map = ListOrderedMultimap::new(rt.alloc());
    /// map.append("line", 1)?;
    /// map.append("page", 8)?;
    /// let mut values = map.values_mut();
    /// if let Some(first) = values.next() {
    ///     *first = 7;
    /// }
    /// values.into_cells().end();
    /// assert!(rt; map.values().eq(&[7, 8]));
    /// ```
    pub fn into_cells(self) -> Cells<'map, V>
        ensures { result ≡ values_mut_cells self.entry }
    {
        let ValuesMut {
            keys: _,
            values,
            left: _,
        } = self;
        values.into_cells()
    }

    /// Returns an iterator over the values that are left, for reading.
    ///
    /// This iterator goes on where it is. The call reads no slot.
    ///
    /// # Complexity
    ///
    /// *O*(1), and *O*(1) for each value.
    ///
    /// # Examples
    ///
    /// ```
    /// use ordered_multimap::ListOrderedMultimap;
    ///
    /// let mut map = ListOrderedMultimap::new(rt.alloc());
    /// map.append("line", 1)?;
    /// map.append("page", 8)?;
    /// let mut values = map.values_mut();
    /// assert_eq!(rt; values.next(), Some(&mut 1));
    /// assert!(rt; values.iter().eq(&[8]));
    /// assert_eq!(rt; values.len(), 1);
    /// ```
    pub fn iter(&self) -> ValuesRest<'_, 'map, K, V, A, F>
        ensures { result ≡ values_mut_rest self.now }
    {
        ValuesRest::new(&self.values, self.left)
    }

    /// Lends the value at an end of what is left.
    #[inline(always)]
    fn step(&mut self, end: End) -> Option<&'map mut V>
        ensures { LendsValue end self.old result self.new }
    {
        let (value, _) = lend(end, &mut self.values, &mut self.left)?;
        Some(value)
    }
}

impl<'map, K, V, A: Allocator, F: LinkForm<ValueLink>> Iterator for ValuesMut<'map, K, V, A, F> {
    type Item = &'map mut V;

    ghost next_gives = { LendsFirstValue };

    ghost remaining = { λ s. at_most (length (values_mut_rest s)) };

    fn next(&mut self) -> Option<&'map mut V> {
        self.step(End::Front)
    }

    fn size_hint(&self) -> (usize, Option<usize>)
        ensures { TellsLength result (values_mut_rest self.now) }
    {
        (self.left.length, Some(self.left.length))
    }
}

impl<'map, K, V, A: Allocator, F: LinkForm<ValueLink>> DoubleEndedIterator
    for ValuesMut<'map, K, V, A, F> {
    ghost next_back_gives = { LendsLastValue };

    fn next_back(&mut self) -> Option<&'map mut V> {
        self.step(End::Back)
    }
}

impl<'map, K, V, A: Allocator, F: LinkForm<ValueLink>> ExactSizeIterator
    for ValuesMut<'map, K, V, A, F> {
    fn len(&self) -> usize {
        self.left.length
    }
}

impl<'map, K, V, A: Allocator, F: LinkForm<ValueLink>> FusedIterator
    for ValuesMut<'map, K, V, A, F> {}

impl<'map, K, V: fmt::Debug, A: Allocator, F: LinkForm<ValueLink>> fmt::Debug
    for ValuesMut<'map, K, V, A, F> {
    fn fmt<W: fmt::Write>(&self, f: &mut fmt::Formatter<W>) -> fmt::Result {
        show_left(f, "ValuesMut", &self.iter())
    }
}
