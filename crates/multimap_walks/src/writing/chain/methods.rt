//! The methods of the iterator over one key's values for writing.
ghost use Rattle.std.specs.Prelude.{◌≡◌, [], length, MatchOption, ⊤};
ghost use Rattle.std.specs.Iterator.{at_most};
ghost use Rattle.multimap_slots.specs.Slots.{HasLink};
ghost use Rattle.multimap_slots.specs.SlotCells.{cells_name, lent_slots};
ghost use Rattle.multimap_walks.specs.Chained.{IsChained, chain_of, positions_at, values_at};
ghost use Rattle.multimap_walks.specs.Lending.{NoneIsTaken};
ghost use Rattle.multimap_walks.specs.WritingWalk.{entry_values_mut_cells, entry_values_mut_name, entry_values_mut_positions, entry_values_mut_rest, entry_values_mut_values, LendsFirstOfKey, LendsLastOfKey, LendsOfKey};
ghost use Rattle.multimap_walks.specs.Walk.{TellsLength};

use super::{EntryValuesMut, pass_end_of_chain};
use crate::End;
use crate::links::{KeyLink, NO_ENDS, ValueLink};
use crate::show::show_left;
use crate::writing::rest::chain::EntryValuesRest;
use multimap_slots::{Cells, LinkForm, SlotCells, SlotList};
use std::alloc::Allocator;
use std::fmt;
use std::iter::FusedIterator;
use std::marker::PhantomData;

impl<'map, K, V, A: Allocator, F: LinkForm<ValueLink>> EntryValuesMut<'map, K, V, A, F> {
    /// Creates an iterator over the values of a key, or an empty one for `None`.
    ///
    /// The key is given by its place and its link in `keys`. It reads no slot.
    ///
    /// # Complexity
    ///
    /// *O*(1).
    ///
    /// # Requires
    ///
    /// The links of keys and values are chained, the key is listed in `keys` with this link, and no
    /// value was taken from `values`.
    pub fn new(
        keys: &'map SlotList<K, KeyLink, A>,
        values: SlotCells<'map, V, ValueLink, A, F>,
        key: Option<(usize, KeyLink)>,
    ) -> Self
        requires chained { IsChained keys.now (lent_slots values) }
        requires untaken { NoneIsTaken values }
        requires listed { MatchOption key ⊤ (λ k. HasLink keys.now k.0 k.1) }
        ensures values { MatchOption key (entry_values_mut_rest result ≡ [])
            (λ k. entry_values_mut_rest result
            ≡ values_at (lent_slots values.entry) (chain_of (lent_slots values.entry) k.0)) }
        ensures positions { MatchOption key (entry_values_mut_positions result ≡ [])
            (λ k. entry_values_mut_positions result
            ≡ positions_at (lent_slots values.entry) (chain_of (lent_slots values.entry) k.0)) }
        ensures name { entry_values_mut_name result ≡ cells_name values.entry }
        ensures lent { entry_values_mut_values result ≡ values.entry }
    {
        let Some((_, link)) = key else {
            return EntryValuesMut {
                keys: PhantomData,
                values,
                left: NO_ENDS,
            };
        };
        EntryValuesMut {
            keys: PhantomData,
            values,
            left: link.ends(),
        }
    }

    /// Ends the iterator, and returns the right to write the values that it hasn't yielded.
    ///
    /// It is for proved callers: `Cells::end` says what all values end as. See CALLING.md
    /// of the crate `ordered_multimap`.
    ///
    /// # Complexity
    ///
    /// *O*(1).
    ///
    /// # Examples
    ///
    /// ```
    /// use ordered_multimap::ListOrderedMultimap;
    ///
    /// let mut map = ListOrderedMultimap::new(rt.alloc());
    /// map.append("line", 1)?;
    /// map.append("line", 2)?;
    /// let mut values = map.get_all_mut("line");
    /// if let Some(first) = values.next() {
    ///     *first = 7;
    /// }
    /// values.into_cells().end();
    /// assert!(rt; map.get_all("line").eq(&[7, 2]));
    /// ```
    pub fn into_cells(self) -> Cells<'map, V>
        ensures { result ≡ entry_values_mut_cells self.entry }
    {
        let EntryValuesMut {
            keys: _,
            values,
            left: _,
        } = self;
        values.into_cells()
    }

    /// Returns an iterator over the values that are left, for reading.
    ///
    /// This iterator goes on where it is. The call reads no slot.
    ///
    /// # Complexity
    ///
    /// *O*(1), and *O*(1) for each value.
    ///
    /// # Examples
    ///
    /// ```
    /// use ordered_multimap::ListOrderedMultimap;
    ///
    /// let mut map = ListOrderedMultimap::new(rt.alloc());
    /// map.append("line", 1)?;
    /// map.append("line", 2)?;
    /// let mut values = map.get_all_mut("line");
    /// assert_eq!(rt; values.next(), Some(&mut 1));
    /// assert!(rt; values.iter().eq(&[2]));
    /// assert_eq!(rt; values.len(), 1);
    /// ```
    pub fn iter(&self) -> EntryValuesRest<'_, 'map, K, V, A, F>
        ensures { result ≡ entry_values_mut_rest self.now }
    {
        EntryValuesRest::new(&self.values, self.left)
    }

    /// Lends the value at an end of what is left.
    #[inline(always)]
    fn step(&mut self, end: End) -> Option<&'map mut V>
        ensures { LendsOfKey end self.old result self.new }
    {
        let place = pass_end_of_chain(end, &self.values, &mut self.left)?;
        Some(self.values.take(place))
    }
}

impl<'map, K, V, A: Allocator, F: LinkForm<ValueLink>> Iterator
    for EntryValuesMut<'map, K, V, A, F> {
    type Item = &'map mut V;

    ghost next_gives = { LendsFirstOfKey };

    ghost remaining = { λ s. at_most (length (entry_values_mut_rest s)) };

    fn next(&mut self) -> Option<&'map mut V> {
        self.step(End::Front)
    }

    fn size_hint(&self) -> (usize, Option<usize>)
        ensures { TellsLength result (entry_values_mut_rest self.now) }
    {
        (self.left.length, Some(self.left.length))
    }
}

impl<'map, K, V, A: Allocator, F: LinkForm<ValueLink>> DoubleEndedIterator
    for EntryValuesMut<'map, K, V, A, F> {
    ghost next_back_gives = { LendsLastOfKey };

    fn next_back(&mut self) -> Option<&'map mut V> {
        self.step(End::Back)
    }
}

impl<'map, K, V, A: Allocator, F: LinkForm<ValueLink>> ExactSizeIterator
    for EntryValuesMut<'map, K, V, A, F> {
    fn len(&self) -> usize {
        self.left.length
    }
}

impl<'map, K, V, A: Allocator, F: LinkForm<ValueLink>> FusedIterator
    for EntryValuesMut<'map, K, V, A, F> {}

impl<'map, K, V: fmt::Debug, A: Allocator, F: LinkForm<ValueLink>> fmt::Debug
    for EntryValuesMut<'map, K, V, A, F> {
    fn fmt<W: fmt::Write>(&self, f: &mut fmt::Formatter<W>) -> fmt::Result {
        show_left(f, "EntryValuesMut", &self.iter())
    }
}
