//! The iterator that owns the values of a map.
ghost use Rattle.std.specs.Prelude.{◌≡◌, length};
ghost use Rattle.std.specs.Iterator.{at_most};
ghost use Rattle.std.specs.Map.Iter.{TakesFirst, TakesLast};
ghost use Rattle.multimap_walks.specs.Walk.{TakesEnd, TellsLength};
ghost use Rattle.ordered_multimap.specs.Pairs.{all_values};

use super::ListOrderedMultimap;
use super::pop::place_at_end;
use super::show::show_left;
use multimap_slots::Tape;
use multimap_walks::{End, PackedLink, ValueLink, Values};
use std::alloc::{Allocator, Global};
use std::fmt;
use std::hash::{BuildHasher, Hash};
use std::iter::FusedIterator;
use std::marker::Model;

/// An owning iterator over the values of all pairs of a map, in the order of the pairs.
///
/// This struct is created by [`ListOrderedMultimap::into_values`]; see there for an example. It
/// iterates from both ends, and knows its length. Values that weren't taken are dropped with the
/// iterator.
#[derive(Drop)]
pub struct IntoValues<V, A: Allocator = Global> {
    values: Tape<V, ValueLink, A, PackedLink>,
}

impl<V, A: Allocator> Model for IntoValues<V, A> {
    ghost use Rattle.std.specs.Prelude.{List};
    ghost use Rattle.ordered_multimap.specs.Agrees.{items_of};

    ghost Value = { List V };

    ghost view = { λ w. items_of w.values.list };
}

impl<K: Eq + Hash + Drop, V, S: BuildHasher + Drop, A: Allocator> ListOrderedMultimap<K, V, S, A> {
    /// Consumes the map, and returns an iterator over the values of all pairs, in the order of the
    /// pairs.
    ///
    /// The keys are dropped at the call. For the values by reference see [`values`](Self::values),
    /// and for the pairs [`into_iter`](Self::into_iter).
    ///
    /// # Complexity
    ///
    /// *O*(key slots in use), to drop the keys, and *O*(1) for each value.
    ///
    /// # Examples
    ///
    /// ```
    /// use ordered_multimap::ListOrderedMultimap;
    ///
    /// let mut map = ListOrderedMultimap::new(rt.alloc());
    /// map.append("line", 1)?;
    /// map.append("page", 8)?;
    /// map.append("line", 2)?;
    /// let mut values = map.into_values();
    /// assert_eq!(rt; values.len(), 3);
    /// assert_eq!(rt; values.next(), Some(1));
    /// assert_eq!(rt; values.next_back(), Some(2));
    /// assert_eq!(rt; values.next(), Some(8));
    /// ```
    pub fn into_values(self) -> IntoValues<V, A>
        ensures { result ≡ all_values self.lists.pairs }
    {
        let ListOrderedMultimap {
            state: _state,
            keys: _keys,
            table: _table,
            values,
            left: _left,
        } = self;
        IntoValues { values }
    }
}

impl<V, A: Allocator> IntoValues<V, A> {
    /// The values that are left, by reference. They have no keys.
    fn left(&self) -> Values<'_, (), V, A>
        ensures { result ≡ self.now }
    {
        Values::new(&self.values)
    }

    /// Takes the value at an end out.
    #[inline(always)]
    fn take_out(&mut self, end: End) -> Option<V>
        ensures { TakesEnd end (λ value. value) self.old result self.new }
    {
        // The length tells the proof that the list is sound.
        let _values = self.values.len();
        let Some(place) = place_at_end(&self.values, end) else {
            return None;
        };
        let (value, _) = self.values.take_listed(place);
        Some(value)
    }
}

impl<V: Drop, A: Allocator> Iterator for IntoValues<V, A> {
    type Item = V;

    ghost next_gives = { TakesFirst (λ value. value) };

    ghost remaining = { λ s. at_most (length s) };

    fn next(&mut self) -> Option<V> {
        self.take_out(End::Front)
    }

    fn size_hint(&self) -> (usize, Option<usize>)
        ensures { TellsLength result self.now }
    {
        self.left().size_hint()
    }
}

impl<V: Drop, A: Allocator> DoubleEndedIterator for IntoValues<V, A> {
    ghost next_back_gives = { TakesLast (λ value. value) };

    fn next_back(&mut self) -> Option<V> {
        self.take_out(End::Back)
    }
}

impl<V: Drop, A: Allocator> ExactSizeIterator for IntoValues<V, A> {
    fn len(&self) -> usize {
        self.left().len()
    }
}

impl<V: Drop, A: Allocator> FusedIterator for IntoValues<V, A> {}

impl<V: fmt::Debug, A: Allocator> fmt::Debug for IntoValues<V, A> {
    fn fmt<W: fmt::Write>(&self, f: &mut fmt::Formatter<W>) -> fmt::Result {
        show_left(f, "IntoValues", self.left())
    }
}
