//! The iterator over the values of all pairs.
ghost use Rattle.std.specs.Prelude.{◌≡◌, length, ⊤};
ghost use Rattle.std.specs.Iterator.{at_most};
ghost use Rattle.std.specs.Map.Iter.{TakesFirst, TakesLast, deref};
ghost use Rattle.multimap_walks.specs.Chained.{values_at};
ghost use Rattle.multimap_walks.specs.Walk.{TakesEnd, TellsLength};

use crate::End;
use crate::left::{Ordered, take};
use crate::links::{ChainEnds, ValueLink};
use crate::packed::PackedLink;
use crate::show::show_left;
use crate::slots::value_at;
use multimap_slots::{LinkForm, Reads, Tape};
use std::alloc::{AllocError, Allocator, Global};
use std::fmt;
use std::iter::FusedIterator;
use std::marker::{Model, PhantomData};

/// An iterator over the values of all pairs of a map, in the order of the pairs.
///
/// This struct is created by `ListOrderedMultimap::values`; see there for an example. Its items are
/// `&value`. It iterates from both ends, knows its length, and can be cloned, which never fails.
/// Each item reads the slot of its value.
#[derive(Drop)]
pub struct Values<'map, K, V, A: Allocator = Global, F: LinkForm<ValueLink> = PackedLink> {
    keys: PhantomData<&'map K>,
    values: &'map Tape<V, ValueLink, A, F>,
    left: ChainEnds,
    reads: Reads,
}

impl<'map, K, V, A: Allocator, F: LinkForm<ValueLink>> Model for Values<'map, K, V, A, F> {
    ghost use Rattle.std.specs.Prelude.{List};
    ghost use Rattle.multimap_slots.specs.Slots.{item_at};
    ghost use Rattle.multimap_walks.specs.Along.{items_left, IsAlong};

    ghost Value = { List V };

    ghost view = { λ w. items_left w.values.now.list.order (item_at w.values.now.list) w.left };

    ghost invariant = { λ w. IsAlong w.values.now.list.order (item_at w.values.now.list) w.left };
}

impl<'map, K, V, A: Allocator, F: LinkForm<ValueLink>> Values<'map, K, V, A, F> {
    /// Creates an iterator over all items of a tape.
    ///
    /// # Complexity
    ///
    /// *O*(1).
    pub fn new(values: &'map Tape<V, ValueLink, A, F>) -> Self
        ensures values { result ≡ values_at values.now.list values.now.list.order }
    {
        Values {
            keys: PhantomData,
            values,
            left: values.all(),
            reads: Reads::new(),
        }
    }

    /// Takes the item at an end of what is left.
    #[inline(always)]
    fn step(&mut self, end: End) -> Option<&'map V>
        ensures { TakesEnd end deref self.old result self.new }
    {
        let place = take(end, self.values, &mut self.left)?;
        let (value, _) = value_at(self.values, place, &mut self.reads);
        Some(value)
    }
}

impl<'map, K, V, A: Allocator, F: LinkForm<ValueLink>> Iterator for Values<'map, K, V, A, F> {
    type Item = &'map V;

    ghost next_gives = { TakesFirst deref };

    ghost remaining = { λ s. at_most (length s) };

    fn next(&mut self) -> Option<&'map V> {
        self.step(End::Front)
    }

    #[tactic(auto, using(crate::proofs::Callers::Along::length_along))]
    fn size_hint(&self) -> (usize, Option<usize>)
        ensures { TellsLength result self.now }
    {
        (self.left.length, Some(self.left.length))
    }
}

impl<'map, K, V, A: Allocator, F: LinkForm<ValueLink>> DoubleEndedIterator
    for Values<'map, K, V, A, F> {
    ghost next_back_gives = { TakesLast deref };

    fn next_back(&mut self) -> Option<&'map V> {
        self.step(End::Back)
    }
}

impl<'map, K, V, A: Allocator, F: LinkForm<ValueLink>> ExactSizeIterator
    for Values<'map, K, V, A, F> {
    #[tactic(auto, using(crate::proofs::Callers::Along::length_along))]
    fn len(&self) -> usize {
        self.left.length
    }
}

impl<'map, K, V, A: Allocator, F: LinkForm<ValueLink>> FusedIterator for Values<'map, K, V, A, F> {}

impl<'map, K, V, A: Allocator, F: LinkForm<ValueLink>> Clone for Values<'map, K, V, A, F> {
    ghost is_clone = { λ s r. r ≡ s };

    ghost is_infallible = { λ _. ⊤ };

    fn clone(&self) -> Result<Values<'map, K, V, A, F>, AllocError> {
        Ok(Values {
            keys: PhantomData,
            values: self.values,
            left: self.left,
            reads: self.reads.clone()?,
        })
    }
}

impl<'map, K, V: fmt::Debug, A: Allocator, F: LinkForm<ValueLink>> fmt::Debug
    for Values<'map, K, V, A, F> {
    fn fmt<W: fmt::Write>(&self, f: &mut fmt::Formatter<W>) -> fmt::Result {
        show_left(f, "Values", self)
    }
}
