//! The iterator over the pairs that an `IterMut` has left, for reading.
ghost use Rattle.std.specs.Prelude.{◌≡◌, length, ⊤};
ghost use Rattle.std.specs.Iterator.{at_most};
ghost use Rattle.std.specs.Map.Iter.{TakesFirst, TakesLast, deref_pair};
ghost use Rattle.multimap_slots.specs.SlotCells.{lent_slots};
ghost use Rattle.multimap_walks.specs.Chained.{AreOwned};
ghost use Rattle.multimap_walks.specs.Lending.{CanLend};
ghost use Rattle.multimap_walks.specs.RestWalk.{pairs_rest};
ghost use Rattle.multimap_walks.specs.Walk.{TakesEnd, TellsLength};

use super::read;
use crate::End;
use crate::links::{ChainEnds, KeyLink, ValueLink};
use crate::packed::PackedLink;
use crate::show::show_left;
use crate::slots::key_at;
use multimap_slots::{LinkForm, Reads, SlotCells, SlotList};
use std::alloc::{AllocError, Allocator, Global};
use std::fmt;
use std::iter::FusedIterator;
use std::marker::Model;

/// An iterator over the pairs that an `IterMut` has left, in their order.
///
/// This struct is created by [`IterMut::iter`](crate::IterMut::iter); see there for an example. Its
/// items are `(&key, &value)`. It iterates from both ends, knows its length, and can be cloned,
/// which never fails. Each item reads the slots of its value and of its key.
#[derive(Drop)]
pub struct IterRest<'walk, 'map, K, V, A: Allocator = Global, F: LinkForm<ValueLink> = PackedLink> {
    keys: &'walk SlotList<K, KeyLink, A>,
    values: &'walk SlotCells<'map, V, ValueLink, A, F>,
    left: ChainEnds,
    reads: Reads,
}

impl<'walk, 'map, K, V, A: Allocator, F: LinkForm<ValueLink>> Model
    for IterRest<'walk, 'map, K, V, A, F> {
    ghost use Rattle.std.specs.Prelude.{List};
    ghost use Rattle.multimap_walks.specs.RestWalk.{pairs_rest, CanReadPairs};

    ghost Value = { List (K × V) };

    ghost view = { λ w. pairs_rest w.values.now w.left w.keys.now };

    ghost invariant = { λ w. CanReadPairs w.values.now w.left w.keys.now };
}

impl<'walk, 'map, K, V, A: Allocator, F: LinkForm<ValueLink>> IterRest<'walk, 'map, K, V, A, F> {
    /// Creates an iterator over the pairs at places that are left.
    ///
    /// It reads no slot.
    ///
    /// # Complexity
    ///
    /// *O*(1).
    ///
    /// # Requires
    ///
    /// The key of each value is listed, and no value of these places was taken.
    pub fn new(
        keys: &'walk SlotList<K, KeyLink, A>,
        values: &'walk SlotCells<'map, V, ValueLink, A, F>,
        left: ChainEnds,
    ) -> Self
        requires owned { AreOwned keys.now (lent_slots values.now) }
        requires lends { CanLend values.now left }
        ensures pairs { result ≡ pairs_rest values.now left keys.now }
    {
        // The length tells the proof that the list of keys is sound.
        let _keys = keys.len();
        IterRest {
            keys,
            values,
            left,
            reads: Reads::new(),
        }
    }

    /// Takes the item at an end of what is left.
    #[inline(always)]
    fn step(&mut self, end: End) -> Option<(&'walk K, &'walk V)>
        ensures { TakesEnd end deref_pair self.old result self.new }
    {
        let (value, link) = read(end, self.values, &mut self.left)?;
        Some((key_at(self.keys, link.key, &mut self.reads), value))
    }
}

impl<'walk, 'map, K, V, A: Allocator, F: LinkForm<ValueLink>> Iterator
    for IterRest<'walk, 'map, K, V, A, F> {
    type Item = (&'walk K, &'walk V);

    ghost next_gives = { TakesFirst deref_pair };

    ghost remaining = { λ s. at_most (length s) };

    fn next(&mut self) -> Option<(&'walk K, &'walk V)> {
        self.step(End::Front)
    }

    fn size_hint(&self) -> (usize, Option<usize>)
        ensures { TellsLength result self.now }
    {
        (self.left.length, Some(self.left.length))
    }
}

impl<'walk, 'map, K, V, A: Allocator, F: LinkForm<ValueLink>> DoubleEndedIterator
    for IterRest<'walk, 'map, K, V, A, F> {
    ghost next_back_gives = { TakesLast deref_pair };

    fn next_back(&mut self) -> Option<(&'walk K, &'walk V)> {
        self.step(End::Back)
    }
}

impl<'walk, 'map, K, V, A: Allocator, F: LinkForm<ValueLink>> ExactSizeIterator
    for IterRest<'walk, 'map, K, V, A, F> {
    fn len(&self) -> usize {
        self.left.length
    }
}

impl<'walk, 'map, K, V, A: Allocator, F: LinkForm<ValueLink>> FusedIterator
    for IterRest<'walk, 'map, K, V, A, F> {}

impl<'walk, 'map, K, V, A: Allocator, F: LinkForm<ValueLink>> Clone
    for IterRest<'walk, 'map, K, V, A, F> {
    ghost is_clone = { λ s r. r ≡ s };

    ghost is_infallible = { λ _. ⊤ };

    fn clone(&self) -> Result<IterRest<'walk, 'map, K, V, A, F>, AllocError> {
        Ok(IterRest {
            keys: self.keys,
            values: self.values,
            left: self.left,
            reads: self.reads.clone()?,
        })
    }
}

impl<'walk, 'map, K: fmt::Debug, V: fmt::Debug, A: Allocator, F: LinkForm<ValueLink>> fmt::Debug
    for IterRest<'walk, 'map, K, V, A, F> {
    fn fmt<W: fmt::Write>(&self, f: &mut fmt::Formatter<W>) -> fmt::Result {
        show_left(f, "IterRest", self)
    }
}
