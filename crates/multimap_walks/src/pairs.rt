//! The iterator over all pairs.
ghost use Rattle.std.specs.Prelude.{◌≡◌, length, ⊤};
ghost use Rattle.std.specs.Iterator.{at_most};
ghost use Rattle.std.specs.Map.Iter.{TakesFirst, TakesLast, deref_pair};
ghost use Rattle.multimap_walks.specs.Chained.{AreOwned, pairs_of};
ghost use Rattle.multimap_walks.specs.Walk.{TakesEnd, TellsLength};

use crate::End;
use crate::left::{Ordered, take};
use crate::links::{ChainEnds, KeyLink, ValueLink};
use crate::packed::PackedLink;
use crate::show::show_left;
use crate::slots::pair_of;
use multimap_slots::{LinkForm, Reads, SlotList, Tape};
use std::alloc::{AllocError, Allocator, Global};
use std::fmt;
use std::iter::FusedIterator;
use std::marker::Model;

/// An iterator over the pairs of a map, in their order.
///
/// This struct is created by `ListOrderedMultimap::iter`, and by a loop over `&map`; see there for
/// an example. Its items are `(&key, &value)`. It iterates from both ends, knows its length, and
/// can be cloned, which never fails. Each item reads the slots of its value and of its key.
#[derive(Drop)]
pub struct Iter<'map, K, V, A: Allocator = Global, F: LinkForm<ValueLink> = PackedLink> {
    keys: &'map SlotList<K, KeyLink, A>,
    values: &'map Tape<V, ValueLink, A, F>,
    left: ChainEnds,
    reads: Reads,
}

impl<'map, K, V, A: Allocator, F: LinkForm<ValueLink>> Model for Iter<'map, K, V, A, F> {
    ghost use Rattle.std.specs.Prelude.{List};
    ghost use Rattle.multimap_walks.specs.PairWalk.{pairs_left, IsWalk};

    ghost Value = { List (K × V) };

    ghost view = { λ w. pairs_left w.keys.now w.values.now.list w.left };

    ghost invariant = { λ w. IsWalk w.keys.now w.values.now.list w.left };
}

impl<'map, K, V, A: Allocator, F: LinkForm<ValueLink>> Iter<'map, K, V, A, F> {
    /// Creates an iterator over all pairs of a slot list of keys and a tape of values.
    ///
    /// It reads no slot.
    ///
    /// # Complexity
    ///
    /// *O*(1).
    ///
    /// # Requires
    ///
    /// The key of each value is listed.
    pub fn new(keys: &'map SlotList<K, KeyLink, A>, values: &'map Tape<V, ValueLink, A, F>) -> Self
        requires { AreOwned keys.now values.now.list }
        ensures pairs { result ≡ pairs_of keys.now values.now.list }
    {
        // The length tells the proof that the list of keys is sound.
        let _keys = keys.len();
        Iter {
            keys,
            values,
            left: values.all(),
            reads: Reads::new(),
        }
    }

    /// Takes the item at an end of what is left.
    #[inline(always)]
    fn step(&mut self, end: End) -> Option<(&'map K, &'map V)>
        ensures { TakesEnd end deref_pair self.old result self.new }
    {
        let place = take(end, self.values, &mut self.left)?;
        Some(pair_of(self.keys, self.values, place, &mut self.reads))
    }
}

impl<'map, K, V, A: Allocator, F: LinkForm<ValueLink>> Iterator for Iter<'map, K, V, A, F> {
    type Item = (&'map K, &'map V);

    ghost next_gives = { TakesFirst deref_pair };

    ghost remaining = { λ s. at_most (length s) };

    fn next(&mut self) -> Option<(&'map K, &'map V)> {
        self.step(End::Front)
    }

    #[tactic(auto, using(crate::proofs::Callers::Along::length_along))]
    fn size_hint(&self) -> (usize, Option<usize>)
        ensures { TellsLength result self.now }
    {
        (self.left.length, Some(self.left.length))
    }
}

impl<'map, K, V, A: Allocator, F: LinkForm<ValueLink>> DoubleEndedIterator
    for Iter<'map, K, V, A, F> {
    ghost next_back_gives = { TakesLast deref_pair };

    fn next_back(&mut self) -> Option<(&'map K, &'map V)> {
        self.step(End::Back)
    }
}

impl<'map, K, V, A: Allocator, F: LinkForm<ValueLink>> ExactSizeIterator
    for Iter<'map, K, V, A, F> {
    #[tactic(auto, using(crate::proofs::Callers::Along::length_along))]
    fn len(&self) -> usize {
        self.left.length
    }
}

impl<'map, K, V, A: Allocator, F: LinkForm<ValueLink>> FusedIterator for Iter<'map, K, V, A, F> {}

impl<'map, K, V, A: Allocator, F: LinkForm<ValueLink>> Clone for Iter<'map, K, V, A, F> {
    ghost is_clone = { λ s r. r ≡ s };

    ghost is_infallible = { λ _. ⊤ };

    fn clone(&self) -> Result<Iter<'map, K, V, A, F>, AllocError> {
        Ok(Iter {
            keys: self.keys,
            values: self.values,
            left: self.left,
            reads: self.reads.clone()?,
        })
    }
}

impl<'map, K: fmt::Debug, V: fmt::Debug, A: Allocator, F: LinkForm<ValueLink>> fmt::Debug
    for Iter<'map, K, V, A, F> {
    fn fmt<W: fmt::Write>(&self, f: &mut fmt::Formatter<W>) -> fmt::Result {
        show_left(f, "Iter", self)
    }
}
