//! The iterator over the values that an `EntryValuesMut` has left, for reading.
ghost use Rattle.std.specs.Prelude.{◌≡◌, length, ⊤};
ghost use Rattle.std.specs.Iterator.{at_most};
ghost use Rattle.std.specs.Map.Iter.{TakesFirst, TakesLast, deref};
ghost use Rattle.multimap_walks.specs.RestWalk.{entry_rest, CanReadChain};
ghost use Rattle.multimap_walks.specs.Walk.{TakesEnd, TellsLength};

use crate::End;
use crate::links::{ChainEnds, ValueLink};
use crate::packed::PackedLink;
use crate::show::show_left;
use crate::writing::chain::pass_end_of_chain;
use multimap_slots::{LinkForm, SlotCells};
use std::alloc::{AllocError, Allocator, Global};
use std::fmt;
use std::iter::FusedIterator;
use std::marker::{Model, PhantomData};

/// An iterator over the values that an `EntryValuesMut` has left, in the order of the pairs.
///
/// This struct is created by [`EntryValuesMut::iter`](crate::EntryValuesMut::iter); see there for
/// an example. Its items are `&value`. It iterates from both ends, knows its length, and can be
/// cloned, which never fails. Each item reads one value slot.
#[derive(Drop)]
pub struct EntryValuesRest<
    'walk,
    'map,
    K,
    V,
    A: Allocator = Global,
    F: LinkForm<ValueLink> = PackedLink,
> {
    keys: PhantomData<&'map K>,
    values: &'walk SlotCells<'map, V, ValueLink, A, F>,
    left: ChainEnds,
}

impl<'walk, 'map, K, V, A: Allocator, F: LinkForm<ValueLink>> Model
    for EntryValuesRest<'walk, 'map, K, V, A, F> {
    ghost use Rattle.std.specs.Prelude.{List};
    ghost use Rattle.multimap_walks.specs.RestWalk.{entry_rest, CanReadChain};

    ghost Value = { List V };

    ghost view = { λ w. entry_rest w.values.now w.left };

    ghost invariant = { λ w. CanReadChain w.values.now w.left };
}

impl<'walk, 'map, K, V, A: Allocator, F: LinkForm<ValueLink>> EntryValuesRest<
    'walk,
    'map,
    K,
    V,
    A,
    F,
> {
    /// Creates an iterator over values of a key that follow each other by their links.
    ///
    /// It reads no slot.
    ///
    /// # Complexity
    ///
    /// *O*(1).
    ///
    /// # Requires
    ///
    /// None of these values was taken.
    pub fn new(values: &'walk SlotCells<'map, V, ValueLink, A, F>, left: ChainEnds) -> Self
        requires { CanReadChain values.now left }
        ensures values { result ≡ entry_rest values.now left }
    {
        EntryValuesRest {
            keys: PhantomData,
            values,
            left,
        }
    }

    /// Takes the item at an end of what is left.
    #[inline(always)]
    fn step(&mut self, end: End) -> Option<&'walk V>
        ensures { TakesEnd end deref self.old result self.new }
    {
        let place = pass_end_of_chain(end, self.values, &mut self.left)?;
        Some(self.values.read(place))
    }
}

impl<'walk, 'map, K, V, A: Allocator, F: LinkForm<ValueLink>> Iterator
    for EntryValuesRest<'walk, 'map, K, V, A, F> {
    type Item = &'walk V;

    ghost next_gives = { TakesFirst deref };

    ghost remaining = { λ s. at_most (length s) };

    fn next(&mut self) -> Option<&'walk V> {
        self.step(End::Front)
    }

    #[tactic(auto, using(crate::proofs::CountLemmas::entry_rest_counted))]
    fn size_hint(&self) -> (usize, Option<usize>)
        ensures { TellsLength result self.now }
    {
        (self.left.length, Some(self.left.length))
    }
}

impl<'walk, 'map, K, V, A: Allocator, F: LinkForm<ValueLink>> DoubleEndedIterator
    for EntryValuesRest<'walk, 'map, K, V, A, F> {
    ghost next_back_gives = { TakesLast deref };

    fn next_back(&mut self) -> Option<&'walk V> {
        self.step(End::Back)
    }
}

impl<'walk, 'map, K, V, A: Allocator, F: LinkForm<ValueLink>> ExactSizeIterator
    for EntryValuesRest<'walk, 'map, K, V, A, F> {
    #[tactic(auto, using(crate::proofs::CountLemmas::entry_rest_counted))]
    fn len(&self) -> usize {
        self.left.length
    }
}

impl<'walk, 'map, K, V, A: Allocator, F: LinkForm<ValueLink>> FusedIterator
    for EntryValuesRest<'walk, 'map, K, V, A, F> {}

impl<'walk, 'map, K, V, A: Allocator, F: LinkForm<ValueLink>> Clone
    for EntryValuesRest<'walk, 'map, K, V, A, F> {
    ghost is_clone = { λ s r. r ≡ s };

    ghost is_infallible = { λ _. ⊤ };

    fn clone(&self) -> Result<EntryValuesRest<'walk, 'map, K, V, A, F>, AllocError> {
        Ok(EntryValuesRest::new(self.values, self.left))
    }
}

impl<'walk, 'map, K, V: fmt::Debug, A: Allocator, F: LinkForm<ValueLink>> fmt::Debug
    for EntryValuesRest<'walk, 'map, K, V, A, F> {
    fn fmt<W: fmt::Write>(&self, f: &mut fmt::Formatter<W>) -> fmt::Result {
        show_left(f, "EntryValuesRest", self)
    }
}
