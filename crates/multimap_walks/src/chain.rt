//! The iterator over one key's values.
ghost use Rattle.std.specs.Prelude.{◌≡◌, [], length, MatchOption, ⊤};
ghost use Rattle.std.specs.Iterator.{at_most};
ghost use Rattle.multimap_slots.specs.Slots.{HasLink};
ghost use Rattle.multimap_walks.specs.Chained.{IsChain, IsChained, IsDetachedChain, chain_of, places_along, positions_at, values_at};
ghost use Rattle.multimap_walks.specs.ChainWalk.{GivesEnd, GivesFirst, GivesLast, chain_walk, detached_walk};
ghost use Rattle.multimap_walks.specs.Walk.{TellsLength};

use crate::End;
use crate::links::{ChainEnds, KeyLink, NO_ENDS, ValueLink};
use crate::packed::PackedLink;
use crate::show::show_left;
use crate::slots::chained_at;
use multimap_slots::{LinkForm, Reads, SlotList, Tape};
use std::alloc::{AllocError, Allocator, Global};
use std::fmt;
use std::iter::FusedIterator;
use std::marker::{Model, PhantomData};

/// An iterator over the values of one key, in the order of the pairs.
///
/// This struct is created by `ListOrderedMultimap::get_all`; see there for an example. It is also
/// created by `OccupiedEntry::iter` and by each step of [`KeyValues`](crate::KeyValues). Its items
/// are `&value`. It iterates from both ends, knows its length, and can be cloned, which never
/// fails. Each item reads one value slot, so other keys' values cost nothing.
#[derive(Drop)]
pub struct EntryValues<'map, K, V, A: Allocator = Global, F: LinkForm<ValueLink> = PackedLink> {
    keys: PhantomData<&'map K>,
    values: &'map Tape<V, ValueLink, A, F>,
    left: ChainEnds,
    detached: bool,
    reads: Reads,
}

impl<'map, K, V, A: Allocator, F: LinkForm<ValueLink>> Model for EntryValues<'map, K, V, A, F> {
    ghost use Rattle.multimap_walks.specs.Chained.{IsChain};
    ghost use Rattle.multimap_walks.specs.ChainWalk.{ChainWalk, chain_walk};

    ghost Value = { ChainWalk V };

    ghost view = { λ w. chain_walk w.values.now.list w.detached w.left.first w.left.length w.reads };

    ghost invariant = { λ w.
        IsChain w.values.now.list w.detached w.left.first w.left.last w.left.length };
}

impl<'map, K, V, A: Allocator, F: LinkForm<ValueLink>> EntryValues<'map, K, V, A, F> {
    /// Creates an iterator over the values of a key, or an empty one for `None`.
    ///
    /// The key is given by its place and its link in `keys`.
    ///
    /// # Complexity
    ///
    /// *O*(1).
    ///
    /// # Requires
    ///
    /// The links of keys and values are chained, and the key is listed in `keys` with this link.
    pub fn new(
        keys: &'map SlotList<K, KeyLink, A>,
        values: &'map Tape<V, ValueLink, A, F>,
        key: Option<(usize, KeyLink)>,
    ) -> Self
        requires chained { IsChained keys.now values.now.list }
        requires listed { MatchOption key ⊤ (λ k. HasLink keys.now k.0 k.1) }
        ensures values { MatchOption key (result.left ≡ [])
            (λ k. result.left ≡ values_at values.now.list (chain_of values.now.list k.0)) }
        ensures positions { MatchOption key (result.positions ≡ [])
            (λ k. result.positions ≡ positions_at values.now.list (chain_of values.now.list k.0)) }
        ensures reads { result.reads ≡ 0 }
    {
        // The length tells the proof that the list is sound.
        let _values = values.len();
        let Some((_, link)) = key else {
            return EntryValues::along(values, NO_ENDS, false);
        };
        EntryValues::along(values, link.ends(), false)
    }

    /// Creates an iterator over detached values, or an empty one for `None`.
    ///
    /// They are given by the places of the first and the last and by their number. Its steps count
    /// no read.
    ///
    /// # Complexity
    ///
    /// *O*(1).
    ///
    /// # Requires
    ///
    /// The values at these places are detached, and follow each other by their links.
    pub fn new_detached(values: &'map Tape<V, ValueLink, A, F>, ends: Option<ChainEnds>) -> Self
        requires { MatchOption ends ⊤
            (λ e. IsDetachedChain values.now.list e.first e.last e.length) }
        ensures { MatchOption ends (result ≡ detached_walk []) (λ e. result ≡ detached_walk
            (values_at values.now.list (places_along values.now.list e.first e.length))) }
    {
        EntryValues::along(values, ends.unwrap_or(NO_ENDS), true)
    }

    fn along(values: &'map Tape<V, ValueLink, A, F>, ends: ChainEnds, detached: bool) -> Self
        requires { IsChain values.now.list detached ends.first ends.last ends.length }
        ensures { result ≡ chain_walk values.now.list detached ends.first ends.length 0 }
    {
        EntryValues {
            keys: PhantomData,
            values,
            left: ends,
            detached,
            reads: Reads::new(),
        }
    }

    /// Takes the value at an end of what is left, and follows its link.
    #[inline(always)]
    fn step(&mut self, end: End) -> Option<&'map V>
        ensures { GivesEnd end self.old result self.new }
    {
        if self.left.length == 0 {
            return None;
        }
        let place = self.left.place_at(end);
        let (value, link) = chained_at(self.values, place, self.detached, &mut self.reads);
        // At the last value this is 0, and isn't used.
        self.left = self.left.after(end, link.step_from(end).unwrap_or(0));
        Some(value)
    }
}

impl<'map, K, V, A: Allocator, F: LinkForm<ValueLink>> Iterator for EntryValues<'map, K, V, A, F> {
    type Item = &'map V;

    ghost next_gives = { GivesFirst };

    ghost remaining = { λ s. at_most (length s.left) };

    fn next(&mut self) -> Option<&'map V> {
        self.step(End::Front)
    }

    fn size_hint(&self) -> (usize, Option<usize>)
        ensures { TellsLength result self.now.left }
    {
        (self.left.length, Some(self.left.length))
    }
}

impl<'map, K, V, A: Allocator, F: LinkForm<ValueLink>> DoubleEndedIterator
    for EntryValues<'map, K, V, A, F> {
    ghost next_back_gives = { GivesLast };

    fn next_back(&mut self) -> Option<&'map V> {
        self.step(End::Back)
    }
}

impl<'map, K, V, A: Allocator, F: LinkForm<ValueLink>> ExactSizeIterator
    for EntryValues<'map, K, V, A, F> {
    fn len(&self) -> usize {
        self.left.length
    }
}

impl<'map, K, V, A: Allocator, F: LinkForm<ValueLink>> FusedIterator
    for EntryValues<'map, K, V, A, F> {}

impl<'map, K, V, A: Allocator, F: LinkForm<ValueLink>> Clone for EntryValues<'map, K, V, A, F> {
    ghost is_clone = { λ s r. r ≡ s };

    ghost is_infallible = { λ _. ⊤ };

    fn clone(&self) -> Result<EntryValues<'map, K, V, A, F>, AllocError> {
        Ok(EntryValues {
            keys: PhantomData,
            values: self.values,
            left: self.left,
            detached: self.detached,
            reads: self.reads.clone()?,
        })
    }
}

impl<'map, K, V: fmt::Debug, A: Allocator, F: LinkForm<ValueLink>> fmt::Debug
    for EntryValues<'map, K, V, A, F> {
    fn fmt<W: fmt::Write>(&self, f: &mut fmt::Formatter<W>) -> fmt::Result {
        show_left(f, "EntryValues", self)
    }
}
