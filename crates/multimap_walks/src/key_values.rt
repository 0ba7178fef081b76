//! The iterator over all keys, each with an iterator over its values.
ghost use Rattle.std.specs.Prelude.{◌≡◌, [], length, MatchOption, ⊤};
ghost use Rattle.std.specs.Iterator.{at_most};
ghost use Rattle.std.specs.List.{filter_map};
ghost use Rattle.std.specs.Map.Iter.{TakesFirst, TakesLast};
ghost use Rattle.multimap_walks.specs.Along.{AreLeft, items_left};
ghost use Rattle.multimap_walks.specs.Chained.{IsChained};
ghost use Rattle.multimap_walks.specs.KeyWalk.{deref_key, key_values_at};
ghost use Rattle.multimap_walks.specs.Walk.{TakesEnd, TellsLength};

use crate::End;
use crate::chain::EntryValues;
use crate::left::{Ordered, take};
use crate::links::{ChainEnds, KeyLink, NO_ENDS, ValueLink};
use crate::packed::PackedLink;
use crate::show::show_left;
use crate::slots::key_values_of;
use multimap_slots::{LinkForm, Reads, SlotList, Tape};
use std::alloc::{AllocError, Allocator, Global};
use std::fmt;
use std::iter::FusedIterator;
use std::marker::Model;

/// An iterator over the keys of a map, each with an iterator over its values.
///
/// This struct is created by `ListOrderedMultimap::pairs`; see there for an example. The keys come
/// in their order. Its items are `(&key, EntryValues)`. It iterates from both ends, knows its
/// length, and can be cloned, which never fails. Each item reads the slot of its key, and of no
/// value.
#[derive(Drop)]
pub struct KeyValues<'map, K, V, A: Allocator = Global, F: LinkForm<ValueLink> = PackedLink> {
    keys: &'map SlotList<K, KeyLink, A>,
    values: &'map Tape<V, ValueLink, A, F>,
    left: ChainEnds,
    reads: Reads,
}

impl<'map, K, V, A: Allocator, F: LinkForm<ValueLink>> Model for KeyValues<'map, K, V, A, F> {
    ghost use Rattle.std.specs.Prelude.{List};
    ghost use Rattle.multimap_walks.specs.Along.{items_left};
    ghost use Rattle.multimap_walks.specs.ChainWalk.{ChainWalk};
    ghost use Rattle.multimap_walks.specs.KeyWalk.{IsKeyWalk, key_values_at};

    ghost Value = { List (K × ChainWalk V) };

    ghost view = { λ w. items_left w.keys.now.order
        (key_values_at w.keys.now w.values.now.list) w.left };

    ghost invariant = { λ w. IsKeyWalk w.keys.now w.values.now.list w.left };
}

impl<'map, K, V, A: Allocator, F: LinkForm<ValueLink>> KeyValues<'map, K, V, A, F> {
    /// Creates an iterator over all keys of a slot list of keys, with their values on a tape.
    ///
    /// It reads no slot.
    ///
    /// # Complexity
    ///
    /// *O*(1).
    ///
    /// # Requires
    ///
    /// The links of keys and values are chained.
    pub fn new(keys: &'map SlotList<K, KeyLink, A>, values: &'map Tape<V, ValueLink, A, F>) -> Self
        requires { IsChained keys.now values.now.list }
        ensures keys { result
            ≡ filter_map (key_values_at keys.now values.now.list) keys.now.order }
    {
        KeyValues::along(keys, values, keys.all())
    }

    /// Creates an iterator over the keys from one place to another, or an empty one for `None`.
    ///
    /// The number of keys comes with the two places.
    ///
    /// # Complexity
    ///
    /// *O*(1).
    ///
    /// # Requires
    ///
    /// The links of keys and values are chained, and the places are places of the list of keys.
    pub fn new_between(
        keys: &'map SlotList<K, KeyLink, A>,
        values: &'map Tape<V, ValueLink, A, F>,
        ends: Option<ChainEnds>,
    ) -> Self
        requires chained { IsChained keys.now values.now.list }
        requires between { MatchOption ends ⊤ (AreLeft keys.now.order) }
        ensures keys { MatchOption ends (result ≡ [])
            (λ e. result
            ≡ items_left keys.now.order (key_values_at keys.now values.now.list) e) }
    {
        KeyValues::along(keys, values, ends.unwrap_or(NO_ENDS))
    }

    fn along(
        keys: &'map SlotList<K, KeyLink, A>,
        values: &'map Tape<V, ValueLink, A, F>,
        left: ChainEnds,
    ) -> Self
        requires chained { IsChained keys.now values.now.list }
        requires left { AreLeft keys.now.order left }
        ensures { result ≡ items_left keys.now.order (key_values_at keys.now values.now.list) left }
    {
        // The length tells the proof that the list of keys is sound.
        let _keys = keys.len();
        KeyValues {
            keys,
            values,
            left,
            reads: Reads::new(),
        }
    }

    /// Takes the item at an end of what is left.
    #[inline(always)]
    fn step(&mut self, end: End) -> Option<(&'map K, EntryValues<'map, K, V, A, F>)>
        ensures { TakesEnd end deref_key self.old result self.new }
    {
        let place = take(end, self.keys, &mut self.left)?;
        Some(key_values_of(self.keys, self.values, place, &mut self.reads))
    }
}

impl<'map, K, V, A: Allocator, F: LinkForm<ValueLink>> Iterator for KeyValues<'map, K, V, A, F> {
    type Item = (&'map K, EntryValues<'map, K, V, A, F>);

    ghost next_gives = { TakesFirst deref_key };

    ghost remaining = { λ s. at_most (length s) };

    fn next(&mut self) -> Option<(&'map K, EntryValues<'map, K, V, A, F>)> {
        self.step(End::Front)
    }

    #[tactic(auto, using(crate::proofs::Callers::Along::length_along))]
    fn size_hint(&self) -> (usize, Option<usize>)
        ensures { TellsLength result self.now }
    {
        (self.left.length, Some(self.left.length))
    }
}

impl<'map, K, V, A: Allocator, F: LinkForm<ValueLink>> DoubleEndedIterator
    for KeyValues<'map, K, V, A, F> {
    ghost next_back_gives = { TakesLast deref_key };

    fn next_back(&mut self) -> Option<(&'map K, EntryValues<'map, K, V, A, F>)> {
        self.step(End::Back)
    }
}

impl<'map, K, V, A: Allocator, F: LinkForm<ValueLink>> ExactSizeIterator
    for KeyValues<'map, K, V, A, F> {
    #[tactic(auto, using(crate::proofs::Callers::Along::length_along))]
    fn len(&self) -> usize {
        self.left.length
    }
}

impl<'map, K, V, A: Allocator, F: LinkForm<ValueLink>> FusedIterator
    for KeyValues<'map, K, V, A, F> {}

impl<'map, K, V, A: Allocator, F: LinkForm<ValueLink>> Clone for KeyValues<'map, K, V, A, F> {
    ghost is_clone = { λ s r. r ≡ s };

    ghost is_infallible = { λ _. ⊤ };

    fn clone(&self) -> Result<KeyValues<'map, K, V, A, F>, AllocError> {
        Ok(KeyValues {
            keys: self.keys,
            values: self.values,
            left: self.left,
            reads: self.reads.clone()?,
        })
    }
}

impl<'map, K: fmt::Debug, V: fmt::Debug, A: Allocator, F: LinkForm<ValueLink>> fmt::Debug
    for KeyValues<'map, K, V, A, F> {
    fn fmt<W: fmt::Write>(&self, f: &mut fmt::Formatter<W>) -> fmt::Result {
        show_left(f, "KeyValues", self)
    }
}
