//! The iterator over all keys.
ghost use Rattle.std.specs.Prelude.{◌≡◌, length, ⊤};
ghost use Rattle.std.specs.Iterator.{at_most};
ghost use Rattle.std.specs.List.{filter_map};
ghost use Rattle.std.specs.Map.Iter.{TakesFirst, TakesLast, deref};
ghost use Rattle.multimap_slots.specs.Slots.{item_at};
ghost use Rattle.multimap_walks.specs.Walk.{TakesEnd, TellsLength};

use crate::End;
use crate::left::{Ordered, take};
use crate::links::{ChainEnds, KeyLink};
use crate::show::show_left;
use crate::slots::key_at;
use multimap_slots::{Reads, SlotList};
use std::alloc::{AllocError, Allocator, Global};
use std::fmt;
use std::iter::FusedIterator;
use std::marker::Model;

/// An iterator over the keys of a map, in their order.
///
/// This struct is created by `ListOrderedMultimap::keys`; see there for an example. Its items are
/// `&key`, each key once. It iterates from both ends, knows its length, and can be cloned, which
/// never fails. Each item reads the slot of its key.
#[derive(Drop)]
pub struct Keys<'map, K, A: Allocator = Global> {
    keys: &'map SlotList<K, KeyLink, A>,
    left: ChainEnds,
    reads: Reads,
}

impl<'map, K, A: Allocator> Model for Keys<'map, K, A> {
    ghost use Rattle.std.specs.Prelude.{List};
    ghost use Rattle.multimap_slots.specs.Slots.{item_at};
    ghost use Rattle.multimap_walks.specs.Along.{items_left, IsAlong};

    ghost Value = { List K };

    ghost view = { λ w. items_left w.keys.now.order (item_at w.keys.now) w.left };

    ghost invariant = { λ w. IsAlong w.keys.now.order (item_at w.keys.now) w.left };
}

impl<'map, K, A: Allocator> Keys<'map, K, A> {
    /// Creates an iterator over all items of a slot list.
    ///
    /// # Complexity
    ///
    /// *O*(1).
    pub fn new(keys: &'map SlotList<K, KeyLink, A>) -> Self
        ensures keys { result ≡ filter_map (item_at keys.now) keys.now.order }
    {
        Keys {
            keys,
            left: keys.all(),
            reads: Reads::new(),
        }
    }

    /// Takes the item at an end of what is left.
    #[inline(always)]
    fn step(&mut self, end: End) -> Option<&'map K>
        ensures { TakesEnd end deref self.old result self.new }
    {
        let place = take(end, self.keys, &mut self.left)?;
        Some(key_at(self.keys, place, &mut self.reads))
    }
}

impl<'map, K, A: Allocator> Iterator for Keys<'map, K, A> {
    type Item = &'map K;

    ghost next_gives = { TakesFirst deref };

    ghost remaining = { λ s. at_most (length s) };

    fn next(&mut self) -> Option<&'map K> {
        self.step(End::Front)
    }

    #[tactic(auto, using(crate::proofs::Callers::Along::length_along))]
    fn size_hint(&self) -> (usize, Option<usize>)
        ensures { TellsLength result self.now }
    {
        (self.left.length, Some(self.left.length))
    }
}

impl<'map, K, A: Allocator> DoubleEndedIterator for Keys<'map, K, A> {
    ghost next_back_gives = { TakesLast deref };

    fn next_back(&mut self) -> Option<&'map K> {
        self.step(End::Back)
    }
}

impl<'map, K, A: Allocator> ExactSizeIterator for Keys<'map, K, A> {
    #[tactic(auto, using(crate::proofs::Callers::Along::length_along))]
    fn len(&self) -> usize {
        self.left.length
    }
}

impl<'map, K, A: Allocator> FusedIterator for Keys<'map, K, A> {}

impl<'map, K, A: Allocator> Clone for Keys<'map, K, A> {
    ghost is_clone = { λ s r. r ≡ s };

    ghost is_infallible = { λ _. ⊤ };

    fn clone(&self) -> Result<Keys<'map, K, A>, AllocError> {
        Ok(Keys {
            keys: self.keys,
            left: self.left,
            reads: self.reads.clone()?,
        })
    }
}

impl<'map, K: fmt::Debug, A: Allocator> fmt::Debug for Keys<'map, K, A> {
    fn fmt<W: fmt::Write>(&self, f: &mut fmt::Formatter<W>) -> fmt::Result {
        show_left(f, "Keys", self)
    }
}
