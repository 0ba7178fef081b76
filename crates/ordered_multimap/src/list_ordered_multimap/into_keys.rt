//! The iterator that owns the keys of a map.
ghost use Rattle.std.specs.Prelude.{◌≡◌, length};
ghost use Rattle.std.specs.Iterator.{at_most};
ghost use Rattle.std.specs.Map.Iter.{TakesFirst, TakesLast};
ghost use Rattle.multimap_walks.specs.Walk.{TakesEnd, TellsLength};
ghost use Rattle.ordered_multimap.specs.Private.RemoveOne.{end_of_list};

use super::ListOrderedMultimap;
use super::show::show_left;
use multimap_slots::SlotList;
use multimap_walks::{End, KeyLink, Keys};
use std::alloc::{Allocator, Global};
use std::fmt;
use std::hash::{BuildHasher, Hash};
use std::iter::FusedIterator;
use std::marker::Model;

/// An owning iterator over the keys of a map, in their order.
///
/// This struct is created by [`ListOrderedMultimap::into_keys`]; see there for an example. Each key
/// is yielded once. It iterates from both ends, and knows its length. Keys that weren't taken are
/// dropped with the iterator.
#[derive(Drop)]
pub struct IntoKeys<K, A: Allocator = Global> {
    keys: SlotList<K, KeyLink, A>,
}

impl<K, A: Allocator> Model for IntoKeys<K, A> {
    ghost use Rattle.std.specs.Prelude.{List};
    ghost use Rattle.ordered_multimap.specs.Agrees.{items_of};

    ghost Value = { List K };

    ghost view = { λ w. items_of w.keys };
}

impl<K: Eq + Hash, V: Drop, S: BuildHasher + Drop, A: Allocator> ListOrderedMultimap<K, V, S, A> {
    /// Consumes the map, and returns an iterator over its keys, in their order.
    ///
    /// Each key is yielded once, however many values it has, and no key is cloned. The values are
    /// dropped at the call. For the keys by reference see [`keys`](Self::keys).
    ///
    /// # Complexity
    ///
    /// *O*(value slots in use), to drop the values, and *O*(1) for each key.
    ///
    /// # Examples
    ///
    /// ```
    /// use ordered_multimap::ListOrderedMultimap;
    ///
    /// let mut map = ListOrderedMultimap::new(rt.alloc());
    /// map.append("line", 1)?;
    /// map.append("page", 8)?;
    /// map.append("line", 2)?;
    /// let mut keys = map.into_keys();
    /// assert_eq!(rt; keys.len(), 2);
    /// assert_eq!(rt; keys.next(), Some("line"));
    /// assert_eq!(rt; keys.next_back(), Some("page"));
    /// assert_eq!(rt; keys.next(), None);
    /// ```
    pub fn into_keys(self) -> IntoKeys<K, A>
        ensures { result ≡ self.lists.keys }
    {
        let ListOrderedMultimap {
            state: _state,
            keys,
            table: _table,
            values: _values,
            left: _left,
        } = self;
        IntoKeys { keys }
    }
}

/// The place of the key at an end.
fn place_at_end<K, A: Allocator>(keys: &SlotList<K, KeyLink, A>, end: End) -> Option<usize>
    ensures { result ≡ end_of_list end keys.now.order }
{
    match end {
        End::Front => keys.front_place(),
        End::Back => keys.back_place(),
    }
}

impl<K, A: Allocator> IntoKeys<K, A> {
    /// The keys that are left, by reference.
    fn left(&self) -> Keys<'_, K, A>
        ensures { result ≡ self.now }
    {
        Keys::new(&self.keys)
    }

    /// Takes the key at an end out.
    #[inline(always)]
    fn take_out(&mut self, end: End) -> Option<K>
        ensures { TakesEnd end (λ key. key) self.old result self.new }
    {
        // The length tells the proof that the list is sound.
        let _keys = self.keys.len();
        let Some(place) = place_at_end(&self.keys, end) else {
            return None;
        };
        let (key, _) = self.keys.take_listed(place);
        Some(key)
    }
}

impl<K: Drop, A: Allocator> Iterator for IntoKeys<K, A> {
    type Item = K;

    ghost next_gives = { TakesFirst (λ key. key) };

    ghost remaining = { λ s. at_most (length s) };

    fn next(&mut self) -> Option<K> {
        self.take_out(End::Front)
    }

    fn size_hint(&self) -> (usize, Option<usize>)
        ensures { TellsLength result self.now }
    {
        self.left().size_hint()
    }
}

impl<K: Drop, A: Allocator> DoubleEndedIterator for IntoKeys<K, A> {
    ghost next_back_gives = { TakesLast (λ key. key) };

    fn next_back(&mut self) -> Option<K> {
        self.take_out(End::Back)
    }
}

impl<K: Drop, A: Allocator> ExactSizeIterator for IntoKeys<K, A> {
    fn len(&self) -> usize {
        self.left().len()
    }
}

impl<K: Drop, A: Allocator> FusedIterator for IntoKeys<K, A> {}

impl<K: fmt::Debug, A: Allocator> fmt::Debug for IntoKeys<K, A> {
    fn fmt<W: fmt::Write>(&self, f: &mut fmt::Formatter<W>) -> fmt::Result {
        show_left(f, "IntoKeys", self.left())
    }
}
