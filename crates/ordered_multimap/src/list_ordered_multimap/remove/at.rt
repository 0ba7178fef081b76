//! A value that leaves by its index among the values of its key, where the key has others.
ghost use Rattle.std.specs.Prelude.{◌≡◌, ◌<◌, Some, cond, is_some, slice_get};
ghost use Rattle.multimap_slots.specs.Lists.{IsIn};
ghost use Rattle.multimap_slots.specs.Slots.{link_at};
ghost use Rattle.multimap_walks.specs.Chained.{chain_of};
ghost use Rattle.ordered_multimap.specs.Agrees.{HasKey};
ghost use Rattle.ordered_multimap.specs.Private.KeySteps.{StaysInRoom};
ghost use Rattle.ordered_multimap.specs.RemovedAt.{removed_at, removable_value_at};
ghost use Rattle.ordered_multimap.specs.Private.Remove.{HasChain};
ghost use Rattle.ordered_multimap.specs.Private.RemoveAt.{TakesAt};
ghost use Rattle.ordered_multimap.specs.TapeNumbers.{ArePaid, TakesOut, numbers_of};

use crate::list_ordered_multimap::ListOrderedMultimap;
use crate::list_ordered_multimap::links::link_of;
use crate::list_ordered_multimap::remove::one::take_one;
use multimap_slots::{SlotList, Tape};
use multimap_walks::{KeyLink, PackedLink, ValueLink};
use std::alloc::Allocator;
use std::hash::{BuildHasher, Hash};

/// The place of the value at an index in the chain of the key at the place, along the links from
/// the nearer end.
pub(crate) fn place_at<K, V, A: Allocator>(
    keys: &SlotList<K, KeyLink, A>,
    values: &Tape<V, ValueLink, A, PackedLink>,
    place: usize,
    index: usize,
) -> usize
    requires chain { HasChain keys.now values.now.list place }
    requires among { (l : KeyLink) → link_at keys.now place ≡ Some l → index < l.length }
    ensures { slice_get (chain_of values.now.list place) index ≡ Some result }
{
    let link = keys.listed_link(place);
    let behind = link.length - index - 1;
    if index <= behind {
        let mut found = link.head;
        for _ in 0..index {
            found = link_of(values, found).next.unwrap_or(found);
        }
        return found;
    }
    let mut found = link.tail;
    for _ in 0..behind {
        found = link_of(values, found).previous.unwrap_or(found);
    }
    found
}

/// Takes out the value at an index in the chain of the key at the place, if the key has others.
fn take_at<K, V, A: Allocator>(
    keys: &mut SlotList<K, KeyLink, A>,
    values: &mut Tape<V, ValueLink, A, PackedLink>,
    place: usize,
    index: usize,
) -> Option<V>
    requires chain { HasChain keys.old values.old.list place }
    ensures taken { TakesAt keys.old keys.new values.old.list values.new.list place index result }
    ensures counts { TakesOut (cond (is_some result) 1 0)
        (numbers_of values.old) (numbers_of values.new) }
{
    let link = keys.listed_link(place);
    if link.length < 2 || link.length <= index {
        return None;
    }
    let found = place_at(keys, values, place, index);
    Some(take_one(keys, values, found, link))
}

impl<K: Eq + Hash, V, S: BuildHasher, A: Allocator> ListOrderedMultimap<K, V, S, A> {
    /// Takes out the value at an index among the values of the key at the place, if the key has
    /// others.
    pub(crate) fn take_value_at(&mut self, place: usize, index: usize) -> Option<V>
        requires { IsIn place self.old.slots.keys.order }
        ensures stays { StaysInRoom K.eq self.old self.new place }
        ensures value { (k : K) → HasKey K.eq self.old.slots.keys k place
            → result ≡ removable_value_at K.eq self.old.lists.pairs k index }
        ensures lists { (k : K) → HasKey K.eq self.old.slots.keys k place
            → self.new.lists ≡ removed_at K.eq self.old.lists k index }
        ensures taken { TakesOut (cond (is_some result) 1 0) self.old.tape self.new.tape }
        ensures paid { ArePaid self.new.tape }
    {
        take_at(&mut self.keys, &mut self.values, place, index)
    }
}
