//! Reads of slots.
ghost use Rattle.std.specs.Prelude.{◌≡◌, ◌+◌, Some, if◌then◌else◌};
ghost use Rattle.multimap_slots.specs.Lists.{IsIn};
ghost use Rattle.multimap_slots.specs.Slots.{HasSlot, item_at, link_at};
ghost use Rattle.multimap_walks.specs.Chained.{AreOwned, IsChained, Stands, pair_at};
ghost use Rattle.multimap_walks.specs.KeyWalk.{key_values_at};

use crate::chain::EntryValues;
use crate::links::{KeyLink, ValueLink};
use multimap_slots::{LinkForm, Reads, SlotList, Tape};
use std::alloc::Allocator;

/// The value at a listed place, with its link.
pub(crate) fn value_at<'map, V, A: Allocator, F: LinkForm<ValueLink>>(
    values: &'map Tape<V, ValueLink, A, F>,
    place: usize,
    reads: &mut Reads,
) -> (&'map V, ValueLink)
    requires { IsIn place values.now.list.order }
    ensures slot { HasSlot values.now.list place result.0.now result.1 }
    ensures counted { reads.new ≡ reads.old + 1 }
{
    values.get_listed(place, reads)
}

/// The value at a place of a chain, with its link. One of the list is a read, and a detached one is
/// none.
pub(crate) fn chained_at<'map, V, A: Allocator, F: LinkForm<ValueLink>>(
    values: &'map Tape<V, ValueLink, A, F>,
    place: usize,
    detached: bool,
    reads: &mut Reads,
) -> (&'map V, ValueLink)
    requires { Stands values.now.list detached place }
    ensures item { item_at values.now.list place ≡ Some result.0.now }
    ensures link { link_at values.now.list place ≡ Some result.1 }
    ensures counted { reads.new ≡ reads.old + (if detached then 0 else 1) }
{
    if detached {
        values.get_detached(place)
    } else {
        value_at(values, place, reads)
    }
}

/// The key at a listed place.
pub(crate) fn key_at<'map, K, A: Allocator>(
    keys: &'map SlotList<K, KeyLink, A>,
    place: usize,
    reads: &mut Reads,
) -> &'map K
    requires { IsIn place keys.now.order }
    ensures item { item_at keys.now place ≡ Some result.now }
{
    let (key, _) = keys.get_listed(place, reads);
    key
}

/// The key and the value at a listed place.
pub(crate) fn pair_of<'map, K, V, A: Allocator, F: LinkForm<ValueLink>>(
    keys: &'map SlotList<K, KeyLink, A>,
    values: &'map Tape<V, ValueLink, A, F>,
    place: usize,
    reads: &mut Reads,
) -> (&'map K, &'map V)
    requires owned { AreOwned keys.now values.now.list }
    requires listed { IsIn place values.now.list.order }
    ensures pair { pair_at keys.now values.now.list place ≡ Some (result.0.now, result.1.now) }
{
    let (value, link) = value_at(values, place, reads);
    (key_at(keys, link.key, reads), value)
}

/// The key at a listed place, with a walk over its values.
pub(crate) fn key_values_of<'map, K, V, A: Allocator, F: LinkForm<ValueLink>>(
    keys: &'map SlotList<K, KeyLink, A>,
    values: &'map Tape<V, ValueLink, A, F>,
    place: usize,
    reads: &mut Reads,
) -> (&'map K, EntryValues<'map, K, V, A, F>)
    requires chained { IsChained keys.now values.now.list }
    requires listed { IsIn place keys.now.order }
    ensures { key_values_at keys.now values.now.list place ≡ Some (result.0.now, result.1) }
{
    let (key, link) = keys.get_listed(place, reads);
    (key, EntryValues::new(keys, values, Some((place, link))))
}

/// Lets a counter go. A `drop` that is proved by hand calls it: one call is less to prove there than
/// the counter's own parts.
pub(crate) fn end_reads(_reads: Reads) {}
