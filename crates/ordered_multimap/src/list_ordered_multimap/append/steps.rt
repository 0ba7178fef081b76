//! Steps of a change: each one writes one of key list, table and values, and the calls join them.
ghost use Rattle.std.specs.Prelude.{◌≡◌, ◌≤◌, ◌+◌, ℕ, Some};
ghost use Rattle.std.specs.FinMap.{len};
ghost use Rattle.multimap_slots.specs.Lists.{IsIn};
ghost use Rattle.multimap_slots.specs.Slots.{HasRoomFor};
ghost use Rattle.multimap_slots.specs.Tapes.{HasEndRoom};
ghost use Rattle.ordered_multimap.specs.Private.Append.{ComesLast, HasListedRows, KeepsTapeRoom, link_of_one};
ghost use Rattle.ordered_multimap.specs.Private.Append.{PushesBehind, PushesRow, PushesValue};
ghost use Rattle.ordered_multimap.specs.Private.Remove.{HasChainBeforeRoom};

use crate::list_ordered_multimap::links::set_next;
use multimap_slots::{SlotList, Tape};
use multimap_table::KeyTable;
use multimap_walks::{KeyLink, PackedLink, ValueLink};
use std::alloc::Allocator;

/// The link of a key with one value, at the place.
pub(crate) fn new_link(hash: u64, place: usize) -> KeyLink
    ensures { result ≡ link_of_one hash place }
{
    KeyLink {
        hash,
        head: place,
        tail: place,
        length: 1,
    }
}

/// Puts the value last, behind the value at the tail in the chain of its key, and returns its
/// place.
#[inline(always)]
pub(crate) fn push_value<V, A: Allocator>(
    values: &mut Tape<V, ValueLink, A, PackedLink>,
    value: V,
    key: usize,
    tail: Option<usize>,
) -> usize
    requires room { HasEndRoom values.old }
    requires tail { (q : ℕ) → tail ≡ Some q → IsIn q values.old.list.order }
    ensures pushed { PushesValue values.old.list values.new.list result value key tail }
    ensures last { ComesLast values.old values.new result }
{
    let link = ValueLink {
        key,
        previous: tail,
        next: None,
    };
    let place = values.push_reserved(value, link);
    set_next(values, tail, Some(place));
    place
}

/// Puts the value last, behind the others of the key at the place.
#[inline(always)]
pub(crate) fn push_behind<K, V, A: Allocator>(
    keys: &mut SlotList<K, KeyLink, A>,
    values: &mut Tape<V, ValueLink, A, PackedLink>,
    place: usize,
    value: V,
)
    requires { HasChainBeforeRoom keys.old values.old place }
    ensures pushed { PushesBehind keys.old keys.new values.old.list values.new.list place value }
    ensures room { KeepsTapeRoom values.old values.new }
{
    let link = keys.listed_link_mut(place);
    link.tail = push_value(values, value, place, Some(link.tail));
    link.length += 1;
}

/// Puts the key last, with this link and a row of its hash, and returns its place.
#[inline(always)]
pub(crate) fn push_row<K, A: Allocator + Copy>(
    keys: &mut SlotList<K, KeyLink, A>,
    table: &mut KeyTable<A>,
    key: K,
    link: KeyLink,
) -> usize
    requires listed { HasListedRows keys.old table.old.rows }
    requires key_room { HasRoomFor keys.old 1 }
    requires row_room { len table.old.rows + 1 ≤ table.old.capacity }
    ensures pushed { PushesRow keys.old keys.new table.old.rows table.new.rows result key link }
    ensures rows_capacity { table.new.capacity ≡ table.old.capacity }
{
    let place = keys.push_reserved(key, link);
    table.insert(link.hash, place);
    place
}
