//! Steps of a removal: how values leave the list, and the key with its last one.
ghost use Rattle.std.specs.Prelude.{◌≡◌, ◌<◌, ℕ, List, Some, IfSome, IfNone, false};
ghost use Rattle.std.specs.FinMap.{get};
ghost use Rattle.std.specs.List.{list_any};
ghost use Rattle.multimap_slots.specs.Lists.{IsIn};
ghost use Rattle.multimap_slots.specs.Slots.{Removes, item_at, link_at};
ghost use Rattle.ordered_multimap.specs.Agrees.{HasKeyWhere, IsFoundBy, SaysWhetherAccepted, items_of};
ghost use Rattle.ordered_multimap.specs.Private.Remove.{AreUnlinked, HasChain, HasChainBeforeRoom, HasEntry};
ghost use Rattle.ordered_multimap.specs.Private.Remove.{IsRow, UnlinksEntry, UnlinksKey, UnlinksLater, UnlinksOlder, ReplacesChain, TakesRow};

use crate::KeyQuery;
use crate::list_ordered_multimap::append::steps::push_behind;
use crate::list_ordered_multimap::links::{set_next, set_previous};
use crate::list_ordered_multimap::lookup::is_at;
use crate::list_ordered_multimap::remove::unlink::{TakenOut, Unlink};
use multimap_slots::{SlotList, Tape};
use multimap_table::KeyTable;
use multimap_walks::{ChainEnds, KeyLink, PackedLink, ValueLink};
use std::alloc::Allocator;
use std::hash::Hash;

/// Lets the first `count` values along the links from a place on leave, and returns what the first
/// gives, and where they stood. No link is written.
#[inline(always)]
fn unlink_values<V, W: Unlink<V>, A: Allocator>(
    values: &mut Tape<V, ValueLink, A, PackedLink>,
    first: usize,
    count: usize,
) -> (W, ChainEnds)
    requires some { 0 < count }
    requires row { (row : List ℕ) × IsRow values.old.list first count row }
    ensures left { (row : List ℕ) → IsRow values.old.list first count row → (following : _)
        × AreUnlinked W.keeps row count result.1.last following values.old values.new }
    ensures given { (v : V) → item_at values.old.list first ≡ Some v → W.gives result.0 v }
    ensures ends { result.1 ≡ record { first = first; last = result.1.last; length = count } }
{
    let (given, link) = W::unlink(values, first);
    let mut last = first;
    let mut next = link.next.unwrap_or(0);
    for _ in 1..count {
        last = next;
        let (_given, link) = W::unlink(values, next);
        // At the last value this is 0, and isn't used.
        next = link.next.unwrap_or(0);
    }
    let ends = ChainEnds {
        first,
        last,
        length: count,
    };
    (given, ends)
}

/// Takes the key at the place out of list and table, where its row has this hash.
#[inline(always)]
pub(crate) fn take_key<K, A: Allocator>(
    keys: &mut SlotList<K, KeyLink, A>,
    table: &mut KeyTable<A>,
    place: usize,
    hash: u64,
) -> K
    requires listed { IsIn place keys.old.order }
    requires row { get table.old.rows place ≡ Some hash }
    ensures removed { Removes keys.old keys.new place result }
    ensures row { TakesRow table.old table.new place }
{
    table.remove(hash, place);
    let (key, _) = keys.take_listed(place);
    key
}

/// Takes out the row of the key that the query stands for, where the query's hash is `hash`, and
/// returns the key's place. The key itself stays in its list.
#[inline(always)]
pub(crate) fn take_row<K: Eq + Hash, Q: KeyQuery<K>, A: Allocator>(
    keys: &SlotList<K, KeyLink, A>,
    table: &mut KeyTable<A>,
    hash: u64,
    query: Q,
) -> Option<usize>
    requires { IsFoundBy (Q.equivalent query) keys.now table.old.rows hash }
    ensures found { IfSome result (HasKeyWhere (Q.equivalent query) keys.now) }
    ensures row { IfSome result (TakesRow table.old table.new) }
    ensures absent { IfNone result
        (list_any (Q.equivalent query) (items_of keys.now) ≡ false) }
    ensures unchanged { IfNone result (table.new ≡ table.old) }
{
    let stands_for = |place|
        requires { IsIn place keys.now.order }
        ensures { SaysWhetherAccepted (Q.equivalent query) keys.entry.now place result }
    { is_at(keys, place, query) };
    table.take(hash, stands_for)
}

/// Takes the key at the place out of its list, and unlinks all its values. No link is written,
/// since the links of a chain name only each other. The row in the table is left to the caller.
#[inline(always)]
pub(crate) fn unlink_key<K, V, W: Unlink<V>, A: Allocator>(
    keys: &mut SlotList<K, KeyLink, A>,
    values: &mut Tape<V, ValueLink, A, PackedLink>,
    place: usize,
) -> (K, W, ChainEnds)
    requires { HasChain keys.old values.old.list place }
    ensures { UnlinksKey W.keeps (W.gives result.1) keys.old keys.new values.old values.new place
        result.0 result.2 }
{
    let (key, link) = keys.take_listed(place);
    let (first, ends) = unlink_values(values, link.head, link.length);
    (key, first, ends)
}

/// Takes the key at the place out of list and table, and unlinks all its values.
#[inline(always)]
pub(crate) fn unlink_entry<K, V, W: Unlink<V>, A: Allocator>(
    keys: &mut SlotList<K, KeyLink, A>,
    table: &mut KeyTable<A>,
    values: &mut Tape<V, ValueLink, A, PackedLink>,
    place: usize,
) -> (K, W, ChainEnds)
    requires { HasEntry keys.old table.old.rows values.old.list place }
    ensures { UnlinksEntry W.keeps (W.gives result.1) keys.old keys.new table.old table.new
        values.old values.new place result.0 result.2 }
{
    let link = keys.listed_link(place);
    table.remove(link.hash, place);
    unlink_key(keys, values, place)
}

/// Lets all values of the key at the place leave but the last one.
#[inline(always)]
fn unlink_older<K, V, W: Unlink<V>, A: Allocator>(
    keys: &mut SlotList<K, KeyLink, A>,
    values: &mut Tape<V, ValueLink, A, PackedLink>,
    place: usize,
) -> (W, ChainEnds)
    requires chain { HasChain keys.old values.old.list place }
    requires more { (l : KeyLink) → link_at keys.old place ≡ Some l → 1 < l.length }
    ensures { UnlinksOlder W.keeps (W.gives result.0) keys.old keys.new values.old values.new
        place result.1 }
{
    let link = keys.listed_link_mut(place);
    let left = unlink_values(values, link.head, link.length - 1);
    set_previous(values, Some(link.tail), None);
    link.head = link.tail;
    link.length = 1;
    left
}

/// Takes all values of the key at the place out but the first one.
#[inline(always)]
pub(crate) fn drop_later<K, V: Drop, A: Allocator>(
    keys: &mut SlotList<K, KeyLink, A>,
    values: &mut Tape<V, ValueLink, A, PackedLink>,
    place: usize,
)
    requires chain { HasChain keys.old values.old.list place }
    requires more { (l : KeyLink) → link_at keys.old place ≡ Some l → 1 < l.length }
    ensures { UnlinksLater keys.old keys.new values.old values.new place }
{
    let link = keys.listed_link_mut(place);
    // The key has more than one value, so there is a second place.
    let second = values.listed_link(link.head).next.unwrap_or(0);
    let _left: (TakenOut<V>, ChainEnds) = unlink_values(values, second, link.length - 1);
    set_next(values, Some(link.head), None);
    link.tail = link.head;
    link.length = 1;
}

/// Puts the value last, behind the others of the key at the place, and lets these leave.
#[inline(always)]
pub(crate) fn replace_chain<K, V, W: Unlink<V>, A: Allocator>(
    keys: &mut SlotList<K, KeyLink, A>,
    values: &mut Tape<V, ValueLink, A, PackedLink>,
    place: usize,
    value: V,
) -> (W, ChainEnds)
    requires { HasChainBeforeRoom keys.old values.old place }
    ensures { ReplacesChain W.keeps (W.gives result.0) keys.old keys.new values.old values.new
        place value result.1 }
{
    push_behind(keys, values, place, value);
    unlink_older(keys, values, place)
}
