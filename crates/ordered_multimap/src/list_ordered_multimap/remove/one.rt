//! Steps of a removal of one pair, at any place: its value leaves the chain of its key, and the key
//! goes where that was its last value.
ghost use Rattle.std.specs.Prelude.{◌≡◌, ◌<◌, Some};
ghost use Rattle.std.specs.FinMap.{get};
ghost use Rattle.multimap_slots.specs.Slots.{link_at};
ghost use Rattle.multimap_slots.specs.Tapes.{Frees};
ghost use Rattle.ordered_multimap.specs.Private.RemoveOne.{end_left, without_value, HasKeyLink, HasPair, LeavesPair, TakesOne};

use crate::list_ordered_multimap::links::{link_of, set_link, set_next, set_previous};
use crate::list_ordered_multimap::remove::chain::take_key;
use multimap_slots::{SlotList, Tape};
use multimap_table::KeyTable;
use multimap_walks::{KeyLink, PackedLink, ValueLink};
use std::alloc::Allocator;

/// Where the key of a pair is that was taken out.
#[derive(Drop)]
pub(crate) enum TakenKey<K> {
    /// At this place of the map.
    Kept(usize),
    /// No longer in the map.
    Gone(K),
}

/// A pair that was taken out.
#[derive(Drop)]
pub(crate) struct Taken<K, V> {
    pub(crate) key: TakenKey<K>,
    pub(crate) value: V,
}

/// An end of a chain once a value has left it that had these neighbours, the first of them towards
/// this end.
fn end_without(towards: Option<usize>, away: Option<usize>, end: usize) -> usize
    ensures { result ≡ end_left towards away end }
{
    match towards {
        Some(_) => end,
        None => away.unwrap_or(end),
    }
}

/// The link of a key once the value with the link `gone` has left its chain.
fn shorter_link(link: KeyLink, gone: ValueLink) -> KeyLink
    requires { 0 < link.length }
    ensures { result ≡ without_value link gone }
{
    KeyLink {
        hash: link.hash,
        head: end_without(gone.previous, gone.next, link.head),
        tail: end_without(gone.next, gone.previous, link.tail),
        length: link.length - 1,
    }
}

/// Takes the value at the place out, where its key, with this link, has others. Its neighbours in the
/// chain then name each other.
#[inline(always)]
pub(crate) fn take_one<K, V, A: Allocator>(
    keys: &mut SlotList<K, KeyLink, A>,
    values: &mut Tape<V, ValueLink, A, PackedLink>,
    place: usize,
    key_link: KeyLink,
) -> V
    requires links { HasKeyLink keys.old values.old.list place key_link }
    requires more { 1 < key_link.length }
    ensures taken { TakesOne keys.old keys.new values.old.list values.new.list place result }
    ensures frees { Frees values.old values.new }
{
    let link = link_of(values, place);
    set_next(values, link.previous, link.next);
    set_previous(values, link.next, link.previous);
    set_link(keys, link.key, shorter_link(key_link, link));
    let (value, _) = values.take_listed(place);
    value
}

/// Takes the pair at the place out.
pub(crate) fn take_pair_at<K, V, A: Allocator>(
    keys: &mut SlotList<K, KeyLink, A>,
    table: &mut KeyTable<A>,
    values: &mut Tape<V, ValueLink, A, PackedLink>,
    place: usize,
) -> Taken<K, V>
    requires { HasPair keys.old table.old.rows values.old.list place }
    ensures { LeavesPair keys.old keys.new table.old table.new values.old values.new place result }
{
    let key_link = keys.listed_link(link_of(values, place).key);
    take_pair(keys, table, values, place, key_link)
}

/// Takes the value at the place out, and its key, which has this link, where it has no other.
///
/// Of the value's link the key's place alone is read, unless the key has others: to unpack the
/// neighbours costs more than to read the link twice.
#[inline(always)]
pub(crate) fn take_pair<K, V, A: Allocator>(
    keys: &mut SlotList<K, KeyLink, A>,
    table: &mut KeyTable<A>,
    values: &mut Tape<V, ValueLink, A, PackedLink>,
    place: usize,
    key_link: KeyLink,
) -> Taken<K, V>
    requires links { HasKeyLink keys.old values.old.list place key_link }
    requires row { (l : ValueLink) → link_at values.old.list place ≡ Some l
        → get table.old.rows l.key ≡ Some key_link.hash }
    ensures { LeavesPair keys.old keys.new table.old table.new values.old values.new place result }
{
    let key_place = link_of(values, place).key;
    if key_link.length == 1 {
        let key = take_key(keys, table, key_place, key_link.hash);
        let (value, _) = values.take_listed(place);
        return Taken {
            key: TakenKey::Gone(key),
            value,
        };
    }
    let value = take_one(keys, values, place, key_link);
    Taken {
        key: TakenKey::Kept(key_place),
        value,
    }
}
