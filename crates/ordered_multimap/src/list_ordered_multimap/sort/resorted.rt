//! Values that come to another tape in a new order, and the links that join them with their keys.
ghost use Rattle.std.specs.Prelude.{◌≡◌, ◌≤◌, ℕ, Some, length, IsPermutation};
ghost use Rattle.multimap_slots.specs.Lists.{last_of};
ghost use Rattle.multimap_slots.specs.Slots.{IsEmpty};
ghost use Rattle.multimap_slots.specs.Tapes.{HasEndRoom};
ghost use Rattle.multimap_walks.specs.Chained.{chain_of};
ghost use Rattle.ordered_multimap.specs.Private.Append.{KeepsTapeRoom};
ghost use Rattle.ordered_multimap.specs.Private.PairSorts.{AreResorted, IsBegunAt, PushesNext};
ghost use Rattle.ordered_multimap.specs.Private.Relocations.{AreChained};

use crate::list_ordered_multimap::append::steps::{new_link, push_value};
use crate::list_ordered_multimap::links::set_link;
use multimap_slots::{Reads, SlotList, Tape};
use multimap_walks::{KeyLink, PackedLink, ValueLink};
use std::alloc::Allocator;

/// The place of the key's last value on this tape, if it has one there: `tail`, which its link
/// names. Where it has none yet, its link still names a place on the old tape.
fn last_value_of<V, A: Allocator>(
    values: &Tape<V, ValueLink, A, PackedLink>,
    key: usize,
    tail: usize,
) -> Option<usize>
    requires { (q : ℕ) → last_of (chain_of values.now.list key) ≡ Some q → q ≡ tail }
    ensures { result ≡ last_of (chain_of values.now.list key) }
{
    let mut reads = Reads::new();
    match values.get(tail, &mut reads) {
        Some((_, link)) => if link.key == key { Some(tail) } else { None },
        None => None,
    }
}

/// Puts the value last on the tape, behind those of the key at the place that came before it.
fn push_next<K, V, A: Allocator>(
    keys: &mut SlotList<K, KeyLink, A>,
    values: &mut Tape<V, ValueLink, A, PackedLink>,
    place: usize,
    value: V,
)
    requires begun { IsBegunAt keys.old values.old.list place }
    requires room { HasEndRoom values.old }
    ensures pushed { PushesNext keys.old keys.new values.old.list values.new.list place value }
    ensures room { KeepsTapeRoom values.old values.new }
{
    let link = keys.listed_link(place);
    let tail = last_value_of(values, place, link.tail);
    let last = push_value(values, value, place, tail);
    let link = match tail {
        Some(_) => KeyLink {
            tail: last,
            length: link.length + 1,
            ..link
        },
        None => new_link(link.hash, last),
    };
    set_link(keys, place, link);
}

/// Takes the values to the end of the other tape in the order of these places, each behind those of
/// its key that came before it.
pub(super) fn move_in_order<K, V, A: Allocator>(
    keys: &mut SlotList<K, KeyLink, A>,
    values: &mut Tape<V, ValueLink, A, PackedLink>,
    sorted: &mut Tape<V, ValueLink, A, PackedLink>,
    places: &[usize],
)
    requires chains { AreChained keys.old values.old.list }
    requires same { IsPermutation values.old.list.order places.now }
    requires no_value { IsEmpty sorted.old.list }
    requires no_hole { sorted.old.holes ≡ 0 }
    requires room { length values.old.list.order ≤ sorted.old.list.capacity }
    ensures resorted { AreResorted keys.old keys.new values.old.list sorted.new.list places.now }
    ensures room { KeepsTapeRoom sorted.old sorted.new }
{
    for index in 0..places.len() {
        let (value, link) = values.take_listed(places[index]);
        push_next(keys, sorted, link.key, value);
    }
}
