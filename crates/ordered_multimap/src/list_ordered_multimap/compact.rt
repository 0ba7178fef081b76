//! Compaction: values go down to the holes before them, and the links to them are written anew.
ghost use Rattle.std.specs.Prelude.{◌≡◌, ◌≤◌, ◌<◌, ℕ, length, Some, IsSome};
ghost use Rattle.multimap_slots.specs.Lists.{IsIn, Rises};
ghost use Rattle.multimap_slots.specs.Slots.{link_at};
ghost use Rattle.multimap_slots.specs.Tapes.{CountsMove};
ghost use Rattle.ordered_multimap.specs.Private.Relocations.{AreChained, AreDense, Compacts, FollowsDense, KeepsCapacities, RelinksKey, Relocates, relocated, relocated_key};

mod lowering;

use super::links::{link_of, set_next, set_previous};
use lowering::lower_all;
use multimap_slots::{SlotList, Tape};
use multimap_walks::{KeyLink, PackedLink, ValueLink};
use std::alloc::Allocator;

/// The other place, if the place is the one that has gone.
fn new_place(place: usize, from: usize, to: usize) -> usize
    ensures { result ≡ relocated from to place }
{
    if place == from { to } else { place }
}

/// Makes the key's link name `to` where it named `from`.
fn relink_key<K, A: Allocator>(
    keys: &mut SlotList<K, KeyLink, A>,
    place: usize,
    from: usize,
    to: usize,
)
    requires { IsIn place keys.old.order }
    ensures { RelinksKey keys.old keys.new place from to }
{
    let link = keys.listed_link_mut(place);
    link.head = new_place(link.head, from, to);
    link.tail = new_place(link.tail, from, to);
}

/// Mends the link of the key that the value's link names. Where the value has neighbours on both
/// sides, the key's link doesn't name it, and isn't read.
fn relink_ends<K, A: Allocator>(
    keys: &mut SlotList<K, KeyLink, A>,
    link: ValueLink,
    from: usize,
    to: usize,
)
    requires listed { IsIn link.key keys.old.order }
    requires between { IsSome link.previous → IsSome link.next
        → (l : KeyLink) → link_at keys.old link.key ≡ Some l
        → relocated_key (relocated from to) l ≡ l }
    ensures { RelinksKey keys.old keys.new link.key from to }
{
    if link.previous.is_some() && link.next.is_some() {
        return;
    }
    relink_key(keys, link.key, from, to);
}

/// Takes the value at `from` down to the hole at `to`, and writes the links to its place anew.
fn move_value<K, V: Drop, A: Allocator>(
    keys: &mut SlotList<K, KeyLink, A>,
    values: &mut Tape<V, ValueLink, A, PackedLink>,
    from: usize,
    to: usize,
)
    requires chains { AreChained keys.old values.old.list }
    requires listed { IsIn from values.old.list.order }
    requires down { to < from }
    requires holes { (q : ℕ) → to ≤ q → q < from → ¬ IsIn q values.old.list.order }
    ensures relocates { Relocates (relocated from to) keys.old keys.new
        values.old.list values.new.list }
    ensures counts { CountsMove values.old values.new }
    ensures capacities { KeepsCapacities keys.old keys.new values.old values.new }
{
    let link = link_of(values, from);
    values.move_down(from, to);
    set_next(values, link.previous, Some(to));
    set_previous(values, link.next, Some(to));
    relink_ends(keys, link, from, to);
}

/// The place of the value behind the first `dense` ones, which stand at the lowest places.
#[inline(always)]
fn place_behind<V, A: Allocator>(values: &Tape<V, ValueLink, A, PackedLink>, dense: usize) -> usize
    requires rises { Rises values.now.list.order }
    requires dense { AreDense values.now.list.order dense }
    requires more { dense < length values.now.list.order }
    ensures { FollowsDense values.now.list.order dense result }
{
    if dense == 0 {
        values.front_place().unwrap_or(0)
    } else {
        values.following_listed_place(dense - 1)
    }
}

/// Takes each value down to the lowest hole before it, and gives up the holes.
fn close_holes<K, V: Drop, A: Allocator>(
    keys: &mut SlotList<K, KeyLink, A>,
    values: &mut Tape<V, ValueLink, A, PackedLink>,
)
    requires chains { AreChained keys.old values.old.list }
    ensures { Compacts keys.old keys.new values.old values.new }
{
    for to in 0..values.len() {
        // The length tells the proof that the places rise.
        let _len = values.len();
        let from = place_behind(values, to);
        if to < from {
            move_value(keys, values, from, to);
        }
    }
    values.cut_end();
}

/// Takes all values down to the first places, and gives up the holes. Where all holes stand before
/// the first value, each value goes down by one distance, and no value looks at its neighbours.
#[inline(never)]
pub(super) fn compact<K, V: Drop, A: Allocator>(
    keys: &mut SlotList<K, KeyLink, A>,
    values: &mut Tape<V, ValueLink, A, PackedLink>,
)
    requires chains { AreChained keys.old values.old.list }
    ensures { Compacts keys.old keys.new values.old values.new }
{
    let len = values.len();
    let by = values.front_place().unwrap_or(0);
    if 0 < by && values.push_place() - by == len {
        lower_all(keys, values, by);
    } else {
        close_holes(keys, values);
    }
}
