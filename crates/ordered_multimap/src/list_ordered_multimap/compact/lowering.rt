//! A compaction where all holes stand before the first value: each value goes down by one distance.
ghost use Rattle.std.specs.Prelude.{◌≡◌, ◌≤◌, ◌<◌, ◌+◌, ℕ, length, Some, IfSome};
ghost use Rattle.multimap_slots.specs.Lists.{IsIn};
ghost use Rattle.multimap_slots.specs.Slots.{link_at};
ghost use Rattle.multimap_slots.specs.Tapes.{CountsMove, KeepsCapacity};
ghost use Rattle.ordered_multimap.specs.Private.Relocations.{AreChained, Compacts, WritesLink};
ghost use Rattle.ordered_multimap.specs.Private.Lowered.{LowersFirst, LowersKey, LowersKeys, LowersValue, NamesHigh, NamesHighEnds, lowered_next, lowered_previous, places_on};

use super::super::links::{link_of, set_next, set_previous};
use multimap_slots::{SlotList, Tape};
use multimap_walks::{KeyLink, PackedLink, ValueLink};
use std::alloc::Allocator;

/// Lowers the place of the value before it in the link of the value at the place.
#[inline(always)]
fn lower_previous<V, A: Allocator>(
    values: &mut Tape<V, ValueLink, A, PackedLink>,
    place: usize,
    by: usize,
)
    requires listed { IsIn place values.old.list.order }
    requires high { (l : ValueLink) → link_at values.old.list place ≡ Some l
        → IfSome l.previous (λ p. by ≤ p) }
    ensures { WritesLink values.old values.new (Some place) (lowered_previous by) }
{
    if let Some(previous) = link_of(values, place).previous {
        set_previous(values, Some(place), Some(previous - by));
    }
}

/// Lowers the place of the value behind it in the link of the value at the place.
#[inline(always)]
fn lower_next<V, A: Allocator>(
    values: &mut Tape<V, ValueLink, A, PackedLink>,
    place: usize,
    by: usize,
)
    requires listed { IsIn place values.old.list.order }
    requires high { (l : ValueLink) → link_at values.old.list place ≡ Some l
        → IfSome l.next (λ p. by ≤ p) }
    ensures { WritesLink values.old values.new (Some place) (lowered_next by) }
{
    if let Some(next) = link_of(values, place).next {
        set_next(values, Some(place), Some(next - by));
    }
}

/// Takes one value down to the place, and lowers the places that its link names. The links that
/// name it are left.
#[inline(always)]
fn lower_value<V: Drop, A: Allocator>(
    values: &mut Tape<V, ValueLink, A, PackedLink>,
    by: usize,
    to: usize,
)
    requires listed { IsIn (by + to) values.old.list.order }
    requires down { 0 < by }
    requires holes { (q : ℕ) → to ≤ q → q < by + to → ¬ IsIn q values.old.list.order }
    requires high { (l : ValueLink) → link_at values.old.list (by + to) ≡ Some l → NamesHigh by l }
    ensures lowers { LowersValue by values.old.list values.new.list to }
    ensures counts { CountsMove values.old values.new }
    ensures capacity { KeepsCapacity values.old values.new }
{
    // The length tells the proof that the list is sound, and the end that the places fit.
    let _len = values.len();
    let _end = values.push_place();
    values.move_down(by + to, to);
    lower_previous(values, to, by);
    lower_next(values, to, by);
}

/// Takes all values down, each with its link.
fn lower_values<V: Drop, A: Allocator>(values: &mut Tape<V, ValueLink, A, PackedLink>, by: usize)
    requires down { 0 < by }
    requires row { values.old.list.order ≡ places_on by (length values.old.list.order) }
    requires high { (q : ℕ) (l : ValueLink) → IsIn q values.old.list.order
        → link_at values.old.list q ≡ Some l → NamesHigh by l }
    ensures lowers { LowersFirst by values.old.list values.new.list
        (length values.old.list.order) }
    ensures moved { values.new.moved ≡ values.old.moved + length values.old.list.order }
    ensures freed { values.new.freed ≡ values.old.freed }
    ensures holes { values.new.holes ≡ values.old.holes }
    ensures capacity { KeepsCapacity values.old values.new }
{
    for to in 0..values.len() {
        lower_value(values, by, to);
    }
}

/// Lowers the places that the links of the keys name.
fn lower_keys<K, A: Allocator>(keys: &mut SlotList<K, KeyLink, A>, by: usize)
    requires high { (q : ℕ) (l : KeyLink) → IsIn q keys.old.order → link_at keys.old q ≡ Some l
        → NamesHighEnds by l }
    ensures { LowersKeys by keys.old keys.new }
{
    // The length tells the proof that the list is sound.
    let _len = keys.len();
    let mut following = keys.front_place();
    while let Some(place) = following {
        lower_key(keys, place, by);
        following = keys.next_listed_place(place);
    }
}

/// Lowers the places that the link of the key at the place names.
#[inline(always)]
fn lower_key<K, A: Allocator>(keys: &mut SlotList<K, KeyLink, A>, place: usize, by: usize)
    requires listed { IsIn place keys.old.order }
    requires high { (l : KeyLink) → link_at keys.old place ≡ Some l → NamesHighEnds by l }
    ensures { LowersKey by keys.old keys.new place }
{
    let link = keys.listed_link_mut(place);
    link.head -= by;
    link.tail -= by;
}

/// Takes all values down to the first places, which are so much lower, and gives up the holes.
pub(super) fn lower_all<K, V: Drop, A: Allocator>(
    keys: &mut SlotList<K, KeyLink, A>,
    values: &mut Tape<V, ValueLink, A, PackedLink>,
    by: usize,
)
    requires chains { AreChained keys.old values.old.list }
    requires down { 0 < by }
    requires row { values.old.list.order ≡ places_on by (length values.old.list.order) }
    ensures { Compacts keys.old keys.new values.old values.new }
{
    lower_values(values, by);
    values.cut_end();
    lower_keys(keys, by);
}
