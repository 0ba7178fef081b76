//! Room, and items that come into the list.
ghost use Rattle.std.specs.Prelude.{◌≡◌, ◌<◌, ◌≤◌, ◌+◌, length, IfOk, IfErr, OnOk, OnErr, IsOk, Some, None, get_or, vec_capacity};
ghost use Rattle.multimap_slots.specs.Slots.{DoublesIfGrown, HasNoHole, HasRoomFor, KeepsItems, PushesBack};
ghost use Rattle.multimap_slots.specs.Private.ListLayout.{GrowsFor, put};
ghost use Rattle.multimap_slots.specs.Private.Vectors.{Rewrites};

use super::SlotList;
use crate::grow::grow_to;
use crate::in_order::Stored;
use std::alloc::{AllocError, Allocator};
use std::mem;

/// The slots that the first growth gives at least, so that a list of few items asks for memory once.
/// From then on the slots double.
const FIRST_SLOTS: usize = 12;

/// Writes the item at an empty slot, or right behind the slots.
fn put_item<T, A: Allocator>(items: &mut Vec<Option<T>, A>, place: usize, item: T)
    requires within { place ≤ length items.old.items }
    requires empty { get_or items.old.items place None ≡ None }
    requires room { place ≡ length items.old.items → place < vec_capacity items.old }
    ensures { Rewrites items.old items.new (λ old new. new ≡ put old place (Some item)) }
{
    if place == items.len() {
        items.push_reserved(Some(item));
        return;
    }
    // An empty slot holds nothing that would have to be let go.
    match mem::replace(&mut items[place], Some(item)) {
        None => {}
        Some(_) => unreachable!(),
    }
}

impl<T, L: Copy, A: Allocator> SlotList<T, L, A> {
    /// Makes room for `additional` more items, so that this many calls of `push_back` take no
    /// memory.
    ///
    /// It is refused when out of memory, or for a number of items past the greatest `usize`. Where
    /// the list grows, its items and links are moved to new memory, and keep their places.
    pub fn reserve(&mut self, additional: usize) -> Result<(), AllocError>
    where
        A: Copy,
        ensures room { OnOk result (HasRoomFor self.new additional) }
        ensures unchanged { KeepsItems self.old self.new }

        // Where there is room already, nothing grows and nothing is refused.
        ensures succeeds { HasRoomFor self.old additional → IsOk result }
        ensures had_room { HasRoomFor self.old additional → self.new.capacity ≡ self.old.capacity }
        ensures refused { OnErr result (self.new.capacity ≡ self.old.capacity) }
        ensures capacity { self.old.capacity ≤ self.new.capacity }

        // A growth that happens at least doubles, so that n items that come last cost n moves.
        ensures doubles { DoublesIfGrown self.old.capacity self.new.capacity }
    {
        if self.capacity() - self.len() >= additional {
            return Ok(());
        }
        self.grow(additional)
    }

    /// Makes the room that is missing, or more than that, in both vectors: at least twice the room
    /// that there was. The free places count as room. The smaller vector grows last, so that the room
    /// stays as it was where memory is refused.
    #[inline(never)]
    fn grow(&mut self, additional: usize) -> Result<(), AllocError>
    where
        A: Copy,
        requires { self.old.capacity < length self.old.order + additional }
        ensures { GrowsFor additional self.old self.new result }
    {
        let Some(doubled) = self.capacity().checked_mul(2) else {
            return Err(AllocError);
        };
        let missing = additional.max(doubled - self.len()) - self.order.vacant();
        let Some(slots) = self.items.len().checked_add(missing) else {
            return Err(AllocError);
        };
        let slots = slots.max(FIRST_SLOTS);
        if self.items.capacity() <= self.order.capacity() {
            self.order.grow_to(slots)?;
            grow_to(&mut self.items, slots)
        } else {
            grow_to(&mut self.items, slots)?;
            self.order.grow_to(slots)
        }
    }

    /// Puts the item last, with its link, and returns its place. Where memory is refused, it hands
    /// the item back. The time is constant but where the list grows, as `reserve` says.
    pub fn push_back(&mut self, item: T, link: L) -> Result<usize, T>
    where
        A: Copy,
        ensures pushed { IfOk result (λ place. PushesBack self.old self.new place item link) }
        ensures unchanged { OnErr result (KeepsItems self.old self.new) }
        ensures refused { IfErr result (λ returned. returned ≡ item) }

        // Where there is room, nothing grows and nothing is refused.
        ensures succeeds { HasRoomFor self.old 1 → IsOk result }
        ensures had_room { HasRoomFor self.old 1 → self.new.capacity ≡ self.old.capacity }
        ensures capacity { self.old.capacity ≤ self.new.capacity }
        ensures doubles { DoublesIfGrown self.old.capacity self.new.capacity }
    {
        if self.reserve(1).is_err() {
            return Err(item);
        }
        Ok(self.push_reserved(item, link))
    }

    /// Puts the item last, with its link, where there is room, and returns its place. It takes no
    /// memory. The time is constant.
    #[inline(always)]
    pub fn push_reserved(&mut self, item: T, link: L) -> usize
        requires { HasRoomFor self.old 1 }
        ensures pushed { PushesBack self.old self.new result item link }
        ensures capacity { self.new.capacity ≡ self.old.capacity }

        // Where no slot is a hole, the item comes to a new one behind them.
        ensures behind { HasNoHole self.old → result ≡ length self.old.order }
        ensures no_hole { HasNoHole self.old → HasNoHole self.new }
    {
        let place = self.order.push_back(link);
        put_item(&mut self.items, place, item);
        place
    }
}
