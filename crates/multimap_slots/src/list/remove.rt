//! Items that leave the list.
ghost use Rattle.std.specs.Prelude.{◌≡◌, ◌+◌, ◌≤◌, ℕ, List, Some, length, IfSome, IfNone};
ghost use Rattle.multimap_slots.specs.Lists.{IsIn};
ghost use Rattle.multimap_slots.specs.Slots.{AreDetached, ClearsListed, IsEmpty, Removes, link_at};

use super::SlotList;
use crate::in_order::{InOrder, Linked, Stored};
use std::alloc::Allocator;

impl<T, L: Copy, A: Allocator> SlotList<T, L, A> {
    /// Takes the item at `place` out of the list and frees the place. Where none is, nothing
    /// changes.
    pub fn remove(&mut self, place: usize) -> Option<T>
        ensures removed { IfSome result (Removes self.old self.new place) }
        ensures absent { IfNone result (¬ IsIn place self.old.order) }
        ensures unchanged { IfNone result (self.new ≡ self.old) }
    {
        if !self.order.is_listed(place) {
            return None;
        }
        let (item, _) = self.take_listed(place);
        Some(item)
    }

    /// Takes the item at `place`, which must be in the list, out of it, frees the place, and
    /// returns the item with its link. Unlike `remove` it does not test the place.
    #[inline(always)]
    pub fn take_listed(&mut self, place: usize) -> (T, L)
        requires { IsIn place self.old.order }
        ensures removed { Removes self.old self.new place result.0 }
        ensures link { link_at self.old place ≡ Some result.1 }
    {
        let link = self.order.link(place);
        self.order.remove(place);
        match self.items[place].take() {
            Some(item) => (item, link),
            None => unreachable!(),
        }
    }

    /// Drops every item and frees every place, detached ones too, which count in the capacity
    /// again. It goes over the slots that were used since the last `clear`, and not over the whole
    /// capacity.
    pub fn clear(&mut self)
    where
        T: Drop,
        ensures empty { IsEmpty self.new }
        ensures capacity { self.old.capacity ≤ self.new.capacity }
        ensures detached { (places : List ℕ) → AreDetached self.old places
            → self.old.capacity + length places ≤ self.new.capacity }
    {
        // Both numbers tell the proof how many places are detached.
        let (_len, _detached) = (self.order.len(), self.order.detached());
        self.items.clear();
        self.order.clear();
    }

    /// Drops every item of the list and frees its place. Detached ones stay at their places, and so
    /// the capacity is as it was.
    ///
    /// Where none is detached, it goes over the slots that were used, as [`SlotList::clear`] does,
    /// and otherwise over the items of the list.
    pub fn clear_listed(&mut self)
    where
        T: Drop,
        ensures { ClearsListed self.old self.new }
    {
        // The length tells the proof that no place is detached where their number is 0.
        let _len = self.order.len();
        if self.order.detached() == 0 {
            self.items.clear();
            self.order.clear();
            return;
        }
        while let Some(place) = self.front_place() {
            drop(self.take_listed(place));
        }
    }
}
