//! The order of the list: both ends, and the neighbours of a place. None of these counts as a read.
ghost use Rattle.std.specs.Prelude.{◌≡◌, ◌↔◌, ℕ, Some, IsTrue, length};
ghost use Rattle.multimap_slots.specs.Lists.{IsIn, first_of, last_of, next_of, places_below, previous_of};

use super::SlotList;
use crate::in_order::{InOrder, Stored};
use std::alloc::Allocator;

impl<T, L: Copy, A: Allocator> SlotList<T, L, A> {
    /// Whether the items stand in order at the places from 0 on. It goes along the order until an item
    /// stands elsewhere, and reads no item.
    pub fn is_dense(&self) -> bool
        ensures { IsTrue result ↔ (self.now.order ≡ places_below (length self.now.order)) }
    {
        let len = self.len();
        let mut following = self.front_place();
        for place in 0..len {
            if following != Some(place) {
                return false;
            }
            following = self.next_listed_place(place);
        }
        true
    }

    /// The place of the first item, or None where there is none.
    pub fn front_place(&self) -> Option<usize>
        ensures { result ≡ first_of self.now.order }
    {
        self.order.front()
    }

    /// The place of the last item, or None where there is none.
    pub fn back_place(&self) -> Option<usize>
        ensures { result ≡ last_of self.now.order }
    {
        self.order.back()
    }

    /// The place behind `place`: none at the last item, and where no item of the list stands.
    pub fn next_place(&self, place: usize) -> Option<usize>
        ensures { result ≡ next_of self.now.order place }
    {
        if self.order.is_listed(place) {
            self.next_listed_place(place)
        } else {
            None
        }
    }

    /// The place behind `place`, where an item of the list must stand; none at the last one. It
    /// doesn't test the place.
    #[inline(always)]
    pub fn next_listed_place(&self, place: usize) -> Option<usize>
        requires { IsIn place self.now.order }
        ensures { result ≡ next_of self.now.order place }
    {
        self.order.next(place)
    }

    /// The place before `place`: none at the first item, and where no item of the list stands.
    pub fn previous_place(&self, place: usize) -> Option<usize>
        ensures { result ≡ previous_of self.now.order place }
    {
        if self.order.is_listed(place) {
            self.previous_listed_place(place)
        } else {
            None
        }
    }

    /// The place before `place`, where an item of the list must stand; none at the first one. It
    /// doesn't test the place.
    #[inline(always)]
    pub fn previous_listed_place(&self, place: usize) -> Option<usize>
        requires { IsIn place self.now.order }
        ensures { result ≡ previous_of self.now.order place }
    {
        self.order.previous(place)
    }

    /// The place behind `place`, where an item of the list must stand; any number at the last one. It
    /// tests nothing.
    #[inline(always)]
    pub fn following_listed_place(&self, place: usize) -> usize
        requires { IsIn place self.now.order }
        ensures { (p : ℕ) → next_of self.now.order place ≡ Some p → result ≡ p }
    {
        self.order.place_behind(place)
    }

    /// The place before `place`, where an item of the list must stand; any number at the first one.
    /// It tests nothing.
    #[inline(always)]
    pub fn preceding_listed_place(&self, place: usize) -> usize
        requires { IsIn place self.now.order }
        ensures { (p : ℕ) → previous_of self.now.order place ≡ Some p → result ≡ p }
    {
        self.order.place_before(place)
    }
}
