//! Items that have left the order and stay at their places.
ghost use Rattle.std.specs.Prelude.{◌≡◌, ◌+◌};
ghost use Rattle.multimap_slots.specs.Lists.{IsIn};
ghost use Rattle.multimap_slots.specs.Slots.{IsDetached, HasDetached, Detaches, TakesDetached};

use super::SlotList;
use std::alloc::Allocator;

impl<T, L: Copy, A: Allocator> SlotList<T, L, A> {
    /// Takes the item at `place` out of the order, and keeps it there with its link. An item of the
    /// list must be there.
    ///
    /// No other item comes to the place until `take_detached` or `clear` frees it. So it counts
    /// neither in the length nor in the capacity, and the calls on items of the list find none
    /// there.
    pub fn detach(&mut self, place: usize)
        requires { IsIn place self.old.order }
        ensures detached { Detaches self.old self.new place }
        ensures capacity { self.new.capacity + 1 ≡ self.old.capacity }
    {
        self.order.detach(place);
    }

    /// The detached item at `place` with its link. One must be there. It isn't a counted read.
    pub fn get_detached(&self, place: usize) -> (&T, L)
        requires { IsDetached self.now place }
        ensures { HasDetached self.now place result.0.now result.1 }
    {
        match &self.items[place] {
            Some(item) => (item, self.order.detached_link(place)),
            None => unreachable!(),
        }
    }

    /// Takes the detached item at `place` out of the list and frees the place, which counts in the
    /// capacity again. A detached item must be there.
    pub fn take_detached(&mut self, place: usize) -> T
        requires { IsDetached self.old place }
        ensures taken { TakesDetached self.old self.new place result }
        ensures capacity { self.new.capacity ≡ self.old.capacity + 1 }
    {
        self.order.free_detached(place);
        match self.items[place].take() {
            Some(item) => item,
            None => unreachable!(),
        }
    }
}
