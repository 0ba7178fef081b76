//! Items that move to an end of the list.
ghost use Rattle.std.specs.Prelude.{◌≡◌};
ghost use Rattle.multimap_slots.specs.Lists.{IsIn, moved_last, moved_first};

use super::SlotList;
use std::alloc::Allocator;

impl<T, L: Copy, A: Allocator> SlotList<T, L, A> {
    /// Puts the item at `place`, which must be in the list, last. It keeps its place and its link,
    /// and the others their order.
    pub fn move_to_back(&mut self, place: usize)
        requires { IsIn place self.old.order }
        ensures { self.new ≡ record self.old { order = moved_last self.old.order place } }
    {
        self.order.move_to_back(place);
    }

    /// Puts the item at `place`, which must be in the list, first. It keeps its place and its link,
    /// and the others their order.
    pub fn move_to_front(&mut self, place: usize)
        requires { IsIn place self.old.order }
        ensures { self.new ≡ record self.old { order = moved_first self.old.order place } }
    {
        self.order.move_to_front(place);
    }
}
