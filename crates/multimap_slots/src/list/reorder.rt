//! The order of the list as a whole.
ghost use Rattle.std.specs.Prelude.{◌≡◌, IsPermutation};
ghost use Rattle.multimap_slots.specs.Slots.{in_order};

use super::SlotList;
use std::alloc::Allocator;

impl<T, L: Copy, A: Allocator> SlotList<T, L, A> {
    /// Puts the items of the list in the order of `places`, which must be the places of the list,
    /// each once. No item changes its place, and no memory is taken. The time is linear in the
    /// length.
    pub fn set_order(&mut self, places: &[usize])
        requires { IsPermutation self.old.order places.now }
        ensures { self.new ≡ in_order self.old places.now }
    {
        self.order.set_order(places);
    }
}
