//! Places that move to an end of the order.
ghost use Rattle.std.specs.Prelude.{◌≡◌};
ghost use Rattle.multimap_slots.specs.Lists.{IsIn, moved_last, moved_first};

use super::Order;
use super::optional_place::OptionalPlace;
use super::write::{set_next, set_previous, unlink};
use std::alloc::Allocator;

impl<L: Copy, A: Allocator> Order<L, A> {
    /// Lists the place last.
    pub(crate) fn move_to_back(&mut self, place: usize)
        requires { IsIn place self.old.order }
        ensures { self.new ≡ record self.old { order = moved_last self.old.order place } }
    {
        unlink(&mut self.nodes, &mut self.front, &mut self.back, place);
        let last = self.back;
        let end = OptionalPlace::some(place);
        set_next(&mut self.nodes, &mut self.front, last, end);
        set_previous(&mut self.nodes, &mut self.back, end, last);
        set_next(&mut self.nodes, &mut self.front, end, OptionalPlace::none());
        self.back = end;
    }

    /// Lists the place first.
    pub(crate) fn move_to_front(&mut self, place: usize)
        requires { IsIn place self.old.order }
        ensures { self.new ≡ record self.old { order = moved_first self.old.order place } }
    {
        unlink(&mut self.nodes, &mut self.front, &mut self.back, place);
        let first = self.front;
        let end = OptionalPlace::some(place);
        set_previous(&mut self.nodes, &mut self.back, first, end);
        set_next(&mut self.nodes, &mut self.front, end, first);
        set_previous(&mut self.nodes, &mut self.back, end, OptionalPlace::none());
        self.front = end;
    }
}
