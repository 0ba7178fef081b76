//! Places that have left the order and aren't free.
ghost use Rattle.std.specs.Prelude.{◌≡◌, ◌≤◌, ◌↔◌, ℕ, List, length, Some, IsTrue, get_or, slice_get};
ghost use Rattle.multimap_slots.specs.Lists.{IsIn};

use super::Order;
use super::node::State;
use super::optional_place::OptionalPlace;
use super::write::{release, set_detached, unlink};
use std::alloc::Allocator;

impl<L: Copy, A: Allocator> Order<L, A> {
    ghost use Rattle.multimap_slots.specs.Private.ListLayout.{AreAllDetached, DetachesPlace, FreesDetached, IsDetached};
    ghost use Rattle.multimap_slots.specs.declared.order.node.State.TheVariants.{Detached, Free};

    /// How many places are detached.
    pub(crate) fn detached(&self) -> usize
        ensures detached { result ≡ self.now.detached }
        ensures among { result ≤ length self.now.states }
        ensures fits { length self.now.states ≤ self.now.capacity }
        ensures counted { (places : List ℕ) → AreAllDetached self.now places
            → length places ≤ result }
    {
        self.detached
    }

    /// Where no place is detached, no node is read.
    pub(crate) fn is_detached(&self, place: usize) -> bool
        ensures { IsTrue result ↔ (get_or self.now.states place Free ≡ Detached) }
    {
        if self.detached == 0 || place >= self.nodes.len() {
            return false;
        }
        match self.nodes[place].standing.state() {
            State::Detached => true,
            State::Listed | State::Free => false,
        }
    }

    pub(crate) fn detached_link(&self, place: usize) -> L
        requires { IsDetached self.now place }
        ensures { slice_get self.now.links place ≡ Some result }
    {
        self.nodes[place].link
    }

    /// Takes the place out of the order, and keeps it from being given.
    pub(crate) fn detach(&mut self, place: usize)
        requires { IsIn place self.old.order }
        ensures { DetachesPlace self.old self.new place }
    {
        unlink(&mut self.nodes, &mut self.front, &mut self.back, place);
        set_detached(&mut self.nodes, place);
        self.len -= 1;
        self.detached += 1;
    }

    /// Makes the detached place free, and the next to be given.
    pub(crate) fn free_detached(&mut self, place: usize)
        requires { IsDetached self.old place }
        ensures { FreesDetached self.old self.new place }
    {
        release(&mut self.nodes, place, self.free);
        self.free = OptionalPlace::some(place);
        self.detached -= 1;
    }
}
