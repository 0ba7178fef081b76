//! Items that have left the list and are kept in their slots until they are taken.
ghost use Rattle.std.specs.Prelude.{◌≡◌, Some};
ghost use Rattle.multimap_slots.specs.Lists.{IsIn};
ghost use Rattle.multimap_slots.specs.Slots.{IsDetached, HasDetached, Detaches, TakesDetached, link_at};
ghost use Rattle.multimap_slots.specs.Tapes.{KeepsCounts, Frees};

use super::Tape;
use crate::in_order::InOrder;
use crate::link_form::LinkForm;
use std::alloc::Allocator;

impl<T, L: Copy, A: Allocator, F: LinkForm<L>> Tape<T, L, A, F> {
    /// Takes the item at `place`, which must be in the list, out of it, which leaves a hole, and
    /// keeps it there with its link until [`Tape::take_detached`] takes it. The time is constant.
    ///
    /// An item that is never taken is dropped with the tape, by `clear`, when `move_down` takes
    /// another item to its slot, or by `cut_end`.
    pub fn detach(&mut self, place: usize)
        requires { IsIn place self.old.list.order }
        ensures detached { Detaches self.old.list self.new.list place }
        ensures freed { Frees self.old self.new }
        ensures capacity { self.new.list.capacity ≡ self.old.list.capacity }
    {
        // The length tells the proof that no hole is counted below 0.
        let _len = self.runs.len();
        self.runs.remove(place);
        self.freed.count_one();
    }

    /// Detaches the item at `place` as [`Tape::detach`] does, and returns its link. The item is not
    /// read. The time is constant.
    #[inline(always)]
    pub fn detach_linked(&mut self, place: usize) -> L
        requires { IsIn place self.old.list.order }
        ensures link { link_at self.old.list place ≡ Some result }
        ensures detached { Detaches self.old.list self.new.list place }
        ensures freed { Frees self.old self.new }
        ensures capacity { self.new.list.capacity ≡ self.old.list.capacity }
    {
        let link = self.listed_link(place);
        self.detach(place);
        link
    }

    /// The item that was detached at `place`, with its link. This is no counted read. The time is
    /// constant.
    pub fn get_detached(&self, place: usize) -> (&T, L)
        requires { IsDetached self.now.list place }
        ensures { HasDetached self.now.list place result.0.now result.1 }
    {
        match &self.items[place] {
            Some(item) => (item, self.links[place].link()),
            None => unreachable!(),
        }
    }

    /// Takes the item that was detached at `place`. The slot was counted as freed when the item was
    /// detached, and stays a hole. The time is constant.
    pub fn take_detached(&mut self, place: usize) -> T
        requires { IsDetached self.old.list place }
        ensures taken { TakesDetached self.old.list self.new.list place result }
        ensures counts { KeepsCounts self.old self.new }
        ensures capacity { self.new.list.capacity ≡ self.old.list.capacity }
    {
        let (item, _) = self.take_detached_linked(place);
        item
    }

    /// Takes the item that was detached at `place`, and returns it with its link. The time is
    /// constant.
    #[inline(always)]
    pub fn take_detached_linked(&mut self, place: usize) -> (T, L)
        requires { IsDetached self.old.list place }
        ensures taken { TakesDetached self.old.list self.new.list place result.0 }
        ensures link { link_at self.old.list place ≡ Some result.1 }
        ensures counts { KeepsCounts self.old self.new }
        ensures capacity { self.new.list.capacity ≡ self.old.list.capacity }
    {
        match self.items[place].take() {
            Some(item) => (item, self.links[place].link()),
            None => unreachable!(),
        }
    }
}
