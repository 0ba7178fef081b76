//! The places of a list that an iterator has left, and its step from either end.
//!
//! What an iterator yields for a place is its own.
ghost use Rattle.std.specs.Prelude.{◌≡◌, ◌<◌, ◌-◌, ℕ, List, Some, IfNone, IfSome, IsSome};
ghost use Rattle.multimap_slots.specs.Lists.{IsIn};
ghost use Rattle.multimap_slots.specs.Slots.{IsSound};
ghost use Rattle.multimap_walks.specs.Along.{AreLeft, all_places, neighbour_of, places_left};
ghost use Rattle.multimap_walks.specs.Ends.{end_place};
ghost use Rattle.multimap_walks.specs.Walk.{TakesEnd};

use crate::End;
use crate::links::ChainEnds;
use multimap_slots::{LinkForm, SlotList, Tape};
use std::alloc::Allocator;

/// A list whose places have an order.
pub trait Ordered {
    ghost order: { Self → List ℕ };

    ghost is_sound: { Self → Type 0 };

    /// Returns all its places.
    ///
    /// # Complexity
    ///
    /// *O*(1).
    fn all(&self) -> ChainEnds
        ensures all { result ≡ all_places (order self.now) }
        ensures are_left { AreLeft (order self.now) result }
        ensures whole { places_left (order self.now) result ≡ order self.now }
        ensures sound { is_sound self.now };

    /// Returns the place that comes to an end when the one there is taken, any number if that is
    /// the last one, or `None` if none is left.
    ///
    /// # Complexity
    ///
    /// *O*(1).
    ///
    /// # Requires
    ///
    /// `left` are places of the list that follow each other.
    fn beyond(&self, end: End, left: ChainEnds) -> Option<usize>
        requires { AreLeft (order self.now) left }
        ensures none { IfNone result (left.length ≡ 0) }
        ensures some { IfSome result (λ _. 0 < left.length) }
        ensures beyond { IfSome result (λ place. 0 < left.length - 1
            → neighbour_of (order self.now) end (end_place end left) ≡ Some place) };
}

impl<T, L: Copy, A: Allocator> Ordered for SlotList<T, L, A> {
    ghost order = { λ s. s.order };

    ghost is_sound = { IsSound };

    fn all(&self) -> ChainEnds {
        ChainEnds::of_all(self.front_place(), self.back_place(), self.len())
    }

    // At the last place this reads a number that isn't used: that costs less than a test.
    #[inline(always)]
    fn beyond(&self, end: End, left: ChainEnds) -> Option<usize> {
        if left.length == 0 {
            return None;
        }
        match end {
            End::Front => Some(self.following_listed_place(left.first)),
            End::Back => Some(self.preceding_listed_place(left.last)),
        }
    }
}

impl<T, L: Copy, A: Allocator, F: LinkForm<L>> Ordered for Tape<T, L, A, F> {
    ghost order = { λ t. t.list.order };

    ghost is_sound = { λ t. IsSound t.list };

    fn all(&self) -> ChainEnds {
        ChainEnds::of_all(self.front_place(), self.back_place(), self.len())
    }

    // Whether two are left or more is tested first, since it is so at each step but the last.
    #[inline(always)]
    fn beyond(&self, end: End, left: ChainEnds) -> Option<usize> {
        if left.length > 1 {
            match end {
                End::Front => Some(self.following_listed_place(left.first)),
                End::Back => Some(self.preceding_listed_place(left.last)),
            }
        } else if left.length == 1 {
            Some(left.first)
        } else {
            None
        }
    }
}

/// Takes the place at an end from those that are left of a list, or returns `None` if none is left.
///
/// # Complexity
///
/// *O*(1).
///
/// # Requires
///
/// `left` are places of the list that follow each other.
#[inline(always)]
pub fn take<O: Ordered>(end: End, list: &O, left: &mut ChainEnds) -> Option<usize>
    requires { AreLeft (O.order list.now) left.old }
    ensures are_left { AreLeft (O.order list.now) left.new }
    ensures listed { IfSome result (λ place. IsIn place (O.order list.now)) }
    ensures taken { TakesEnd end (λ place. place) (places_left (O.order list.now) left.old)
        result (places_left (O.order list.now) left.new) }
{
    let beyond = list.beyond(end, *left)?;
    let place = left.place_at(end);
    *left = left.after(end, beyond);
    Some(place)
}
